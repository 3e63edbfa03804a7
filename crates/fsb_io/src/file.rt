//! Real files and standard output. They tell no content and no name: what a system call does is not
//! known to a proof. This is the trusted edge. One read and one write are proved for any reader and writer.
ghost use Rattle.std.specs.Prelude.{◌≡◌, ◌≤◌, ◌<◌, ℕ, [], None, false, length, IfOk, IsErr, OnErr};
ghost use Rattle.std.specs.Io.KnownBytes.{ReadConsumes, WriteAppends};
ghost use Rattle.std.specs.Result.{is_err};
ghost use Rattle.fsb_io.specs.Faults.{HasCause, faults_after};
ghost use Rattle.fsb_io.specs.FileTransfers.{IsFileOpen, ReadsFrom, WritesTo};

use crate::place::{Destination, place_of};
use crate::{Failed, Sink, Source};
use std::fs::{Files, OpenFile};
use std::io::{ErrorKind, Print, Read, Write};
use std::marker::Model;
use std::{fs, io};

/// How often an interrupted call is tried again.
pub(crate) const TRIES: u32 = 1_000;

/// Reads the file that it was begun under. Contracts see its count of faults.
#[derive(Drop)]
pub struct FileSource<'a, R: Files> {
    files: &'a R,
    file: Option<R::File>,
    faults: u64,
}

impl<'a, R: Files> Model for FileSource<'a, R> {
    ghost use Rattle.std.specs.Prelude.{ℕ};

    ghost Value = { ℕ };

    ghost view = { λ s. s.faults };
}

impl<'a, R: Files> FileSource<'a, R> {
    /// Not begun: a `read` is a fault until `begin` answers Ok.
    pub fn new(files: &'a R) -> FileSource<'a, R>
        ensures { result ≡ 0 }
    {
        FileSource {
            files,
            file: None,
            faults: 0,
        }
    }

    /// How many of its calls failed.
    pub fn faults(&self) -> u64
        ensures { result ≡ self.now }
    {
        self.faults
    }
}

impl<R: Files> Source for FileSource<'_, R> {
    ghost tells = { false };

    ghost holds = { λ _. [] };

    ghost left = { λ _. [] };

    ghost begun_as = { λ _. None };

    ghost faults = { λ faults. faults };

    fn begin(&mut self, name: &str) -> Result<(), Failed>
        requires { length name.now ≤ 4096 }
        ensures counted { self.new ≡ faults_after (is_err result) self.old }
        ensures cause { HasCause self.old self.new result }
    {
        match open_tried(self.files, name) {
            Ok(file) => {
                self.file = Some(file);
                Ok(())
            }
            Err(failed) => {
                self.faults = self.faults.saturating_add(1);
                Err(failed)
            }
        }
    }

    fn read(&mut self, buf: &mut [u8]) -> Result<usize, Failed>
        ensures counted { self.new ≡ faults_after (is_err result) self.old }
        ensures within { IfOk result (λ n. n ≤ length buf.new) }
        ensures cause { HasCause self.old self.new result }
    {
        let answer = read_begun(&mut self.file, buf);
        if answer.is_err() {
            self.faults = self.faults.saturating_add(1);
        }
        answer
    }
}

/// The name of what standard output goes to.
const OUTPUT: &str = "/proc/self/fd/1";

/// Makes the file that it is begun under, or empties it, and writes it. Under a name of what standard
/// output goes to it empties nothing, and writes to standard output. Contracts see its count of faults.
#[derive(Drop)]
pub struct FileSink<'a, R: Files + Print> {
    rt: &'a R,
    spared: Option<&'a str>,
    place: Destination<R::File>,
    faults: u64,
}

impl<'a, R: Files + Print> Model for FileSink<'a, R> {
    ghost use Rattle.std.specs.Prelude.{ℕ};

    ghost Value = { ℕ };

    ghost view = { λ s. s.faults };
}

impl<'a, R: Files + Print> FileSink<'a, R> {
    /// Not begun: a `write` is a fault until `begin` answers Ok. A `begin` under a name of the file
    /// `spared` is a fault.
    pub fn new(rt: &'a R, spared: Option<&'a str>) -> FileSink<'a, R>
        ensures { result ≡ 0 }
    {
        FileSink {
            rt,
            spared,
            place: Destination::Nowhere,
            faults: 0,
        }
    }

    /// How many of its calls failed.
    pub fn faults(&self) -> u64
        ensures { result ≡ self.now }
    {
        self.faults
    }

    /// Has the system store what a regular file was given, and waits for it. `Failed` means that the
    /// system refused: a full quota or a network's file system may say so here for the first time, and
    /// then what the file holds is not known. Nothing is asked of a terminal, of a pipe, of standard
    /// output, or where nothing was begun.
    pub fn store(&mut self) -> Result<(), Failed>
        ensures counted { self.new ≡ faults_after (is_err result) self.old }
        ensures cause { HasCause self.old self.new result }
    {
        let answer = store_begun(&self.place);
        if answer.is_err() {
            self.faults = self.faults.saturating_add(1);
        }
        answer
    }
}

impl<R: Files + Print> Sink for FileSink<'_, R> {
    ghost tells = { false };

    ghost holds = { λ _. [] };

    ghost begun_as = { λ _. None };

    ghost faults = { λ faults. faults };

    fn begin(&mut self, name: &str) -> Result<(), Failed>
        requires { length name.now ≤ 4096 }
        ensures counted { self.new ≡ faults_after (is_err result) self.old }
        ensures cause { HasCause self.old self.new result }
    {
        match place_of(self.rt, OUTPUT, self.spared, name) {
            Ok(place) => {
                self.place = place;
                Ok(())
            }
            Err(failed) => {
                self.faults = self.faults.saturating_add(1);
                Err(failed)
            }
        }
    }

    fn write(&mut self, piece: &[u8]) -> Result<usize, Failed>
        ensures counted { self.new ≡ faults_after (is_err result) self.old }
        ensures within { IfOk result (λ n. n ≤ length piece.now) }
        ensures some { 0 < length piece.now → IfOk result (λ n. 0 < n) }
        ensures cause { HasCause self.old self.new result }
    {
        let answer = write_begun(&mut io::writer(self.rt), &mut self.place, piece);
        if answer.is_err() {
            self.faults = self.faults.saturating_add(1);
        }
        answer
    }
}

/// Writes to standard output, which has no name: every `begin` is a fault. Contracts see its count of
/// faults.
#[derive(Drop)]
pub struct StdoutSink<'a, P: Print> {
    to: &'a P,
    faults: u64,
}

impl<'a, P: Print> Model for StdoutSink<'a, P> {
    ghost use Rattle.std.specs.Prelude.{ℕ};

    ghost Value = { ℕ };

    ghost view = { λ s. s.faults };
}

impl<'a, P: Print> StdoutSink<'a, P> {
    /// Ready to write.
    pub fn new(to: &'a P) -> StdoutSink<'a, P>
        ensures { result ≡ 0 }
    {
        StdoutSink { to, faults: 0 }
    }

    /// How many of its calls failed.
    pub fn faults(&self) -> u64
        ensures { result ≡ self.now }
    {
        self.faults
    }
}

impl<P: Print> Sink for StdoutSink<'_, P> {
    ghost tells = { false };

    ghost holds = { λ _. [] };

    ghost begun_as = { λ _. None };

    ghost faults = { λ faults. faults };

    fn begin(&mut self, _name: &str) -> Result<(), Failed>
        requires { length _name.now ≤ 4096 }
        ensures failed { IsErr result }
        ensures counted { self.new ≡ faults_after (is_err result) self.old }
        ensures cause { HasCause self.old self.new result }
    {
        self.faults = self.faults.saturating_add(1);
        Err(Failed)
    }

    fn write(&mut self, piece: &[u8]) -> Result<usize, Failed>
        ensures counted { self.new ≡ faults_after (is_err result) self.old }
        ensures within { IfOk result (λ n. n ≤ length piece.now) }
        ensures some { 0 < length piece.now → IfOk result (λ n. 0 < n) }
        ensures cause { HasCause self.old self.new result }
    {
        let answer = write_tried(&mut io::writer(self.to), piece);
        if answer.is_err() {
            self.faults = self.faults.saturating_add(1);
        }
        answer
    }
}

/// Opens a file to read. An interrupted call is tried again.
fn open_tried<R: Files>(files: &R, name: &str) -> Result<R::File, Failed> {
    for _ in 0..=TRIES {
        match fs::open(files, name) {
            Ok(file) => return Ok(file),
            Err(error) => {
                if error.kind() != ErrorKind::Interrupted {
                    return Err(Failed);
                }
            }
        }
    }
    Err(Failed)
}

/// One read of the file that was begun. Where none was, it fails.
fn read_begun<F: Read>(file: &mut Option<F>, buf: &mut [u8]) -> Result<usize, Failed>
    ensures within { IfOk result (λ n. n ≤ length buf.new) }
    ensures reads { ReadsFrom F.remaining file.old file.new result buf.new }
{
    match file {
        Some(file) => read_tried(file, buf),
        None => Err(Failed),
    }
}

/// One write to where the dump goes. Where it was not begun, it fails.
fn write_begun<O: Write, F: Write + Drop>(
    output: &mut O,
    place: &mut Destination<F>,
    piece: &[u8],
) -> Result<usize, Failed>
    ensures within { IfOk result (λ n. n ≤ length piece.now) }
    ensures some { 0 < length piece.now → IfOk result (λ n. 0 < n) }
    ensures writes { WritesTo O.contents F.contents output.old output.new place.old place.new result
        piece.now }
{
    match place {
        Destination::Nowhere => Err(Failed),
        Destination::Output => write_tried(output, piece),
        Destination::File(file) => write_tried(file, piece),
    }
}

/// Stores what the open file was given, where there is one.
fn store_begun<F: OpenFile + Drop>(place: &Destination<F>) -> Result<(), Failed>
    ensures { OnErr result (IsFileOpen place.now) }
{
    match place {
        Destination::Nowhere | Destination::Output => Ok(()),
        Destination::File(file) => store_tried(file),
    }
}

/// Stores a regular file. An interrupted call is tried again. A file system that cannot store when it
/// is asked has refused nothing.
fn store_tried<F: OpenFile>(file: &F) -> Result<(), Failed> {
    if !file.metadata()?.is_file() {
        return Ok(());
    }
    for _ in 0..=TRIES {
        match file.sync_data() {
            Ok(()) => return Ok(()),
            Err(error) => match error.kind() {
                ErrorKind::Interrupted => {}
                ErrorKind::InvalidInput | ErrorKind::Unsupported => return Ok(()),
                _ => return Err(Failed),
            },
        }
    }
    Err(Failed)
}

/// One read. An interrupted call is tried again.
fn read_tried<F: Read>(file: &mut F, buf: &mut [u8]) -> Result<usize, Failed>
    ensures within { IfOk result (λ n. n ≤ length buf.new) }
    ensures bytes { ReadConsumes (F.remaining file.old) (F.remaining file.new) result buf.new }
{
    for _ in 0..=TRIES {
        match file.read(buf) {
            Ok(count) => return Ok(count),
            Err(error) => {
                if error.kind() != ErrorKind::Interrupted {
                    return Err(Failed);
                }
            }
        }
    }
    Err(Failed)
}

/// One write. An interrupted call is tried again, and a write of none of a piece that is not empty
/// fails.
fn write_tried<F: Write>(file: &mut F, piece: &[u8]) -> Result<usize, Failed>
    ensures within { IfOk result (λ n. n ≤ length piece.now) }
    ensures some { 0 < length piece.now → IfOk result (λ n. 0 < n) }
    ensures bytes { WriteAppends (F.contents file.old) (F.contents file.new) result piece.now }
{
    if piece.is_empty() {
        return Ok(0);
    }
    for _ in 0..=TRIES {
        match file.write(piece) {
            Ok(0) => return Err(Failed),
            Ok(count) => return Ok(count),
            Err(error) => {
                if error.kind() != ErrorKind::Interrupted {
                    return Err(Failed);
                }
            }
        }
    }
    Err(Failed)
}
