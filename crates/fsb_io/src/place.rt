//! Where a dump goes, so that neither what standard output took nor the file that was read is lost.
ghost use Rattle.std.specs.Prelude.{◌≡◌, ◌≢◌, ◌↔◌, Ok, true, IsTrue, IsErr, IfOk};
ghost use Rattle.std.specs.Fs.{IsFile, file_type, metadata_len, new_options, with_append, with_create};
ghost use Rattle.fsb_io.specs.DumpPlaces.{IsRefused, IsReplaced, IsSame, is_descriptor_name};

use crate::Failed;
use crate::file::TRIES;
use std::fs;
use std::fs::{Files, Metadata, OpenFile, OpenOptions};
use std::io::ErrorKind;
use std::os::unix::fs::{FileTypeExt, MetadataExt};

/// Where a file sink writes.
#[derive(Drop)]
pub(crate) enum Destination<F: Drop> {
    /// It was not begun.
    Nowhere,
    /// To standard output itself, behind what was written there.
    Output,
    /// To an open file.
    File(F),
}

/// Which file of the system one is, whatever its names.
#[derive(Clone, Copy)]
struct FileId {
    device: u64,
    inode: u64,
}

impl FileId {
    fn of(metadata: &Metadata) -> FileId {
        FileId {
            device: metadata.dev(),
            inode: metadata.ino(),
        }
    }
}

/// What is known of a file that was opened for a dump.
#[derive(Drop)]
struct Opened {
    id: FileId,
    is_file: bool,
    is_char_device: bool,
    len: u64,
    /// Its name is that of an open descriptor: who opened it chose whether the file was to be emptied.
    is_descriptor: bool,
}

impl Opened {
    fn of(metadata: &Metadata, name: &str) -> Opened
        ensures file { IsTrue result.is_file ↔ IsFile (file_type metadata.now) }
        ensures len { result.len ≡ metadata_len metadata.now }
        ensures descriptor { result.is_descriptor ≡ is_descriptor_name name.now }
    {
        Opened {
            id: FileId::of(metadata),
            is_file: metadata.is_file(),
            is_char_device: metadata.file_type().is_char_device(),
            len: metadata.len(),
            is_descriptor: is_descriptor(name),
        }
    }

    /// It holds something that the dump replaces.
    fn is_replaced(&self) -> bool
        ensures { IsTrue result ↔ IsReplaced self.now }
    {
        self.is_file && self.len > 0 && !self.is_descriptor
    }
}

/// Opens `name` to be written. It is standard output where it is the file that `output` names. It fails, and
/// changes nothing, where it is the file that `spared` names and no terminal. A file that holds something is
/// emptied, unless `name` is that of a descriptor; it fails where the system does not tell which file
/// `output` is.
pub(crate) fn place_of<R: Files>(
    files: &R,
    output: &str,
    spared: Option<&str>,
    name: &str,
) -> Result<Destination<R::File>, Failed>
    ensures { result ≢ Ok Destination.Nowhere }
{
    let output = named(files, output);
    if is_same(output, named(files, name)) {
        return Ok(Destination::Output);
    }
    let file = open_tried(files, name)?;
    let metadata = file.metadata()?;
    let opened = Opened::of(&metadata, name);
    let spared = spared.and_then(|spared| named(files, spared));
    if is_emptied(output, spared, &opened)? {
        file.set_len(0)?;
    }
    Ok(Destination::File(file))
}

/// Whether a file that was opened for a dump is emptied first. It fails where no dump goes to it.
fn is_emptied(
    output: Option<FileId>,
    spared: Option<FileId>,
    opened: &Opened,
) -> Result<bool, Failed>
    ensures refused { IsErr result ↔ IsRefused output spared opened.now }
    ensures emptied { IfOk result (λ emptied. IsTrue emptied ↔ IsReplaced opened.now) }
{
    let id = Some(opened.id);
    if is_same(output, id) {
        return Err(Failed);
    }
    if is_same(spared, id) && !opened.is_char_device {
        return Err(Failed);
    }
    let is_replaced = opened.is_replaced();
    if is_replaced && output.is_none() {
        return Err(Failed);
    }
    Ok(is_replaced)
}

/// The system tells which files the two are, and they are one.
fn is_same(one: Option<FileId>, other: Option<FileId>) -> bool
    ensures { IsTrue result ↔ IsSame one other }
{
    match (one, other) {
        (Some(one), Some(other)) => one.device == other.device && one.inode == other.inode,
        _ => false,
    }
}

/// The file that has the name, None where the system does not tell.
fn named<R: Files>(files: &R, name: &str) -> Option<FileId> {
    match fs::metadata(files, name) {
        Ok(metadata) => Some(FileId::of(&metadata)),
        Err(_) => None,
    }
}

/// The name is that of an open descriptor.
fn is_descriptor(name: &str) -> bool
    ensures { result ≡ is_descriptor_name name.now }
{
    let bytes = name.as_bytes();
    bytes.starts_with(b"/dev/fd/")
        || bytes.starts_with(b"/proc/self/fd/")
        || name == "/dev/stdin"
        || name == "/dev/stderr"
}

/// Opens a file to be written behind what it holds, and makes it where there is none. An interrupted call is
/// tried again.
fn open_tried<R: Files>(files: &R, name: &str) -> Result<R::File, Failed> {
    let options = appending();
    for _ in 0..=TRIES {
        match options.open(files, name) {
            Ok(file) => return Ok(file),
            Err(error) => {
                if error.kind() != ErrorKind::Interrupted {
                    return Err(Failed);
                }
            }
        }
    }
    Err(Failed)
}

/// A file is written behind what it holds, and made where there is none: none is emptied as it is opened.
fn appending() -> OpenOptions
    ensures { result ≡ with_create (with_append new_options true) true }
{
    let mut options = OpenOptions::new();
    options.append(true).create(true);
    options
}
