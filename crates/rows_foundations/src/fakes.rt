//! Outsides that are handed to files and to standard output in place of the system.

ghost use Rattle.std.specs.Prelude.{IsErr};

use std::alloc::Allocator;
use std::cell::Cell;
use std::fmt::Display;
use std::fs::{Metadata, OpenFile, OpenOptions};
use std::io;
use std::io::{ErrorKind, Read, Seek, SeekFrom, Write};
use std::rt::Files;

/// What no test asks of an outside.
fn unsupported<T>() -> io::Result<T>
    ensures { IsErr result }
{
    Err(io::Error::from(ErrorKind::Unsupported))
}

/// Is interrupted so often in all, and then reads and writes one byte.
#[derive(Drop)]
pub(crate) struct Busy {
    interrupts: Cell<u32>,
}

impl Busy {
    /// With these interrupts to come.
    pub(crate) fn new(interrupts: u32) -> Busy {
        Busy {
            interrupts: Cell::new(interrupts),
        }
    }

    /// One byte, or an interrupt.
    fn turn(&self) -> io::Result<usize> {
        let left = self.interrupts.get();
        if left == 0 {
            return Ok(1);
        }
        self.interrupts.set(left - 1);
        Err(io::Error::from(ErrorKind::Interrupted))
    }
}

impl Read for Busy {
    fn read(&mut self, buf: &mut [u8]) -> io::Result<usize> {
        Ok(self.turn()?.min(buf.len()))
    }
}

impl Write for Busy {
    fn write(&mut self, buf: &[u8]) -> io::Result<usize> {
        Ok(self.turn()?.min(buf.len()))
    }

    fn flush(&mut self) -> io::Result<()> {
        Ok(())
    }
}

impl Seek for Busy {
    fn seek(&mut self, _to: SeekFrom) -> io::Result<u64> {
        unsupported()
    }
}

impl OpenFile for Busy {
    fn metadata(&self) -> io::Result<Metadata> {
        unsupported()
    }

    fn set_len(&self, _size: u64) -> io::Result<()> {
        unsupported()
    }

    fn sync_all(&self) -> io::Result<()> {
        unsupported()
    }

    fn sync_data(&self) -> io::Result<()> {
        unsupported()
    }
}

/// A system each of whose files is as busy as it says, and which prints as a busy file writes.
#[derive(Drop)]
pub(crate) struct BusySystem {
    interrupts: u32,
    output: Busy,
}

impl BusySystem {
    /// With these interrupts to come, in each file and when it prints.
    pub(crate) fn new(interrupts: u32) -> BusySystem {
        BusySystem {
            interrupts,
            output: Busy::new(interrupts),
        }
    }
}

impl Files for BusySystem {
    type File = Busy;

    type Dir = Busy;

    fn open_file(&self, _how: &OpenOptions, _path: &str) -> io::Result<Busy> {
        Ok(Busy::new(self.interrupts))
    }

    fn open_dir(&self, _path: &str) -> io::Result<Busy> {
        unsupported()
    }

    fn metadata(&self, _path: &str) -> io::Result<Metadata> {
        unsupported()
    }

    fn symlink_metadata(&self, _path: &str) -> io::Result<Metadata> {
        unsupported()
    }

    fn copy(&self, _from: &str, _to: &str) -> io::Result<u64> {
        unsupported()
    }

    fn rename(&self, _from: &str, _to: &str) -> io::Result<()> {
        unsupported()
    }

    fn remove_file(&self, _path: &str) -> io::Result<()> {
        unsupported()
    }

    fn create_dir(&self, _path: &str) -> io::Result<()> {
        unsupported()
    }

    fn remove_dir(&self, _path: &str) -> io::Result<()> {
        unsupported()
    }

    fn remove_dir_all<B: Allocator>(&self, _alloc: B, _path: &str) -> io::Result<()> {
        unsupported()
    }
}

impl Print for BusySystem {
    fn print<D: Display + Drop>(&self, _value: D) -> io::Result<()> {
        unsupported()
    }

    fn println<D: Display + Drop>(&self, _value: D) -> io::Result<()> {
        unsupported()
    }

    fn write_all(&self, _bytes: &[u8]) -> io::Result<()> {
        unsupported()
    }

    fn write_some(&self, bytes: &[u8]) -> io::Result<usize> {
        Ok(self.output.turn()?.min(bytes.len()))
    }
}

/// The name of what standard output goes to.
const OUTPUT: &str = "/proc/self/fd/1";

/// The files of a system, of which the one that is named has the name of standard output too. What is printed is counted.
#[derive(Drop)]
pub(crate) struct Redirected<'a, R: Files> {
    files: &'a R,
    output: &'a str,
    printed: Cell<usize>,
}

impl<'a, R: Files> Redirected<'a, R> {
    /// With standard output in this file.
    pub(crate) fn new(files: &'a R, output: &'a str) -> Redirected<'a, R> {
        Redirected {
            files,
            output,
            printed: Cell::new(0),
        }
    }

    /// How many bytes were printed.
    pub(crate) fn printed(&self) -> usize {
        self.printed.get()
    }
}

impl<R: Files> Files for Redirected<'_, R> {
    type File = R::File;

    type Dir = R::Dir;

    fn open_file(&self, how: &OpenOptions, path: &str) -> io::Result<R::File> {
        self.files.open_file(how, path)
    }

    fn open_dir(&self, _path: &str) -> io::Result<R::Dir> {
        unsupported()
    }

    fn metadata(&self, path: &str) -> io::Result<Metadata> {
        let path = if path == OUTPUT { self.output } else { path };
        self.files.metadata(path)
    }

    fn symlink_metadata(&self, _path: &str) -> io::Result<Metadata> {
        unsupported()
    }

    fn copy(&self, _from: &str, _to: &str) -> io::Result<u64> {
        unsupported()
    }

    fn rename(&self, _from: &str, _to: &str) -> io::Result<()> {
        unsupported()
    }

    fn remove_file(&self, _path: &str) -> io::Result<()> {
        unsupported()
    }

    fn create_dir(&self, _path: &str) -> io::Result<()> {
        unsupported()
    }

    fn remove_dir(&self, _path: &str) -> io::Result<()> {
        unsupported()
    }

    fn remove_dir_all<B: Allocator>(&self, _alloc: B, _path: &str) -> io::Result<()> {
        unsupported()
    }
}

impl<R: Files> Print for Redirected<'_, R> {
    fn print<D: Display + Drop>(&self, _value: D) -> io::Result<()> {
        unsupported()
    }

    fn println<D: Display + Drop>(&self, _value: D) -> io::Result<()> {
        unsupported()
    }

    fn write_all(&self, bytes: &[u8]) -> io::Result<()> {
        let printed = self.printed.get();
        self.printed.set(printed.saturating_add(bytes.len()));
        Ok(())
    }
}
