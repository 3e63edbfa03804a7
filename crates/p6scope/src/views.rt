//! The files that show a broken rule: which names are refused, and why one was not written.

use crate::warn;
use fsb_io::Sink;
use scope_report::unread_text;
use scope_words::Views;
use std::alloc::AllocError;
use std::fs::{self, Files, Metadata, OpenOptions};
use std::os::unix::fs::MetadataExt;

/// Why the files of an order are refused, if they are: the dump can't be read a second time, or a name is that of a file that
/// is read or of the other file.
pub(crate) fn refused(
    rt: &(impl Files + AllocGlobal),
    dump: &str,
    lines: &str,
    views: Views<'_>,
) -> Result<Option<Vec<u8>>, AllocError> {
    match cause_of(rt, dump, lines, views) {
        None => Ok(None),
        Some((name, cause)) => Ok(Some(unread_text(rt.alloc(), name, cause)?)),
    }
}

// The file that is refused, and why.
fn cause_of<'a>(
    rt: &impl Files,
    dump: &'a str,
    lines: &'a str,
    views: Views<'a>,
) -> Option<(&'a str, &'static str)> {
    let save = views.save.unwrap_or("");
    let cut = views.cut.unwrap_or("");
    if save.is_empty() && cut.is_empty() {
        None
    } else if is_irregular(rt, dump) {
        Some((dump, IRREGULAR))
    } else if is_one(rt, save, dump) || is_one(rt, save, lines) {
        Some((save, SAVE_IS_READ))
    } else if is_one(rt, cut, dump) || is_one(rt, cut, lines) {
        Some((cut, CUT_IS_READ))
    } else if is_one(rt, save, cut) {
        Some((save, ONE_FILE))
    } else {
        None
    }
}

const IRREGULAR: &str =
    "no regular file: --save and --cut read the dump a second time, which a pipe cannot give";

const SAVE_IS_READ: &str = "--save names a file that is read, which is never written over";

const CUT_IS_READ: &str = "--cut names a file that is read, which is never written over";

const ONE_FILE: &str = "--save and --cut name one file";

// Whether there is a file of this name, and it is no regular one.
fn is_irregular(rt: &impl Files, name: &str) -> bool {
    match fs::metadata(rt, name) {
        Ok(found) => !found.is_file(),
        Err(_) => false,
    }
}

// Whether both are names of one file: the same name, or what the system tells is one. Where none is named there is none.
fn is_one(rt: &impl Files, one: &str, other: &str) -> bool {
    if one.is_empty() || other.is_empty() {
        return false;
    }
    if one == other {
        return true;
    }
    match (fs::metadata(rt, one), fs::metadata(rt, other)) {
        (Ok(one), Ok(other)) => is_same(&one, &other),
        _ => false,
    }
}

fn is_same(one: &Metadata, other: &Metadata) -> bool {
    one.dev() == other.dev() && one.ino() == other.ino()
}

/// Tells that a file was not written, with the reason of the system.
pub(crate) fn warn_unwritten<E: Sink>(rt: &(impl Files + AllocGlobal), name: &str, err: &mut E) {
    match unwritten(rt, name) {
        Ok(text) => warn(err, &text),
        Err(AllocError) => warn(err, b"p6scope: a file could not be written\n"),
    }
}

fn unwritten(rt: &(impl Files + AllocGlobal), name: &str) -> Result<Vec<u8>, AllocError> {
    let reason = reason(rt, name)?;
    unread_text(rt.alloc(), name, reason.as_str())
}

// Why a file cannot be written: what the system says where it is opened once more.
fn reason(rt: &(impl Files + AllocGlobal), name: &str) -> Result<String, AllocError> {
    let alloc = rt.alloc();
    let mut options = OpenOptions::new();
    options.append(true).create(true);
    match options.open(rt, name) {
        Err(error) => format!(in alloc; "{error}"),
        Ok(_file) => String::from_str(alloc, "writing failed"),
    }
}
