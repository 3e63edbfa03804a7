//! Why a dump was not read.

use crate::text::{put, put_bytes, put_line, put_number};
use std::alloc::{AllocError, Global};
use vcd_header::{VcdCause, VcdFault};

/// The first fault of a file that is no dump, for people. The place counts bytes from 0.
pub fn fault_text(alloc: Global, file: &str, fault: &VcdFault) -> Result<Vec<u8>, AllocError> {
    let mut text = named(alloc, file)?;
    put(&mut text, ", byte ")?;
    put_number(&mut text, fault.place)?;
    put(&mut text, ": ")?;
    put_fault(&mut text, fault.cause)?;
    put(&mut text, "\n")?;
    Ok(text)
}

fn named(alloc: Global, file: &str) -> Result<Vec<u8>, AllocError> {
    let mut text = Vec::new(alloc);
    put_bytes(&mut text, file.as_bytes())?;
    Ok(text)
}

fn put_fault(text: &mut Vec<u8>, cause: VcdCause) -> Result<(), AllocError> {
    match cause {
        VcdCause::Token => put(
            text,
            "no such word may stand there: unknown, a value without a code, or over 70,000 bytes",
        ),
        VcdCause::Header => put(
            text,
            "the header has a word between its sections, or a $var that declares nothing",
        ),
        VcdCause::Code => put(text, "no variable has this code"),
        VcdCause::Width => put(text, "the value has more digits than its line"),
        VcdCause::TimeBack => put(text, "the time is less than the one before it"),
        VcdCause::Missing(line) => {
            put(text, "the header ends without the line ")?;
            put_line(text, line)
        }
        VcdCause::Cut => put(
            text,
            "the file ends in the header, in a section, or between a value and its code",
        ),
    }
}

/// A file that is longer than what is read, or has more clocks than are counted: what there is too much of.
pub fn limit_text(alloc: Global, file: &str, limit: &str) -> Result<Vec<u8>, AllocError> {
    let mut text = named(alloc, file)?;
    put(&mut text, ": more than ")?;
    put(&mut text, limit)?;
    put(&mut text, "\n")?;
    Ok(text)
}

/// A file that was not read or written, and the reason of the system.
pub fn unread_text(alloc: Global, file: &str, reason: &str) -> Result<Vec<u8>, AllocError> {
    let mut text = named(alloc, file)?;
    put(&mut text, ": ")?;
    put(&mut text, reason)?;
    put(&mut text, "\n")?;
    Ok(text)
}

/// A dump of which a part is named by a time, and whose header does not say how long a step of its time is.
pub fn unscaled_text(alloc: Global, file: &str) -> Result<Vec<u8>, AllocError> {
    let mut text = named(alloc, file)?;
    put(&mut text, UNSCALED)?;
    Ok(text)
}

const UNSCALED: &str = "\
: a time is named, and the header has no $timescale of 1, 10 or 100 s, ms, us, ns, ps or fs
--at, --from and --to also take the number of a clock, as 1200
";
