//! The choice of a user, with what the file of `--lines` adds to it.

ghost use Rattle.std.specs.Prelude.{◌≡◌, ◌≢◌, ◌≤◌, ◌^◌, Err, IsTrue, IfOk, Some, length};
ghost use Rattle.std.specs.Option.{ForSome};
ghost use Rattle.fsb_io.specs.Faults.{Rose};
ghost use Rattle.scope_top.specs.Performing.{EndsListed, text_named};

use crate::answer::{Answer, Stream};
use crate::named::{LineFault, read_options};
use crate::stop::Stop;
use fsb_io::{Failed, ReadStop, Source, read_all};
use scope_report::{Ending, limit_text, unread_text};
use scope_wiring::Choice;
use std::alloc::{AllocError, Global};

/// The longest file of `--lines`, in bytes.
const LINES_LIMIT: usize = 1 << 20;

/// What comes of a file of `--lines`.
#[derive(Debug, Drop)]
pub(crate) enum Listed {
    /// The choice of the words, with the lines of the file.
    Chosen(Choice),
    /// A line of the file says nothing, or it is too long.
    Unlisted(Answer),
}

/// The choice of the words, with what the file of `--lines` adds to it where one is named.
pub(crate) fn listed_choice<L: Source>(
    alloc: Global,
    choice: Choice,
    file: Option<&str>,
    named: &mut L,
) -> Result<Listed, Stop>
    requires { ForSome file (λ file. length file.now ≤ 4096) }
    ensures listed { IsTrue L.tells →
        IfOk result (EndsListed choice (text_named file.entry (L.holds named.old))) }
    ensures lines_fault { result ≡ Err Stop.Lines →
        Rose (L.faults named.old) (L.faults named.new) }
    ensures not_dump { result ≢ Err Stop.Dump }
    ensures not_out { result ≢ Err Stop.Out }
{
    match file {
        None => Ok(Listed::Chosen(choice)),
        Some(file) => listed_in(alloc, choice, file, named),
    }
}

// The choice with what the file of this name adds to it.
fn listed_in<L: Source>(
    alloc: Global,
    choice: Choice,
    file: &str,
    named: &mut L,
) -> Result<Listed, Stop>
    requires { length file.now ≤ 4096 }
    ensures listed { IsTrue L.tells →
        IfOk result (EndsListed choice (Some (L.holds named.old))) }
    ensures lines_fault { result ≡ Err Stop.Lines →
        Rose (L.faults named.old) (L.faults named.new) }
    ensures not_dump { result ≢ Err Stop.Dump }
    ensures not_out { result ≢ Err Stop.Out }
{
    match named.begin(file) {
        Err(Failed) => Err(Stop::Lines),
        Ok(()) => listed_left(alloc, choice, file, named),
    }
}

// The choice with what the text that is left to read adds to it.
fn listed_left<L: Source>(
    alloc: Global,
    choice: Choice,
    file: &str,
    named: &mut L,
) -> Result<Listed, Stop>
    ensures listed { IsTrue L.tells →
        IfOk result (EndsListed choice (Some (L.left named.old))) }
    ensures lines_fault { result ≡ Err Stop.Lines →
        Rose (L.faults named.old) (L.faults named.new) }
    ensures not_dump { result ≢ Err Stop.Dump }
    ensures not_out { result ≢ Err Stop.Out }
{
    match read_all(alloc, named, LINES_LIMIT) {
        Err(ReadStop::Memory) => Err(Stop::Memory),
        Err(ReadStop::ReadFault) => Err(Stop::Lines),
        Err(ReadStop::TooLong) => Ok(Listed::Unlisted(long_answer(alloc, file)?)),
        Ok(text) => Ok(listed_text(alloc, choice, file, &text)?),
    }
}

// The choice with what this text adds to it.
fn listed_text(alloc: Global, choice: Choice, file: &str, text: &[u8]) -> Result<Listed, AllocError>
    requires { length text.now ≤ 2 ^ 20 }
    ensures { IfOk result (EndsListed choice (Some text.now)) }
{
    let mut choice = choice;
    match read_options(alloc, text, &mut choice.lines)? {
        None => Ok(Listed::Chosen(choice)),
        Some(fault) => Ok(Listed::Unlisted(line_answer(alloc, file, text, fault)?)),
    }
}

// Tells that a file is too long.
fn long_answer(alloc: Global, file: &str) -> Result<Answer, AllocError>
    ensures { IfOk result (λ answer. answer.ending ≡ Ending.Unjudged) }
{
    Ok(Answer {
        ending: Ending::Unjudged,
        stream: Stream::Err,
        text: limit_text(alloc, file, "1,048,576 bytes")?,
    })
}

// Tells that a line of a file says nothing.
fn line_answer(
    alloc: Global,
    file: &str,
    text: &[u8],
    fault: LineFault,
) -> Result<Answer, AllocError>
    ensures { IfOk result (λ answer. answer.ending ≡ Ending.Unjudged) }
{
    let number = fault.number;
    let line = shown(alloc, line_at(text, number))?;
    let reason = format!(in alloc; "line {number}: '{line}'{UNLISTED}")?;
    Ok(Answer {
        ending: Ending::Unjudged,
        stream: Stream::Err,
        text: unread_text(alloc, file, reason.as_str())?,
    })
}

const UNLISTED: &str = " is no word for --line
LINE=[!]PATH is wanted, as ADS_n=tb.dut.ads, A_n=tb.a[35:3] or HIT_n=!tb.hit";

// The first bytes of a line, with a question mark for each that is no plain character.
fn shown(alloc: Global, line: &[u8]) -> Result<String, AllocError> {
    let mut text = String::new(alloc);
    for byte in line.iter().take(80) {
        text.push(plain(*byte))?;
    }
    Ok(text)
}

fn plain(byte: u8) -> char {
    if 32 <= byte && byte < 127 {
        char::from(byte)
    } else {
        '?'
    }
}

// The line of this number, from 1 on, without white space at its ends.
fn line_at(text: &[u8], number: u64) -> &[u8] {
    let mut left = number;
    for line in text.split(|byte| *byte == 10) {
        if left <= 1 {
            return line.trim_ascii();
        }
        left -= 1;
    }
    &[]
}
