//! The file of `--lines`.

ghost use Rattle.std.specs.Prelude.{◌≡◌, ◌++◌, [], is_some, unwrap_or, IfOk, OnOk, map};
ghost use Rattle.std.specs.Option.{option_map};
ghost use Rattle.scope_wiring.specs.Settling.{said_by};
ghost use Rattle.scope_top.specs.Named.{is_note, number_of, read_of, said_in_line, trimmed};

use scope_wiring::{LineOption, line_option};
use std::alloc::{AllocError, Global};

/// The first line of a file of `--lines` that cannot be read, from 1 on.
#[derive(Clone, Copy, Debug, PartialEq, Eq)]
pub struct LineFault {
    pub number: u64,
}

/// Appends what the lines of a file say: each is empty, a note that begins with `#`, or what may stand behind `--line`.
/// White space at both ends of a line is no part of it. Answers the first line that is something else; the options before
/// it were appended.
pub fn read_options(
    alloc: Global,
    text: &[u8],
    options: &mut Vec<LineOption>,
) -> Result<Option<LineFault>, AllocError>
    ensures fault { IfOk result (λ fault. option_map number_of fault ≡ (read_of text.now).unread) }
    ensures options { OnOk result (map said_by options.new.items
        ≡ map said_by options.old.items ++ (read_of text.now).options) }
{
    let mut number = 1u64;
    let mut line = Vec::new(alloc);
    for byte in text {
        if *byte == 10 {
            if !take_line(alloc, &line, options)? {
                return Ok(Some(LineFault { number }));
            }
            number += 1;
            line.clear();
        } else {
            line.push(*byte)?;
        }
    }
    if take_line(alloc, &line, options)? {
        Ok(None)
    } else {
        Ok(Some(LineFault { number }))
    }
}

// Whether the line can be read; what it says is appended.
#[tactic(auto, unfolding(crate::specs::Named::said_in_line, crate::specs::Named::said_in_word))]
fn take_line(alloc: Global, line: &[u8], options: &mut Vec<LineOption>) -> Result<bool, AllocError>
    ensures read { IfOk result (λ is_read. is_read ≡ is_some (said_in_line line.now)) }
    ensures options { OnOk result (map said_by options.new.items
        ≡ map said_by options.old.items ++ unwrap_or (said_in_line line.now) []) }
{
    let word = trimmed(line);
    if is_note(word) {
        return Ok(true);
    }
    match line_option(alloc, word)? {
        None => Ok(false),
        Some(option) => {
            options.push(option)?;
            Ok(true)
        }
    }
}

// The line without white space at its ends.
fn trimmed(line: &[u8]) -> &[u8]
    ensures { result.now ≡ trimmed line.now }
{
    line.trim_ascii()
}

fn is_note(word: &[u8]) -> bool
    ensures { result ≡ is_note word.now }
{
    match word.first() {
        None => true,
        Some(first) => *first == 35,
    }
}
