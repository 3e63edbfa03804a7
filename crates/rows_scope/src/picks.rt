//! What is picked of a header.

use rows_files::halves;
use scope_pick::{Variable, line_named};
use scope_wiring::{Choice, Picking, Wiring, is_wired, line_option, pick};
use std::alloc::{AllocError, Global};

/// Which scope is judged, with how many wires, or what is taken as a line; or why none is picked. None where the words are
/// no options.
pub(crate) fn picked(
    alloc: Global,
    declared: &[Variable],
    order: &str,
    words: &str,
) -> Result<Option<String>, AllocError> {
    let (name, options) = if order == "take" {
        halves(words)
    } else {
        ("BCLK", words)
    };
    let (Some(line), Some(choice)) = (line_named(name.as_bytes()), choice(alloc, options)?) else {
        return Ok(None);
    };
    Ok(Some(match pick(alloc, declared, &choice)? {
        Picking::Refused(refusal) => {
            let (cause, candidates) = (refusal.cause, &refusal.candidates);
            format!(in alloc; "{cause:?}, candidates {candidates:?}\n")?
        }
        Picking::Wired(wiring) => match order {
            "pick" => format!(in alloc; "{:?}\n", wiring.home)?,
            "wires" => format!(in alloc; "{:?}, {} wires\n", wiring.home, wiring.wires.len())?,
            _ => taken(alloc, &wiring, line)?,
        },
    }))
}

// The wires of a line, and what is taken of the first one.
fn taken(alloc: Global, wiring: &Wiring, line: u8) -> Result<String, AllocError> {
    let wires = &wiring.wires;
    let count = wires.iter().filter(|wire| wire.tap.line == line).count();
    let (wired, absent) = (is_wired(wires, line), wiring.absent.contains(&line));
    let mut text = format!(in alloc; "{count} wires, wired {wired}, absent {absent}\n")?;
    if let Some(wire) = wires.iter().find(|wire| wire.tap.line == line) {
        write!(text, "{}: {:?}\n", wire.index, wire.tap)?;
    }
    Ok(text)
}

// What a user asks for: `@PATH` is a scope, `-LINE` a line that is left out, another word names a line's variable. None
// where a word is none of these.
fn choice(alloc: Global, options: &str) -> Result<Option<Choice>, AllocError> {
    let mut choice = Choice {
        scope: None,
        lines: Vec::new(alloc),
        without: Vec::new(alloc),
    };
    for word in options.split_whitespace() {
        if let Some(path) = word.strip_prefix("@") {
            choice.scope = Some(Vec::from_slice(alloc, path.as_bytes())?);
        } else if let Some(name) = word.strip_prefix("-") {
            match line_named(name.as_bytes()) {
                Some(line) => choice.without.push(line)?,
                None => return Ok(None),
            }
        } else {
            match line_option(alloc, word.as_bytes())? {
                Some(option) => choice.lines.push(option)?,
                None => return Ok(None),
            }
        }
    }
    Ok(Some(choice))
}
