//! Why rules are broken at the first broken clock.

ghost use Rattle.std.specs.Prelude.{◌≡◌};
ghost use Rattle.scope_report.specs.Grounds.{lines_named, named_by};

use crate::rules::title_of;
use crate::text::put;
use fsb_recent::Around;
use reason_lines::{NamedLines, lines_of};
use reason_texts::Sentence;
use request_texts::put_around;
use std::alloc::{AllocError, Global};

/// How many columns a line of a sentence has, at most, where its words are not longer.
const COLUMNS: usize = 90;

/// Why rules are broken at the first broken clock, as far as that is known.
#[derive(Debug, Drop)]
pub struct Grounds {
    /// A sentence for each of the rules that is explained, the least rule's first; their clocks are counted as in the dump.
    pub sentences: Vec<Sentence>,
    /// The requests around the clock.
    pub around: Around,
    /// How many clocks of the dump come before those that the rows of the requests count.
    pub before: u32,
}

impl Grounds {
    /// Nothing is known. It takes no memory.
    pub fn none(alloc: Global) -> Grounds {
        Grounds {
            sentences: Vec::new(alloc),
            around: Around::none(alloc),
            before: 0,
        }
    }

    /// Appends the requests around the clock, if there are any.
    pub(crate) fn put_requests(&self, text: &mut Vec<u8>, alloc: Global) -> Result<(), AllocError> {
        put_around(text, alloc, &self.around, self.before)
    }
}

/// All lines of which one of the reasons speaks.
fn lines_named(reasons: &[Sentence]) -> NamedLines
    ensures { result ≡ lines_named reasons.now }
{
    let mut named = NamedLines::none();
    for reason in reasons {
        named = named.both(lines_of(&reason.reason));
    }
    named
}

/// The lines that are drawn of a broken clock with these reasons, if there are any.
#[tactic(auto, unfolding(crate::specs::Grounds::named_by))]
pub fn named_by(reasons: &[Sentence]) -> Option<NamedLines>
    ensures { result ≡ named_by reasons.now }
{
    match reasons.first() {
        None => None,
        Some(_) => Some(lines_named(reasons)),
    }
}

/// Appends a sentence for each rule that is broken at the clock, of which this is the least: its own is the first, and the
/// others have their numbers and titles.
pub(crate) fn put_reasons(
    text: &mut Vec<u8>,
    alloc: Global,
    least: u8,
    reasons: &[Sentence],
) -> Result<(), AllocError> {
    for reason in reasons {
        put_reason(text, alloc, least, reason)?;
    }
    Ok(())
}

fn put_reason(
    text: &mut Vec<u8>,
    alloc: Global,
    least: u8,
    reason: &Sentence,
) -> Result<(), AllocError> {
    let rule = reason.reason.rule();
    let sentence = if rule == least {
        format!(in alloc; "{reason}")?
    } else {
        format!(in alloc; "also rule {rule}, {}: {reason}", title_of(rule))?
    };
    put_wrapped(text, sentence.as_str())
}

// Appends words in lines that are indented by two.
fn put_wrapped(text: &mut Vec<u8>, words: &str) -> Result<(), AllocError> {
    let mut column: usize = 0;
    for word in words.split(" ") {
        column = put_word(text, word, column)?;
    }
    put(text, "\n")
}

// Appends a word behind so many columns of its line, or to the next one, and answers how many it then has.
fn put_word(text: &mut Vec<u8>, word: &str, column: usize) -> Result<usize, AllocError> {
    let behind = column.saturating_add(1).saturating_add(word.len());
    if 0 < column && behind <= COLUMNS {
        put(text, " ")?;
        put(text, word)?;
        return Ok(behind);
    }
    put(text, if column == 0 { "  " } else { "\n  " })?;
    put(text, word)?;
    Ok(word.len().saturating_add(2))
}
