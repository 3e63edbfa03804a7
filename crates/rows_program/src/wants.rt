//! What is wanted of an order.

use crate::calls::Came;
use rows_files::{Row, halves};
use std::alloc::{AllocError, Global};

/// Whether what the row wants is so; None where there is no such row.
pub(crate) fn is_met(
    alloc: Global,
    came: &Came,
    row: &Row<'_>,
) -> Result<Option<bool>, AllocError> {
    let (what, how) = row.words();
    if what == "status" {
        return Ok(Some(how.parse() == Ok(came.status)));
    }
    let joined = came.answer.replace(alloc, "\n  ", " ")?;
    Ok(match text_of(came, joined.as_str(), what) {
        Some(text) => is_so(text, how, row),
        None => None,
    })
}

// The text of this name.
fn text_of<'a>(came: &'a Came, joined: &'a str, what: &str) -> Option<&'a str> {
    Some(match what {
        "answer" => came.answer.as_str(),
        "joined" => joined,
        "refusal" => came.refusal.as_str(),
        "save" => came.save.as_str(),
        "cut" => came.cut.as_str(),
        _ => return None,
    })
}

// Whether the text is as the row says; None where there is no such row, or it lacks the text to look for.
fn is_so(text: &str, how: &str, row: &Row<'_>) -> Option<bool> {
    let (whole, cut) = (row.text.as_str(), row.cut_text());
    Some(match how {
        "is" => text == whole,
        "rest" => text.split_once("\n").unwrap_or(("", "")).1 == whole,
        _ if cut.is_empty() => return None,
        "ends" => text.ends_with(whole),
        "has" => text.contains(cut),
        "lacks" => !text.contains(cut),
        "begins" => text.starts_with(cut),
        "second" => text.lines().nth(1) == Some(cut),
        _ => return None,
    })
}
