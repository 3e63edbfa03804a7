//! What is wanted of an order.

use crate::calls::Came;
use rows_files::{Row, halves};

/// Whether what the row wants is so; None where there is no such row.
pub(crate) fn is_met(came: &Came, row: &Row<'_>) -> Option<bool> {
    let (what, how) = row.words();
    match what {
        "status" => is_status(came, how),
        "calls" => is_called(came, how),
        _ => is_so(text_of(came, what)?, how, row),
    }
}

/// The text of this name.
pub(crate) fn text_of<'a>(came: &'a Came, what: &str) -> Option<&'a str> {
    match what {
        "out" => Some(came.out.as_str()),
        "dump" => Some(came.dump.as_str()),
        _ => None,
    }
}

// Whether this is the exit status, and its line.
fn is_status(came: &Came, words: &str) -> Option<bool> {
    let (status, line) = halves(words);
    let status: u8 = status.parse().ok()?;
    Some(status == came.status && line == came.line.as_str())
}

// Whether the source and the sinks were called so often.
fn is_called(came: &Came, words: &str) -> Option<bool> {
    let (reads, rest) = halves(words);
    let (prints, dumps) = halves(rest);
    let reads: u64 = reads.parse().ok()?;
    let prints: u64 = prints.parse().ok()?;
    let dumps: u64 = dumps.parse().ok()?;
    Some(came.calls == [reads, prints, dumps])
}

// Whether the text is as the row says.
fn is_so(text: &str, how: &str, row: &Row<'_>) -> Option<bool> {
    match how {
        "none" => Some(text.is_empty()),
        "is" => Some(text == row.text.as_str()),
        "begins" => Some(text.starts_with(row.cut_text())),
        _ => None,
    }
}
