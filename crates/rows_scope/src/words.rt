//! What is read of a word, and the texts of the rules.

use crate::headers::written;
use rule_texts::{text, title};
use scope_pick::{Written, bit_name, is_exact_name, line_named, place_of};
use scope_wiring::line_option;
use scope_words::{read_count, read_line_names, read_moment, read_rule};
use std::alloc::{AllocError, Global};

/// What is read of a word; None where there is no such order.
pub(crate) fn word_read(
    alloc: Global,
    order: &str,
    word: &str,
) -> Result<Option<String>, AllocError> {
    let bytes = word.as_bytes();
    let said = match order {
        "count" => format!(in alloc; "{:?}\n", read_count(bytes))?,
        "moment" => format!(in alloc; "{:?}\n", read_moment(bytes))?,
        "number" => format!(in alloc; "{:?}\n", read_rule(bytes))?,
        "lines" => format!(in alloc; "{:?}\n", read_line_names(alloc, bytes)?)?,
        "bit" => format!(in alloc; "{:?}\n", bit_name(bytes, Written::Absent))?,
        "line" => line(alloc, bytes)?,
        "option" => option(alloc, bytes)?,
        "place" => return place(alloc, word),
        "title" | "text" => return of_rule(alloc, order, word),
        _ => return Ok(None),
    };
    Ok(Some(said))
}

// The line that a name stands for, and whether it is the line's own.
fn line(alloc: Global, name: &[u8]) -> Result<String, AllocError> {
    match line_named(name) {
        None => String::from_str(alloc, "None\n"),
        Some(line) => {
            let is_exact = is_exact_name(line, name);
            format!(in alloc; "line {line}, exact {is_exact}\n")
        }
    }
}

// What an option says of a line.
fn option(alloc: Global, text: &[u8]) -> Result<String, AllocError> {
    match line_option(alloc, text)? {
        None => String::from_str(alloc, "None\n"),
        Some(option) => {
            let (line, inverted) = (option.line, option.inverted);
            let target = std::str::from_utf8(&option.target).unwrap_or("no text");
            format!(in alloc; "line {line}, inverted {inverted}, target {target}\n")
        }
    }
}

// Which bits of a variable are a line: the line's number, the width and perhaps the range.
fn place(alloc: Global, words: &str) -> Result<Option<String>, AllocError> {
    let mut words = words.split(" ");
    let (line, width) = (words.next().unwrap_or(""), words.next().unwrap_or(""));
    let range = written(words.next().unwrap_or(""));
    match (line.parse::<u8>(), width.parse::<u32>()) {
        (Ok(line), Ok(width)) if line < 22 => {
            Ok(Some(format!(in alloc; "{:?}\n", place_of(line, width, range))?))
        }
        _ => Ok(None),
    }
}

// The title or the text of a rule.
fn of_rule(alloc: Global, order: &str, number: &str) -> Result<Option<String>, AllocError> {
    let Ok(rule) = number.parse::<u8>() else {
        return Ok(None);
    };
    let said = if order == "title" {
        title(rule)
    } else {
        text(rule)
    };
    Ok(Some(match said {
        None => String::from_str(alloc, "None\n")?,
        Some(said) if order == "title" => format!(in alloc; "{said}\n")?,
        Some(said) => String::from_str(alloc, said)?,
    }))
}
