//! The declarations of a header.
//!
//! In few words, a line of it is a bus, a word bit by bit, or one variable:
//!
//! - `SCOPE bus CODE [CODE] [-LINE ..]` declares the needed lines by the table's names, ranges and order, but for those
//!   with a minus sign. Their codes are the first one, of words the second one, with the line's number behind it.
//! - `SCOPE bits CODE NAME FORM LOW HIGH` declares a word's bits by name and form: `[`, `(`, `_`, or `:` for a range.
//!   Their codes have the bit's number behind them.
//! - `SCOPE KIND WIDTH CODE NAME [RANGE]` declares one variable. The scope `.` is the root.
//!
//! As tools write it, a line begins with `scope`, `upscope` or the kind of a variable; `$` and `$end` are left out.

use scope_pick::{Range, Variable, Written};
use scope_way::variable_of;
use std::alloc::{AllocError, Global};

/// The needed lines: their numbers, names, widths, and ranges where they are words.
static NEEDED: [(u8, &'static str, u32, &'static str); 12] = [
    (0, "BCLK", 1, ""),
    (1, "BREQ0_n", 1, ""),
    (8, "ADS_n", 1, ""),
    (9, "REQ_n", 5, "4:0"),
    (10, "A_n", 33, "35:3"),
    (12, "HIT_n", 1, ""),
    (13, "HITM_n", 1, ""),
    (15, "RS_n", 3, "2:0"),
    (16, "TRDY_n", 1, ""),
    (17, "DBSY_n", 1, ""),
    (18, "DRDY_n", 1, ""),
    (19, "D_n", 64, "63:0"),
];

/// The declarations of a header in few words.
pub(crate) fn in_few_words(alloc: Global, header: &str) -> Result<Vec<Variable>, AllocError> {
    let mut declared = Vec::new(alloc);
    for line in header.lines() {
        let words: Vec<&str> = line.split_whitespace().collect(alloc)?;
        match at(&words, 1) {
            "bus" => bus(alloc, &mut declared, &words)?,
            "bits" => bits(alloc, &mut declared, &words)?,
            kind => {
                let (width, range) = (number(at(&words, 2)), written(at(&words, 5)));
                let (code, name) = (at(&words, 3), at(&words, 4));
                let scope = at(&words, 0);
                declared.push(variable(alloc, scope, kind, width, code, name, range)?)?;
            }
        }
    }
    Ok(declared)
}

// The needed lines of a scope.
fn bus(alloc: Global, declared: &mut Vec<Variable>, words: &[&str]) -> Result<(), AllocError> {
    for (line, name, width, range) in NEEDED.iter() {
        if !words
            .iter()
            .any(|word| word.strip_prefix("-") == Some(*name))
        {
            let code = format!(in alloc; "{}{line}", code_of(words, *width))?;
            let (code, range) = (code.as_str(), written(range));
            declared.push(variable(alloc, at(words, 0), "wire", *width, code, name, range)?)?;
        }
    }
    Ok(())
}

// The code of a bus for its lines of this width: that of words may be another one.
fn code_of<'a>(words: &[&'a str], width: u32) -> &'a str {
    let second = at(words, 3);
    if width == 1 || second.is_empty() || second.starts_with("-") {
        at(words, 2)
    } else {
        second
    }
}

// A word bit by bit.
fn bits(alloc: Global, declared: &mut Vec<Variable>, words: &[&str]) -> Result<(), AllocError> {
    let (name, form) = (at(words, 3), at(words, 4));
    for bit in number(at(words, 5))..number(at(words, 6)) {
        let name = match form {
            "[" => format!(in alloc; "{name}[{bit}]")?,
            "(" => format!(in alloc; "{name}({bit})")?,
            "_" => format!(in alloc; "{name}_{bit}")?,
            _ => String::from_str(alloc, name)?,
        };
        let range = match form {
            ":" => Written::Numbers(Range {
                left: bit,
                right: bit,
            }),
            _ => Written::Absent,
        };
        let code = format!(in alloc; "{}{bit}", at(words, 2))?;
        let (code, name) = (code.as_str(), name.as_str());
        declared.push(variable(alloc, at(words, 0), "wire", 1, code, name, range)?)?;
    }
    Ok(())
}

fn variable(
    alloc: Global,
    scope: &str,
    kind: &str,
    width: u32,
    code: &str,
    name: &str,
    range: Written,
) -> Result<Variable, AllocError> {
    let scope = if scope == "." { "" } else { scope };
    Ok(Variable {
        scope: Vec::from_slice(alloc, scope.as_bytes())?,
        name: Vec::from_slice(alloc, name.as_bytes())?,
        kind: Vec::from_slice(alloc, kind.as_bytes())?,
        width,
        code: Vec::from_slice(alloc, code.as_bytes())?,
        range,
    })
}

/// What is written behind a name: nothing, `LEFT:RIGHT`, or what cannot be read.
pub(crate) fn written(word: &str) -> Written {
    match word.split_once(":") {
        Some((left, right)) => Written::Numbers(Range {
            left: number(left),
            right: number(right),
        }),
        None if word.is_empty() => Written::Absent,
        None => Written::Unreadable,
    }
}

// The word at this place; where there is none, nothing.
fn at<'a>(words: &[&'a str], place: usize) -> &'a str {
    words.get(place).copied().unwrap_or("")
}

fn number(word: &str) -> u32 {
    word.parse::<u32>().unwrap_or(0)
}

/// The declarations of a header as tools write it.
pub(crate) fn as_declared(alloc: Global, header: &str) -> Result<Vec<Variable>, AllocError> {
    let mut declared = Vec::new(alloc);
    let mut path = Vec::new(alloc);
    for line in header.lines() {
        let words: Vec<&str> = line.split_whitespace().collect(alloc)?;
        match at(&words, 0) {
            "scope" => path.push(Vec::from_slice(alloc, at(&words, 1).as_bytes())?)?,
            "upscope" => {
                path.pop();
            }
            kind => {
                let mut after = Vec::new(alloc);
                for word in words.iter().skip(4) {
                    after.push(Vec::from_slice(alloc, word.as_bytes())?)?;
                }
                declared.push(variable_of(
                    alloc,
                    &path,
                    kind.as_bytes(),
                    u64::from(number(at(&words, 1))),
                    at(&words, 2).as_bytes(),
                    at(&words, 3).as_bytes(),
                    &after,
                )?)?;
            }
        }
    }
    Ok(declared)
}
