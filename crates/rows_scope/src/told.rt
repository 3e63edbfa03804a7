//! What else is told of a header and its first scope.

use scope_pick::{
    Named, Variable, ambiguous_lines, found_in, line_named, named_lines, other_names, qualified,
    unfit_lines, unfound_lines,
};
use scope_words::read_line_names;
use std::alloc::{AllocError, Global};

/// What an order tells of a header; None where its words name no line.
pub(crate) fn told(
    alloc: Global,
    declared: &[Variable],
    order: &str,
    words: &str,
) -> Result<Option<String>, AllocError> {
    let names = named_lines(alloc, declared)?;
    Ok(match order {
        "lacking" => lacking(alloc, &names, words)?,
        "alike" => match line_named(words.as_bytes()) {
            Some(line) => Some(alike(alloc, declared, &names, line)?),
            None => None,
        },
        "views" => {
            let views = indices(alloc, &qualified(alloc, &names, &[])?)?;
            Some(format!(in alloc; "{views:?}\n")?)
        }
        _ => Some(variables(alloc, declared)?),
    })
}

// The lines that the first scope lacks, and the ambiguous ones, where others are settled.
fn lacking(alloc: Global, names: &[Named], settled: &str) -> Result<Option<String>, AllocError> {
    let settled = if settled.is_empty() {
        Some(Vec::new(alloc))
    } else {
        read_line_names(alloc, settled.as_bytes())?
    };
    let Some(settled) = settled else {
        return Ok(None);
    };
    let unfound = unfound_lines(alloc, names, &settled, 0)?;
    let unclear = ambiguous_lines(alloc, names, &settled, 0)?;
    Ok(Some(format!(in alloc; "unfound {unfound:?}, ambiguous {unclear:?}\n")?))
}

// Where a line of the first scope is found, its other names there, and the variables that look like lines.
fn alike(
    alloc: Global,
    declared: &[Variable],
    names: &[Named],
    line: u8,
) -> Result<String, AllocError> {
    let unfit = indices(alloc, &unfit_lines(alloc, declared)?)?;
    match found_in(names, 0, line) {
        None => format!(in alloc; "not found, unfit {unfit:?}\n"),
        Some(taken) => {
            let others = indices(alloc, &other_names(alloc, names, taken)?)?;
            let found = taken.index;
            format!(in alloc; "found {found}, others {others:?}, unfit {unfit:?}\n")
        }
    }
}

fn indices(alloc: Global, names: &[Named]) -> Result<Vec<usize>, AllocError> {
    names.iter().map(|name| name.index).collect(alloc)
}

// The path, the name and the range of each variable.
fn variables(alloc: Global, declared: &[Variable]) -> Result<String, AllocError> {
    let mut text = String::new(alloc);
    for variable in declared {
        let scope = std::str::from_utf8(&variable.scope).unwrap_or("no text");
        let name = std::str::from_utf8(&variable.name).unwrap_or("no text");
        let range = variable.range;
        write!(text, "scope {scope}, name {name}, {range:?}\n")?;
    }
    Ok(text)
}
