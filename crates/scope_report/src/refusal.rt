//! Why the wires of a dump are not picked, and what helps.

use crate::scopes::Heading;
use crate::text::{put, put_bytes, put_count, put_line, put_scope, put_variable};
use scope_pick::{Variable, Written, line_width, without_escape};
use scope_wiring::{Cause, Choice, LineOption, Refusal, settled_lines};
use std::alloc::{AllocError, Global};

/// Why the lines of a file are not picked, for people: what is wrong, what is there, and the option that helps.
pub fn refusal_text(
    alloc: Global,
    file: &str,
    variables: &[Variable],
    choice: &Choice,
    refusal: &Refusal,
) -> Result<Vec<u8>, AllocError> {
    let heading = Heading::new(alloc, variables)?;
    let settled = settled_lines(alloc, &choice.lines, &choice.without)?;
    let mut text = Vec::new(alloc);
    put_bytes(&mut text, file.as_bytes())?;
    put(&mut text, ": ")?;
    put_cause(&mut text, &heading, choice, refusal)?;
    put(&mut text, "\n")?;
    put_candidates(&mut text, &heading, &settled, refusal)?;
    put(&mut text, help(variables, refusal))?;
    Ok(text)
}

/// Appends what is wrong, without a line feed.
pub(crate) fn put_cause(
    text: &mut Vec<u8>,
    heading: &Heading<'_>,
    choice: &Choice,
    refusal: &Refusal,
) -> Result<(), AllocError> {
    match refusal.cause {
        Cause::Needed(line) => {
            put_line_fault(text, line, " is left out, and no bus is judged without it")
        }
        Cause::Twice(line) => put_line_fault(text, line, " is named or left out twice"),
        Cause::NoScope => put_no_scope(text, choice),
        Cause::NotWhole(scope) => put_not_whole(text, heading, scope),
        Cause::NoneWhole => put(text, none_whole(refusal)),
        Cause::Several => put_several(text, refusal.candidates.len()),
        Cause::NoVariable(number) => put_wrong(text, choice, number, " names no variable"),
        Cause::SeveralVariables(number) => put_wrong(
            text,
            choice,
            number,
            " names several variables with different codes",
        ),
        Cause::CannotBe(number) => put_width(text, choice, number, "the variable of "),
        Cause::LacksBits(number) => put_width(text, choice, number, "what is named by "),
    }
}

fn put_line_fault(text: &mut Vec<u8>, line: u8, fault: &str) -> Result<(), AllocError> {
    put_line(text, line)?;
    put(text, fault)
}

fn put_no_scope(text: &mut Vec<u8>, choice: &Choice) -> Result<(), AllocError> {
    put(text, "no variable stands in the scope ")?;
    put_asked_scope(text, choice)
}

fn put_not_whole(
    text: &mut Vec<u8>,
    heading: &Heading<'_>,
    scope: usize,
) -> Result<(), AllocError> {
    put(text, "the scope ")?;
    put_scope(text, heading.variables, scope)?;
    put(text, " is no whole bus")
}

fn none_whole(refusal: &Refusal) -> &'static str {
    if refusal.candidates.is_empty() {
        "no variable is named like a line of the bus"
    } else {
        "no scope has every needed line"
    }
}

fn put_several(text: &mut Vec<u8>, count: usize) -> Result<(), AllocError> {
    put_count(text, count as u64, "scope")?;
    put(text, " are a whole bus")
}

fn put_asked_scope(text: &mut Vec<u8>, choice: &Choice) -> Result<(), AllocError> {
    match &choice.scope {
        None => Ok(()),
        Some(path) => put_bytes(text, path),
    }
}

// An option, and what is wrong with it.
fn put_wrong(
    text: &mut Vec<u8>,
    choice: &Choice,
    number: usize,
    fault: &str,
) -> Result<(), AllocError> {
    match choice.lines.get(number) {
        None => Ok(()),
        Some(option) => put_option(text, option, fault),
    }
}

fn put_option(text: &mut Vec<u8>, option: &LineOption, behind: &str) -> Result<(), AllocError> {
    put(text, "--line ")?;
    put_line(text, option.line)?;
    put(text, mark(option.inverted))?;
    put_bytes(text, &option.target)?;
    put(text, behind)
}

fn mark(inverted: bool) -> &'static str {
    if inverted { "=!" } else { "=" }
}

// An option whose variable or bits cannot be its line.
fn put_width(
    text: &mut Vec<u8>,
    choice: &Choice,
    number: usize,
    what: &str,
) -> Result<(), AllocError> {
    match choice.lines.get(number) {
        None => Ok(()),
        Some(option) => put_misfit(text, option, what),
    }
}

fn put_misfit(text: &mut Vec<u8>, option: &LineOption, what: &str) -> Result<(), AllocError> {
    put(text, what)?;
    put_option(text, option, " cannot be the line, which has ")?;
    put_count(text, u64::from(width_of(option.line)), "bit")
}

fn width_of(line: u8) -> u32 {
    if line < 22 { line_width(line) } else { 1 }
}

// What may have been meant.
fn put_candidates(
    text: &mut Vec<u8>,
    heading: &Heading<'_>,
    settled: &[u8],
    refusal: &Refusal,
) -> Result<(), AllocError> {
    match refusal.cause {
        Cause::NotWhole(scope) => heading.put_gaps(text, settled, scope),
        Cause::NoneWhole => put_best(text, heading, settled, &refusal.candidates),
        Cause::NoScope | Cause::Several => put_paths(text, heading, &refusal.candidates),
        _ => put_variables(text, heading, &refusal.candidates),
    }
}

// The scopes that have the most needed lines; where no scope has one, what looks like a line.
fn put_best(
    text: &mut Vec<u8>,
    heading: &Heading<'_>,
    settled: &[u8],
    scopes: &[usize],
) -> Result<(), AllocError> {
    if scopes.is_empty() {
        return heading.put_all_near(text, settled);
    }
    for scope in scopes {
        heading.put_counts(text, *scope)?;
        heading.put_gaps(text, settled, *scope)?;
    }
    Ok(())
}

fn put_paths(
    text: &mut Vec<u8>,
    heading: &Heading<'_>,
    scopes: &[usize],
) -> Result<(), AllocError> {
    for scope in scopes {
        put(text, "  ")?;
        put_scope(text, heading.variables, *scope)?;
        put(text, "\n")?;
    }
    Ok(())
}

fn put_variables(
    text: &mut Vec<u8>,
    heading: &Heading<'_>,
    indices: &[usize],
) -> Result<(), AllocError> {
    for index in indices {
        put_variable(text, heading.variables, *index)?;
    }
    Ok(())
}

// The option that helps.
fn help(variables: &[Variable], refusal: &Refusal) -> &'static str {
    match refusal.cause {
        Cause::Needed(_) => "of the needed lines only D_n may be left out\n",
        Cause::Twice(_) => "name a line once, by --line or by --without\n",
        Cause::NoScope => help_with(refusal, NAME_SCOPE),
        Cause::NotWhole(_) => NAME_MISSING,
        Cause::NoneWhole => help_with(refusal, NAME_MISSING),
        Cause::Several => NAME_SCOPE,
        Cause::NoVariable(_) => "p6scope lines DUMP lists what there is\n",
        Cause::SeveralVariables(_) => help_with_several(variables, &refusal.candidates),
        Cause::CannotBe(_) => {
            "name its bits, as --line ADS_n=tb.control[3] or --line A_n=tb.a[35:3]\n"
        }
        Cause::LacksBits(_) =>
            "name as many bits as the line has, of those that the variable has\n",
    }
}

// The option that helps where several variables have the name.
fn help_with_several(variables: &[Variable], indices: &[usize]) -> &'static str {
    match indices.first() {
        None => NAME_OTHERWISE,
        Some(first) => help_beside(variables, *first, indices),
    }
}

fn help_beside(variables: &[Variable], first: usize, indices: &[usize]) -> &'static str {
    if indices
        .iter()
        .all(|index| are_written_alike(variables, first, *index))
    {
        NAME_OTHERWISE
    } else {
        NAME_ALONE
    }
}

// The variables of these indices have one path and one range.
fn are_written_alike(variables: &[Variable], first: usize, second: usize) -> bool {
    match (variables.get(first), variables.get(second)) {
        (Some(one), Some(other)) => is_written_alike(one, other),
        _ => false,
    }
}

fn is_written_alike(one: &Variable, other: &Variable) -> bool {
    one.scope.as_slice() == other.scope.as_slice()
        && without_escape(&one.name) == without_escape(&other.name)
        && is_range_alike(one.range, other.range)
}

fn is_range_alike(one: Written, other: Written) -> bool {
    match (one, other) {
        (Written::Numbers(one), Written::Numbers(other)) => {
            one.left == other.left && one.right == other.right
        }
        (Written::Numbers(_), _) | (_, Written::Numbers(_)) => false,
        _ => true,
    }
}

// The option that helps where there is a scope with a line.
fn help_with(refusal: &Refusal, help: &'static str) -> &'static str {
    if refusal.candidates.is_empty() {
        NAME_ALL
    } else {
        help
    }
}

const NAME_SCOPE: &str = "name one of these by --scope\n";

const NAME_ALONE: &str = "\
give the path of one that no other has, with its range where several have that path
";

const NAME_OTHERWISE: &str = "no path names one of them alone: dump one under another name\n";

const NAME_MISSING: &str = "\
name what is missing by --line LINE=PATH, with ! before the path where the variable is active high
";

const NAME_ALL: &str = "\
name each line by --line LINE=PATH, with ! before the path where the variable is active high
";
