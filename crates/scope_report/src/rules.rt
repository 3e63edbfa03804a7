//! The texts of the rules.

ghost use Rattle.std.specs.Prelude.{◌≡◌, is_some};
ghost use Rattle.rule_texts.specs.Rules.{is_rule};

use crate::text::{put, put_number};
use rule_texts::{text, title};
use std::alloc::{AllocError, Global};

/// The text of a rule; `None` exactly where there is no such rule.
pub fn rule_text(rule: u8) -> Option<&'static str>
    ensures { is_some result ≡ is_rule rule }
{
    text(rule)
}

/// The titles of all rules, one a line with its number.
pub fn rule_list(alloc: Global) -> Result<Vec<u8>, AllocError> {
    let mut list = Vec::new(alloc);
    for rule in 1..=31u8 {
        put_title(&mut list, rule)?;
    }
    Ok(list)
}

fn put_title(list: &mut Vec<u8>, rule: u8) -> Result<(), AllocError> {
    put(list, indent(rule))?;
    put_number(list, u64::from(rule))?;
    put(list, "  ")?;
    put(list, title_of(rule))?;
    put(list, "\n")
}

fn indent(rule: u8) -> &'static str {
    if rule < 10 { " " } else { "" }
}

/// The title of a rule; none where there is no such rule.
pub(crate) fn title_of(rule: u8) -> &'static str {
    match title(rule) {
        None => "",
        Some(title) => title,
    }
}

/// Appends what a rule asks and what is mostly wrong where it is broken, each line indented.
pub(crate) fn put_gist(to: &mut Vec<u8>, rule: u8) -> Result<(), AllocError> {
    match rule_text(rule) {
        None => Ok(()),
        Some(whole) => put_parts(to, whole),
    }
}

// The second and the third part of a text: before them stands the title, behind them where to read on.
fn put_parts(to: &mut Vec<u8>, whole: &str) -> Result<(), AllocError> {
    match whole.split_once("\n\n") {
        None => Ok(()),
        Some((_, rest)) => put_part_and_rest(to, rest),
    }
}

fn put_part_and_rest(to: &mut Vec<u8>, rest: &str) -> Result<(), AllocError> {
    match rest.split_once("\n\n") {
        None => put_indented(to, rest),
        Some((part, rest)) => {
            put_indented(to, part)?;
            put_first_part(to, rest)
        }
    }
}

fn put_first_part(to: &mut Vec<u8>, rest: &str) -> Result<(), AllocError> {
    match rest.split_once("\n\n") {
        None => put_indented(to, rest),
        Some((part, _)) => put_indented(to, part),
    }
}

fn put_indented(to: &mut Vec<u8>, part: &str) -> Result<(), AllocError> {
    for line in part.lines() {
        put_indented_line(to, line)?;
    }
    Ok(())
}

fn put_indented_line(to: &mut Vec<u8>, line: &str) -> Result<(), AllocError> {
    put(to, "  ")?;
    put(to, line)?;
    put(to, "\n")
}
