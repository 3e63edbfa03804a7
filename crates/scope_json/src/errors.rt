//! The report of a dump that was not judged.

ghost use Rattle.std.specs.Prelude.{◌≡◌, IfOk};
ghost use Rattle.serde_json.specs.View.{view};
ghost use Rattle.scope_json.specs.Reports.{IsLineOf};

use crate::lines::lines_value;
use crate::report::{line_of, path_value, put_head};
use crate::text::text_value;
use reason_facts::put_word;
use scope_pick::{Variable, is_line_needed, named_lines, unfound_lines};
use scope_report::{Ending, refusal_text};
use scope_wiring::{Cause, Choice, Refusal, settled_lines};
use serde_json::{Map, Value, put};
use std::alloc::{AllocError, Global};

/// The report of a dump that was not judged, with this text for people, in one line.
pub fn error_report(alloc: Global, file: &str, message: &[u8]) -> Result<Vec<u8>, AllocError> {
    let mut error = Map::new(alloc);
    put_word(&mut error, alloc, "kind", "unread")?;
    put(&mut error, alloc, "message", text_value(alloc, message)?)?;
    report_with(alloc, file, error)
}

/// The report of a dump whose wires are not picked: why, what may have been meant, and the needed lines that are missing.
pub fn refusal_report(
    alloc: Global,
    file: &str,
    variables: &[Variable],
    choice: &Choice,
    refusal: &Refusal,
) -> Result<Vec<u8>, AllocError> {
    let message = refusal_text(alloc, file, variables, choice, refusal)?;
    let mut error = Map::new(alloc);
    put_word(&mut error, alloc, "kind", cause_word(refusal.cause))?;
    put(&mut error, alloc, "message", text_value(alloc, &message)?)?;
    let candidates = candidates_value(alloc, variables, choice, refusal)?;
    put(&mut error, alloc, "candidates", candidates)?;
    report_with(alloc, file, error)
}

// A report with this error.
fn report_with(
    alloc: Global,
    file: &str,
    error: Map<String, Value>,
) -> Result<Vec<u8>, AllocError> {
    let mut object = Map::new(alloc);
    put_head(&mut object, alloc, file, Ending::Unjudged)?;
    put(&mut object, alloc, "error", Value::Object(error))?;
    line_of(alloc, &Value::Object(object))
}

fn cause_word(cause: Cause) -> &'static str {
    match cause {
        Cause::Needed(_) => "needed_left_out",
        Cause::Twice(_) => "named_twice",
        Cause::NoScope => "no_scope",
        Cause::NotWhole(_) => "scope_not_whole",
        Cause::NoneWhole => "no_whole_scope",
        Cause::Several => "several_scopes",
        Cause::NoVariable(_) => "no_variable",
        Cause::SeveralVariables(_) => "several_variables",
        Cause::CannotBe(_) => "cannot_be_line",
        Cause::LacksBits(_) => "lacks_bits",
    }
}

// What may have been meant: scopes with the needed lines that they lack, or variables.
fn candidates_value(
    alloc: Global,
    variables: &[Variable],
    choice: &Choice,
    refusal: &Refusal,
) -> Result<Value, AllocError> {
    let settled = settled_lines(alloc, &choice.lines, &choice.without)?;
    let mut list = Vec::new(alloc);
    if let Cause::NotWhole(scope) = refusal.cause {
        list.push(scope_value(alloc, variables, &settled, scope)?)?;
        return Ok(Value::Array(list));
    }
    for index in &refusal.candidates {
        list.push(candidate_value(alloc, variables, &settled, refusal.cause, *index)?)?;
    }
    Ok(Value::Array(list))
}

// One of them: a scope or a variable, as the cause has it.
fn candidate_value(
    alloc: Global,
    variables: &[Variable],
    settled: &[u8],
    cause: Cause,
    index: usize,
) -> Result<Value, AllocError> {
    match cause {
        Cause::NoScope | Cause::NoneWhole | Cause::Several => {
            scope_value(alloc, variables, settled, index)
        }
        _ => variable_value(alloc, variables, index),
    }
}

// A scope, and the needed lines that are not found in it.
fn scope_value(
    alloc: Global,
    variables: &[Variable],
    settled: &[u8],
    scope: usize,
) -> Result<Value, AllocError> {
    let names = named_lines(alloc, variables)?;
    let unfound = unfound_lines(alloc, &names, settled, scope)?;
    let missing = needed_of(alloc, &unfound)?;
    let mut object = Map::new(alloc);
    put(
        &mut object,
        alloc,
        "scope",
        path_value(alloc, variables, scope)?,
    )?;
    put(&mut object, alloc, "missing", lines_value(alloc, &missing)?)?;
    Ok(Value::Object(object))
}

// Those of the lines that are needed.
fn needed_of(alloc: Global, lines: &[u8]) -> Result<Vec<u8>, AllocError> {
    let mut needed = Vec::new(alloc);
    for line in lines {
        if *line < 22 && is_line_needed(*line) {
            needed.push(*line)?;
        }
    }
    Ok(needed)
}

// A variable: its scope and name.
fn variable_value(
    alloc: Global,
    variables: &[Variable],
    index: usize,
) -> Result<Value, AllocError> {
    let mut object = Map::new(alloc);
    put(
        &mut object,
        alloc,
        "scope",
        path_value(alloc, variables, index)?,
    )?;
    match variables.get(index) {
        None => {}
        Some(variable) => {
            put(
                &mut object,
                alloc,
                "name",
                text_value(alloc, &variable.name)?,
            )?;
        }
    }
    Ok(Value::Object(object))
}
