//! Numbers of the reasons for what has no level.

ghost use Rattle.std.specs.Prelude.{◌≡◌, ◌<◌, ◌++◌, ◌∷◌, [], ℕ, List, IfOk, OnOk, Some, map, slice_get};
ghost use Rattle.serde_json.specs.View.{members_view, view};
ghost use Rattle.fsb_signal.specs.ControlLines.{line_names};
ghost use Rattle.reason_facts.specs.Unknown.{names_data, names_in, unknown_facts};

use crate::value::{Object, put_count};
use fsb_reasons::Reason;
use fsb_signal::{Lines, control_line};
use serde_json::{Value, put};
use std::alloc::{AllocError, Global};

// Appends the name of the control line of this number, if the line is among these.
fn put_name(
    list: &mut Vec<Value>,
    alloc: Global,
    lines: Lines,
    number: usize,
) -> Result<(), AllocError>
    requires { number < 21 }
    ensures { (row : List ℕ × ℕ) → slice_get line_names number ≡ Some row →
        OnOk result (map view list.new.items
        ≡ map view list.old.items ++ names_in lines (row ∷ [])) }
{
    let (name, line) = control_line(number);
    if lines.0 & line.0 == line.0 {
        list.push(Value::try_from_str(alloc, name)?)?;
    }
    Ok(())
}

// The names of the control lines that are among these.
fn names_value(alloc: Global, lines: Lines) -> Result<Value, AllocError>
    ensures { IfOk result (λ v. view v ≡ names_data lines) }
{
    let mut list = Vec::new(alloc);
    for number in 0..21 {
        put_name(&mut list, alloc, lines, number)?;
    }
    Ok(Value::Array(list))
}

/// Puts the lines of rule 1, and the bits of rule 17.
#[tactic(auto, unfolding(crate::specs::Unknown::unknown_facts))]
pub(crate) fn put_unknown(
    object: &mut Object,
    alloc: Global,
    reason: &Reason,
) -> Result<(), AllocError>
    ensures { OnOk result (members_view object.new.entries
        ≡ unknown_facts reason.now (members_view object.old.entries)) }
{
    match reason {
        Reason::UnknownLines { lines } => {
            let names = names_value(alloc, *lines)?;
            put(object, alloc, "lines", names)
        }
        Reason::UnknownData { bits } => put_count(object, alloc, "bits", *bits),
        _ => Ok(()),
    }
}
