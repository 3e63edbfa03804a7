//! Other ways to read a rejected dump.

ghost use Rattle.std.specs.Prelude.{◌≡◌};
ghost use Rattle.serde_json.specs.View.{view};
ghost use Rattle.scope_json.specs.Hints.{further_clock, further_word};

use crate::lines::line_name;
use reason_facts::put_word;
use scope_tries::{Further, Hint, Try};
use serde_json::{Map, Value, put};
use std::alloc::{AllocError, Global};

fn further_word(further: Further) -> &'static str
    ensures { result.now ≡ further_word further }
{
    match further {
        Further::Accepted => "accepted",
        Further::Broken(_) => "rejected",
    }
}

fn further_clock(further: Further) -> Value
    ensures { view result ≡ further_clock further }
{
    match further {
        Further::Accepted => Value::Null,
        Further::Broken(clock) => Value::from(clock),
    }
}

// The option that a hint gives, as words of a command line.
fn option_of(alloc: Global, by: Try) -> Result<String, AllocError> {
    match by {
        Try::First => String::from_str(alloc, "--first"),
        Try::After(line) => format!(in alloc; "--after {}", line_name(line)),
        Try::AfterRequests => { String::from_str(alloc, "--after BREQ0_n,BREQ1_n,BREQ2_n,BREQ3_n") }
    }
}

fn hint_value(alloc: Global, hint: Hint) -> Result<Value, AllocError> {
    let option = option_of(alloc, hint.by)?;
    let mut object = Map::new(alloc);
    put_word(&mut object, alloc, "option", option.as_str())?;
    put_word(&mut object, alloc, "verdict", further_word(hint.further))?;
    put(&mut object, alloc, "clock", further_clock(hint.further))?;
    Ok(Value::Object(object))
}

/// The ways in which a rejected dump gets further.
pub(crate) fn hints_value(alloc: Global, hints: &[Hint]) -> Result<Value, AllocError> {
    let mut list = Vec::new(alloc);
    for hint in hints {
        list.push(hint_value(alloc, *hint)?)?;
    }
    Ok(Value::Array(list))
}
