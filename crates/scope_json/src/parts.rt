//! The parts that were judged.

ghost use Rattle.std.specs.Prelude.{◌≡◌, ◌++◌, ◌∷◌, [], map, IfOk};
ghost use Rattle.serde_json.specs.View.{view};
ghost use Rattle.scope_json.specs.Parts.{end_word, part_data, parts_data, verdict_word};

use reason_facts::{put_count, put_flag, put_word};
use scope_check::Verdict;
use scope_parts::{End, PartFound};
use serde_json::{Map, Value};
use std::alloc::{AllocError, Global};

/// The word for a verdict.
pub(crate) fn verdict_word(verdict: &Verdict) -> &'static str
    ensures { result.now ≡ verdict_word verdict.now }
{
    match verdict {
        Verdict::Nothing => "nothing",
        Verdict::Accepted => "accepted",
        Verdict::Broken { .. } => "rejected",
    }
}

fn end_word(end: End) -> &'static str
    ensures { result.now ≡ end_word end }
{
    match end {
        End::Dump => "dump",
        End::Hole => "hole",
        End::Broken => "broken",
        End::Reply => "reply",
    }
}

#[tactic(auto, unfolding(crate::specs::Parts::part_data))]
fn part_value(alloc: Global, part: &PartFound) -> Result<Value, AllocError>
    ensures { IfOk result (λ v. view v ≡ part_data part.now) }
{
    let mut object = Map::new(alloc);
    put_count(&mut object, alloc, "start", part.start)?;
    put_count(&mut object, alloc, "judged", part.judged)?;
    put_flag(&mut object, alloc, "is_history_known", !part.is_later)?;
    put_word(&mut object, alloc, "verdict", verdict_word(&part.verdict))?;
    put_word(&mut object, alloc, "end", end_word(part.end))?;
    Ok(Value::Object(object))
}

/// The parts, in order.
pub(crate) fn parts_value(alloc: Global, parts: &[PartFound]) -> Result<Value, AllocError>
    ensures { IfOk result (λ v. view v ≡ parts_data parts.now) }
{
    let mut list = Vec::new(alloc);
    for part in parts {
        list.push(part_value(alloc, part)?)?;
    }
    Ok(Value::Array(list))
}
