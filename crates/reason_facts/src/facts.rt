//! All numbers of a reason.

ghost use Rattle.std.specs.Prelude.{◌≡◌, IfOk};
ghost use Rattle.serde_json.specs.Data.{object};
ghost use Rattle.serde_json.specs.View.{view};
ghost use Rattle.reason_facts.specs.Facts.{facts};

use crate::answers::{put_answer, put_data, put_ready};
use crate::begins::{put_begin, put_id, put_line};
use crate::snoops::put_snooped;
use crate::unknown::put_unknown;
use fsb_reasons::Reason;
use serde_json::{Map, Value};
use std::alloc::{AllocError, Global};

/// The object of the numbers on which a reason that holds at this clock rests.
#[tactic(auto, unfolding(crate::specs::Facts::facts))]
pub fn facts_value(alloc: Global, clock: u32, reason: &Reason) -> Result<Value, AllocError>
    ensures { IfOk result (λ v. view v ≡ object (facts clock reason.now)) }
{
    let mut object = Map::new(alloc);
    put_begin(&mut object, alloc, clock, reason)?;
    put_id(&mut object, alloc, clock, reason)?;
    put_line(&mut object, alloc, clock, reason)?;
    put_snooped(&mut object, alloc, reason)?;
    put_answer(&mut object, alloc, reason)?;
    put_ready(&mut object, alloc, reason)?;
    put_data(&mut object, alloc, reason)?;
    put_unknown(&mut object, alloc, reason)?;
    Ok(Value::Object(object))
}
