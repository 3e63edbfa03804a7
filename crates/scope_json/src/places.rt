//! Where a clock stands in a dump.

ghost use Rattle.std.specs.Prelude.{◌≡◌, ◌*◌, OnOk};
ghost use Rattle.serde_json.specs.View.{members_view, view};
ghost use Rattle.scope_time.specs.Scales.{factor_of};
ghost use Rattle.scope_json.specs.Places.{time_in, unit_name, with_place, with_time};

use reason_facts::{put_count, put_word};
use scope_time::{Factor, Scale, factor_of};
use scope_words::Unit;
use serde_json::{Map, Value, put};
use std::alloc::{AllocError, Global};
use vcd_course::Stamp;

/// The name of a unit.
pub(crate) fn unit_name(unit: Unit) -> &'static str
    ensures { result.now ≡ unit_name unit }
{
    match unit {
        Unit::Second => "s",
        Unit::Millisecond => "ms",
        Unit::Microsecond => "us",
        Unit::Nanosecond => "ns",
        Unit::Picosecond => "ps",
        Unit::Femtosecond => "fs",
    }
}

// So many steps, in the unit of their scale.
fn time_in(step: u64, factor: Factor) -> Value
    ensures { view result ≡ time_in (step * factor_of factor) }
{
    match step.checked_mul(factor_of(factor)) {
        None => Value::Null,
        Some(time) => Value::from(time),
    }
}

// Puts the time of a step and its unit.
#[tactic(auto, unfolding(crate::specs::Places::with_time))]
fn put_time(
    object: &mut Map<String, Value>,
    alloc: Global,
    scale: Option<Scale>,
    step: u64,
) -> Result<(), AllocError>
    ensures { OnOk result (members_view object.new.entries
        ≡ with_time scale step (members_view object.old.entries)) }
{
    match scale {
        None => {
            put(object, alloc, "time", Value::Null)?;
            put(object, alloc, "unit", Value::Null)
        }
        Some(scale) => {
            put(object, alloc, "time", time_in(step, scale.factor))?;
            put_word(object, alloc, "unit", unit_name(scale.unit))
        }
    }
}

/// Puts where the edge of a clock stands in a dump of this scale.
#[tactic(auto, unfolding(crate::specs::Places::with_place))]
pub(crate) fn put_place(
    object: &mut Map<String, Value>,
    alloc: Global,
    scale: Option<Scale>,
    stamp: Option<Stamp>,
) -> Result<(), AllocError>
    ensures { OnOk result (members_view object.new.entries
        ≡ with_place scale stamp (members_view object.old.entries)) }
{
    match stamp {
        None => {
            put(object, alloc, "time", Value::Null)?;
            put(object, alloc, "unit", Value::Null)?;
            put(object, alloc, "step", Value::Null)?;
            put(object, alloc, "line", Value::Null)
        }
        Some(stamp) => {
            put_time(object, alloc, scale, stamp.time)?;
            put_count(object, alloc, "step", stamp.time)?;
            put_count(object, alloc, "line", stamp.line)
        }
    }
}
