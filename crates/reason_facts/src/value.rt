//! Numbers, agents and requests as members of an object.

ghost use Rattle.std.specs.Prelude.{◌≡◌, IfOk, OnOk};
ghost use Rattle.serde_json.specs.Data.{put as with_member, string};
ghost use Rattle.serde_json.specs.View.{members_view, view};
ghost use Rattle.reason_facts.specs.Values.{agent, maybe, maybe_agent, with_count, with_flag, with_maybe, with_request, with_snoop, with_wait};

use fsb_reasons::{Concerned, SnoopLines, Wait};
use fsb_trace::Who;
use serde_json::{Map, Value, put};
use std::alloc::{AllocError, Global};

/// An object that grows.
pub(crate) type Object = Map<String, Value>;

/// A number, or null where there is none.
pub fn maybe(number: Option<u64>) -> Value
    ensures { view result ≡ maybe number }
{
    match number {
        None => Value::Null,
        Some(number) => Value::from(number),
    }
}

/// A clock, or null where there is none.
pub(crate) fn maybe_clock(clock: Option<u32>) -> Value
    ensures { view result ≡ maybe clock }
{
    match clock {
        None => Value::Null,
        Some(clock) => Value::from(clock),
    }
}

/// Puts a number at a name.
pub fn put_count(
    object: &mut Map<String, Value>,
    alloc: Global,
    name: &str,
    number: u64,
) -> Result<(), AllocError>
    ensures { OnOk result (members_view object.new.entries
        ≡ with_count name.now number (members_view object.old.entries)) }
{
    put(object, alloc, name, Value::from(number))
}

/// Puts a clock at a name.
pub(crate) fn put_clock(
    object: &mut Object,
    alloc: Global,
    name: &str,
    clock: u32,
) -> Result<(), AllocError>
    ensures { OnOk result (members_view object.new.entries
        ≡ with_count name.now clock (members_view object.old.entries)) }
{
    put(object, alloc, name, Value::from(clock))
}

/// Puts a yes or no at a name.
pub fn put_flag(
    object: &mut Map<String, Value>,
    alloc: Global,
    name: &str,
    flag: bool,
) -> Result<(), AllocError>
    ensures { OnOk result (members_view object.new.entries
        ≡ with_flag name.now flag (members_view object.old.entries)) }
{
    put(object, alloc, name, Value::from(flag))
}

/// Puts a clock at a name, or null.
pub(crate) fn put_maybe_clock(
    object: &mut Object,
    alloc: Global,
    name: &str,
    clock: Option<u32>,
) -> Result<(), AllocError>
    ensures { OnOk result (members_view object.new.entries
        ≡ with_maybe name.now clock (members_view object.old.entries)) }
{
    put(object, alloc, name, maybe_clock(clock))
}

/// Puts a clock that may lie behind those of a dump at a name, or null.
pub(crate) fn put_maybe(
    object: &mut Object,
    alloc: Global,
    name: &str,
    clock: Option<u64>,
) -> Result<(), AllocError>
    ensures { OnOk result (members_view object.new.entries
        ≡ with_maybe name.now clock (members_view object.old.entries)) }
{
    put(object, alloc, name, maybe(clock))
}

/// Puts a word at a name.
pub fn put_word(
    object: &mut Map<String, Value>,
    alloc: Global,
    name: &str,
    word: &str,
) -> Result<(), AllocError>
    ensures { OnOk result (members_view object.new.entries
        ≡ with_member name.now (string word.now) (members_view object.old.entries)) }
{
    let word = Value::try_from_str(alloc, word)?;
    put(object, alloc, name, word)
}

// An agent: its number, or a word for the priority agent.
fn agent(alloc: Global, who: Who) -> Result<Value, AllocError>
    ensures { IfOk result (λ v. view v ≡ agent who) }
{
    match who {
        Who::Symmetric(number) => Ok(Value::from(number)),
        Who::Priority => Value::try_from_str(alloc, "priority"),
    }
}

/// Puts an agent at a name.
pub(crate) fn put_agent(
    object: &mut Object,
    alloc: Global,
    name: &str,
    who: Who,
) -> Result<(), AllocError>
    ensures { OnOk result (members_view object.new.entries
        ≡ with_member name.now (agent who) (members_view object.old.entries)) }
{
    let agent = agent(alloc, who)?;
    put(object, alloc, name, agent)
}

/// Puts an agent at a name, or null where it is nobody.
pub fn put_maybe_agent(
    object: &mut Map<String, Value>,
    alloc: Global,
    name: &str,
    who: Option<Who>,
) -> Result<(), AllocError>
    ensures { OnOk result (members_view object.new.entries
        ≡ with_member name.now (maybe_agent who) (members_view object.old.entries)) }
{
    match who {
        None => put(object, alloc, name, Value::Null),
        Some(who) => put_agent(object, alloc, name, who),
    }
}

/// Puts the number and the first clock of a request.
pub(crate) fn put_request(
    object: &mut Object,
    alloc: Global,
    request: Concerned,
) -> Result<(), AllocError>
    ensures { OnOk result (members_view object.new.entries
        ≡ with_request request (members_view object.old.entries)) }
{
    put_clock(object, alloc, "request", request.number)?;
    put_clock(object, alloc, "first_clock", request.clock)
}

/// Puts the three lines that tell of a snoop.
pub(crate) fn put_snoop(
    object: &mut Object,
    alloc: Global,
    lines: SnoopLines,
) -> Result<(), AllocError>
    ensures { OnOk result (members_view object.new.entries
        ≡ with_snoop lines (members_view object.old.entries)) }
{
    put_flag(object, alloc, "hit", lines.hit)?;
    put_flag(object, alloc, "hitm", lines.hitm)?;
    put_flag(object, alloc, "defer", lines.defer)
}

/// Puts what a request waits for.
#[tactic(auto, unfolding(crate::specs::Values::with_wait))]
pub(crate) fn put_wait(object: &mut Object, alloc: Global, wait: Wait) -> Result<(), AllocError>
    ensures { OnOk result (members_view object.new.entries
        ≡ with_wait wait (members_view object.old.entries)) }
{
    match wait {
        Wait::NoSnoopEnd => put_word(object, alloc, "wait", "no_snoop_end"),
        Wait::SnoopEnd(clock) => {
            put_word(object, alloc, "wait", "snoop_end")?;
            put_clock(object, alloc, "snoop_end", clock)
        }
        Wait::NotClear(clock) => {
            put_word(object, alloc, "wait", "request_before")?;
            put_maybe_clock(object, alloc, "end_before", clock)
        }
    }
}
