//! What a request has at each name.

ghost use Rattle.std.specs.Prelude.{◌≡◌, ◌+◌, ◌*◌, OnOk};
ghost use Rattle.serde_json.specs.View.{members_view, view};
ghost use Rattle.request_facts.specs.Requests.{address_in, address_of, kind_word, outcome_word, with_clock, with_outcome, with_snoop_end, with_target};

use fsb_encode::{Kind, Request};
use fsb_owner_table::Snooped;
use fsb_trace::Outcome;
use reason_facts::{put_count, put_flag, put_word};
use serde_json::{Map, Value, put};
use std::alloc::{AllocError, Global};

/// Puts a clock that comes behind so many others at a name, or null.
#[tactic(auto, unfolding(crate::specs::Requests::with_clock))]
pub(crate) fn put_clock(
    object: &mut Map<String, Value>,
    alloc: Global,
    name: &str,
    before: u32,
    clock: Option<u32>,
) -> Result<(), AllocError>
    ensures { OnOk result (members_view object.new.entries
        ≡ with_clock name.now before clock (members_view object.old.entries)) }
{
    match clock {
        None => put(object, alloc, name, Value::Null),
        Some(clock) => put_count(object, alloc, name, u64::from(before) + u64::from(clock)),
    }
}

fn kind_word(kind: Kind) -> &'static str
    ensures { result.now ≡ kind_word kind }
{
    match kind {
        Kind::Reply => "reply",
        Kind::Invalidate => "invalidate",
        Kind::Read => "read",
        Kind::WriteBack => "writeback",
        Kind::Upgrade => "upgrade",
    }
}

// The byte address of a line.
fn address_in(line: u64) -> Value
    ensures { view result ≡ address_in (line * 32) }
{
    match line.checked_mul(32) {
        None => Value::Null,
        Some(address) => Value::from(address),
    }
}

// The address of the line that a request names; a reply names none.
#[tactic(auto, unfolding(crate::specs::Requests::address_of))]
fn address_of(request: &Request) -> Value
    ensures { view result ≡ address_of request.now }
{
    match request.kind {
        Kind::Reply => Value::Null,
        Kind::Invalidate | Kind::Read | Kind::WriteBack | Kind::Upgrade => address_in(request.line),
    }
}

/// Puts what a request asks for: its kind, the address of its line, and its deferred ID.
#[tactic(auto, unfolding(crate::specs::Requests::with_target))]
pub(crate) fn put_target(
    object: &mut Map<String, Value>,
    alloc: Global,
    request: Option<Request>,
) -> Result<(), AllocError>
    ensures { OnOk result (members_view object.new.entries
        ≡ with_target request (members_view object.old.entries)) }
{
    match request {
        None => {
            put(object, alloc, "kind", Value::Null)?;
            put(object, alloc, "address", Value::Null)?;
            put(object, alloc, "id", Value::Null)
        }
        Some(request) => {
            put_word(object, alloc, "kind", kind_word(request.kind))?;
            put(object, alloc, "address", address_of(&request))?;
            put_count(object, alloc, "id", u64::from(request.did))
        }
    }
}

/// Puts the snoop end of a request, whose clock comes behind so many others, and the lines there.
#[tactic(auto, unfolding(crate::specs::Requests::with_snoop_end))]
pub(crate) fn put_snoop_end(
    object: &mut Map<String, Value>,
    alloc: Global,
    before: u32,
    snoop: Option<Snooped>,
) -> Result<(), AllocError>
    ensures { OnOk result (members_view object.new.entries
        ≡ with_snoop_end before snoop (members_view object.old.entries)) }
{
    match snoop {
        None => {
            put(object, alloc, "snoop_end", Value::Null)?;
            put(object, alloc, "hit", Value::Null)?;
            put(object, alloc, "hitm", Value::Null)?;
            put(object, alloc, "defer", Value::Null)
        }
        Some(snoop) => {
            put_clock(object, alloc, "snoop_end", before, Some(snoop.clock))?;
            put_flag(object, alloc, "hit", snoop.hit)?;
            put_flag(object, alloc, "hitm", snoop.hitm)?;
            put_flag(object, alloc, "defer", snoop.defer)
        }
    }
}

fn outcome_word(outcome: Outcome) -> &'static str
    ensures { result.now ≡ outcome_word outcome }
{
    match outcome {
        Outcome::Granted => "granted",
        Outcome::Handed => "handed",
        Outcome::Retried => "retried",
        Outcome::Deferred => "deferred",
        Outcome::Written => "written",
        Outcome::Replied => "replied",
        Outcome::Failed => "failed",
        Outcome::Upgraded => "upgraded",
    }
}

/// Puts the outcome of a request, or a word for one that was cancelled.
#[tactic(auto, unfolding(crate::specs::Requests::with_outcome))]
pub(crate) fn put_outcome(
    object: &mut Map<String, Value>,
    alloc: Global,
    is_cancelled: bool,
    outcome: Option<Outcome>,
) -> Result<(), AllocError>
    ensures { OnOk result (members_view object.new.entries
        ≡ with_outcome is_cancelled outcome (members_view object.old.entries)) }
{
    match outcome {
        Some(outcome) => put_word(object, alloc, "outcome", outcome_word(outcome)),
        None => {
            if is_cancelled {
                put_word(object, alloc, "outcome", "aerr")
            } else {
                put(object, alloc, "outcome", Value::Null)
            }
        }
    }
}
