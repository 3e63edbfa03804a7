//! The requests around a clock.

ghost use Rattle.std.specs.Prelude.{◌≡◌, IfOk, OnOk};
ghost use Rattle.serde_json.specs.View.{members_view, view};
ghost use Rattle.request_facts.specs.Requests.{request_data, requests_data, with_course, with_requests, with_seen};

use crate::members::{put_clock, put_outcome, put_snoop_end, put_target};
use fsb_owner_table::Row;
use fsb_recent::Around;
use fsb_trace::Seen;
use reason_facts::put_maybe_agent;
use serde_json::{Map, Value, put};
use std::alloc::{AllocError, Global};

// Puts what is seen of a request.
#[tactic(auto, unfolding(crate::specs::Requests::with_seen))]
fn put_seen(
    object: &mut Map<String, Value>,
    alloc: Global,
    before: u32,
    seen: &Seen,
) -> Result<(), AllocError>
    ensures { OnOk result (members_view object.new.entries
        ≡ with_seen before seen.now (members_view object.old.entries)) }
{
    put_clock(object, alloc, "first_clock", before, Some(seen.clock))?;
    put_maybe_agent(object, alloc, "agent", seen.who)?;
    put_target(object, alloc, seen.request)
}

// Puts what is reached of a request.
#[tactic(auto, unfolding(crate::specs::Requests::with_course))]
fn put_course(
    object: &mut Map<String, Value>,
    alloc: Global,
    before: u32,
    row: &Row,
) -> Result<(), AllocError>
    ensures { OnOk result (members_view object.new.entries
        ≡ with_course before row.now (members_view object.old.entries)) }
{
    put_snoop_end(object, alloc, before, row.snoop)?;
    put_clock(object, alloc, "response", before, row.response)?;
    put_outcome(object, alloc, row.seen.cancelled, row.outcome)?;
    put_clock(object, alloc, "end", before, row.end)?;
    put_clock(object, alloc, "reply", before, row.reply)
}

// The object of a request, whose clocks come behind so many others.
fn request_value(alloc: Global, before: u32, row: &Row) -> Result<Value, AllocError>
    ensures { IfOk result (λ v. view v ≡ request_data before row.now) }
{
    let mut object = Map::new(alloc);
    put_seen(&mut object, alloc, before, &row.seen)?;
    put_course(&mut object, alloc, before, row)?;
    Ok(Value::Object(object))
}

/// Requests, in order.
fn requests_value(alloc: Global, before: u32, rows: &[Row]) -> Result<Value, AllocError>
    ensures { IfOk result (λ v. view v ≡ requests_data before rows.now) }
{
    let mut list = Vec::new(alloc);
    for row in rows {
        list.push(request_value(alloc, before, row)?)?;
    }
    Ok(Value::Array(list))
}

/// Puts the requests around a clock, whose clocks come behind so many others: those that were over last, and those in flight.
pub fn put_requests(
    object: &mut Map<String, Value>,
    alloc: Global,
    before: u32,
    around: &Around,
) -> Result<(), AllocError>
    ensures { OnOk result (members_view object.new.entries
        ≡ with_requests before around.now (members_view object.old.entries)) }
{
    let over = requests_value(alloc, before, &around.past)?;
    let in_flight = requests_value(alloc, before, &around.flight)?;
    put(object, alloc, "requests_over", over)?;
    put(object, alloc, "requests_in_flight", in_flight)
}
