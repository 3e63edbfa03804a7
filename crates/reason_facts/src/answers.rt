//! Numbers of the reasons for responses, TRDY# and data.

ghost use Rattle.std.specs.Prelude.{◌≡◌, OnOk};
ghost use Rattle.serde_json.specs.View.{members_view};
ghost use Rattle.reason_facts.specs.Facts.{answer_facts, data_facts, ready_facts};

use crate::value::{
    Object, put_clock, put_count, put_flag, put_maybe, put_maybe_clock, put_request, put_wait,
};
use fsb_reasons::Reason;
use fsb_trace::code_of;
use std::alloc::{AllocError, Global};

/// Puts the numbers of rules 13 and 14.
#[tactic(auto, unfolding(crate::specs::Facts::answer_facts))]
pub(crate) fn put_answer(
    object: &mut Object,
    alloc: Global,
    reason: &Reason,
) -> Result<(), AllocError>
    ensures { OnOk result (members_view object.new.entries
        ≡ answer_facts reason.now (members_view object.old.entries)) }
{
    match reason {
        Reason::NothingToAnswer { number } => put_clock(object, alloc, "answered", *number),
        Reason::ResponseEarly {
            request,
            wait,
            earliest,
        } => {
            put_request(object, alloc, *request)?;
            put_wait(object, alloc, *wait)?;
            put_maybe(object, alloc, "earliest", *earliest)
        }
        Reason::CodeForNone { number, code } => {
            put_clock(object, alloc, "answered", *number)?;
            put_count(object, alloc, "found", u64::from(*code))
        }
        Reason::CodeUnsettled {
            request,
            found,
            expected,
        } => {
            put_request(object, alloc, *request)?;
            put_count(object, alloc, "found", u64::from(*found))?;
            put_count(object, alloc, "expected", u64::from(code_of(*expected)))
        }
        Reason::CodeWrong {
            request,
            snoop_end,
            found,
            expected,
            may_defer,
        } => {
            put_request(object, alloc, *request)?;
            put_clock(object, alloc, "snoop_end", *snoop_end)?;
            put_count(object, alloc, "found", u64::from(*found))?;
            put_count(object, alloc, "expected", u64::from(code_of(*expected)))?;
            put_flag(object, alloc, "may_defer", *may_defer)
        }
        _ => Ok(()),
    }
}

/// Puts the numbers of rule 15.
#[tactic(auto, unfolding(crate::specs::Facts::ready_facts))]
pub(crate) fn put_ready(
    object: &mut Object,
    alloc: Global,
    reason: &Reason,
) -> Result<(), AllocError>
    ensures { OnOk result (members_view object.new.entries
        ≡ ready_facts reason.now (members_view object.old.entries)) }
{
    match reason {
        Reason::ReadyForNone { number } => put_clock(object, alloc, "answered", *number),
        Reason::ReadyUnsettled { request } => put_request(object, alloc, *request),
        Reason::ReadyUnwanted { request, snoop_end } => {
            put_request(object, alloc, *request)?;
            put_clock(object, alloc, "snoop_end", *snoop_end)
        }
        Reason::ReadyEarly {
            request,
            wait,
            earliest,
        } => {
            put_request(object, alloc, *request)?;
            put_wait(object, alloc, *wait)?;
            put_maybe(object, alloc, "earliest", *earliest)
        }
        Reason::ReadyTwice { request, ready } => {
            put_request(object, alloc, *request)?;
            put_clock(object, alloc, "ready", *ready)
        }
        Reason::ResponseUnready {
            request,
            ready,
            earliest,
        } => {
            put_request(object, alloc, *request)?;
            put_maybe_clock(object, alloc, "ready", *ready)?;
            put_maybe(object, alloc, "earliest", *earliest)
        }
        _ => Ok(()),
    }
}

/// Puts the numbers of rule 16.
#[tactic(auto, unfolding(crate::specs::Facts::data_facts))]
pub(crate) fn put_data(
    object: &mut Object,
    alloc: Global,
    reason: &Reason,
) -> Result<(), AllocError>
    ensures { OnOk result (members_view object.new.entries
        ≡ data_facts reason.now (members_view object.old.entries)) }
{
    match reason {
        Reason::DataForNone { last } => put_maybe_clock(object, alloc, "last_response", *last),
        Reason::BusyMissing {
            request,
            response,
            chunks,
        } => {
            put_request(object, alloc, *request)?;
            put_clock(object, alloc, "response", *response)?;
            put_clock(object, alloc, "chunks", *chunks)
        }
        Reason::BusyForNone { last } => put_maybe_clock(object, alloc, "last_response", *last),
        _ => Ok(()),
    }
}
