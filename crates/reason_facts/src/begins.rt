//! Numbers of the reasons for a request that begins, and for a line.

ghost use Rattle.std.specs.Prelude.{◌≡◌, ◌-◌, OnOk};
ghost use Rattle.serde_json.specs.View.{members_view};
ghost use Rattle.reason_facts.specs.Values.{with_count};
ghost use Rattle.reason_facts.specs.Facts.{begin_facts, id_facts, line_facts, with_fault, with_first};

use crate::value::{
    Object, put_agent, put_clock, put_count, put_flag, put_maybe_agent, put_maybe_clock, put_word,
};
use fsb_encode::DecodeFault;
use fsb_reasons::Reason;
use std::alloc::{AllocError, Global};

// Puts the clock that lies so many before this one.
fn put_before(
    object: &mut Object,
    alloc: Global,
    name: &str,
    clock: u32,
    distance: u32,
) -> Result<(), AllocError>
    ensures { OnOk result (members_view object.new.entries
        ≡ with_count name.now (clock - distance) (members_view object.old.entries)) }
{
    put_clock(object, alloc, name, clock.saturating_sub(distance))
}

// Puts the first clock of the request whose second clock this is.
fn put_first(object: &mut Object, alloc: Global, clock: u32) -> Result<(), AllocError>
    ensures { OnOk result (members_view object.new.entries
        ≡ with_first clock (members_view object.old.entries)) }
{
    put_before(object, alloc, "first_clock", clock, 1)
}

// Puts what of a request is not lawful.
#[tactic(auto, unfolding(crate::specs::Facts::with_fault))]
fn put_fault(object: &mut Object, alloc: Global, fault: DecodeFault) -> Result<(), AllocError>
    ensures { OnOk result (members_view object.new.entries
        ≡ with_fault fault (members_view object.old.entries)) }
{
    match fault {
        DecodeFault::BadCode(code) => {
            put_word(object, alloc, "fault", "code")?;
            put_count(object, alloc, "found", u64::from(code))
        }
        DecodeFault::BadLen(length) => {
            put_word(object, alloc, "fault", "length")?;
            put_count(object, alloc, "found", u64::from(length))
        }
        DecodeFault::BadField => put_word(object, alloc, "fault", "field"),
    }
}

/// Puts the numbers of rules 2 to 6.
#[tactic(auto, unfolding(crate::specs::Facts::begin_facts))]
pub(crate) fn put_begin(
    object: &mut Object,
    alloc: Global,
    clock: u32,
    reason: &Reason,
) -> Result<(), AllocError>
    ensures { OnOk result (members_view object.new.entries
        ≡ begin_facts clock reason.now (members_view object.old.entries)) }
{
    match reason {
        Reason::TooSoon { before, earliest } => {
            put_clock(object, alloc, "last_begin", *before)?;
            put_count(object, alloc, "earliest", *earliest)
        }
        Reason::UnknownBits { clock: unknown } => {
            put_first(object, alloc, clock)?;
            put_clock(object, alloc, "unknown_at", *unknown)
        }
        Reason::Unlawful { fault } => {
            put_first(object, alloc, clock)?;
            put_fault(object, alloc, *fault)
        }
        Reason::QueueFull { in_flight, oldest } => {
            put_clock(object, alloc, "in_flight", *in_flight)?;
            put_clock(object, alloc, "oldest", *oldest)
        }
        Reason::Blocked { clock: blocked } => put_clock(object, alloc, "blocked_at", *blocked),
        Reason::Locked { holder } => {
            put_before(object, alloc, "asked_at", clock, 2)?;
            put_maybe_agent(object, alloc, "holder", *holder)
        }
        Reason::NoneAsks { clock: asked } => put_clock(object, alloc, "asked_at", *asked),
        _ => Ok(()),
    }
}

/// Puts the numbers of rules 7 and 18.
#[tactic(auto, unfolding(crate::specs::Facts::id_facts))]
pub(crate) fn put_id(
    object: &mut Object,
    alloc: Global,
    clock: u32,
    reason: &Reason,
) -> Result<(), AllocError>
    ensures { OnOk result (members_view object.new.entries
        ≡ id_facts clock reason.now (members_view object.old.entries)) }
{
    match reason {
        Reason::NoId => put_first(object, alloc, clock),
        Reason::ReplyByOther { winner } => {
            put_first(object, alloc, clock)?;
            put_maybe_agent(object, alloc, "winner", *winner)
        }
        Reason::IdOfOther { did, winner } => {
            put_first(object, alloc, clock)?;
            put_count(object, alloc, "id", u64::from(*did))?;
            put_count(object, alloc, "id_agent", u64::from(*did / 16))?;
            put_maybe_agent(object, alloc, "winner", *winner)
        }
        Reason::ReplyUnawaited { did } => {
            put_first(object, alloc, clock)?;
            put_count(object, alloc, "id", u64::from(*did))
        }
        Reason::IdTaken { did, by } => {
            put_first(object, alloc, clock)?;
            put_count(object, alloc, "id", u64::from(*did))?;
            put_clock(object, alloc, "taken_by", *by)
        }
        Reason::TooMany { who, outstanding } => {
            put_first(object, alloc, clock)?;
            put_agent(object, alloc, "agent", *who)?;
            put_clock(object, alloc, "outstanding", *outstanding)
        }
        _ => Ok(()),
    }
}

/// Puts the numbers of rules 8, 10 and 19.
#[tactic(auto, unfolding(crate::specs::Facts::line_facts))]
pub(crate) fn put_line(
    object: &mut Object,
    alloc: Global,
    clock: u32,
    reason: &Reason,
) -> Result<(), AllocError>
    ensures { OnOk result (members_view object.new.entries
        ≡ line_facts clock reason.now (members_view object.old.entries)) }
{
    match reason {
        Reason::Dropped { who } => put_agent(object, alloc, "agent", *who),
        Reason::Held { who } => {
            put_first(object, alloc, clock)?;
            put_agent(object, alloc, "agent", *who)
        }
        Reason::ErrorAlone { last } => put_maybe_clock(object, alloc, "last_begin", *last),
        Reason::AddressParity { low, high } => {
            put_flag(object, alloc, "low", *low)?;
            put_flag(object, alloc, "high", *high)
        }
        _ => Ok(()),
    }
}
