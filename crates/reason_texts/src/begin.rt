//! Sentences of the rules for a request that begins.

use crate::words::{Agent, Winner};
use fsb_encode::DecodeFault;
use fsb_reasons::Reason;
use std::fmt;

/// Rules 2 to 5.
pub(crate) fn put_begin<W: fmt::Write>(
    f: &mut fmt::Formatter<W>,
    clock: u32,
    reason: &Reason,
) -> fmt::Result {
    let before = clock.saturating_sub(1);
    match reason {
        Reason::AtStart => write!(
            f,
            "ADS# is asserted at {clock}. No request begins at the first two clocks."
        ),
        Reason::TooSoon { before, earliest } => write!(
            f,
            "ADS# is asserted at {clock}. It may come at {earliest} at the earliest: the last request began at {before}."
        ),
        Reason::UnknownBits { clock: unknown } => write!(
            f,
            "The request that began at {before} has a bit of its address or REQ without a level at {unknown}."
        ),
        Reason::Unlawful { fault } => put_fault(f, before, clock, *fault),
        Reason::QueueFull { in_flight, oldest } => write!(
            f,
            "ADS# is asserted at {clock} with {in_flight} requests in flight, the oldest since {oldest}. One may begin with at most seven."
        ),
        Reason::Blocked { clock: blocked } => write!(
            f,
            "ADS# is asserted at {clock}, and BNR# was asserted two clocks before, at {blocked}."
        ),
        _ => Ok(()),
    }
}

/// Why the two clocks of a request hold no lawful one.
fn put_fault<W: fmt::Write>(
    f: &mut fmt::Formatter<W>,
    first: u32,
    second: u32,
    fault: DecodeFault,
) -> fmt::Result {
    match fault {
        DecodeFault::BadCode(code) => write!(
            f,
            "The REQ word at {first}, {code:05b}, is no code of a request."
        ),
        DecodeFault::BadLen(len) => write!(
            f,
            "The REQ word at {second}, {len:05b}, is not the one of the request that began at {first}."
        ),
        DecodeFault::BadField => write!(
            f,
            "The request that began at {first} has an address bit that its kind does not have."
        ),
    }
}

/// Rule 6.
pub(crate) fn put_unwon<W: fmt::Write>(
    f: &mut fmt::Formatter<W>,
    clock: u32,
    reason: &Reason,
) -> fmt::Result {
    let asked = clock.saturating_sub(2);
    match reason {
        Reason::NotArbitrated => write!(
            f,
            "ADS# is asserted at {clock}. Agents ask two clocks before, so that no request begins at the first two clocks."
        ),
        Reason::Locked { holder: Some(who) } => write!(
            f,
            "ADS# is asserted at {clock}. LOCK# kept the bus for {} at {asked}, which did not ask there.",
            Agent(*who)
        ),
        Reason::Locked { holder: None } => write!(
            f,
            "ADS# is asserted at {clock}. LOCK# was asserted at {asked}, and nobody held the bus."
        ),
        Reason::NoneAsks { clock: asked } => write!(
            f,
            "ADS# is asserted at {clock}. No agent asked for the bus two clocks before, at {asked}."
        ),
        _ => Ok(()),
    }
}

/// Rules 7 and 18.
pub(crate) fn put_id<W: fmt::Write>(
    f: &mut fmt::Formatter<W>,
    clock: u32,
    reason: &Reason,
) -> fmt::Result {
    let first = clock.saturating_sub(1);
    match reason {
        Reason::NoId => write!(
            f,
            "The request that began at {first} is not decoded, so that it has no deferred ID."
        ),
        Reason::ReplyByOther { winner } => write!(
            f,
            "The request that began at {first} is a deferred reply, and {} won the bus. Only the priority agent replies.",
            Winner(*winner)
        ),
        Reason::IdOfOther { did, winner } => write!(
            f,
            "The request that began at {first} has the deferred ID {did}, one of agent {}. The bus was won by {}.",
            *did / 16,
            Winner(*winner)
        ),
        Reason::ReplyUnawaited { did } => write!(
            f,
            "The reply that began at {first} has the deferred ID {did}. No deferred request with this ID awaits one."
        ),
        Reason::IdTaken { did, by } => write!(
            f,
            "The request that began at {first} has the deferred ID {did}. The request that began at {by} has it and is outstanding."
        ),
        Reason::TooMany { who, outstanding } => write!(
            f,
            "At {first} a request of {} began, which had {outstanding} outstanding. It may begin one with at most three.",
            Agent(*who)
        ),
        _ => Ok(()),
    }
}
