//! Sentences of the rules for responses and TRDY#.

use crate::words::{Pending, Request, Waiting, outcome_name};
use fsb_reasons::Reason;
use fsb_trace::code_of;
use std::fmt;

/// Rule 13.
pub(crate) fn put_response<W: fmt::Write>(
    f: &mut fmt::Formatter<W>,
    clock: u32,
    reason: &Reason,
) -> fmt::Result {
    match reason {
        Reason::NothingToAnswer { number } => write!(
            f,
            "RS# is not idle at {clock}, and no request waits for a response. {number} came before."
        ),
        Reason::ResponseEarly {
            request,
            wait,
            earliest: Some(earliest),
        } => write!(
            f,
            "RS# is not idle at {clock}. It may answer at {earliest} at the earliest: {} {}.",
            Request(*request),
            Waiting(*wait)
        ),
        Reason::ResponseEarly {
            request,
            wait,
            earliest: None,
        } => write!(
            f,
            "RS# is not idle at {clock}, and {} {}.",
            Request(*request),
            Pending(*wait)
        ),
        _ => Ok(()),
    }
}

/// Rule 14.
pub(crate) fn put_code<W: fmt::Write>(
    f: &mut fmt::Formatter<W>,
    clock: u32,
    reason: &Reason,
) -> fmt::Result {
    match reason {
        Reason::CodeForNone { number, code } => write!(
            f,
            "RS# is {code:03b} at {clock}, and no request waits for a response. {number} came before."
        ),
        Reason::CodeUnsettled {
            request,
            found,
            expected,
        } => write!(
            f,
            "RS# is {found:03b} at {clock}, and {} has no snoop end yet. Without HITM# and DEFER# its code is {:03b}, {}.",
            Request(*request),
            code_of(*expected),
            outcome_name(*expected)
        ),
        Reason::CodeWrong {
            request,
            snoop_end,
            found,
            expected,
            may_defer,
        } => {
            write!(
                f,
                "RS# is {found:03b} at {clock}. The code of {} is {:03b}, {}, by its snoop end at {snoop_end}",
                Request(*request),
                code_of(*expected),
                outcome_name(*expected)
            )?;
            f.write_str(if *may_defer {
                ", or 010, deferred."
            } else {
                "."
            })
        }
        _ => Ok(()),
    }
}

/// Rule 15.
pub(crate) fn put_ready<W: fmt::Write>(
    f: &mut fmt::Formatter<W>,
    clock: u32,
    reason: &Reason,
) -> fmt::Result {
    match reason {
        Reason::ReadyForNone { number } => write!(
            f,
            "TRDY# is asserted at {clock}, and no request waits for a response. {number} came before."
        ),
        Reason::ReadyUnsettled { request } => write!(
            f,
            "TRDY# is asserted at {clock}, and {} has no snoop end yet. It is no write-back: only HITM# there makes memory take data.",
            Request(*request)
        ),
        Reason::ReadyUnwanted { request, snoop_end } => write!(
            f,
            "TRDY# is asserted at {clock}. Memory takes no data of {}: it is no write-back, and has its snoop end at {snoop_end} without HITM#.",
            Request(*request)
        ),
        Reason::ReadyEarly {
            request,
            wait,
            earliest: Some(earliest),
        } => write!(
            f,
            "TRDY# is asserted at {clock}. It may come at {earliest} at the earliest: {} {}.",
            Request(*request),
            Waiting(*wait)
        ),
        Reason::ReadyEarly {
            request,
            wait,
            earliest: None,
        } => write!(
            f,
            "TRDY# is asserted at {clock}, and {} {}.",
            Request(*request),
            Pending(*wait)
        ),
        Reason::ReadyTwice { request, ready } => write!(
            f,
            "TRDY# is asserted at {clock}. It was asserted for {} at {ready}.",
            Request(*request)
        ),
        _ => put_unready(f, clock, reason),
    }
}

/// Rule 15, of a response.
fn put_unready<W: fmt::Write>(
    f: &mut fmt::Formatter<W>,
    clock: u32,
    reason: &Reason,
) -> fmt::Result {
    match reason {
        Reason::ResponseUnready {
            request,
            ready: Some(ready),
            earliest: Some(earliest),
        } => write!(
            f,
            "RS# answers {} at {clock}. It may do so at {earliest} at the earliest: TRDY# is asserted for it at {ready}.",
            Request(*request)
        ),
        Reason::ResponseUnready { request, .. } => write!(
            f,
            "RS# answers {} at {clock}, and TRDY# was not asserted for it two clocks before.",
            Request(*request)
        ),
        _ => Ok(()),
    }
}
