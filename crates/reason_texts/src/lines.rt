//! Sentences of the rules for lines, snoops and data.

use crate::words::{Agent, Names, Request, RequestLine, Snooped};
use fsb_reasons::Reason;
use std::fmt;

/// Rules 1, 8, 9, 10, 19 and 20.
pub(crate) fn put_line<W: fmt::Write>(
    f: &mut fmt::Formatter<W>,
    clock: u32,
    reason: &Reason,
) -> fmt::Result {
    let first = clock.saturating_sub(1);
    match reason {
        Reason::UnknownLines { lines } => write!(
            f,
            "Control lines without a level at {clock}: {}.",
            Names(*lines)
        ),
        Reason::Dropped { who } => write!(
            f,
            "{} is released at {clock}, and {} began no request at {first}.",
            RequestLine(*who),
            Agent(*who)
        ),
        Reason::Held { who } => write!(
            f,
            "{} is still asserted at {clock}, and the request of {} began at {first}.",
            RequestLine(*who),
            Agent(*who)
        ),
        Reason::LockAlone => write!(f, "LOCK# begins at {clock}, and no request begins there."),
        Reason::ErrorAlone { last: Some(last) } => write!(
            f,
            "AERR# is asserted at {clock}, and no request began three clocks before. The last one began at {last}."
        ),
        Reason::ErrorAlone { last: None } => write!(
            f,
            "AERR# is asserted at {clock}, and no request began before."
        ),
        Reason::AddressParity { low, high } => put_parity(f, clock, *low, *high),
        Reason::RequestParity => write!(
            f,
            "At {clock} an odd number of RP#, ADS# and REQ[4:0]# is asserted."
        ),
        _ => Ok(()),
    }
}

/// Rule 19.
fn put_parity<W: fmt::Write>(
    f: &mut fmt::Formatter<W>,
    clock: u32,
    low: bool,
    high: bool,
) -> fmt::Result {
    if low && high {
        write!(
            f,
            "At {clock} an odd number of AP0# and A[23:3]# is asserted, and of AP1# and A[35:24]# too."
        )
    } else if low {
        write!(
            f,
            "At {clock} an odd number of AP0# and A[23:3]# is asserted."
        )
    } else {
        write!(
            f,
            "At {clock} an odd number of AP1# and A[35:24]# is asserted."
        )
    }
}

/// Rules 11 and 12.
pub(crate) fn put_snoop<W: fmt::Write>(
    f: &mut fmt::Formatter<W>,
    clock: u32,
    reason: &Reason,
) -> fmt::Result {
    match reason {
        Reason::SnoopsOver { lines } => write!(
            f,
            "{} asserted at {clock}, and no request waits for its snoop end.",
            Snooped(*lines)
        ),
        Reason::SnoopEarly {
            lines,
            request,
            start,
        } => write!(
            f,
            "{} asserted at {clock}. The snoop of {} starts at {start}.",
            Snooped(*lines),
            Request(*request)
        ),
        Reason::SnoopBetween {
            lines,
            request,
            start,
        } => write!(
            f,
            "{} asserted at {clock}, between two snoop clocks of {}. They are every second clock from {start} on.",
            Snooped(*lines),
            Request(*request)
        ),
        Reason::WriteBackSnooped { lines, request } => write!(
            f,
            "{} asserted at {clock}, the snoop end of {}. It is a write-back, which no snoop line answers.",
            Snooped(*lines),
            Request(*request)
        ),
        Reason::ReplySnooped { lines, request } => write!(
            f,
            "{} asserted at {clock}, the snoop end of {}. It is a deferred reply, which HIT# alone may answer.",
            Snooped(*lines),
            Request(*request)
        ),
        _ => Ok(()),
    }
}

/// Rules 16 and 17.
pub(crate) fn put_data<W: fmt::Write>(
    f: &mut fmt::Formatter<W>,
    clock: u32,
    reason: &Reason,
) -> fmt::Result {
    match reason {
        Reason::DataForNone { last: Some(last) } => write!(
            f,
            "DRDY# is asserted at {clock}, and no data are on the way. The last response came at {last}."
        ),
        Reason::DataForNone { last: None } => write!(
            f,
            "DRDY# is asserted at {clock}, and no response came yet."
        ),
        Reason::BusyMissing {
            request,
            response,
            chunks,
        } => write!(
            f,
            "DBSY# is not asserted at {clock}. Of the four chunks of {}, answered at {response}, {chunks} came.",
            Request(*request)
        ),
        Reason::BusyForNone { last: Some(last) } => write!(
            f,
            "DBSY# is asserted at {clock}, and no data are left to come. The last response came at {last}."
        ),
        Reason::BusyForNone { last: None } => write!(
            f,
            "DBSY# is asserted at {clock}, and no response came yet."
        ),
        Reason::UnknownData { bits } => write!(
            f,
            "DRDY# is asserted at {clock}, and bits of D have no level: those of {bits:016x}."
        ),
        _ => Ok(()),
    }
}
