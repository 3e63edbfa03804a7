//! A reason whose clocks are counted from an earlier one.

use crate::sentence::Sentence;
use fsb_reasons::{Concerned, Reason, Wait};

/// So many clocks, which come before the first one of a trace.
#[derive(Clone, Copy)]
struct Before(u32);

impl Before {
    fn clock(self, clock: u32) -> u32 {
        clock.saturating_add(self.0)
    }

    fn earliest(self, clock: u64) -> u64 {
        clock.saturating_add(u64::from(self.0))
    }

    fn maybe(self, clock: Option<u32>) -> Option<u32> {
        match clock {
            Some(clock) => Some(self.clock(clock)),
            None => None,
        }
    }

    fn maybe_earliest(self, clock: Option<u64>) -> Option<u64> {
        match clock {
            Some(clock) => Some(self.earliest(clock)),
            None => None,
        }
    }

    fn request(self, request: Concerned) -> Concerned {
        Concerned {
            number: request.number,
            clock: self.clock(request.clock),
        }
    }

    fn wait(self, wait: Wait) -> Wait {
        match wait {
            Wait::NoSnoopEnd => Wait::NoSnoopEnd,
            Wait::SnoopEnd(clock) => Wait::SnoopEnd(self.clock(clock)),
            Wait::NotClear(clock) => Wait::NotClear(self.maybe(clock)),
        }
    }

    /// A reason of rules 2 to 10, 16 or 18.
    fn beginning(self, reason: Reason) -> Reason {
        match reason {
            Reason::TooSoon { before, earliest } => Reason::TooSoon {
                before: self.clock(before),
                earliest: self.earliest(earliest),
            },
            Reason::UnknownBits { clock } => Reason::UnknownBits {
                clock: self.clock(clock),
            },
            Reason::QueueFull { in_flight, oldest } => Reason::QueueFull {
                in_flight,
                oldest: self.clock(oldest),
            },
            Reason::Blocked { clock } => Reason::Blocked {
                clock: self.clock(clock),
            },
            Reason::NoneAsks { clock } => Reason::NoneAsks {
                clock: self.clock(clock),
            },
            Reason::ErrorAlone { last } => Reason::ErrorAlone {
                last: self.maybe(last),
            },
            Reason::IdTaken { did, by } => Reason::IdTaken {
                did,
                by: self.clock(by),
            },
            _ => self.moving(reason),
        }
    }

    /// One of rule 16.
    fn moving(self, reason: Reason) -> Reason {
        match reason {
            Reason::DataForNone { last } => Reason::DataForNone {
                last: self.maybe(last),
            },
            Reason::BusyMissing {
                request,
                response,
                chunks,
            } => Reason::BusyMissing {
                request: self.request(request),
                response: self.clock(response),
                chunks,
            },
            Reason::BusyForNone { last } => Reason::BusyForNone {
                last: self.maybe(last),
            },
            _ => reason,
        }
    }

    /// One of rules 11 and 12.
    fn snooped(self, reason: Reason) -> Reason {
        match reason {
            Reason::SnoopEarly {
                lines,
                request,
                start,
            } => Reason::SnoopEarly {
                lines,
                request: self.request(request),
                start: self.earliest(start),
            },
            Reason::SnoopBetween {
                lines,
                request,
                start,
            } => Reason::SnoopBetween {
                lines,
                request: self.request(request),
                start: self.earliest(start),
            },
            Reason::WriteBackSnooped { lines, request } => Reason::WriteBackSnooped {
                lines,
                request: self.request(request),
            },
            Reason::ReplySnooped { lines, request } => Reason::ReplySnooped {
                lines,
                request: self.request(request),
            },
            _ => reason,
        }
    }

    /// One of rules 13 and 14.
    fn answered(self, reason: Reason) -> Reason {
        match reason {
            Reason::ResponseEarly {
                request,
                wait,
                earliest,
            } => Reason::ResponseEarly {
                request: self.request(request),
                wait: self.wait(wait),
                earliest: self.maybe_earliest(earliest),
            },
            Reason::CodeUnsettled {
                request,
                found,
                expected,
            } => Reason::CodeUnsettled {
                request: self.request(request),
                found,
                expected,
            },
            Reason::CodeWrong {
                request,
                snoop_end,
                found,
                expected,
                may_defer,
            } => Reason::CodeWrong {
                request: self.request(request),
                snoop_end: self.clock(snoop_end),
                found,
                expected,
                may_defer,
            },
            _ => reason,
        }
    }

    /// One of rule 15.
    fn ready(self, reason: Reason) -> Reason {
        match reason {
            Reason::ReadyUnsettled { request } => Reason::ReadyUnsettled {
                request: self.request(request),
            },
            Reason::ReadyUnwanted { request, snoop_end } => Reason::ReadyUnwanted {
                request: self.request(request),
                snoop_end: self.clock(snoop_end),
            },
            Reason::ReadyEarly {
                request,
                wait,
                earliest,
            } => Reason::ReadyEarly {
                request: self.request(request),
                wait: self.wait(wait),
                earliest: self.maybe_earliest(earliest),
            },
            Reason::ReadyTwice { request, ready } => Reason::ReadyTwice {
                request: self.request(request),
                ready: self.clock(ready),
            },
            Reason::ResponseUnready {
                request,
                ready,
                earliest,
            } => Reason::ResponseUnready {
                request: self.request(request),
                ready: self.maybe(ready),
                earliest: self.maybe_earliest(earliest),
            },
            _ => reason,
        }
    }
}

/// The sentence with all its clocks counted from so many clocks before the first one of its trace, as a dump counts them in
/// which the trace begins later. Clocks that are not counted in 32 bits then stay at the last number.
pub fn counted_behind(before: u32, sentence: Sentence) -> Sentence {
    let counted = Before(before);
    let reason = sentence.reason;
    Sentence {
        clock: counted.clock(sentence.clock),
        reason: match reason.rule() {
            11 | 12 => counted.snooped(reason),
            13 | 14 => counted.answered(reason),
            15 => counted.ready(reason),
            _ => counted.beginning(reason),
        },
    }
}
