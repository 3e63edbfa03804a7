//! The request that responds next, and the reasons that rest on it alone.

ghost use Rattle.std.specs.Prelude.{◌≡◌, ◌+◌, ◌||◌, nat_le, true};
ghost use Rattle.fsb_count.specs.Options.{is_before};
ghost use Rattle.fsb_signal.specs.declared.marks.Marks.{Marks};
ghost use Rattle.fsb_trace.specs.At.{Trace, responds_at};
ghost use Rattle.fsb_trace.specs.Response.{answer_from, is_clear_before};
ghost use Rattle.fsb_why.specs.Explains.{Explains};
ghost use Rattle.fsb_why_queue.specs.Next.{IsNext, SaysWait, later_after};

use fsb_encode::Request;
use fsb_reasons::{Concerned, Reason, Wait};

/// The live request that responds next, as a trace shows it with its last clock.
#[derive(Clone, Copy, Debug, PartialEq, Eq)]
pub struct Next {
    /// Its number among the live requests, and its first clock.
    pub request: Concerned,
    /// Its snoop end.
    pub snoop: Option<u32>,
    /// The end of the live request before it; none too where it is the first.
    pub ended: Option<u32>,
    /// The request as it is decoded, where it is.
    pub decoded: Option<Request>,
    /// Whether HITM# is asserted at its snoop end.
    pub handed: bool,
    /// Whether DEFER# is.
    pub defer: bool,
    /// Its ready clock.
    pub ready: Option<u32>,
}

/// Whether the earlier clock lies two clocks before this one at least.
pub fn is_two_before(earlier: u32, clock: u32) -> bool
    ensures { result ≡ nat_le (earlier + 2) clock }
{
    u64::from(earlier) + 2 <= u64::from(clock)
}

/// Whether the clock is reached, and lies before this one.
#[tactic(auto, unfolding(fsb_count::specs::Options::is_before, fsb_count::specs::Options::is_some_and))]
fn is_before(reached: Option<u32>, clock: u32) -> bool
    ensures { result ≡ is_before reached clock }
{
    match reached {
        Some(reached) => reached < clock,
        None => false,
    }
}

/// Whether one of both holds.
fn either(one: bool, other: bool) -> bool
    ensures { result ≡ (one || other) }
{
    one || other
}

impl Next {
    /// Whether the request before it has ended below this clock, or it is the first.
    fn is_clear(&self, clock: u32) -> bool
        ensures { (v : Trace) → IsNext self.now v clock →
            result ≡ is_clear_before v self.now.request.number clock }
    {
        either(self.request.number == 0, is_before(self.ended, clock))
    }

    /// Why it may not be answered at this clock.
    pub fn wait(&self, clock: u32) -> Option<Wait>
        ensures { (v : Trace) → IsNext self.now v clock →
            SaysWait v clock self.now.request.number result }
    {
        match self.snoop {
            Some(end) => {
                if is_two_before(end, clock) {
                    if self.is_clear(clock) {
                        None
                    } else {
                        Some(Wait::NotClear(self.ended))
                    }
                } else {
                    Some(Wait::SnoopEnd(end))
                }
            }
            None => Some(Wait::NoSnoopEnd),
        }
    }

    /// The earliest clock at which it may be answered, where its snoop end and the end before it
    /// are reached.
    pub fn earliest(&self, clock: u32) -> Option<u64>
        ensures { (v : Trace) → IsNext self.now v clock →
            result ≡ answer_from v self.now.request.number }
    {
        match self.snoop {
            Some(end) => self.earliest_after(u64::from(end) + 2),
            None => None,
        }
    }

    /// This clock, or, if that is later, the one after the end of the request before.
    fn earliest_after(&self, from: u64) -> Option<u64>
        ensures { result ≡ later_after self.now from }
    {
        if self.request.number == 0 {
            Some(from)
        } else {
            match self.ended {
                Some(end) => Some(from.max(u64::from(end) + 1)),
                None => None,
            }
        }
    }

    /// Rule 13, response timing, of a response at this clock.
    pub fn early(&self, clock: u32) -> Option<Reason>
        ensures { (m : Marks) (v : Trace) → IsNext self.now v clock → responds_at v clock ≡ true →
            Explains m v clock 13 result }
    {
        match self.wait(clock) {
            Some(wait) => Some(Reason::ResponseEarly {
                request: self.request,
                wait,
                earliest: self.earliest(clock),
            }),
            None => None,
        }
    }
}
