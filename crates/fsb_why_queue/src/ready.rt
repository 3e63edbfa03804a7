//! Rule 15, target ready: the reasons that rest on the next request.

ghost use Rattle.std.specs.Prelude.{◌≡◌, ℕ, ◌+◌, ◌||◌, ◌&&◌, not, nat_le, true, false, Some};
ghost use Rattle.std.specs.Option.{option_map};
ghost use Rattle.fsb_count.specs.Options.{is_some_and};
ghost use Rattle.fsb_signal.specs.declared.marks.Marks.{Marks};
ghost use Rattle.fsb_signal.specs.declared.lines.TheConstants.Lines.{TRDY};
ghost use Rattle.fsb_signal.specs.Samples.{line_at};
ghost use Rattle.fsb_trace.specs.At.{Trace};
ghost use Rattle.fsb_trace.specs.Response.{takes};
ghost use Rattle.fsb_trace.specs.Rules.{is_ready_in_time, is_ready_wrongly, may_answer, responds_soundly};
ghost use Rattle.fsb_why.specs.Explains.{Explains, IsReason, Tells, either_reason};
ghost use Rattle.fsb_why_queue.specs.Next.{IsNext, takes_by};

use crate::kinds::is_write_back;
use crate::next::{Next, is_two_before};
use fsb_reasons::Reason;

/// The first of two reasons that is there.
fn first_of(first: Option<Reason>, second: Option<Reason>) -> Option<Reason>
    ensures { result ≡ either_reason first second }
{
    match first {
        Some(reason) => Some(reason),
        None => second,
    }
}

/// Two clocks after this one, if it is reached.
fn two_after(ready: Option<u32>) -> Option<u64>
    ensures { result ≡ option_map (λ y. y + 2) ready }
{
    match ready {
        Some(ready) => Some(u64::from(ready) + 2),
        None => None,
    }
}

impl Next {
    /// Whether memory is to take its data.
    fn takes(&self) -> bool
        ensures { result ≡ takes_by self.now }
    {
        is_write_back(self.decoded) || self.handed
    }

    /// Whether its target is ready two clocks before this one at least.
    #[tactic(auto, unfolding(fsb_count::specs::Options::is_some_and))]
    fn is_ready(&self, clock: u32) -> bool
        ensures { result ≡ is_some_and self.now.ready (λ y. nat_le (y + 2) clock) }
    {
        match self.ready {
            Some(ready) => is_two_before(ready, clock),
            None => false,
        }
    }

    /// Why TRDY# is not for it, whose data memory is not to take.
    fn unwanted(&self) -> Reason
        ensures { (m : Marks) (v : Trace) (c : ℕ) → IsNext self.now v c → line_at TRDY v c ≡ true →
            takes_by self.now ≡ false → IsReason m v c 15 result }
    {
        match self.snoop {
            Some(end) => Reason::ReadyUnwanted {
                request: self.request,
                snoop_end: end,
            },
            None => Reason::ReadyUnsettled {
                request: self.request,
            },
        }
    }

    /// Why TRDY# at this clock is not for it, which may be answered and whose data memory is to
    /// take.
    fn ready_twice(&self, clock: u32) -> Option<Reason>
        ensures { (m : Marks) (v : Trace) → IsNext self.now v clock → line_at TRDY v clock ≡ true →
            (takes v self.now.request.number && may_answer v clock self.now.request.number) ≡ true →
            Tells m v clock 15 (is_ready_wrongly v clock self.now.request.number) result }
    {
        match self.ready {
            Some(ready) => {
                if ready < clock {
                    Some(Reason::ReadyTwice {
                        request: self.request,
                        ready,
                    })
                } else {
                    None
                }
            }
            None => None,
        }
    }

    /// Why TRDY# at this clock is not for it, whose data memory is to take.
    fn ready_early(&self, clock: u32) -> Option<Reason>
        ensures { (m : Marks) (v : Trace) → IsNext self.now v clock → line_at TRDY v clock ≡ true →
            takes v self.now.request.number ≡ true →
            Tells m v clock 15 (is_ready_wrongly v clock self.now.request.number) result }
    {
        match self.wait(clock) {
            Some(wait) => Some(Reason::ReadyEarly {
                request: self.request,
                wait,
                earliest: self.earliest(clock),
            }),
            None => self.ready_twice(clock),
        }
    }

    /// Why TRDY#, if it is asserted at this clock, is not for it.
    fn by_ready(&self, clock: u32, asserted: bool) -> Option<Reason>
        ensures { (m : Marks) (v : Trace) → IsNext self.now v clock →
            asserted ≡ line_at TRDY v clock →
            Tells m v clock 15
            (line_at TRDY v clock && is_ready_wrongly v clock self.now.request.number) result }
    {
        if asserted {
            if self.takes() {
                self.ready_early(clock)
            } else {
                Some(self.unwanted())
            }
        } else {
            None
        }
    }

    /// Why a response at this clock, which is no hard failure, comes before its target is ready.
    fn unready(&self, clock: u32) -> Option<Reason>
        ensures { (m : Marks) (v : Trace) → IsNext self.now v clock →
            responds_soundly v clock ≡ true →
            takes v self.now.request.number ≡ true →
            Tells m v clock 15 (not (is_ready_in_time v clock self.now.request.number)) result }
    {
        if self.is_ready(clock) {
            None
        } else {
            Some(Reason::ResponseUnready {
                request: self.request,
                ready: self.ready,
                earliest: two_after(self.ready),
            })
        }
    }

    /// Why a response, if one that is no hard failure comes at this clock, comes before its target
    /// is ready.
    fn by_response(&self, clock: u32, sound: bool) -> Option<Reason>
        ensures { (m : Marks) (v : Trace) → IsNext self.now v clock →
            sound ≡ responds_soundly v clock →
            Tells m v clock 15 (responds_soundly v clock && takes v self.now.request.number
            && not (is_ready_in_time v clock self.now.request.number)) result }
    {
        if sound {
            if self.takes() {
                self.unready(clock)
            } else {
                None
            }
        } else {
            None
        }
    }

    /// Rule 15, target ready, of a clock at which TRDY# is asserted or not, and at which a response
    /// that is no hard failure comes or not.
    pub fn wrongly_ready(&self, clock: u32, asserted: bool, sound: bool) -> Option<Reason>
        ensures { (m : Marks) (v : Trace) → IsNext self.now v clock →
            asserted ≡ line_at TRDY v clock →
            sound ≡ responds_soundly v clock → Explains m v clock 15 result }
    {
        first_of(
            self.by_ready(clock, asserted),
            self.by_response(clock, sound),
        )
    }
}
