//! The request that is snooped next, and the reasons of rules 11 and 12 that rest on it.

ghost use Rattle.std.specs.Prelude.{◌≡◌, ℕ, ◌||◌, true, false};
ghost use Rattle.fsb_signal.specs.declared.marks.Marks.{Marks};
ghost use Rattle.fsb_signal.specs.declared.lines.TheConstants.Lines.{DEFER, HIT, HITM};
ghost use Rattle.fsb_signal.specs.Samples.{has_line};
ghost use Rattle.fsb_trace.specs.At.{Trace};
ghost use Rattle.fsb_trace.specs.Requests.{is_write_back};
ghost use Rattle.fsb_reasons.specs.Holds.{AreSnooped, IsSnooped};
ghost use Rattle.fsb_why.specs.Explains.{Explains};
ghost use Rattle.fsb_why_queue.specs.Snoops.{IsSnooping};

use crate::kinds::{is_reply, is_write_back};
use fsb_encode::Request;
use fsb_reasons::{Concerned, Reason, SnoopLines};
use fsb_signal::{Lines, Sample};
use fsb_trace::is_every_second_from;

/// The live request that is snooped next, as a trace shows it with its last clock.
#[derive(Clone, Copy, Debug, PartialEq, Eq)]
pub struct Snooping {
    /// Its number among the live requests, and its first clock.
    pub request: Concerned,
    /// Its first snoop clock.
    pub start: u64,
    /// Whether its snoop ends at the clock.
    pub ends: bool,
    /// The request as it is decoded, where it is.
    pub decoded: Option<Request>,
}

/// The lines of the sample that tell of a snoop.
pub fn snoop_lines(sample: &Sample) -> SnoopLines
    ensures { result ≡ (record {
      hit = has_line sample.now HIT;
      hitm = has_line sample.now HITM;
      defer = has_line sample.now DEFER;
    }) }
{
    SnoopLines {
        hit: sample.has(Lines::HIT),
        hitm: sample.has(Lines::HITM),
        defer: sample.has(Lines::DEFER),
    }
}

/// Whether one of the lines is asserted.
pub fn is_any(lines: SnoopLines) -> bool
    ensures { result ≡ (lines.hit || lines.hitm || lines.defer) }
{
    lines.hit || lines.hitm || lines.defer
}

/// Whether HITM# or DEFER# is.
fn is_settled(lines: SnoopLines) -> bool
    ensures { result ≡ (lines.hitm || lines.defer) }
{
    lines.hitm || lines.defer
}

impl Snooping {
    /// Rule 11, snoop lines in snoop clocks, where one of these lines is asserted at this clock.
    pub fn alone(&self, lines: SnoopLines, clock: u32) -> Option<Reason>
        ensures { (m : Marks) (v : Trace) → IsSnooping self.now v clock → IsSnooped v clock lines →
            Explains m v clock 11 result }
    {
        if is_every_second_from(self.start, u64::from(clock)) {
            None
        } else if u64::from(clock) < self.start {
            Some(Reason::SnoopEarly {
                lines,
                request: self.request,
                start: self.start,
            })
        } else {
            Some(Reason::SnoopBetween {
                lines,
                request: self.request,
                start: self.start,
            })
        }
    }

    /// Why the lines do not fit it, whose snoop end is the clock.
    fn unfit_there(&self, lines: SnoopLines) -> Option<Reason>
        ensures { (m : Marks) (v : Trace) (c : ℕ) → IsSnooping self.now v c →
            AreSnooped v c lines → self.now.ends ≡ true → Explains m v c 12 result }
    {
        if is_write_back(self.decoded) {
            if is_any(lines) {
                Some(Reason::WriteBackSnooped {
                    lines,
                    request: self.request,
                })
            } else {
                None
            }
        } else {
            self.unfit_reply(lines)
        }
    }

    /// Why the lines do not fit it, which is no write-back, and whose snoop end is the clock.
    fn unfit_reply(&self, lines: SnoopLines) -> Option<Reason>
        ensures { (m : Marks) (v : Trace) (c : ℕ) → IsSnooping self.now v c →
            AreSnooped v c lines → self.now.ends ≡ true → is_write_back self.now.decoded ≡ false →
            Explains m v c 12 result }
    {
        if is_reply(self.decoded) {
            if is_settled(lines) {
                Some(Reason::ReplySnooped {
                    lines,
                    request: self.request,
                })
            } else {
                None
            }
        } else {
            None
        }
    }

    /// Rule 12, snoop results of write-backs and replies, where these lines are asserted at the
    /// clock.
    pub fn unfit(&self, lines: SnoopLines) -> Option<Reason>
        ensures { (m : Marks) (v : Trace) (c : ℕ) → IsSnooping self.now v c →
            AreSnooped v c lines → Explains m v c 12 result }
    {
        if self.ends {
            self.unfit_there(lines)
        } else {
            None
        }
    }
}
