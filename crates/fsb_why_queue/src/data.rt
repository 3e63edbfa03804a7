//! Rule 16, data transfer: whose data are on the way, and the reasons that rest on it.

ghost use Rattle.std.specs.Prelude.{◌≡◌, ◌+◌, ℕ, if◌then◌else◌, Some, None};
ghost use Rattle.fsb_signal.specs.declared.marks.Marks.{Marks};
ghost use Rattle.fsb_signal.specs.declared.lines.TheConstants.Lines.{DRDY};
ghost use Rattle.fsb_signal.specs.Samples.{has_line};
ghost use Rattle.fsb_trace.specs.At.{Trace};
ghost use Rattle.fsb_trace.specs.Outcome.{does_move, told_with};
ghost use Rattle.fsb_reasons.specs.declared.reason.Reason.TheVariants.{BusyForNone, BusyMissing};
ghost use Rattle.fsb_why.specs.Explains.{Explains};
ghost use Rattle.fsb_why_queue.specs.Data.{HasNoData, IsTransfer, IsEnd};

use crate::next::Next;
use fsb_reasons::{Concerned, Reason};
use fsb_signal::{Lines, Sample};
use fsb_trace::{moves, told_with};

/// The request whose data are on the way at a clock.
#[derive(Clone, Copy, Debug, PartialEq, Eq)]
pub struct Transfer {
    /// Its number among the live requests, and its first clock.
    pub request: Concerned,
    /// The clock of its response.
    pub response: u32,
    /// How many of its chunks came before the clock.
    pub chunks: u8,
}

/// Why data lines are used at the clock, with this sample and the last response up to it, where no
/// data are on the way.
pub fn unexpected(sample: &Sample, last: Option<u32>) -> Option<Reason>
    ensures { (m : Marks) (v : Trace) (c : ℕ) → IsEnd v c sample.now last → HasNoData v c →
        Explains m v c 16 result }
{
    if sample.has(Lines::DRDY) {
        Some(Reason::DataForNone { last })
    } else if sample.has(Lines::DBSY) {
        Some(Reason::BusyForNone { last })
    } else {
        None
    }
}

impl Next {
    /// The request, where data move with a response of this code.
    pub fn moving(&self, code: u8) -> Option<Concerned>
        ensures { result ≡ (if does_move (told_with self.now.handed self.now.decoded code)
            then Some self.now.request else None) }
    {
        if moves(told_with(self.handed, self.decoded, code)) {
            Some(self.request)
        } else {
            None
        }
    }
}

impl Transfer {
    /// How many of its chunks came with the sample of the clock.
    fn chunks_with(&self, sample: &Sample) -> u32
        ensures { result ≡ self.now.chunks + (if has_line sample.now DRDY then 1 else 0) }
    {
        u32::from(self.chunks) + u32::from(sample.has(Lines::DRDY))
    }

    /// Why DBSY# is not as its data ask at the clock, with this sample and the last response up to it.
    pub fn busy_wrongly(&self, sample: &Sample, last: Option<u32>) -> Option<Reason>
        ensures { (m : Marks) (v : Trace) (c : ℕ) → IsEnd v c sample.now last →
            IsTransfer self.now v c → Explains m v c 16 result }
    {
        let chunks = self.chunks_with(sample);
        let busy = sample.has(Lines::DBSY);
        if chunks < 4 {
            self.missing(chunks, busy)
        } else {
            over(busy, last)
        }
    }

    /// Why DBSY# is not asserted, where so many chunks came and more are to come.
    fn missing(&self, chunks: u32, busy: bool) -> Option<Reason>
        ensures { result ≡ (if busy then None
            else Some (BusyMissing self.now.request self.now.response chunks)) }
    {
        if busy {
            None
        } else {
            Some(Reason::BusyMissing {
                request: self.request,
                response: self.response,
                chunks,
            })
        }
    }
}

/// Why DBSY# is asserted, where the last chunk came.
fn over(busy: bool, last: Option<u32>) -> Option<Reason>
    ensures { result ≡ (if busy then Some (BusyForNone last) else None) }
{
    if busy {
        Some(Reason::BusyForNone { last })
    } else {
        None
    }
}
