ghost use Rattle.std.specs.Prelude.{◌≡◌, [], ◌∷◌, ◌++◌, length};
ghost use Rattle.fsb_trace.specs.At.{Trace};
ghost use Rattle.fsb_trace.specs.Winner.{winner_at};
ghost use Rattle.fsb_arbiter.specs.Arbiter.{Stands};

use crate::order::winner_among;
use fsb_signal::{Lines, Sample};
use fsb_trace::{Who, symmetric_after};

/// Tells the winner of the next clock, from the samples that it was given so far.
///
/// It follows the definition whatever the samples hold, also where a line is unknown, which counts as not asserted, or
/// where a request begins without a winner.
#[derive(Clone, Copy, Debug, PartialEq, Eq)]
pub struct Arbiter {
    /// The control lines two clocks before the next one, if there is such a clock.
    older: Option<Lines>,
    /// The control lines one clock before the next one, if there is such a clock.
    newer: Option<Lines>,
    /// The agent of the last request, if there is one and it had a winner.
    last: Option<Who>,
    /// The symmetric agent that began a request last.
    symmetric: Option<u8>,
}

impl Arbiter {
    /// The arbiter before the first clock: it stands for the empty history.
    pub fn new() -> Arbiter
        ensures { Stands result [] }
    {
        Arbiter {
            older: None,
            newer: None,
            last: None,
            symmetric: None,
        }
    }

    /// The winner at the next clock; none where there is none.
    pub fn winner(&self) -> Option<Who>
        ensures { (h : Trace) → Stands self.now h → result ≡ winner_at h (length h) }
    {
        match self.older {
            Some(lines) => winner_among(lines, self.last, self.symmetric),
            None => None,
        }
    }

    /// Takes the sample of the next clock.
    pub fn absorb(&mut self, sample: &Sample)
        ensures { (h : Trace) → Stands self.old h → Stands self.new (h ++ sample.now ∷ []) }
    {
        if sample.has(Lines::ADS) {
            let winner = self.winner();
            self.last = winner;
            self.symmetric = symmetric_after(self.symmetric, winner);
        }
        self.older = self.newer;
        self.newer = Some(sample.lines);
    }
}
