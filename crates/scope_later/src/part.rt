//! The judge of a part, wherever it begins.

ghost use Rattle.std.specs.Prelude.{◌≡◌, ◌<◌, ◌^◌, ◌+◌, Bool, [], ◌∷◌, ◌++◌, length};
ghost use Rattle.fsb_signal.specs.declared.marks.Marks.{Marks};
ghost use Rattle.fsb_trace.specs.At.{Trace};
ghost use Rattle.scope_later.specs.Histories.{past};
ghost use Rattle.scope_later.specs.Findings.{found_on};
ghost use Rattle.scope_later.specs.Standing.{PartStands};

use crate::later::LaterChecker;
use fsb_rules::{Broken, Checker};
use fsb_signal::{Marks, Sample};

/// Judges the samples of a part: as a whole waveform, or as one behind others of which nothing is known.
#[derive(Debug, Drop)]
pub enum PartChecker {
    Whole(Checker),
    Later(LaterChecker),
}

impl PartChecker {
    /// The judge before the first sample of a part of a dump with these marks, which begins later or doesn't.
    pub fn new(is_later: bool, marks: Marks) -> PartChecker
        ensures { PartStands result is_later marks [] }
    {
        if is_later {
            PartChecker::Later(LaterChecker::new(marks))
        } else {
            PartChecker::Whole(Checker::new(marks))
        }
    }

    /// Takes the next sample, and tells what is found of the samples so far.
    pub fn feed(&mut self, sample: &Sample) -> Option<Broken>
        requires { (b : Bool) × (m : Marks) × (h : Trace) × PartStands self.old b m h
            × (length h + past < 2 ^ 32) }
        ensures found { (b : Bool) (m : Marks) (h : Trace) → PartStands self.old b m h →
            result ≡ found_on b m (h ++ sample.now ∷ []) }
        ensures stands { (b : Bool) (m : Marks) (h : Trace) → PartStands self.old b m h →
            PartStands self.new b m (h ++ sample.now ∷ []) }
    {
        match self {
            PartChecker::Whole(checker) => checker.feed(sample),
            PartChecker::Later(checker) => checker.feed(sample),
        }
    }
}
