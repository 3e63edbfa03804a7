//! The machine that judges the samples of a part.

ghost use Rattle.std.specs.Prelude.{◌≡◌, ◌≢◌, ◌<◌, ◌≤◌, ◌++◌, ◌∷◌, [], Bool, List, Err, OnOk, length};
ghost use Rattle.fsb_signal.specs.declared.marks.Marks.{Marks};
ghost use Rattle.fsb_trace.specs.At.{Trace};
ghost use Rattle.fsb_owners.specs.Joint.{Joint};
ghost use Rattle.fsb_owner_verdict.specs.Coherence.{coherence_verdict};
ghost use Rattle.scope_check.specs.Bounds.{most_counted};
ghost use Rattle.fsb_cohere.specs.Cohere.{Stands as CoherenceStands, fed};
ghost use Rattle.scope_coherence.specs.Cohering.{Follows, IsSound, Stands};
ghost use Rattle.scope_coherence.specs.Found.{first_joints, pair_of};

use fsb_cohere::{Coherence, sound_samples_keep_order};
use fsb_io::Memory;
use fsb_rules::Checker;
use fsb_signal::{Marks, Sample};
use scope_watch::WatchStop;
use std::alloc::Global;

/// How many clocks of a part are judged, at most.
const MOST: u32 = 4_294_967_280;

/// The first clock of a part at which a rule is broken, and the least rule that is broken there.
#[derive(Clone, Copy, Debug, PartialEq, Eq)]
pub struct Incoherent {
    /// The clock, counted from the first one of the part.
    pub clock: u32,
    /// The number of the rule: 1 to 20 is a phase rule, 21 to 31 a rule of ownership.
    pub rule: u8,
}

/// Judges the samples of a part up to its first broken rule.
#[derive(Drop)]
pub(crate) struct Cohering {
    checker: Checker,
    coherence: Coherence,
    /// How many samples came up to the broken rule.
    count: u32,
    found: Option<Incoherent>,
}

// The pass before the first sample of a part, which begins later or doesn't.
fn pass_of(alloc: Global, is_later: bool) -> Coherence
    ensures stands { CoherenceStands result (first_joints is_later) [] }
    ensures fed { fed result ≡ 0 }
{
    if is_later {
        Coherence::from_within(alloc)
    } else {
        Coherence::from_reset(alloc)
    }
}

impl Cohering {
    /// Before the first sample of a part of a dump with these marks, which begins later or doesn't. It takes no memory.
    pub(crate) fn new(alloc: Global, marks: Marks, is_later: bool) -> Cohering
        ensures { Stands result marks (first_joints is_later) [] }
    {
        Cohering {
            checker: Checker::new(marks),
            coherence: pass_of(alloc, is_later),
            count: 0,
            found: None,
        }
    }

    /// Takes the next sample. Behind a broken rule nothing is done.
    pub(crate) fn feed(&mut self, sample: &Sample) -> Result<(), WatchStop>
        requires { (m : Marks) × (first : List Joint) × (w : Trace) × Stands self.old m first w }
        ensures stands { (m : Marks) (first : List Joint) (w : Trace) → Stands self.old m first w →
            OnOk result (Stands self.new m first (w ++ sample.now ∷ [])) }
        ensures many { result ≡ Err WatchStop.TooMany → (m : Marks) (first : List Joint)
            (w : Trace) → Stands self.old m first w → most_counted ≤ length w }
        ensures writes_nothing { result ≢ Err WatchStop.WriteFault }
    {
        if self.found.is_some() {
            return Ok(());
        }
        if MOST <= self.count {
            return Err(WatchStop::TooMany);
        }
        self.judge(sample)
    }

    // Takes the next sample behind those that break no rule.
    fn judge(&mut self, sample: &Sample) -> Result<(), WatchStop>
        requires few { self.old.count < 4294967280 }
        requires follows { (m : Marks) × (first : List Joint) × (w : Trace)
            × Follows self.old m first w }
        ensures stands { (m : Marks) (first : List Joint) (w : Trace) → Follows self.old m first w →
            OnOk result (Stands self.new m first (w ++ sample.now ∷ [])) }
        ensures counts { result ≢ Err WatchStop.TooMany }
        ensures writes_nothing { result ≢ Err WatchStop.WriteFault }
    {
        self.count += 1;
        let broken = self.checker.feed(sample);
        match broken {
            Some(broken) => {
                self.found = Some(Incoherent {
                    clock: broken.clock,
                    rule: broken.rule,
                });
                Ok(())
            }
            None => self.judge_ownership(sample),
        }
    }

    // Takes the next sample, with which no phase rule is broken.
    fn judge_ownership(&mut self, sample: &Sample) -> Result<(), WatchStop>
        requires { fed self.old.coherence < 4294967280 }
        ensures stands { (m : Marks) (first : List Joint) (w : Trace) →
            IsSound self.old m first w sample.now →
            OnOk result (Stands self.new m first (w ++ sample.now ∷ [])) }
        ensures counts { result ≢ Err WatchStop.TooMany }
        ensures writes_nothing { result ≢ Err WatchStop.WriteFault }
    {
        sound_samples_keep_order();
        match self.coherence.feed(sample) {
            Err(Memory) => Err(WatchStop::Memory),
            Ok(None) => Ok(()),
            Ok(Some(broken)) => {
                self.found = Some(Incoherent {
                    clock: broken.clock,
                    rule: broken.rule,
                });
                Ok(())
            }
        }
    }

    /// What was found.
    pub(crate) fn found(&self) -> Option<Incoherent>
        ensures { (m : Marks) (first : List Joint) (w : Trace) → Stands self.now m first w →
            pair_of result ≡ coherence_verdict m first w }
    {
        self.found
    }
}
