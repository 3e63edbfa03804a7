//! The machine that follows the samples of a part.

ghost use Rattle.std.specs.Prelude.{◌≡◌, ◌≢◌, ◌<◌, ◌≤◌, ◌^◌, ◌++◌, ◌∷◌, [], Err, IfOk, OnOk, length};
ghost use Rattle.fsb_signal.specs.declared.marks.Marks.{Marks};
ghost use Rattle.fsb_trace.specs.At.{Trace};
ghost use Rattle.fsb_laws.specs.Orderly.{Orderly};
ghost use Rattle.fsb_why.specs.Look.{Stands as WhyStands};
ghost use Rattle.fsb_why_queue.specs.Queue.{fed};
ghost use Rattle.scope_check.specs.Bounds.{most_counted};
ghost use Rattle.scope_explain.specs.Explained.{IsExplainedBy};
ghost use Rattle.scope_explain.specs.Requests.{Stands as RequestsStand};
ghost use Rattle.scope_explain.specs.Standing.{AreFoundAt, Follows, Stands};

use crate::explained::{Explained, put_reasons};
use crate::requests::Requests;
use fsb_io::Memory;
use fsb_reasons::Reason;
use fsb_recent::Around;
use fsb_rules::{Broken, Checker};
use fsb_signal::{Marks, Sample};
use fsb_why::Why;
use fsb_why_queue::unbroken_traces_are_orderly;
use scope_watch::WatchStop;
use std::alloc::{AllocError, Global};

/// How many clocks of a part are followed, at most.
const MOST: u32 = 4_294_967_280;

/// The phase rules.
const RULES: [u8; 20] = [
    1, 2, 3, 4, 5, 6, 7, 8, 9, 10, 11, 12, 13, 14, 15, 16, 17, 18, 19, 20,
];

/// Follows the samples of a part up to its first broken rule, and keeps the reasons there.
#[derive(Drop)]
pub(crate) struct Explaining {
    checker: Checker,
    why: Why,
    requests: Requests,
    /// How many samples came up to the broken rule.
    count: u32,
    found: Option<Broken>,
    reasons: Vec<Reason>,
    around: Around,
    alloc: Global,
}

// Puts the reasons of the clock of this sample, which breaks a rule, and the requests around it.
fn put_found(
    alloc: Global,
    reasons: &mut Vec<Reason>,
    around: &mut Around,
    why: &Why,
    requests: &Requests,
    sample: &Sample,
) -> Result<(), AllocError>
    requires { fed requests.now.queue < 2 ^ 32 }
    ensures { (m : Marks) (h : Trace) → WhyStands why.now m (h ++ sample.now ∷ []) →
        RequestsStand requests.now h → Orderly h → reasons.old.items ≡ [] →
        OnOk result (AreFoundAt m (h ++ sample.now ∷ []) h reasons.new.items around.new) }
{
    put_reasons(reasons, &RULES, why, &requests.queue, sample)?;
    *around = requests.around(alloc)?;
    Ok(())
}

impl Explaining {
    /// Before the first sample of a part of a dump with these marks.
    pub(crate) fn new(alloc: Global, marks: Marks) -> Result<Explaining, AllocError>
        ensures { IfOk result (λ explaining. Stands explaining marks []) }
    {
        let requests = Requests::new(alloc)?;
        Ok(Explaining {
            checker: Checker::new(marks),
            why: Why::new(marks),
            requests,
            count: 0,
            found: None,
            reasons: Vec::new(alloc),
            around: Around::none(alloc),
            alloc,
        })
    }

    /// Takes the next sample. Behind a broken rule nothing is done.
    pub(crate) fn feed(&mut self, sample: &Sample) -> Result<(), WatchStop>
        requires { (m : Marks) × (w : Trace) × Stands self.old m w }
        ensures stands { (m : Marks) (w : Trace) → Stands self.old m w →
            OnOk result (Stands self.new m (w ++ sample.now ∷ [])) }
        ensures many { result ≡ Err WatchStop.TooMany → (m : Marks) (w : Trace) → Stands self.old m w →
            most_counted ≤ length w }
        ensures writes_nothing { result ≢ Err WatchStop.WriteFault }
    {
        if self.found.is_some() {
            return Ok(());
        }
        if MOST <= self.count {
            return Err(WatchStop::TooMany);
        }
        self.judge(sample)
    }

    // Takes the next sample behind those that break no rule.
    fn judge(&mut self, sample: &Sample) -> Result<(), WatchStop>
        requires few { self.old.count < 4294967280 }
        requires follows { (m : Marks) × (w : Trace) × Follows self.old m w }
        ensures stands { (m : Marks) (w : Trace) → Follows self.old m w →
            OnOk result (Stands self.new m (w ++ sample.now ∷ [])) }
        ensures counts { result ≢ Err WatchStop.TooMany }
        ensures writes_nothing { result ≢ Err WatchStop.WriteFault }
    {
        unbroken_traces_are_orderly();
        self.why.feed(sample);
        self.found = self.checker.feed(sample);
        self.count += 1;
        if self.found.is_some() {
            match put_found(
                self.alloc,
                &mut self.reasons,
                &mut self.around,
                &self.why,
                &self.requests,
                sample,
            ) {
                Ok(()) => Ok(()),
                Err(_) => Err(WatchStop::Memory),
            }
        } else {
            match self.requests.feed(sample) {
                Ok(()) => Ok(()),
                Err(Memory) => Err(WatchStop::Memory),
            }
        }
    }

    /// What was found.
    pub(crate) fn explained(self) -> Option<Explained>
        ensures { (m : Marks) (w : Trace) → Stands self m w → IsExplainedBy result m w }
    {
        match self.found {
            None => None,
            Some(broken) => Some(Explained {
                clock: broken.clock,
                rule: broken.rule,
                reasons: self.reasons,
                around: self.around,
            }),
        }
    }
}
