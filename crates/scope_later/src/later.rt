//! The judge of a part that begins later.

ghost use Rattle.std.specs.Prelude.{◌≡◌, ◌<◌, ◌^◌, ◌+◌, [], ◌∷◌, ◌++◌, ℕ, length};
ghost use Rattle.fsb_signal.specs.declared.marks.Marks.{Marks};
ghost use Rattle.fsb_trace.specs.At.{Trace};
ghost use Rattle.fsb_rules.specs.Checker.{Stands};
ghost use Rattle.scope_later.specs.Histories.{history, past};
ghost use Rattle.scope_later.specs.Findings.{found_behind, found_later, later_of, comes_before, counted_behind};
ghost use Rattle.scope_later.specs.Standing.{LaterStands};

use crate::history::checker_behind;
use fsb_rules::{Broken, Checker};
use fsb_signal::{Marks, Sample};

/// How many clocks a history has.
const PAST: u32 = 8;

/// Judges the samples of a part behind the history of each agent.
#[derive(Debug, Drop)]
pub struct LaterChecker {
    pub(crate) zero: Checker,
    pub(crate) one: Checker,
    pub(crate) two: Checker,
    pub(crate) three: Checker,
}

// What was found, its clock counted from the begin of the part.
fn counted(found: Option<Broken>) -> Option<Broken>
    ensures { result ≡ counted_behind found }
{
    match found {
        Some(broken) => {
            let clock = broken.clock.saturating_sub(PAST);
            Some(Broken {
                clock,
                rule: broken.rule,
            })
        }
        None => None,
    }
}

// Whether the first finding comes before the second: at an earlier clock, or at the same one by a lesser rule.
fn comes_before(first: Broken, second: Broken) -> bool
    ensures { result ≡ comes_before first second }
{
    first.clock < second.clock || first.clock == second.clock && first.rule < second.rule
}

// The later of two findings; none, where one of them is none.
fn later_of(one: Option<Broken>, other: Option<Broken>) -> Option<Broken>
    ensures { result ≡ later_of one other }
{
    match (one, other) {
        (Some(first), Some(second)) => {
            if comes_before(first, second) {
                other
            } else {
                one
            }
        }
        _ => None,
    }
}

// What a checker behind the history of an agent finds with the next sample.
fn feed_behind(checker: &mut Checker, sample: &Sample) -> Option<Broken>
    requires { (a : ℕ) × (m : Marks) × (h : Trace) × Stands checker.old m (history a ++ h)
        × (length h + past < 2 ^ 32) }
    ensures found { (a : ℕ) (m : Marks) (h : Trace) → Stands checker.old m (history a ++ h) →
        result ≡ found_behind a m (h ++ sample.now ∷ []) }
    ensures stands { (a : ℕ) (m : Marks) (h : Trace) → Stands checker.old m (history a ++ h) →
        Stands checker.new m (history a ++ (h ++ sample.now ∷ [])) }
{
    let found = checker.feed(sample);
    counted(found)
}

impl LaterChecker {
    /// The judge before the first sample of a part of a dump with these marks.
    pub fn new(marks: Marks) -> LaterChecker
        ensures { LaterStands result marks [] }
    {
        LaterChecker {
            zero: checker_behind(marks, 0),
            one: checker_behind(marks, 1),
            two: checker_behind(marks, 2),
            three: checker_behind(marks, 3),
        }
    }

    /// Takes the next sample, and tells what is found of the samples so far.
    pub fn feed(&mut self, sample: &Sample) -> Option<Broken>
        requires { (m : Marks) × (h : Trace) × LaterStands self.old m h × (length h + past < 2 ^ 32) }
        ensures found { (m : Marks) (h : Trace) → LaterStands self.old m h →
            result ≡ found_later m (h ++ sample.now ∷ []) }
        ensures stands { (m : Marks) (h : Trace) → LaterStands self.old m h →
            LaterStands self.new m (h ++ sample.now ∷ []) }
    {
        let zero = feed_behind(&mut self.zero, sample);
        let one = feed_behind(&mut self.one, sample);
        let two = feed_behind(&mut self.two, sample);
        let three = feed_behind(&mut self.three, sample);
        let low = later_of(zero, one);
        let high = later_of(two, three);
        later_of(low, high)
    }
}
