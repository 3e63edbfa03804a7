//! Triggers and their steps.
ghost use Rattle.std.specs.Prelude.{◌≡◌, ◌≤◌, ◌<◌, length};
ghost use Rattle.fsb_trigger.specs.AskedLines.{asked_lines};

use crate::test::Test;
use arrayvec::ArrayVec;
use fsb_signal::{Lines, Sample};

/// One step of a trigger.
#[derive(Drop)]
pub struct TriggerStep {
    /// Within how many clocks of the step before it, if that is said.
    pub bound: Option<u32>,
    /// What its sample must have.
    pub tests: ArrayVec<Test, 8>,
    /// The lines that its tests ask to be asserted. Where a sample lacks one of them, no test needs to be tried.
    pub(crate) asked: Lines,
    ghost asked_are: { asked.0 ≡ asked_lines tests.items },
}

impl Default for TriggerStep {
    fn default() -> TriggerStep {
        TriggerStep {
            bound: None,
            tests: ArrayVec::new(),
            asked: Lines(0),
        }
    }
}

impl TriggerStep {
    ghost use Rattle.fsb_trigger.specs.TriggerSteps.{step_holds, keeps_bound, view_of};

    /// The step of these tests, within so many clocks of the step before it, if that is said.
    pub(crate) fn new(bound: Option<u32>, tests: ArrayVec<Test, 8>) -> TriggerStep
        ensures bound { result.bound ≡ bound }
        ensures tests { result.tests ≡ tests }
    {
        let asked = asked_lines(tests.as_slice());
        TriggerStep {
            bound,
            tests,
            asked,
        }
    }

    /// Whether the sample has what every test asks.
    #[tactic(auto, unfolding(crate::specs::TriggerSteps::step_holds))]
    pub fn holds(&self, sample: &Sample) -> bool
        ensures { result ≡ step_holds sample.now (view_of self.now) }
    {
        if !sample.has(self.asked) {
            return false;
        }
        self.tests.as_slice().iter().all(|test| test.holds(sample))
    }

    /// Whether so many clocks after the step before it are within the bound.
    #[tactic(auto, unfolding(crate::specs::TriggerSteps::keeps_bound))]
    pub fn keeps_bound(&self, clocks: u32) -> bool
        ensures { result ≡ keeps_bound (view_of self.now) clocks }
    {
        match self.bound {
            Some(most) => clocks <= most,
            None => true,
        }
    }
}

// The lines that these tests ask to be asserted.
fn asked_lines(tests: &[Test]) -> Lines
    ensures { result.0 ≡ asked_lines tests.now }
{
    Lines(tests.iter().fold(0, |lines, test| lines | test.asked().0))
}

/// What a trace is searched for: 1 to 8 steps, one after another.
#[derive(Drop)]
pub struct Trigger {
    /// The steps.
    pub(crate) steps: ArrayVec<TriggerStep, 8>,
    ghost some: { 0 < length steps.items },
    ghost few: { length steps.items ≤ 8 },
}
