//! The search for a trigger, sample by sample.

ghost use Rattle.std.specs.Prelude.{◌≡◌, ◌≢◌, ◌<◌, ◌≤◌, ◌+◌, ◌^◌, ◌++◌, ◌∷◌, [], ℕ, List, Some, None, ◌-◌, if◌then◌else◌, length, option_map, slice_get, slice_index, slice_set};
ghost use Rattle.fsb_signal.specs.declared.sample.Sample.{Sample};
ghost use Rattle.fsb_trigger.specs.TriggerSteps.{StepView, keeps_bound, view_of};
ghost use Rattle.fsb_trigger.specs.Match.{least_match, newest_match};
ghost use Rattle.fsb_trigger.specs.Hunt.{KeepsAt, KeepsFirst, KeepsLatest, Stands, kept, steps_in};

use crate::clocks::{Clocks, Found};
use crate::trigger::{Trigger, TriggerStep};
use fsb_signal::Sample;

/// The search for a trigger in a trace, which is fed sample by sample.
///
/// For each step it keeps the clocks of the latest match of the steps up to it: any later match can go on from the latest
/// one, since a later clock only comes nearer. It takes no memory.
#[derive(Drop)]
pub struct Hunt {
    /// What is searched for.
    trigger: Trigger,
    /// How many samples were fed.
    count: u64,
    /// For each step the clocks of the latest match of the steps up to it.
    latest: [Option<[u32; 8]>; 8],
    /// The clocks of the least match of all the steps.
    found: Option<[u32; 8]>,
}

impl Hunt {
    /// The search before the first sample.
    pub fn new(trigger: Trigger) -> Hunt
        ensures { Stands result (steps_in trigger) [] }
    {
        Hunt {
            trigger,
            count: 0,
            latest: [None; 8],
            found: None,
        }
    }

    /// Takes the sample of the next clock, and tells the clocks of the least match, once there is one. Fewer than 2^32
    /// samples were fed before.
    pub fn feed(&mut self, sample: &Sample) -> Option<Found>
        requires { (steps : List StepView) × (h : List Sample)
            × Stands self.old steps h × (length h < 2 ^ 32) }
        ensures found { (steps : List StepView) (h : List Sample) → Stands self.old steps h
            → option_map (λ found. found.clocks) result ≡ least_match steps (h ++ sample.now ∷ []) }
        ensures stands { (steps : List StepView) (h : List Sample) → Stands self.old steps h
            → Stands self.new steps (h ++ sample.now ∷ []) }
    {
        self.look(sample);
        self.count += 1;
        self.told()
    }

    // Looks for the least match in the sample, as long as there was none before.
    fn look(&mut self, sample: &Sample)
        requires { self.old.count < 2 ^ 32 }
        ensures finds { (h : List Sample) → Stands self.old (steps_in self.old.trigger) h
            → kept (length (steps_in self.old.trigger)) self.new.found
            ≡ least_match (steps_in self.old.trigger) (h ++ sample.now ∷ []) }
        ensures keeps { (h : List Sample) → Stands self.old (steps_in self.old.trigger) h
            → self.new.found ≡ None
            → KeepsLatest self.new.latest (steps_in self.old.trigger) (h ++ sample.now ∷ []) }
        ensures trigger_stays { self.new.trigger ≡ self.old.trigger }
        ensures count_stays { self.new.count ≡ self.old.count }
    {
        if self.found.is_some() {
            return;
        }
        let clock = self.count as u32;
        let found = match_at(&self.trigger, &mut self.latest, clock, sample);
        self.found = found;
    }

    // What was found.
    fn told(&self) -> Option<Found>
        ensures { option_map (λ found. found.clocks) result
            ≡ kept (length (steps_in self.now.trigger)) self.now.found }
    {
        match self.found {
            Some(clocks) => Some(Found {
                clocks: Clocks::first_of(&clocks, self.trigger.steps.len()),
            }),
            None => None,
        }
    }
}

// The clocks of the match of all the steps at the clock, if there is one there. Without one the latest matches of the steps
// are then those with the sample, which is that of the clock.
fn match_at(
    trigger: &Trigger,
    latest: &mut [Option<[u32; 8]>; 8],
    clock: u32,
    sample: &Sample,
) -> Option<[u32; 8]>
    ensures newest { (h : List Sample) → clock ≡ length h
        → KeepsLatest latest.old (steps_in trigger.now) h
        → kept (length (steps_in trigger.now)) result
        ≡ newest_match (steps_in trigger.now) (h ++ sample.now ∷ [])
        (length (steps_in trigger.now) - 1) }
    ensures keeps { (h : List Sample) → clock ≡ length h
        → KeepsLatest latest.old (steps_in trigger.now) h → result ≡ None
        → KeepsLatest latest.new (steps_in trigger.now) (h ++ sample.now ∷ []) }
{
    let last = trigger.steps.len() - 1;
    let found = chain_to(trigger, latest, last, clock, sample);
    take_below(trigger, latest, last, clock, sample);
    found
}

// Takes the sample of the clock into the latest matches of the steps below this one, from the last to the first: each goes
// on from what the step before it had until then.
fn take_below(
    trigger: &Trigger,
    latest: &mut [Option<[u32; 8]>; 8],
    end: usize,
    clock: u32,
    sample: &Sample,
)
    requires { end ≤ length (steps_in trigger.now) }
    ensures keeps { (h : List Sample) → clock ≡ length h
        → KeepsFirst end latest.old (steps_in trigger.now) h
        → KeepsFirst end latest.new (steps_in trigger.now) (h ++ sample.now ∷ []) }
    ensures rest_stays { (k : ℕ) → end ≤ k
        → slice_get latest.new k ≡ slice_get latest.old k }
{
    let mut i = end;
    while i > 0 {
        i -= 1;
        take_at(trigger, latest, i, clock, sample);
    }
}

// Takes the sample of the clock into the latest match of the steps up to step i.
fn take_at(
    trigger: &Trigger,
    latest: &mut [Option<[u32; 8]>; 8],
    i: usize,
    clock: u32,
    sample: &Sample,
)
    requires { i < length (steps_in trigger.now) }
    ensures keeps { (h : List Sample) → clock ≡ length h
        → KeepsFirst (i + 1) latest.old (steps_in trigger.now) h
        → KeepsAt latest.new (steps_in trigger.now) (h ++ sample.now ∷ []) i }
    ensures rest_stays { (k : ℕ) → k ≢ i
        → slice_get latest.new k ≡ slice_get latest.old k }
{
    let Some(chain) = chain_to(trigger, latest, i, clock, sample) else {
        return;
    };
    latest[i] = Some(chain);
}

// The clocks of the match of the steps up to step i at the clock, if there is one there; the sample is that of the clock.
fn chain_to(
    trigger: &Trigger,
    latest: &[Option<[u32; 8]>; 8],
    i: usize,
    clock: u32,
    sample: &Sample,
) -> Option<[u32; 8]>
    requires { i < length (steps_in trigger.now) }
    ensures { (h : List Sample) → clock ≡ length h
        → KeepsFirst i latest.now (steps_in trigger.now) h
        → kept (i + 1) result
        ≡ newest_match (steps_in trigger.now) (h ++ sample.now ∷ []) i }
{
    let step = &trigger.steps.as_slice()[i];
    if !step.holds(sample) {
        None
    } else if i == 0 {
        Some([clock, 0, 0, 0, 0, 0, 0, 0])
    } else {
        match &latest[i - 1] {
            Some(before) => chain_behind(before, i, clock, step),
            None => None,
        }
    }
}

// The clocks of a match of i steps and of this step at the clock, where that keeps its bound.
fn chain_behind(before: &[u32; 8], i: usize, clock: u32, step: &TriggerStep) -> Option<[u32; 8]>
    requires some { 0 < i }
    requires few { i < 8 }
    ensures value { result ≡ (if keeps_bound (view_of step.now)
        (clock - slice_index before.now (i - 1))
        then Some (slice_set before.now i clock) else None) }
    ensures long { length before.now ≡ 8 }
{
    if !step.keeps_bound(clock.saturating_sub(before[i - 1])) {
        return None;
    }
    let mut chain = *before;
    chain[i] = clock;
    Some(chain)
}
