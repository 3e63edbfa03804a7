//! What a clock brought, taken into a queue.

ghost use Rattle.std.specs.Prelude.{◌≡◌, ◌<◌, ◌≤◌, ℕ, List, [], ◌∷◌, ◌++◌, length, IfSome};
ghost use Rattle.fsb_signal.specs.declared.lines.TheConstants.Lines.{AERR};
ghost use Rattle.fsb_signal.specs.declared.sample.Sample.{Sample};
ghost use Rattle.fsb_signal.specs.Samples.{has_line};
ghost use Rattle.fsb_trace.specs.At.{Trace};
ghost use Rattle.fsb_phase.specs.declared.phases.Phases.{Phases};
ghost use Rattle.fsb_phase.specs.Drive.{phased_at};
ghost use Rattle.fsb_phase.specs.Phases.{Stands, MayTake};
ghost use Rattle.fsb_flight.specs.GoesOn.{goes_on, Rising};
ghost use Rattle.fsb_flight.specs.Steps.{settle_first, number_before, cancel_before, begun_list, queue_after};

use fsb_phase::Phased;
use fsb_queue::{Entry, Queue};
use fsb_trace::Outcome;

/// Gives the first entry without an outcome this one.
fn settle_first(queue: &mut Queue, outcome: Outcome)
    ensures entries { queue.new ≡ settle_first outcome queue.old }
    ensures room { length queue.new ≤ length queue.old }
{
    for i in 0..queue.len() {
        if let Some(e) = queue.at(i).copied() {
            if e.outcome.is_none() {
                queue.settle(i, outcome);
                return;
            }
        }
    }
}

/// The number of the first entry that began three clocks before, if there is one.
fn number_before(queue: &Queue, clock: u32) -> Option<u32>
    ensures { result ≡ number_before clock queue.now }
{
    let found = queue
        .iter()
        .find(|e| u64::from(e.clock) + 3 == u64::from(clock))
        .copied();
    match found {
        Some(e) => Some(e.number),
        None => None,
    }
}

/// Takes out the first entry that began three clocks before.
fn cancel_before(queue: &mut Queue, clock: u32)
    ensures entries { queue.new ≡ cancel_before clock queue.old }
    ensures room { length queue.new ≤ length queue.old }
{
    if let Some(number) = number_before(queue, clock) {
        let _ = queue.cancel(number);
    }
}

/// Takes into the queue what the sample of this clock brought: the entry whose snoop ends gets its outcome, the oldest
/// leaves where it ends, the one that began three clocks before is cancelled at an address error, and one that begins
/// is behind the others. The numbers of the entries rise.
pub fn take_clock(
    queue: &mut Queue,
    clock: u32,
    phased: &Phased,
    outcome: Outcome,
    error: bool,
    begun: Option<Entry>,
)
    requires { IfSome begun (λ e. length queue.old < 8) }
    ensures { (p : Phases) (h : Trace) (x : Sample) (turns : List ℕ) → Stands p h →
        MayTake clock x queue.old turns h → Rising queue.old →
        phased.now ≡ phased_at (h ++ x ∷ []) clock queue.old → error ≡ has_line x AERR →
        queue.new ≡ goes_on h x outcome queue.old ++ begun_list begun }
{
    take(queue, clock, phased, outcome, error, begun);
}

#[tactic(auto, unfolding(crate::specs::Steps::queue_after, crate::specs::Steps::begun_list))]
fn take(
    queue: &mut Queue,
    clock: u32,
    phased: &Phased,
    outcome: Outcome,
    error: bool,
    begun: Option<Entry>,
)
    requires { IfSome begun (λ e. length queue.old < 8) }
    ensures { queue.new ≡ queue_after clock phased.now outcome error begun queue.old }
{
    if phased.snooped.is_some() {
        settle_first(queue, outcome);
    }
    if phased.ended.is_some() {
        let _ = queue.leave();
    }
    if error {
        cancel_before(queue, clock);
    }
    if let Some(e) = begun {
        queue.enter(e);
    }
}
