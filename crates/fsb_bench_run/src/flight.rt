//! Laws over the requests in flight after a bench's next clock: no code.

ghost use Rattle.std.specs.Prelude.{Bool};
ghost use Rattle.fsb_hazard.specs.declared.choice.Choice.{Choice};
ghost use Rattle.fsb_phase_run.specs.Holds.{HoldsRequests};
ghost use Rattle.fsb_bench_view.specs.BenchSteps.{step_queue, step_run};
ghost use Rattle.fsb_bench_view.specs.BusViews.{BenchView};
ghost use Rattle.fsb_bench_view.specs.MaySteps.{HasFlightOf, MaySample};
ghost use Rattle.fsb_bench_run.specs.BenchOf.{HasBegun, IsBenchOf};

/// The sample of the clock may be the next; and the queue after it holds the requests in flight of the
/// run with one more clock, each with its choice and its number, and their numbers rise; and each
/// entry has the agent and the request that began at its clock.
pub fn queues_of_benches_go_on()
    ensures sample { (v : BenchView) (hold : Bool) → IsBenchOf v → MaySample v hold }
    ensures requests { (v : BenchView) (hold : Bool) (choice : Choice) → IsBenchOf v →
        HoldsRequests (step_queue v hold choice) (step_run v hold choice) }
    ensures flight { (v : BenchView) (hold : Bool) (choice : Choice) → IsBenchOf v →
        HasFlightOf (step_queue v hold choice) (step_run v hold choice) }
    ensures begun { (v : BenchView) (hold : Bool) (choice : Choice) → IsBenchOf v →
        HasBegun (step_queue v hold choice) (step_run v hold choice) }
{}
