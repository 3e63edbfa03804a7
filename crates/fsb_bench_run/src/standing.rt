//! Laws over the bench after a clock: it stands for the longer run. No code.

ghost use Rattle.std.specs.Prelude.{Bool, Some, length, ◌≡◌};
ghost use Rattle.fsb_hazard.specs.declared.choice.Choice.{Choice};
ghost use Rattle.fsb_timely.specs.Runs.{past_of};
ghost use Rattle.fsb_bench_view.specs.declared.beginning.Starting.{Starting};
ghost use Rattle.fsb_bench_view.specs.BenchSteps.{bench_stepped, step_decided, step_run};
ghost use Rattle.fsb_bench_view.specs.BusViews.{BenchView, next_clock_of};
ghost use Rattle.fsb_bench_run.specs.BenchOf.{
  HasAgentsOf,
  HasStarted,
  IsBegunAt,
  IsBenchOf,
  IsLatestOf,
};
ghost use Rattle.fsb_bench_run.specs.LocksHeld.{kept_into};

/// What a bench begins at a clock is what the winner of its run would begin there; so after the clock
/// the bench has the request that began last, and all that have begun, of the longer run.
pub fn beginnings_are_of_the_run()
    ensures begun { (v : BenchView) (hold : Bool) (choice : Choice) (starting : Starting) →
        IsBenchOf v →
        (step_decided v hold).starting ≡ Some starting →
        IsBegunAt (step_run v hold choice) (next_clock_of v) starting.who starting.request }
    ensures latest { (v : BenchView) (hold : Bool) (choice : Choice) → IsBenchOf v →
        IsLatestOf (bench_stepped v hold choice).bus.latest (step_run v hold choice) }
    ensures started { (v : BenchView) (hold : Bool) (choice : Choice) → IsBenchOf v →
        HasStarted (bench_stepped v hold choice).bus.started (step_run v hold choice) }
{}

/// The agents that keep the bus locked after the clock are those of the longer run.
pub fn locks_of_benches_go_on()
    ensures { (v : BenchView) (hold : Bool) (choice : Choice) → IsBenchOf v →
        (bench_stepped v hold choice).bus.kept ≡ kept_into (past_of (step_run v hold choice))
        (length (step_run v hold choice).trace) }
{}

/// The agents of the bench are after the clock those of the longer run: sound, and with what they owe.
pub fn agents_of_benches_go_on()
    ensures { (v : BenchView) (hold : Bool) (choice : Choice) → IsBenchOf v →
        HasAgentsOf (bench_stepped v hold choice).bus.agents (step_run v hold choice) }
{}

/// The bench after a clock stands for the longer run.
pub fn benches_go_on()
    ensures { (v : BenchView) (hold : Bool) (choice : Choice) → IsBenchOf v →
        IsBenchOf (bench_stepped v hold choice) }
{}
