//! Laws over responses and data of a bench's next clock: no code.

ghost use Rattle.std.specs.Prelude.{Bool, IsTrue};
ghost use Rattle.fsb_hazard.specs.declared.choice.Choice.{Choice};
ghost use Rattle.fsb_timely.specs.Timely.{holds_at};
ghost use Rattle.fsb_timely.specs.Transfers.{drives_responses};
ghost use Rattle.fsb_bench_view.specs.BenchSteps.{step_run};
ghost use Rattle.fsb_bench_view.specs.BusViews.{BenchView, next_clock_of};
ghost use Rattle.fsb_bench_run.specs.BenchOf.{IsBenchOf};

/// TRDY#, RS#, DRDY# and DBSY# of the clock are as the run says that they are due, and D# is quiet
/// where no data are.
pub fn responses_are_driven()
    ensures { (v : BenchView) (hold : Bool) (choice : Choice) → IsBenchOf v →
        IsTrue (holds_at drives_responses (step_run v hold choice) (next_clock_of v)) }
{}
