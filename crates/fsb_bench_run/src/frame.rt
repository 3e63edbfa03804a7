//! Laws over the run with one more clock: no code.

ghost use Rattle.std.specs.Prelude.{◌+◌, Bool, IsTrue};
ghost use Rattle.fsb_hazard.specs.declared.choice.Choice.{Choice};
ghost use Rattle.fsb_timely.specs.Growth.{GrowsTo, IsNext, IsWhole};
ghost use Rattle.fsb_timely.specs.Completions.{logs_completions};
ghost use Rattle.fsb_timely.specs.Timely.{Timely, holds_at};
ghost use Rattle.fsb_bench_view.specs.BenchSteps.{step_run};
ghost use Rattle.fsb_bench_view.specs.BusViews.{BenchView, next_clock_of};
ghost use Rattle.fsb_bench_run.specs.BenchOf.{IsBenchOf};

/// The run with one more clock of the bench is the run with one more sample and hold, with a choice
/// where a request begins, and with entries of that clock alone; so a timely run grows to it.
pub fn clocks_add_to_runs()
    ensures next { (v : BenchView) (hold : Bool) (choice : Choice) →
        IsNext v.run (step_run v hold choice) }
    ensures whole { (v : BenchView) (hold : Bool) (choice : Choice) → IsBenchOf v →
        IsWhole (step_run v hold choice) }
    ensures grows { (v : BenchView) (hold : Bool) (choice : Choice) → IsBenchOf v →
        GrowsTo v.run (step_run v hold choice) }
{}

/// The log of the clock has what is completed there: by hits, and by the arrival of the line whose
/// request ends.
pub fn completions_are_logged()
    ensures { (v : BenchView) (hold : Bool) (choice : Choice) → IsBenchOf v →
        IsTrue (holds_at logs_completions (step_run v hold choice) (next_clock_of v)) }
{}

/// The run with one more clock of the bench is timely.
pub fn clocks_keep_runs_timely()
    ensures { (v : BenchView) (hold : Bool) (choice : Choice) → IsBenchOf v →
        Timely (step_run v hold choice) }
{}
