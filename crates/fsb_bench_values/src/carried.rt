//! Laws over the data lines of a bench: no code.

ghost use Rattle.std.specs.Prelude.{Bool};
ghost use Rattle.fsb_hazard.specs.declared.choice.Choice.{Choice};
ghost use Rattle.fsb_timely.specs.Carried.{Carried};
ghost use Rattle.fsb_bench_view.specs.BenchSteps.{step_run};
ghost use Rattle.fsb_bench_view.specs.BusViews.{BenchView};
ghost use Rattle.fsb_bench_run.specs.BenchOf.{IsBenchOf};
ghost use Rattle.fsb_bench_values.specs.BytesOf.{HasBytesOf};

/// Each clock of a bench that stands for its run, and that has the bytes of the log, carries the
/// data that are due: where the clock is the n-th data clock of a request, D# has the n-th chunk of
/// its line, as it stands in the replay of the log below the response.
pub fn clocks_carry_data()
    ensures { (v : BenchView) (hold : Bool) (choice : Choice) → IsBenchOf v → HasBytesOf v →
        Carried v.run → Carried (step_run v hold choice) }
{}
