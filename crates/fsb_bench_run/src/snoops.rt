//! Laws over hazard lines and snoop results of a bench's next clock: no code.

ghost use Rattle.std.specs.Prelude.{Bool, IsTrue};
ghost use Rattle.fsb_hazard.specs.declared.choice.Choice.{Choice};
ghost use Rattle.fsb_timely.specs.Snoops.{drives_hazards, has_snoop_result};
ghost use Rattle.fsb_timely.specs.Timely.{holds_at};
ghost use Rattle.fsb_bench_view.specs.BenchSteps.{step_run};
ghost use Rattle.fsb_bench_view.specs.BusViews.{BenchView, next_clock_of};
ghost use Rattle.fsb_bench_run.specs.BenchOf.{IsBenchOf};

/// BNR#, AERR#, the stalls and DEFER# of the clock are as they are chosen, and HIT# and HITM# are at
/// snoop clocks alone; and where the clock is a snoop end, its result is right.
pub fn snoops_are_driven()
    ensures hazards { (v : BenchView) (hold : Bool) (choice : Choice) → IsBenchOf v →
        IsTrue (holds_at drives_hazards (step_run v hold choice) (next_clock_of v)) }
    ensures result { (v : BenchView) (hold : Bool) (choice : Choice) → IsBenchOf v →
        IsTrue (holds_at has_snoop_result (step_run v hold choice) (next_clock_of v)) }
{}
