//! A law over the agents of a bench after the hits of a clock: no code.

ghost use Rattle.std.specs.Prelude.{Bool};
ghost use Rattle.fsb_hazard.specs.declared.choice.Choice.{Choice};
ghost use Rattle.fsb_bench_view.specs.BenchSteps.{step_run};
ghost use Rattle.fsb_bench_view.specs.BusViews.{BenchView};
ghost use Rattle.fsb_bench_run.specs.BenchOf.{IsBenchOf};
ghost use Rattle.fsb_bench_run.specs.HitsTold.{HasHitsOf};

/// The agents of a bench after the hits of its clock are those of the run with one more clock.
pub fn agents_have_their_hits()
    ensures { (v : BenchView) (hold : Bool) (choice : Choice) → IsBenchOf v →
        HasHitsOf v (step_run v hold choice) }
{}
