//! Laws over the deferrals after a bench's clock, and what requests serve there. No code.

ghost use Rattle.std.specs.Prelude.{Bool};
ghost use Rattle.fsb_hazard.specs.declared.choice.Choice.{Choice};
ghost use Rattle.fsb_bench_view.specs.BenchSteps.{bench_stepped, step_queue, step_run};
ghost use Rattle.fsb_bench_view.specs.BusViews.{BenchView};
ghost use Rattle.fsb_bench_run.specs.BenchOf.{HasBridgeOf, HasServed, IsBenchOf};

/// The bridge after a bench's clock has the deferrals of the longer run that wait for their replies.
pub fn deferrals_of_benches_go_on()
    ensures { (v : BenchView) (hold : Bool) (choice : Choice) → IsBenchOf v →
        HasBridgeOf (bench_stepped v hold choice).bus.bridge (step_run v hold choice) }
{}

/// What requests serve that have their snoop ends is after a bench's clock that of the longer run.
pub fn served_requests_of_benches_go_on()
    ensures { (v : BenchView) (hold : Bool) (choice : Choice) → IsBenchOf v →
        HasServed (bench_stepped v hold choice).bus.served (step_queue v hold choice)
        (step_run v hold choice) }
{}
