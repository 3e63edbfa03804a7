//! Laws over a bench before its first clock, and over what it may do at its next one. No code.

ghost use Rattle.std.specs.Prelude.{Bool};
ghost use Rattle.fsb_script.specs.Plans.{PlanView};
ghost use Rattle.fsb_script.specs.View.{plan_view};
ghost use Rattle.fsb_script.specs.declared.plan.Plan.{Plan};
ghost use Rattle.fsb_bench_view.specs.BusViews.{BenchView};
ghost use Rattle.fsb_bench_view.specs.FirstBench.{first_bench, is_named_line};
ghost use Rattle.fsb_bench_view.specs.MaySteps.{MayStep};
ghost use Rattle.fsb_bench_run.specs.BenchOf.{IsBenchOf};
ghost use Rattle.fsb_bench_run.specs.BenchPlans.{IsBenchPlan};

/// What is read from a bench file keeps the bounds that a bench asks of its plan; and the first
/// bench of a plan that keeps them stands for its run, which is empty.
pub fn first_benches_stand_for_their_runs()
    ensures plans { (plan : Plan) → IsBenchPlan (plan_view plan) }
    ensures first { (plan : PlanView) → IsBenchPlan plan → IsBenchOf (first_bench plan) }
{}

/// A bench that stands for its run may take its next clock, whether BNR# is asked for or not.
pub fn benches_may_go_on()
    ensures { (v : BenchView) (hold : Bool) → IsBenchOf v →
        MayStep (is_named_line v.run.plan.scripts) v hold }
{}
