//! Laws over the bytes of a bench before its first clock: no code.

ghost use Rattle.fsb_script.specs.Plans.{PlanView};
ghost use Rattle.fsb_timely.specs.Carried.{Carried};
ghost use Rattle.fsb_bench_view.specs.FirstBench.{first_bench};
ghost use Rattle.fsb_bench_values.specs.BytesOf.{HasBytesOf};

/// The first bench of a plan has the bytes of its run, which is empty: those of the plan's memory;
/// and no data of that run are to be carried.
pub fn first_benches_have_their_bytes()
    ensures bytes { (plan : PlanView) → HasBytesOf (first_bench plan) }
    ensures carried { (plan : PlanView) → Carried (first_bench plan).run }
{}
