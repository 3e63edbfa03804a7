//! The clocks of a bench.
ghost use Rattle.std.specs.Prelude.{◌≡◌, length, map};
ghost use Rattle.fsb_core.specs.Benches.{bench_view, objects_of};
ghost use Rattle.fsb_timely.specs.Asked.{Asked};
ghost use Rattle.fsb_play.specs.RunOf.{IsRunOf};

use fsb_core::Bench;
use fsb_hazard::Hazard;
use vcd_laws::its_dump_reads_back;

/// Takes all clocks of the plan.
pub(crate) fn run_clocks(bench: &mut Bench)
    requires { length (bench_view bench.old).run.trace ≡ 0 }
    ensures run { IsRunOf (map ⟦<Box<dyn Hazard> as Hazard>⟧.told (objects_of bench.old))
        (bench_view bench.old).run.plan (bench_view bench.new).run }
    ensures told_stays { map ⟦<Box<dyn Hazard> as Hazard>⟧.told (objects_of bench.new)
        ≡ map ⟦<Box<dyn Hazard> as Hazard>⟧.told (objects_of bench.old) }
    ensures kinds_stay { map ⟦<Box<dyn Hazard> as Hazard>⟧.is_scripted (objects_of bench.new)
        ≡ map ⟦<Box<dyn Hazard> as Hazard>⟧.is_scripted (objects_of bench.old) }
{
    take_clocks(bench);
    bench.is_simulated();
    bench.breaks_no_rule();
    its_dump_reads_back(bench.plan().profile, bench.trace());
}

// Takes clock after clock, as long as the plan has one.
fn take_clocks(bench: &mut Bench)
    requires { length (bench_view bench.old).run.trace ≡ 0 }
    ensures plan_stays { (bench_view bench.new).run.plan ≡ (bench_view bench.old).run.plan }
    ensures whole { length (bench_view bench.new).run.trace
        ≡ (bench_view bench.old).run.plan.clocks }
    ensures asked { Asked (map ⟦<Box<dyn Hazard> as Hazard>⟧.told (objects_of bench.old))
        (bench_view bench.new).run.choices (bench_view bench.new).run.holds }
    ensures told_stays { map ⟦<Box<dyn Hazard> as Hazard>⟧.told (objects_of bench.new)
        ≡ map ⟦<Box<dyn Hazard> as Hazard>⟧.told (objects_of bench.old) }
    ensures kinds_stay { map ⟦<Box<dyn Hazard> as Hazard>⟧.is_scripted (objects_of bench.new)
        ≡ map ⟦<Box<dyn Hazard> as Hazard>⟧.is_scripted (objects_of bench.old) }
{
    bench.is_simulated();
    while bench.clock() < bench.plan().clocks {
        bench.is_simulated();
        bench.step();
    }
}
