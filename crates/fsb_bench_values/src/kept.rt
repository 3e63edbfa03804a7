//! Laws over what a bench has come to: no code.

ghost use Rattle.fsb_timely.specs.Carried.{Carried};
ghost use Rattle.fsb_timely.specs.Kept.{Kept};
ghost use Rattle.fsb_timely.specs.Simulated.{Simulated};
ghost use Rattle.fsb_bench_view.specs.BusViews.{BenchView};
ghost use Rattle.fsb_bench_run.specs.BenchOf.{IsBenchOf};
ghost use Rattle.fsb_bench_values.specs.BytesOf.{HasBytesOf};
ghost use Rattle.fsb_bench_values.specs.Lent.{bytes_lent, state_lent};

/// Where a bench stands for its run and its bytes are those of the log, and the data of the run are
/// carried, the run is a simulation.
pub fn benches_are_simulated()
    ensures { (v : BenchView) → IsBenchOf v → HasBytesOf v → Carried v.run → Simulated v.run }
{}

/// And its caches and its memory are as the run keeps them: each line that is held and ready has
/// its state and the bytes that the log gives it, one that is not held is Invalid, and memory has
/// what was put there last.
pub fn benches_keep_their_lines()
    ensures { (v : BenchView) → IsBenchOf v → HasBytesOf v →
        Kept v.run (state_lent v) (bytes_lent v) v.bus.memory }
{}
