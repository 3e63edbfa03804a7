//! Laws over the bytes of a bench after a clock: no code.

ghost use Rattle.std.specs.Prelude.{Bool};
ghost use Rattle.fsb_hazard.specs.declared.choice.Choice.{Choice};
ghost use Rattle.fsb_bench_view.specs.BenchSteps.{bench_stepped};
ghost use Rattle.fsb_bench_view.specs.BusViews.{BenchView};
ghost use Rattle.fsb_bench_run.specs.BenchOf.{IsBenchOf};
ghost use Rattle.fsb_bench_values.specs.BytesOf.{HasBytesOf};

/// Each clock of a bench that stands for its run keeps its bytes: the log of the longer run is
/// served on one byte memory, and caches, buffers, bus and memory have the bytes that this memory
/// has behind the log.
pub fn clocks_keep_bytes()
    ensures { (v : BenchView) (hold : Bool) (choice : Choice) → IsBenchOf v → HasBytesOf v →
        HasBytesOf (bench_stepped v hold choice) }
{}
