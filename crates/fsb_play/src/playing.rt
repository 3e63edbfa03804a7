//! The playing of a bench.
ghost use Rattle.std.specs.Prelude.{◌≡◌, ◌≢◌, ◌≤◌, ◌++◌, is_some, IsTrue, None, length, map};
ghost use Rattle.std.specs.Option.{ForSome};
ghost use Rattle.fsb_core.specs.Benches.{bench_view, objects_of};
ghost use Rattle.fsb_io.specs.Appends.{AppendsPart};
ghost use Rattle.fsb_io.specs.Faults.{Rose};
ghost use Rattle.fsb_play.specs.Printed.{dump_named, printed_text, run_dump};
ghost use Rattle.fsb_play.specs.RunOf.{IsRunOf};
ghost use Rattle.fsb_play.specs.Writing.{HasDump, HasDumpPart};

use crate::clocks::run_clocks;
use crate::output::{write_dump, write_text};
use crate::print::Print;
use fsb_core::Bench;
use fsb_hazard::Hazard;
use fsb_io::{Failed, Sink};

/// How the playing of a bench ended.
#[derive(Clone, Copy, Debug, PartialEq, Eq)]
pub enum Played {
    /// All was written.
    Done,
    /// The sink of the log failed in this call; it holds a prefix of its text, and the dump was not begun.
    WriteFault,
    /// The sink of the dump failed in this call; it holds a prefix of its text, or what it held where it could not be begun.
    DumpFault,
}

/// Takes all clocks of a bench that has taken none, writes the log or the summary to `out`, and then the dump under its
/// name, where it has one. It takes no memory.
///
/// The run is the bench's own: its trace, its log, its choices and its holds as the call ends, for what its objects tell.
pub fn play<O: Sink, D: Sink>(
    bench: &mut Bench,
    print: &Print<'_>,
    out: &mut O,
    dump: &mut D,
) -> Played
    requires first { length (bench_view bench.old).run.trace ≡ 0 }
    requires named { ForSome (dump_named print.now) (λ name. length name ≤ 4096) }
    ensures run { IsRunOf (map ⟦<Box<dyn Hazard> as Hazard>⟧.told (objects_of bench.old))
        (bench_view bench.old).run.plan (bench_view bench.new).run }
    ensures told_stays { map ⟦<Box<dyn Hazard> as Hazard>⟧.told (objects_of bench.new)
        ≡ map ⟦<Box<dyn Hazard> as Hazard>⟧.told (objects_of bench.old) }
    ensures kinds_stay { map ⟦<Box<dyn Hazard> as Hazard>⟧.is_scripted (objects_of bench.new)
        ≡ map ⟦<Box<dyn Hazard> as Hazard>⟧.is_scripted (objects_of bench.old) }

    ensures write_fault { result ≡ Played.WriteFault → Rose (O.faults out.old) (O.faults out.new) }
    ensures dump_fault { result ≡ Played.DumpFault → Rose (D.faults dump.old) (D.faults dump.new) }
    ensures dump_has_name { result ≡ Played.DumpFault → IsTrue (is_some (dump_named print.now)) }

    // The text was written unless its sink failed, and then a prefix of it.
    ensures printed { IsTrue O.tells → result ≢ Played.WriteFault → O.holds out.new
        ≡ O.holds out.old ++ printed_text print.now (bench_view bench.new).run }
    ensures printed_part { IsTrue O.tells →
        AppendsPart (printed_text print.now (bench_view bench.new).run) (O.holds out.old)
        (O.holds out.new) }
    ensures out_name { IsTrue O.tells → O.begun_as out.new ≡ O.begun_as out.old }

    // The dump is begun only after the log was written, and only where it has a name.
    ensures not_begun { result ≡ Played.WriteFault → dump.new ≡ dump.old }
    ensures no_dump { dump_named print.now ≡ None → dump.new ≡ dump.old }
    ensures whole_dump { IsTrue D.tells → result ≡ Played.Done →
        HasDump (run_dump (bench_view bench.new).run) (dump_named print.now) (D.holds dump.new)
        (D.begun_as dump.new) }
    ensures dump_part { IsTrue D.tells → result ≡ Played.DumpFault →
        HasDumpPart (run_dump (bench_view bench.new).run) (dump_named print.now)
        (D.holds dump.old) (D.begun_as dump.old) (D.holds dump.new) (D.begun_as dump.new) }
{
    run_clocks(bench);
    write_run(bench, print, out, dump)
}

// Writes the run of a bench that has taken all its clocks.
fn write_run<O: Sink, D: Sink>(
    bench: &Bench,
    print: &Print<'_>,
    out: &mut O,
    dump: &mut D,
) -> Played
    requires whole { length (bench_view bench.now).run.trace
        ≡ (bench_view bench.now).run.plan.clocks }
    requires named { ForSome (dump_named print.now) (λ name. length name ≤ 4096) }
    ensures write_fault { result ≡ Played.WriteFault → Rose (O.faults out.old) (O.faults out.new) }
    ensures dump_fault { result ≡ Played.DumpFault → Rose (D.faults dump.old) (D.faults dump.new) }
    ensures dump_has_name { result ≡ Played.DumpFault → IsTrue (is_some (dump_named print.now)) }
    ensures printed { IsTrue O.tells → result ≢ Played.WriteFault → O.holds out.new
        ≡ O.holds out.old ++ printed_text print.now (bench_view bench.now).run }
    ensures printed_part { IsTrue O.tells →
        AppendsPart (printed_text print.now (bench_view bench.now).run) (O.holds out.old)
        (O.holds out.new) }
    ensures out_name { IsTrue O.tells → O.begun_as out.new ≡ O.begun_as out.old }
    ensures not_begun { result ≡ Played.WriteFault → dump.new ≡ dump.old }
    ensures no_dump { dump_named print.now ≡ None → dump.new ≡ dump.old }
    ensures whole_dump { IsTrue D.tells → result ≡ Played.Done →
        HasDump (run_dump (bench_view bench.now).run) (dump_named print.now) (D.holds dump.new)
        (D.begun_as dump.new) }
    ensures dump_part { IsTrue D.tells → result ≡ Played.DumpFault →
        HasDumpPart (run_dump (bench_view bench.now).run) (dump_named print.now)
        (D.holds dump.old) (D.begun_as dump.old) (D.holds dump.new) (D.begun_as dump.new) }
{
    if write_text(bench, print, out).is_err() {
        return Played::WriteFault;
    }
    let Print::LogAndDump(name) = print else {
        return Played::Done;
    };
    match write_dump(bench, name, dump) {
        Ok(()) => Played::Done,
        Err(Failed) => Played::DumpFault,
    }
}
