//! The writing of a bench's run.
ghost use Rattle.std.specs.Prelude.{◌≡◌, ◌≤◌, ◌++◌, IsTrue, OnOk, OnErr, Some, length};
ghost use Rattle.fsb_core.specs.Benches.{bench_view};
ghost use Rattle.fsb_io.specs.Appends.{AppendsPart};
ghost use Rattle.fsb_io.specs.Faults.{HasCause};
ghost use Rattle.fsb_play.specs.Printed.{printed_text, run_dump};
ghost use Rattle.fsb_play.specs.Writing.{HasDumpPart};

use crate::print::Print;
use crate::text::{write_lines, write_log};
use fsb_core::Bench;
use fsb_io::{Failed, Sink};
use fsb_plan_size::access_count;
use fsb_report::{bus_line, end_line, gen_line, request_counts};
use vcd_write::put_dump;

/// Writes the log, or the summary, of a bench that has taken all its clocks: one piece a line.
pub(crate) fn write_text<O: Sink>(
    bench: &Bench,
    print: &Print<'_>,
    out: &mut O,
) -> Result<(), Failed>
    requires { length (bench_view bench.now).run.trace ≡ (bench_view bench.now).run.plan.clocks }
    ensures whole { IsTrue O.tells → OnOk result (O.holds out.new
        ≡ O.holds out.old ++ printed_text print.now (bench_view bench.now).run) }
    ensures part { IsTrue O.tells →
        AppendsPart (printed_text print.now (bench_view bench.now).run) (O.holds out.old)
        (O.holds out.new) }
    ensures name_stays { IsTrue O.tells → O.begun_as out.new ≡ O.begun_as out.old }
    ensures cause { HasCause (O.faults out.old) (O.faults out.new) result }
{
    bench.is_simulated();
    let plan = bench.plan();
    let log = bench.log();
    let of = access_count(plan);
    match *print {
        Print::Log | Print::LogAndDump(_) => write_log(out, plan.clocks, of, log),
        Print::Summary {
            seed,
            agents,
            items,
        } => {
            let first = gen_line(seed, agents, items);
            let last = end_line(plan.clocks, log.len() as u32, of);
            let bus = bus_line(&request_counts(bench.trace()));
            write_lines(out, first.as_slice(), last.as_slice(), bus.as_slice())
        }
    }
}

/// Begins the sink under the name, and writes the dump of a bench that has taken all its clocks.
pub(crate) fn write_dump<D: Sink>(bench: &Bench, name: &str, dump: &mut D) -> Result<(), Failed>
    requires whole { length (bench_view bench.now).run.trace
        ≡ (bench_view bench.now).run.plan.clocks }
    requires named { length name.now ≤ 4096 }
    ensures whole { IsTrue D.tells →
        OnOk result (D.holds dump.new ≡ run_dump (bench_view bench.now).run) }
    ensures named { IsTrue D.tells → OnOk result (D.begun_as dump.new ≡ Some name.now) }
    ensures part { IsTrue D.tells → OnErr result
        (HasDumpPart (run_dump (bench_view bench.now).run) (Some name.now) (D.holds dump.old)
        (D.begun_as dump.old) (D.holds dump.new) (D.begun_as dump.new)) }
    ensures cause { HasCause (D.faults dump.old) (D.faults dump.new) result }
{
    bench.is_simulated();
    dump.begin(name)?;
    put_dump(dump, bench.plan().profile, bench.trace())
}
