//! The reading and the judging of a dump that is shown.
ghost use Rattle.std.specs.Prelude.{◌≡◌, ◌≤◌, ◌<◌, ◌^◌, [], Err, IsTrue, IfOk, OnErr, IsSome, Some, length, map};
ghost use Rattle.fsb_io.specs.Faults.{Rose};
ghost use Rattle.fsb_rules.specs.Checker.{as_broken};
ghost use Rattle.fsb_trace.specs.Verdict.{verdict};
ghost use Rattle.fsb_show.specs.ShownDump.{IsBegun, IsToldAs, IsTrace};
ghost use Rattle.fsb_show.specs.Showing.{IsOfOneTrace, IsOfTrace, IsShown};
ghost use Rattle.fsb_watch.specs.Watched.{IsBegunOrStays};

use crate::stop::ShowStop;
use fsb_io::{Memory, ReadStop, Source, read_all};
use fsb_probe::{Probe, watch_all};
use fsb_rules::{Broken, Checker};
use fsb_signal::{Marks, Sample};
use fsb_table::{Row, table};
use std::alloc::Global;
use vcd_read::{VcdStop, read_dump};

/// The longest dump that is shown, in bytes.
const DUMP_LIMIT: usize = 268_435_456;

/// What is shown of a dump: of a trace of so many clocks, its first broken rule or, where it has
/// none, a row for each request.
#[derive(Drop)]
pub struct Shown {
    pub clocks: u32,
    pub broken: Option<Broken>,
    pub rows: Vec<Row>,
}

/// Begins the source under the name, reads the dump that it holds to its end, or to one byte past
/// 268,435,456, and judges it. Where it breaks no rule, each object is cleared and shown every
/// sample, in order. Where it breaks one there are no rows; then, and where nothing is told, every
/// object is as it was. What is shown is of one trace, whatever the source tells of its bytes.
pub fn show_dump<S: Source>(
    alloc: Global,
    name: &str,
    source: &mut S,
    probes: &mut [Box<dyn Probe>],
) -> Result<Shown, ShowStop>
    requires { length name.now ≤ 4096 }
    ensures shown { IsTrue S.tells →
        IsToldAs (IsShown (map (λ p. weight p) probes.old) (map (λ p. counted p) probes.new))
        result (S.holds source.old) (S.left source.new) }
    ensures of_one_trace { IfOk result (λ shown.
        IsOfOneTrace (map (λ p. weight p) probes.old) (map (λ p. counted p) probes.new) shown
        (S.holds source.old) S.tells) }
    ensures not_counted { IfOk result (λ shown. IsSome shown.broken →
        (shown.rows.items ≡ []) × (probes.new ≡ probes.old)) }
    ensures not_shown { OnErr result (probes.new ≡ probes.old) }
    ensures weights_stay { map (λ p. weight p) probes.new ≡ map (λ p. weight p) probes.old }
    ensures named { IsTrue S.tells → IsBegun result → S.begun_as source.new ≡ Some name.now }
    ensures not_read { IsTrue S.tells → result ≡ Err ShowStop.ReadFault →
        IsBegunOrStays name.now (S.begun_as source.old) (S.begun_as source.new)
        (S.left source.old) (S.left source.new) }
    ensures read_fault { result ≡ Err ShowStop.ReadFault →
        Rose (S.faults source.old) (S.faults source.new) }
    ensures later { S.faults source.old ≤ S.faults source.new }
    ensures holds_stays { IsTrue S.tells → S.holds source.new ≡ S.holds source.old }
{
    if source.begin(name).is_err() {
        return Err(ShowStop::ReadFault);
    }
    let (marks, samples) = read_trace(alloc, source)?;
    let shown = show_trace(alloc, marks, samples.as_slice(), probes)?;
    Ok(shown)
}

// Reads the dump that is left.
fn read_trace<S: Source>(alloc: Global, source: &mut S) -> Result<(Marks, Vec<Sample>), ShowStop>
    ensures read { IsTrue S.tells →
        IsToldAs IsTrace result (S.left source.old) (S.left source.new) }
    ensures few { IfOk result (λ told. length told.1.items ≤ 200000) }
    ensures read_fault { result ≡ Err ShowStop.ReadFault →
        Rose (S.faults source.old) (S.faults source.new) }
    ensures later { S.faults source.old ≤ S.faults source.new }
    ensures name_stays { IsTrue S.tells → S.begun_as source.new ≡ S.begun_as source.old }
    ensures holds_stays { IsTrue S.tells → S.holds source.new ≡ S.holds source.old }
{
    let text = match read_all(alloc, source, DUMP_LIMIT) {
        Ok(text) => text,
        Err(ReadStop::ReadFault) => return Err(ShowStop::ReadFault),
        Err(ReadStop::TooLong) => return Err(ShowStop::TooLong),
        Err(ReadStop::Memory) => return Err(ShowStop::Memory),
    };
    match read_dump(alloc, text.as_slice()) {
        Ok(told) => Ok(told),
        Err(VcdStop::Bad(fault)) => Err(ShowStop::Bad(fault)),
        Err(VcdStop::TooLong) => Err(ShowStop::TooLong),
        Err(VcdStop::Memory) => Err(ShowStop::Memory),
    }
}

// What is shown of a trace, of a dump with these marks.
fn show_trace(
    alloc: Global,
    marks: Marks,
    w: &[Sample],
    probes: &mut [Box<dyn Probe>],
) -> Result<Shown, Memory>
    requires { length w.now < 2 ^ 32 }
    ensures of_trace { IfOk result (λ shown.
        IsOfTrace (map (λ p. weight p) probes.old) (map (λ p. counted p) probes.new) shown marks
        w.now) }
    ensures not_counted { IfOk result (λ shown. IsSome shown.broken →
        (shown.rows.items ≡ []) × (probes.new ≡ probes.old)) }
    ensures not_shown { OnErr result (probes.new ≡ probes.old) }
    ensures weights_stay { map (λ p. weight p) probes.new ≡ map (λ p. weight p) probes.old }
{
    let clocks = w.len() as u32;
    match judge(marks, w) {
        Some(broken) => Ok(Shown {
            clocks,
            broken: Some(broken),
            rows: Vec::new(alloc),
        }),
        None => {
            let rows = table(alloc, marks, w)?;
            watch_all(probes, w);
            Ok(Shown {
                clocks,
                broken: None,
                rows,
            })
        }
    }
}

// The first broken rule of a trace, of a dump with these marks.
fn judge(marks: Marks, w: &[Sample]) -> Option<Broken>
    requires { length w.now < 2 ^ 32 }
    ensures { result ≡ as_broken (verdict marks w.now) }
{
    let mut checker = Checker::new(marks);
    let mut broken = None;
    for sample in w {
        broken = checker.feed(sample);
    }
    broken
}
