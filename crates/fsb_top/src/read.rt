//! The reading of a bench file.
ghost use Rattle.std.specs.Prelude.{◌≡◌, ◌≤◌, ◌<◌, IsTrue, IfOk, Err, length};
ghost use Rattle.fsb_io.specs.Faults.{Rose};
ghost use Rattle.fsb_script.specs.Drafts.{BenchText, FirstBad};
ghost use Rattle.fsb_script.specs.View.{plan_view};
ghost use Rattle.fsb_script.specs.declared.fault.ScriptFault.{ScriptFault};
ghost use Rattle.fsb_watch.specs.Watched.{IsBegunOrStays};
ghost use Rattle.fsb_top.specs.FileRead.{HasReadAll, HasReadAtMost, HasReadPast, bench_file};

use fsb_io::{ReadStop, Source, read_all};
use fsb_script::{Plan, ScriptFault, ScriptStop, read_bench};
use std::alloc::Global;

/// The longest bench file, in bytes.
const BENCH_LIMIT: usize = 4_194_304;

/// Why a bench file gave no plan.
#[derive(Clone, Copy, Debug, PartialEq, Eq)]
pub enum Refusal {
    /// It is no bench file; this is its first fault.
    Bad(ScriptFault),
    /// The source failed in this call.
    ReadFault,
    /// The file is longer than the limit.
    TooLong,
    /// Memory was lacking.
    Memory,
}

/// Begins the source under the name, reads it to its end, and reads the bench file that it holds.
pub fn read_plan<S: Source>(alloc: Global, name: &str, source: &mut S) -> Result<Plan, Refusal>
    requires { length name.now ≤ 4096 }
    ensures whole { IsTrue S.tells →
        IfOk result (λ plan. HasReadAll bench_file name.now (S.holds source.old)
        (S.left source.new) (S.begun_as source.new)) }
    ensures plan { IsTrue S.tells →
        IfOk result (λ plan. BenchText (S.holds source.old) (plan_view plan)) }
    ensures bad { IsTrue S.tells → (f : ScriptFault) → result ≡ Err (Refusal.Bad f) →
        FirstBad (S.holds source.old) f }
    ensures bad_whole { IsTrue S.tells → (f : ScriptFault) → result ≡ Err (Refusal.Bad f) →
        HasReadAll bench_file name.now (S.holds source.old) (S.left source.new)
        (S.begun_as source.new) }
    ensures too_long { IsTrue S.tells → result ≡ Err Refusal.TooLong →
        4194304 < length (S.holds source.old) }
    ensures long_read { IsTrue S.tells → result ≡ Err Refusal.TooLong →
        HasReadPast 4194304 name.now (S.holds source.old) (S.left source.new)
        (S.begun_as source.new) }
    ensures memory_read { IsTrue S.tells → result ≡ Err Refusal.Memory →
        HasReadAtMost 4194304 name.now (S.holds source.old) (S.left source.new)
        (S.begun_as source.new) }
    ensures not_read { IsTrue S.tells → result ≡ Err Refusal.ReadFault →
        IsBegunOrStays name.now (S.begun_as source.old) (S.begun_as source.new)
        (S.left source.old) (S.left source.new) }
    ensures read_fault { result ≡ Err Refusal.ReadFault →
        Rose (S.faults source.old) (S.faults source.new) }
    ensures holds_stays { IsTrue S.tells → S.holds source.new ≡ S.holds source.old }
{
    if source.begin(name).is_err() {
        return Err(Refusal::ReadFault);
    }
    let text = match read_all(alloc, source, BENCH_LIMIT) {
        Ok(text) => text,
        Err(ReadStop::ReadFault) => return Err(Refusal::ReadFault),
        Err(ReadStop::TooLong) => return Err(Refusal::TooLong),
        Err(ReadStop::Memory) => return Err(Refusal::Memory),
    };
    match read_bench(alloc, text.as_slice()) {
        Ok(plan) => Ok(plan),
        Err(ScriptStop::Bad(fault)) => Err(Refusal::Bad(fault)),
        Err(ScriptStop::Memory) => Err(Refusal::Memory),
    }
}
