//! The judging of a dump.
ghost use Rattle.std.specs.Prelude.{◌≡◌, ◌≤◌, Err, IsTrue, Some, length};
ghost use Rattle.fsb_io.specs.Faults.{Rose};
ghost use Rattle.fsb_watch.specs.Watched.{IsReadAs, HasBegun, IsBegunOrStays};
ghost use Rattle.fsb_check.specs.Found.{IsFound};

use fsb_io::{Memory, Source};
use fsb_rules::{Broken, Checker};
use fsb_signal::{Marks, Sample};
use fsb_watch::{DumpStop, Watcher, watch_dump};
use std::alloc::Global;

/// What a dump is found to be: the trace of so many clocks, and its first broken rule, if it has one.
#[derive(Clone, Copy, Debug, PartialEq, Eq)]
pub struct Judgement {
    pub clocks: u32,
    pub broken: Option<Broken>,
}

/// The checker of the samples of a dump, and what it said last.
#[derive(Drop)]
pub struct Judge {
    checker: Checker,
    broken: Option<Broken>,
}

impl Judge {
    // Before the marks of the dump are told.
    fn new() -> Judge {
        Judge {
            checker: Checker::new(Marks {
                ap: false,
                rp: false,
            }),
            broken: None,
        }
    }
}

impl Watcher for Judge {
    ghost use Rattle.fsb_check.specs.DumpJudge.{HasJudged};

    ghost is_ready = { λ _. Unit {0} };

    ghost has_seen = { λ _ now marks h. HasJudged now marks h };

    fn begin(&mut self, marks: Marks) -> Result<(), Memory> {
        self.checker = Checker::new(marks);
        self.broken = None;
        Ok(())
    }

    fn see(&mut self, sample: &Sample) -> Result<(), Memory> {
        self.broken = self.checker.feed(sample);
        Ok(())
    }
}

/// Begins the source under the name, reads it to its end in pieces of at most 65,536 bytes, or to one byte past 2^40,
/// and parses and judges each piece as it comes.
///
/// Each turn takes a byte at least. No trace is kept: the memory that is taken does not grow with the dump.
pub fn check_dump<S: Source>(
    alloc: Global,
    name: &str,
    source: &mut S,
) -> Result<Judgement, DumpStop>
    requires { length name.now ≤ 4096 }
    ensures checked { IsTrue S.tells →
        IsReadAs IsFound result (S.holds source.old) (S.left source.new) }
    ensures named { IsTrue S.tells → HasBegun result → S.begun_as source.new ≡ Some name.now }
    ensures not_read { IsTrue S.tells → result ≡ Err DumpStop.ReadFault →
        IsBegunOrStays name.now (S.begun_as source.old) (S.begun_as source.new)
        (S.left source.old) (S.left source.new) }
    ensures read_fault { result ≡ Err DumpStop.ReadFault →
        Rose (S.faults source.old) (S.faults source.new) }
    ensures later { S.faults source.old ≤ S.faults source.new }
    ensures holds_stays { IsTrue S.tells → S.holds source.new ≡ S.holds source.old }
{
    let mut judge = Judge::new();
    let clocks = watch_dump(alloc, name, source, &mut judge)?;
    Ok(Judgement {
        clocks,
        broken: judge.broken,
    })
}
