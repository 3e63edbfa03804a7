//! The auditing of a dump.
ghost use Rattle.std.specs.Prelude.{◌≡◌, ◌≤◌, ◌<◌, ◌^◌, [], ◌∷◌, ◌++◌, Err, IsOk, IsTrue, OnErr, OnOk, Some, length};
ghost use Rattle.fsb_io.specs.Faults.{Rose};
ghost use Rattle.fsb_watch.specs.Watched.{IsReadAs, HasBegun, IsBegunOrStays};
ghost use Rattle.fsb_audit_dump.specs.Audited.{IsAudited};

use fsb_audit::{Audit, Finding};
use fsb_io::{Memory, Source};
use fsb_signal::{Marks, Sample};
use fsb_watch::{DumpStop, Watcher, watch_dump};
use std::alloc::Global;

/// What an audit finds of a dump: the trace of so many clocks, and what is found in it first or, where nothing is, how many
/// chunks it moves.
#[derive(Clone, Copy, Debug, PartialEq, Eq)]
pub struct Audited {
    pub clocks: u32,
    pub found: Result<u64, Finding>,
}

/// The audit of the samples of a dump, once its marks were told, and what is found in those shown: the first finding or,
/// where there is none, how many chunks they move.
#[derive(Drop)]
pub struct Auditor {
    audit: Option<Audit>,
    found: Result<u64, Finding>,
    alloc: Global,
}

impl Auditor {
    // Before the marks of the dump are told.
    fn new(alloc: Global) -> Auditor {
        Auditor {
            audit: None,
            found: Ok(0),
            alloc,
        }
    }
}

impl Watcher for Auditor {
    ghost use Rattle.fsb_signal.specs.declared.marks.Marks.{Marks};
    ghost use Rattle.fsb_trace.specs.At.{Trace};
    ghost use Rattle.fsb_audit_dump.specs.Auditing.{HasAudited, HasLackedMemory};

    ghost is_ready = { λ _. Unit {0} };

    ghost has_seen = { λ _ now marks h. HasAudited now marks h };

    fn begin(&mut self, marks: Marks) -> Result<(), Memory>
        ensures begun { OnOk result (HasAudited self.new marks []) }
        ensures always { IsOk result }
    {
        let audit = Audit::new(self.alloc, marks)?;
        self.audit = Some(audit);
        self.found = Ok(0);
        Ok(())
    }

    fn see(&mut self, sample: &Sample) -> Result<(), Memory>
        requires { (marks : Marks) × (h : Trace) × HasAudited self.old marks h
            × (length h < 2 ^ 32) }
        ensures seen { OnOk result ((marks : Marks) (h : Trace) → HasAudited self.old marks h →
            HasAudited self.new marks (h ++ sample.now ∷ [])) }
        ensures memory { OnErr result (HasLackedMemory self.new) }
    {
        let Some(audit) = &mut self.audit else {
            unreachable!();
        };
        self.found = match audit.feed(sample)? {
            Some(finding) => Err(finding),
            None => Ok(audit.chunks()),
        };
        Ok(())
    }
}

/// Begins the source under the name, reads it to its end in pieces as a check does, and audits the samples of each piece as
/// they come. No trace is kept: the memory that is taken grows with the chunks that the dump moves, and not with its clocks.
pub fn audit_dump<S: Source>(alloc: Global, name: &str, source: &mut S) -> Result<Audited, DumpStop>
    requires { length name.now ≤ 4096 }
    ensures audited { IsTrue S.tells →
        IsReadAs IsAudited result (S.holds source.old) (S.left source.new) }
    ensures named { IsTrue S.tells → HasBegun result → S.begun_as source.new ≡ Some name.now }
    ensures not_read { IsTrue S.tells → result ≡ Err DumpStop.ReadFault →
        IsBegunOrStays name.now (S.begun_as source.old) (S.begun_as source.new)
        (S.left source.old) (S.left source.new) }
    ensures read_fault { result ≡ Err DumpStop.ReadFault →
        Rose (S.faults source.old) (S.faults source.new) }
    ensures later { S.faults source.old ≤ S.faults source.new }
    ensures holds_stays { IsTrue S.tells → S.holds source.new ≡ S.holds source.old }
{
    let mut auditor = Auditor::new(alloc);
    let clocks = watch_dump(alloc, name, source, &mut auditor)?;
    Ok(Audited {
        clocks,
        found: auditor.found,
    })
}
