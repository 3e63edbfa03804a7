//! A trace, sample by sample.

ghost use Rattle.std.specs.Prelude.{◌≡◌, ◌<◌, ◌≤◌, ◌+◌, ◌^◌, ◌∷◌, ◌++◌, [], true, false, List, IfOk, IsErr, OnOk, OnErr};
ghost use Rattle.fsb_laws.specs.Orderly.{Orderly};
ghost use Rattle.fsb_trace.specs.At.{Trace};
ghost use Rattle.fsb_owners.specs.Joint.{Joint, every_joint, unheld};
ghost use Rattle.fsb_owners.specs.Rules.{ownership_verdict};
ghost use Rattle.fsb_owner_judge.specs.Judge.{as_owner_broken};
ghost use Rattle.fsb_cohere.specs.Cohere.{KeepsOrder, Stands, fed, lacks_memory};

use crate::shown::shown_at;
use fsb_io::Memory;
use fsb_owner_feed::Table;
use fsb_owner_judge::{OwnerBroken, OwnerJudge};
use fsb_owner_sights::waits_of;
use fsb_signal::Sample;
use std::alloc::Global;

/// Tells after each sample which rule of ownership is broken first in the samples so far.
#[derive(Drop)]
pub struct Coherence {
    alloc: Global,
    table: Table,
    judge: OwnerJudge,
    /// Whether memory was lacking in a call.
    lacks_memory: bool,
}

impl Coherence {
    /// No sample yet, of a trace that begins with empty caches. It takes no memory.
    pub fn from_reset(alloc: Global) -> Coherence
        ensures stands { Stands result (unheld ∷ []) [] }
        ensures room { lacks_memory result ≡ false }
        ensures fed { fed result ≡ 0 }
    {
        Coherence {
            alloc,
            table: Table::new(alloc),
            judge: OwnerJudge::from_reset(alloc),
            lacks_memory: false,
        }
    }

    /// No sample yet, of a trace that begins in traffic. It takes no memory.
    pub fn from_within(alloc: Global) -> Coherence
        ensures stands { Stands result every_joint [] }
        ensures room { lacks_memory result ≡ false }
        ensures fed { fed result ≡ 0 }
    {
        Coherence {
            alloc,
            table: Table::new(alloc),
            judge: OwnerJudge::from_within(alloc),
            lacks_memory: false,
        }
    }

    /// The least clock and rule that is broken in the samples so far, if one is.
    pub fn verdict(&self) -> Option<OwnerBroken>
        ensures { (first : List Joint) (h : Trace) → Stands self.now first h →
            lacks_memory self.now ≡ false →
            result ≡ as_owner_broken (ownership_verdict first h) }
    {
        self.judge.found()
    }

    /// Takes the next sample where memory was not lacking.
    fn take(&mut self, sample: &Sample) -> Result<Option<OwnerBroken>, Memory>
        requires { fed self.old < 2 ^ 32 }
        ensures found { IfOk result (λ found. (first : List Joint) (h : Trace) →
            Stands self.old first h → lacks_memory self.old ≡ false →
            KeepsOrder h sample.now →
            found ≡ as_owner_broken (ownership_verdict first (h ++ sample.now ∷ []))) }
        ensures stands { OnOk result ((first : List Joint) (h : Trace) →
            Stands self.old first h → lacks_memory self.old ≡ false →
            KeepsOrder h sample.now → Stands self.new first (h ++ sample.now ∷ [])) }
        ensures room { lacks_memory self.new ≡ lacks_memory self.old }
        ensures fed { fed self.new ≤ fed self.old + 1 }
    {
        let happened = self.table.feed(sample)?;
        let rows = self.table.rows();
        let clock = happened.clock;
        let waits = waits_of(self.alloc, rows, clock.saturating_sub(1), clock)?;
        let shown = shown_at(rows, &self.judge, clock);
        self.judge.step(&shown, waits.as_slice())
    }

    /// Takes the next sample, and tells the least clock and rule that is broken in the samples so far. From the first finding on it
    /// is always that one, and once memory was lacking it always is.
    pub fn feed(&mut self, sample: &Sample) -> Result<Option<OwnerBroken>, Memory>
        requires { fed self.old < 2 ^ 32 }
        ensures found { IfOk result (λ found. (first : List Joint) (h : Trace) →
            Stands self.old first h → KeepsOrder h sample.now →
            found ≡ as_owner_broken (ownership_verdict first (h ++ sample.now ∷ []))) }
        ensures stands { (first : List Joint) (h : Trace) → Stands self.old first h →
            KeepsOrder h sample.now → Stands self.new first (h ++ sample.now ∷ []) }
        ensures memory { lacks_memory self.old ≡ true → IsErr result }
        ensures full { OnErr result (lacks_memory self.new ≡ true) }
        ensures room { OnOk result (lacks_memory self.new ≡ false) }
        ensures fed { fed self.new ≤ fed self.old + 1 }
    {
        if self.lacks_memory {
            return Err(Memory);
        }
        let Ok(found) = self.take(sample) else {
            self.lacks_memory = true;
            return Err(Memory);
        };
        Ok(found)
    }
}
