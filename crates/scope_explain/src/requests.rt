//! The requests of the samples of a part.

ghost use Rattle.std.specs.Prelude.{◌≡◌, ◌<◌, ◌≤◌, ◌^◌, ◌+◌, [], ◌∷◌, ◌++◌, IfOk, OnOk};
ghost use Rattle.fsb_trace.specs.At.{Trace};
ghost use Rattle.fsb_laws.specs.Orderly.{Orderly};
ghost use Rattle.fsb_recent.specs.Recent.{AreAround};
ghost use Rattle.fsb_why_queue.specs.Queue.{fed};
ghost use Rattle.scope_explain.specs.Requests.{Stands};

use fsb_io::Memory;
use fsb_recent::{Around, Recent};
use fsb_signal::Sample;
use fsb_why_queue::Queue;
use std::alloc::{AllocError, Global};

/// The queue of the samples, and the last of its requests that were over.
#[derive(Drop)]
pub(crate) struct Requests {
    pub(crate) queue: Queue,
    recent: Recent,
}

impl Requests {
    /// Before the first sample.
    pub(crate) fn new(alloc: Global) -> Result<Requests, AllocError>
        ensures { IfOk result (λ requests. Stands requests [] × (fed requests.queue ≡ 0)) }
    {
        let recent = Recent::new(alloc)?;
        let queue = Queue::new(alloc);
        Ok(Requests { queue, recent })
    }

    /// The requests around the next clock, by the samples before it.
    pub(crate) fn around(&self, alloc: Global) -> Result<Around, AllocError>
        requires { fed self.now.queue < 2 ^ 32 }
        ensures { (h : Trace) → Stands self.now h → Orderly h →
            IfOk result (λ around. AreAround around h) }
    {
        self.recent.around(alloc, self.queue.table())
    }

    /// Takes the next sample. Where memory lacks they stand for nothing any more.
    pub(crate) fn feed(&mut self, sample: &Sample) -> Result<(), Memory>
        requires { fed self.old.queue + 1 < 2 ^ 32 }
        ensures fed { fed self.new.queue ≤ fed self.old.queue + 1 }
        ensures stands { OnOk result ((h : Trace) → Stands self.old h → Orderly h →
            Orderly (h ++ sample.now ∷ []) → Stands self.new (h ++ sample.now ∷ [])) }
    {
        self.queue.feed(sample)?;
        self.recent.take(self.queue.table());
        Ok(())
    }
}
