ghost use Rattle.std.specs.Prelude.{◌≡◌, ◌<◌, ◌^◌, ◌+◌, ◌-◌, ◌++◌, ◌∷◌, [], List, length, IfOk, option_copied};
ghost use Rattle.fsb_signal.specs.declared.sample.Sample.{Sample};
ghost use Rattle.scope_ring.specs.Ring.{Stands, kept_at};

use circular_buffer::HeapCircularBuffer;
use fsb_signal::Sample;
use std::alloc::{AllocError, Global};

/// How many samples are kept.
const KEPT: usize = 16;

/// The last sixteen of the samples that it was fed. They belong to the clocks 0, 1, 2 and so on.
#[derive(Debug, Drop)]
pub struct Ring {
    kept: HeapCircularBuffer<Sample>,
    /// How many samples were fed.
    count: u64,
}

impl Ring {
    /// The ring before the first sample.
    pub fn new(alloc: Global) -> Result<Ring, AllocError>
        ensures { IfOk result (λ ring. Stands ring []) }
    {
        let kept = HeapCircularBuffer::with_capacity(alloc, KEPT)?;
        Ok(Ring { kept, count: 0 })
    }

    /// Takes the sample of the next clock.
    pub fn feed(&mut self, sample: &Sample)
        requires { (h : List Sample) × Stands self.old h × (length h + 1 < 2 ^ 64) }
        ensures { (h : List Sample) → Stands self.old h →
            Stands self.new (h ++ sample.now ∷ []) }
    {
        self.kept.push_back(*sample);
        self.count += 1;
    }

    /// How many samples were fed: the number of the clock that comes next.
    pub fn count(&self) -> u64
        ensures { (h : List Sample) → Stands self.now h → result ≡ length h }
    {
        self.count
    }

    /// The first clock that is kept.
    pub fn first(&self) -> u64
        ensures { (h : List Sample) → Stands self.now h → result ≡ length h - 16 }
    {
        self.count.saturating_sub(self.kept.len() as u64)
    }

    /// The sample of a clock, where that is kept.
    pub fn sample_at(&self, clock: u64) -> Option<&Sample>
        ensures { (h : List Sample) → Stands self.now h →
            option_copied result ≡ kept_at h clock }
    {
        let first = self.first();
        if clock < first {
            None
        } else {
            self.kept.get((clock - first) as usize)
        }
    }
}
