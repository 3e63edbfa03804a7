//! The calls of a source or a sink in memory, counted, and which of them fail.
ghost use Rattle.std.specs.Prelude.{◌≡◌, ◌≤◌, ◌↔◌, ◌⊎◌, IsTrue, IfOk};
ghost use Rattle.fsb_io.specs.Tally.{Tally, IsListed, after_call, tally_of};

use std::alloc::{AllocError, Global};
use std::marker::Model;

/// Counts calls from 0, and their faults. Both counts stay at their last value once they are there.
#[derive(Drop)]
pub(crate) struct Calls {
    fails: Vec<u32>,
    made: u64,
    faults: u64,
}

impl Model for Calls {
    ghost Value = { Tally };

    ghost view = { λ c. record { fails = c.fails.items; calls = c.made; faults = c.faults } };
}

impl Calls {
    /// No call was made yet; those whose numbers are in `fails` are to fail.
    pub(crate) fn new(alloc: Global, fails: &[u32]) -> Result<Calls, AllocError>
        ensures { IfOk result (λ calls. calls ≡ tally_of fails.now) }
    {
        Ok(Calls {
            fails: Vec::from_slice(alloc, fails)?,
            made: 0,
            faults: 0,
        })
    }

    pub(crate) fn made(&self) -> u64
        ensures { result ≡ self.now.calls }
    {
        self.made
    }

    pub(crate) fn faults(&self) -> u64
        ensures { result ≡ self.now.faults }
    {
        self.faults
    }

    /// Counts one call, and says whether it fails: it is listed or `refused`.
    pub(crate) fn next_fails(&mut self, refused: bool) -> bool
        ensures failed { IsTrue result ↔ (IsTrue refused ⊎ IsListed self.old) }
        ensures counted { self.new ≡ after_call result self.old }
        ensures later { self.old.faults ≤ self.new.faults }
    {
        let fails = self.is_listed() || refused;
        self.made = self.made.saturating_add(1);
        if fails {
            self.faults = self.faults.saturating_add(1);
        }
        fails
    }

    fn is_listed(&self) -> bool
        ensures { IsTrue result ↔ IsListed self.now }
    {
        self.fails
            .iter()
            .any(|&number| u64::from(number) == self.made)
    }
}
