//! The kinds of hazard objects that the bench has.
ghost use Rattle.std.specs.Prelude.{◌≡◌, [], Some, IsOk, true, false};
ghost use Rattle.fsb_hazard.specs.Told.{by_lines, by_seed};

use crate::choice::{Ask, Choice, quiet_choice};
use crate::found::{Held, choices_of, chosen, held_by, held_choice};
use crate::hazard::Hazard;
use crate::line::HazardLine;
use crate::seed::seed_entry;
use fsb_io::Memory;
use std::alloc::Global;
use std::collections::BTreeMap;
use std::marker::Model;

/// Does what the hazard lines say that it loaded last. Contracts see these lines. An answer takes no look at each of
/// them: what a request's lines choose is looked up, and whether a clock is held is found by a binary search.
#[derive(Debug, Drop)]
pub struct ScriptHazard {
    lines: Vec<HazardLine>,
    /// What the lines of each request choose together.
    choices: BTreeMap<u32, Choice>,
    /// The clocks at which they assert BNR#, in order.
    held: Vec<Held>,
}

impl Model for ScriptHazard {
    ghost use Rattle.std.specs.Prelude.{List};
    ghost use Rattle.fsb_hazard.specs.declared.line.HazardLine.{HazardLine};

    ghost Value = { List HazardLine };

    ghost use Rattle.fsb_hazard.specs.Found.{Finds};

    ghost view = { λ hazard. hazard.lines.items };

    ghost invariant = { λ hazard. Finds hazard.choices hazard.held.items hazard.lines.items };
}

impl ScriptHazard {
    /// With no lines. It takes no memory.
    pub fn new(alloc: Global) -> ScriptHazard
        ensures { result ≡ [] }
    {
        ScriptHazard {
            lines: Vec::new(alloc),
            choices: BTreeMap::new(alloc),
            held: Vec::new(alloc),
        }
    }
}

impl Hazard for ScriptHazard {
    ghost told = { λ lines. Some (by_lines lines) };

    ghost is_scripted = { λ _. true };

    fn load(&mut self, lines: &[HazardLine]) -> Result<(), Memory> {
        let alloc = *self.lines.allocator();
        let choices = choices_of(alloc, lines)?;
        let held = held_by(alloc, lines)?;
        self.lines = Vec::from_slice(alloc, lines)?;
        self.choices = choices;
        self.held = held;
        Ok(())
    }

    fn choose(&mut self, ask: &Ask) -> Choice {
        match *ask {
            Ask::Clock(clock) => held_choice(&self.held, clock),
            Ask::Begun { number, .. } => chosen(&self.choices, number),
        }
    }
}

/// Does what its seed says, whatever it loads. Contracts see the seed.
#[derive(Debug, Drop)]
pub struct SeedHazard {
    seed: u64,
}

impl Model for SeedHazard {
    ghost use Rattle.std.specs.Prelude.{ℕ};

    ghost Value = { ℕ };

    ghost view = { λ hazard. hazard.seed };
}

impl SeedHazard {
    /// With this seed.
    pub fn new(seed: u64) -> SeedHazard
        ensures { result ≡ seed }
    {
        SeedHazard { seed }
    }
}

impl Hazard for SeedHazard {
    ghost told = { λ seed. Some (by_seed seed) };

    ghost is_scripted = { λ _. false };

    /// It takes no memory.
    fn load(&mut self, _lines: &[HazardLine]) -> Result<(), Memory>
        ensures ok { IsOk result }
        ensures stays { self.new ≡ self.old }
    {
        Ok(())
    }

    fn choose(&mut self, ask: &Ask) -> Choice {
        seed_entry(self.seed, ask)
    }
}

/// Does nothing, whatever it loads.
#[derive(Debug, Drop)]
pub struct QuietHazard;

impl QuietHazard {
    /// All quiet hazards are alike.
    pub fn new() -> QuietHazard {
        QuietHazard
    }
}

impl Hazard for QuietHazard {
    ghost told = { λ _. Some (by_lines []) };

    ghost is_scripted = { λ _. false };

    /// It takes no memory.
    fn load(&mut self, _lines: &[HazardLine]) -> Result<(), Memory>
        ensures ok { IsOk result }
        ensures stays { self.new ≡ self.old }
    {
        Ok(())
    }

    fn choose(&mut self, _ask: &Ask) -> Choice {
        quiet_choice()
    }
}
