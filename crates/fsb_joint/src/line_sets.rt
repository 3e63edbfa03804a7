//! The sets of all lines, of which those that were touched are kept.

ghost use Rattle.std.specs.Prelude.{◌≡◌, ℕ, OnOk, OnErr};
ghost use Rattle.fsb_joint.specs.Lines.{Sets, set_of_line};

use crate::set::JointSet;
use std::alloc::{AllocError, Global};
use steady_map::SteadyMap;

/// What is known of each line. Only a line whose set was put in takes memory: its number and four bytes.
#[derive(Drop)]
pub struct LineSets {
    /// What is known of every other line.
    first: JointSet,
    sets: SteadyMap<JointSet>,
}

impl LineSets {
    /// This set for every line. It takes no memory.
    pub fn new(alloc: Global, first: JointSet) -> LineSets
        ensures { (line : ℕ) → set_of_line result line ≡ first }
    {
        LineSets {
            first,
            sets: SteadyMap::new(alloc),
        }
    }

    /// The set of the line.
    pub fn get(&self, line: u64) -> JointSet
        ensures { result ≡ set_of_line self.now line }
    {
        match self.sets.get(line) {
            Some(set) => *set,
            None => self.first,
        }
    }

    /// Puts the set of the line. Where memory lacks, which it does for a line that is new alone, nothing changes.
    pub fn insert(&mut self, line: u64, set: JointSet) -> Result<(), AllocError>
        ensures sets { OnOk result (Sets self.old self.new line set) }
        ensures unchanged { OnErr result (self.new ≡ self.old) }
    {
        self.sets.insert(line, set)?;
        Ok(())
    }
}
