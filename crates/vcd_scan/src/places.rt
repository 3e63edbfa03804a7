//! Where each code stands: a table for small numbers, a map for the others, and a tree for codes
//! without a number. No choice of codes makes a look-up long.

ghost use Rattle.std.specs.Prelude.{◌≡◌, ◌<◌, ℕ, List, Some, None, cond, nat_eq, OnOk, OnErr};
ghost use Rattle.vcd_grammar.specs.Words.{same};
ghost use Rattle.vcd_scan.specs.CodePlaces.{low_place, place_by, first_of, Puts};

use crate::numbers::number_of;
use std::alloc::{AllocError, Global};
use std::collections::BTreeMap;
use steady_map::SteadyMap;
use vcd_header::copy_of;

/// How many numbers have their places in a table.
const LOW: u64 = 65_536;

/// The place of each code.
#[derive(Drop)]
pub(crate) struct CodePlaces {
    /// By the number of a code, where that is small.
    pub(crate) low: Vec<Option<usize>>,
    /// By its number, where that is not.
    pub(crate) high: SteadyMap<usize>,
    /// The codes that have no number.
    pub(crate) others: BTreeMap<Vec<u8>, usize>,
}

impl CodePlaces {
    /// No code.
    pub(crate) fn new(alloc: Global) -> Self
        ensures { (code : List ℕ) → place_by result code ≡ None }
    {
        CodePlaces {
            low: Vec::new(alloc),
            high: SteadyMap::new(alloc),
            others: BTreeMap::new(alloc),
        }
    }

    /// The place of the code, if it has one.
    #[inline(always)]
    pub(crate) fn place(&self, code: &[u8]) -> Option<usize>
        ensures { result ≡ place_by self.now code.now }
    {
        match number_of(code) {
            Some(number) => {
                if number < LOW {
                    return low_place(self.low.as_slice(), number as usize);
                }
                self.high.get(number).copied()
            }
            None => self.others.get(code).copied(),
        }
    }

    /// Gives a code its place, unless it has one.
    pub(crate) fn add(&mut self, alloc: Global, code: &[u8], place: usize) -> Result<(), AllocError>
        ensures added { OnOk result ((other : List ℕ) → place_by self.new other
            ≡ first_of (place_by self.old other) (same code.now other) place) }
        ensures unchanged { OnErr result ((other : List ℕ) →
            place_by self.new other ≡ place_by self.old other) }
    {
        match self.place(code) {
            Some(_) => Ok(()),
            None => self.put(alloc, code, place),
        }
    }

    /// Gives a code without a place one.
    fn put(&mut self, alloc: Global, code: &[u8], place: usize) -> Result<(), AllocError>
        requires { place_by self.old code.now ≡ None }
        ensures added { OnOk result (Puts self.old self.new code.now place) }
        ensures unchanged { OnErr result ((other : List ℕ) →
            place_by self.new other ≡ place_by self.old other) }
    {
        match number_of(code) {
            Some(number) => {
                if number < LOW {
                    return put_low(&mut self.low, number as usize, place);
                }
                self.high.insert(number, place)?;
            }
            None => {
                let word = copy_of(alloc, code)?;
                self.others.insert(word, place)?;
            }
        }
        Ok(())
    }
}

/// The place of a small number.
#[inline(always)]
fn low_place(low: &[Option<usize>], number: usize) -> Option<usize>
    ensures { result ≡ low_place low.now number }
{
    match low.get(number) {
        Some(place) => *place,
        None => None,
    }
}

/// Gives a small number its place.
fn put_low(low: &mut Vec<Option<usize>>, number: usize, place: usize) -> Result<(), AllocError>
    requires { number < 65536 }
    ensures added { OnOk result ((other : ℕ) → low_place low.new.items other
        ≡ cond (nat_eq number other) (Some place) (low_place low.old.items other)) }
    ensures unchanged { OnErr result (low.new.items ≡ low.old.items) }
{
    if low.len() <= number {
        low.resize(number + 1, None)?;
    }
    low[number] = Some(place);
    Ok(())
}
