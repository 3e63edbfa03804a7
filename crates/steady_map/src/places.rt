//! The places of keys: a table for most, and a tree for those that fall together in it.

ghost use Rattle.std.specs.Prelude.{◌≡◌, ℕ, [], None, Some, nat_eq, cond, OnOk, OnErr};
ghost use Rattle.steady_map.specs.Places.{place_by};

use indexmap::IndexMap;
use std::alloc::{AllocError, Global};
use std::collections::BTreeMap;
use std::hash::BuildHasher;
use std::marker::Model;

/// The slots of a group of the kit's table. A group that is asked for no more than these never sends a key to the next one,
/// so a look-up in the table reads one group.
const SLOTS: u8 = 12;

/// How many entries for each group the kit's table holds before it grows.
const LOAD: usize = 9;

/// The place of each key.
#[derive(Drop)]
pub(crate) struct Places {
    table: IndexMap<u64, usize>,
    /// The keys whose groups were full.
    rest: BTreeMap<u64, usize>,
    /// How many keys of the table fall into each group.
    crowds: Vec<u8>,
}

impl Model for Places {
    ghost use Rattle.steady_map.specs.Places.{Places as Seen};

    ghost Value = { Seen };

    ghost view = { λ places. (places.table.entries, places.rest.entries) };
}

impl Places {
    /// No key.
    pub(crate) fn new(alloc: Global) -> Self
        ensures { result ≡ ([], []) }
    {
        Places {
            table: IndexMap::new(alloc),
            rest: BTreeMap::new(alloc),
            crowds: Vec::new(alloc),
        }
    }

    /// The place of the key, if it has one.
    pub(crate) fn place(&self, key: u64) -> Option<usize>
        ensures { result ≡ place_by self.now key }
    {
        match self.table.get(&key) {
            Some(place) => Some(*place),
            None => self.rest.get(&key).copied(),
        }
    }

    /// Gives a key its place.
    pub(crate) fn add(&mut self, key: u64, place: usize) -> Result<(), AllocError>
        requires { place_by self.old key ≡ None }
        ensures added { OnOk result (
            (other : ℕ) → place_by self.new other
            ≡ cond (nat_eq key other) (Some place) (place_by self.old other)) }
        ensures unchanged { OnErr result (self.new ≡ self.old) }
    {
        make_room(&mut self.table, &mut self.crowds)?;
        let group = group_of(&self.table, key, self.crowds.len());
        if has_taken(&mut self.crowds, group) {
            self.table.insert(key, place)?;
        } else {
            self.rest.insert(key, place)?;
        }
        Ok(())
    }
}

/// Lets the table grow where it is full, and counts its keys anew then.
fn make_room(table: &mut IndexMap<u64, usize>, crowds: &mut Vec<u8>) -> Result<(), AllocError>
    ensures { table.new.entries ≡ table.old.entries }
{
    if table.len() < table.capacity() {
        return Ok(());
    }
    table.reserve(1)?;
    *crowds = crowds_of(table)?;
    Ok(())
}

/// The group of the key, in a table of so many.
fn group_of(table: &IndexMap<u64, usize>, key: u64, groups: usize) -> usize {
    let hash = table.hasher().hash_one(key);
    ((hash ^ (hash >> 32)) & 0xFFFF_FFFF) as usize & groups.wrapping_sub(1)
}

/// Whether the group has a slot for one more key of the table, which is counted then.
fn has_taken(crowds: &mut Vec<u8>, group: usize) -> bool {
    match crowds.get_mut(group) {
        Some(crowd) if *crowd < SLOTS => {
            *crowd += 1;
            true
        }
        _ => false,
    }
}

/// How many keys of the table fall into each of its groups.
fn crowds_of(table: &IndexMap<u64, usize>) -> Result<Vec<u8>, AllocError> {
    let groups = table.capacity() / LOAD;
    let mut crowds: Vec<u8> = Vec::new(*table.allocator());
    crowds.resize(groups, 0)?;
    for key in table.keys() {
        let _ = has_taken(&mut crowds, group_of(table, *key, groups));
    }
    Ok(crowds)
}
