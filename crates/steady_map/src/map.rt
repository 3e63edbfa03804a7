//! The map, and its entries in the order of their insertion.

ghost use Rattle.std.specs.Prelude.{◌≡◌, [], None, Some, nat_eq, option_copied, IfOk, IfErr, OnOk, OnErr};
ghost use Rattle.indexmap.specs.IndexMap.{insert_entry};
ghost use Rattle.steady_map.specs.Entries.{get, Updates};

use crate::places::Places;
use std::alloc::{AllocError, Global};
use std::marker::Model;
use std::mem;

/// A map from numbers to values, whose look-ups take a time that no choice of keys makes long. Contracts see its entries, in
/// the order in which their keys came first.
#[derive(Drop)]
pub struct SteadyMap<V> {
    entries: Vec<(u64, V)>,
    places: Places,
}

impl<V> Model for SteadyMap<V> {
    ghost use Rattle.steady_map.specs.Entries.{Entries};
    ghost use Rattle.steady_map.specs.Places.{PlacesKept};

    ghost Value = { Entries V };

    ghost view = { λ map. record { entries = map.entries.items } };

    ghost invariant = { λ map. PlacesKept map.places map.entries.items };
}

impl<V> SteadyMap<V> {
    /// An empty map. It takes no memory before the first insertion.
    pub fn new(alloc: Global) -> Self
        ensures { result.entries ≡ [] }
    {
        SteadyMap {
            entries: Vec::new(alloc),
            places: Places::new(alloc),
        }
    }

    /// The value at the key.
    pub fn get(&self, key: u64) -> Option<&V>
        ensures { option_copied result ≡ get self.now key }
    {
        let place = self.places.place(key)?;
        let (_, value) = &self.entries[place];
        Some(value)
    }

    /// Puts the value at a key that is there, and answers the value before. The value comes back where the key is not there.
    /// No memory is taken.
    pub fn replace(&mut self, key: u64, value: V) -> Result<V, V>
        ensures old { IfOk result (λ old. get self.old key ≡ Some old) }
        ensures updates { OnOk result (Updates self.old self.new key value) }
        ensures entries { OnOk result (
            self.new.entries ≡ insert_entry nat_eq self.old.entries key value) }
        ensures absent { OnErr result (get self.old key ≡ None) }
        ensures value_returned { IfErr result (λ back. back ≡ value) }
        ensures unchanged { OnErr result (self.new ≡ self.old) }
    {
        let Some(place) = self.places.place(key) else {
            return Err(value);
        };
        let (_, kept) = &mut self.entries[place];
        Ok(mem::replace(kept, value))
    }

    /// Puts the value at the key, and answers the value before. A key that is there keeps its place, and a new one comes last.
    /// Memory lacks only for a new key, and nothing changes then.
    pub fn insert(&mut self, key: u64, value: V) -> Result<Option<V>, AllocError>
    where
        V: Drop,
        ensures old { IfOk result (λ old. old ≡ get self.old key) }
        ensures updates { OnOk result (Updates self.old self.new key value) }
        ensures entries { OnOk result (
            self.new.entries ≡ insert_entry nat_eq self.old.entries key value) }
        ensures absent { OnErr result (get self.old key ≡ None) }
        ensures unchanged { OnErr result (self.new ≡ self.old) }
    {
        match self.replace(key, value) {
            Ok(old) => Ok(Some(old)),
            Err(value) => {
                self.add(key, value)?;
                Ok(None)
            }
        }
    }

    /// Puts a new key behind the others.
    fn add(&mut self, key: u64, value: V) -> Result<(), AllocError>
    where
        V: Drop,
        requires { get self.old key ≡ None }
        ensures updates { OnOk result (Updates self.old self.new key value) }
        ensures entries { OnOk result (
            self.new.entries ≡ insert_entry nat_eq self.old.entries key value) }
        ensures unchanged { OnErr result (self.new ≡ self.old) }
    {
        self.entries.reserve(1)?;
        self.places.add(key, self.entries.len())?;
        self.entries.push_reserved((key, value));
        Ok(())
    }
}
