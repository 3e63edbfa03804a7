ghost use Rattle.std.specs.Prelude.{◌≡◌, ◌<◌, ◌≤◌, ◌%◌, ◌/◌, ◌↔◌, ℕ, [], IfOk, IsTrue, length, replicate};
ghost use Rattle.std.specs.Int.{is_power_of_two};
ghost use Rattle.std.specs.Option.{option_copied};
ghost use Rattle.fsb_access.specs.Access.{fits, is_size};
ghost use Rattle.fsb_line.specs.Line.{put};
ghost use Rattle.fsb_line.specs.States.{is_held, is_sole};
ghost use Rattle.fsb_cache.specs.LineValues.{line_with_value, value_in_line};
ghost use Rattle.fsb_cache.specs.Sets.{Has, HasRoomFor, InOneSet, copies, held_at, is_one_set, resident_of, sets_filled, sets_shared, sets_stored, sets_without, states};

use crate::held::Held;
use crate::value::{put_value_in, value_in};
use fsb_access::LINE_BYTES;
use fsb_io::Memory;
use fsb_line::Mesi;
use std::alloc::Global;
use std::marker::Model;

/// The lines that an agent holds.
#[derive(Drop)]
pub struct Cache {
    /// The line that each set has, if it has one.
    sets: Vec<Option<Held>>,
}

impl Model for Cache {
    ghost use Rattle.std.specs.Prelude.{List, Option};
    ghost use Rattle.fsb_cache.specs.declared.held.Held.{Held};

    ghost Value = { List (Option Held) };

    ghost view = { λ cache. cache.sets.items };

    ghost use Rattle.fsb_cache.specs.Sets.{InTheirSets};

    ghost invariant = { λ cache. InTheirSets cache.sets.items };
}

impl Cache {
    /// A cache of so many lines that has none.
    pub fn new(alloc: Global, lines: u32) -> Result<Cache, Memory>
        requires power { IsTrue (is_power_of_two lines) }
        requires most { lines ≤ 1024 }
        ensures lines { IfOk result (λ cache. length cache ≡ lines) }
        ensures states { IfOk result (λ cache. states cache ≡ (λ _. Mesi.Invalid)) }
        ensures copies { IfOk result (λ cache. copies cache ≡ (λ _. [])) }
        ensures sets { IfOk result (λ cache. cache ≡ replicate lines None) }
    {
        let sets = vec![in alloc; None; lines as usize]?;
        Ok(Cache { sets })
    }

    /// The state of a line: Invalid where the cache doesn't have it.
    #[tactic(auto, unfolding(crate::specs::Sets::states))]
    pub fn state_of(&self, line: u64) -> Mesi
        ensures { result ≡ states self.now line }
    {
        match self.held(line) {
            Some(held) => held.state,
            None => Mesi::Invalid,
        }
    }

    /// The line that the line's set has, if it has one.
    pub fn resident(&self, line: u64) -> Option<u64>
        ensures has { (other : ℕ) →
            (result ≡ Some other) ↔ (InOneSet self.now line other × Has self.now other) }
        ensures sets { result ≡ resident_of self.now line }
    {
        match &self.sets[self.place(line)] {
            Some(held) => Some(held.line),
            None => None,
        }
    }

    /// Whether the line's set is empty or has this line.
    pub fn has_room_for(&self, line: u64) -> bool
        ensures { IsTrue result ↔ HasRoomFor self.now line }
    {
        match self.resident(line) {
            Some(other) => other == line,
            None => true,
        }
    }

    /// Whether the two lines have one set.
    pub fn is_one_set(&self, line: u64, other: u64) -> bool
        ensures { result ≡ is_one_set self.now line other }
    {
        self.place(line) == self.place(other)
    }

    /// The number that so many bytes at an address spell.
    #[tactic(auto, unfolding(crate::specs::Sets::states, crate::specs::Sets::copies))]
    pub fn load(&self, addr: u64, size: u8) -> u64
        requires held { Has self.now (addr / 32) }
        requires size { IsTrue (is_size size) }
        requires aligned { addr % size ≡ 0 }
        ensures { result ≡ value_in_line (copies self.now (addr / 32)) addr size }
    {
        let Some(held) = self.held(addr / LINE_BYTES) else {
            unreachable!();
        };
        value_in(&held.bytes, addr, size)
    }

    /// Puts a number of so many bytes at an address. The line becomes Modified.
    pub fn store(&mut self, addr: u64, size: u8, value: u64)
        requires sole { IsTrue (is_sole (states self.old (addr / 32))) }
        requires size { IsTrue (is_size size) }
        requires aligned { addr % size ≡ 0 }
        requires fits { IsTrue (fits size value) }
        ensures states { states self.new ≡ put (states self.old) (addr / 32) Mesi.Modified }
        ensures copies { let line = addr / 32 in
            copies self.new ≡ put (copies self.old) line
            (line_with_value (copies self.old line) addr size value) }
        ensures lines { length self.new ≡ length self.old }
        ensures sets { self.new ≡ sets_stored self.old addr size value }
    {
        let place = self.place(addr / LINE_BYTES);
        if let Some(held) = &mut self.sets[place] {
            put_value_in(&mut held.bytes, addr, size, value);
            held.state = Mesi::Modified;
        }
    }

    /// The bytes of a line.
    #[tactic(auto, unfolding(crate::specs::Sets::states, crate::specs::Sets::copies))]
    pub fn bytes_of(&self, line: u64) -> [u8; 32]
        requires { Has self.now line }
        ensures { result ≡ copies self.now line }
    {
        let Some(held) = self.held(line) else {
            unreachable!();
        };
        held.bytes
    }

    /// Gives the line this state and these bytes, whether the cache had the line or its set was
    /// empty.
    pub fn fill(&mut self, line: u64, bytes: [u8; 32], state: Mesi)
        requires room { HasRoomFor self.old line }
        requires held { IsTrue (is_held state) }
        ensures states { states self.new ≡ put (states self.old) line state }
        ensures copies { copies self.new ≡ put (copies self.old) line bytes }
        ensures lines { length self.new ≡ length self.old }
        ensures sets { self.new ≡ sets_filled self.old line state bytes }
    {
        let place = self.place(line);
        self.sets[place] = Some(Held { line, state, bytes });
    }

    /// Drops the line, if the cache has it.
    pub fn drop_line(&mut self, line: u64)
        ensures states { states self.new ≡ put (states self.old) line Mesi.Invalid }
        ensures copies { copies self.new ≡ put (copies self.old) line [] }
        ensures lines { length self.new ≡ length self.old }
        ensures sets { self.new ≡ sets_without self.old line }
    {
        if self.held(line).is_some() {
            let place = self.place(line);
            self.sets[place] = None;
        }
    }

    /// Makes the line Shared.
    pub fn downgrade(&mut self, line: u64)
        requires { Has self.old line }
        ensures states { states self.new ≡ put (states self.old) line Mesi.Shared }
        ensures copies { copies self.new ≡ copies self.old }
        ensures lines { length self.new ≡ length self.old }
        ensures sets { self.new ≡ sets_shared self.old line }
    {
        let place = self.place(line);
        if let Some(held) = &mut self.sets[place] {
            held.state = Mesi::Shared;
        }
    }

    /// What the cache has of a line.
    #[tactic(auto, unfolding(crate::specs::Sets::held_at))]
    fn held(&self, line: u64) -> Option<&Held>
        ensures { option_copied result ≡ held_at self.now line }
    {
        match &self.sets[self.place(line)] {
            Some(held) if held.line == line => Some(held),
            _ => None,
        }
    }

    /// The line's set: the number of sets is a power of two.
    fn place(&self, line: u64) -> usize
        ensures place { result ≡ line % length self.now }
        ensures within { result < length self.now }
    {
        (line & (self.sets.len() as u64 - 1)) as usize
    }
}
