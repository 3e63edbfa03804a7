ghost use Rattle.std.specs.Prelude.{◌≡◌, ◌<◌, ◌≤◌, [], ◌∷◌, ◌++◌, length, drop, slice_get, option_copied, IfOk};
ghost use Rattle.fsb_queue.specs.Entries.{entry_of, without, settled_at};

use crate::entry::Entry;
use circular_buffer::{HeapCircularBuffer, Iter};
use fsb_io::Memory;
use fsb_trace::Outcome;
use std::alloc::Global;
use std::marker::Model;

/// The most requests in flight.
const DEPTH: usize = 8;

/// The requests in flight, in order.
#[derive(Drop)]
pub struct Queue {
    entries: HeapCircularBuffer<Entry>,
}

impl Model for Queue {
    ghost use Rattle.std.specs.Prelude.{List};
    ghost use Rattle.fsb_queue.specs.declared.entry.Entry.{Entry};

    ghost Value = { List Entry };

    ghost view = { λ q. q.entries.items };

    ghost use Rattle.std.specs.Prelude.{◌≡◌};

    ghost invariant = { λ q. q.entries.capacity ≡ 8 };
}

impl Queue {
    /// The empty queue, with room for eight entries.
    pub fn new(alloc: Global) -> Result<Queue, Memory>
        ensures { IfOk result (λ q. q ≡ []) }
    {
        let entries = HeapCircularBuffer::with_capacity(alloc, DEPTH)?;
        Ok(Queue { entries })
    }

    /// How many entries there are.
    pub fn len(&self) -> usize
        ensures len { result ≡ length self.now }
        ensures most { result ≤ 8 }
    {
        self.entries.len()
    }

    /// Adds the entry behind the others.
    pub fn enter(&mut self, e: Entry)
        requires { length self.old < 8 }
        ensures { self.new ≡ self.old ++ e ∷ [] }
    {
        self.entries.push_back(e);
    }

    /// Takes out the entry with this number, if there is one.
    pub fn cancel(&mut self, number: u32) -> Option<Entry>
        ensures result { result ≡ entry_of number self.old }
        ensures rest { self.new ≡ without number self.old }
    {
        let mut found = None;
        let count = self.entries.len();
        for _ in 0..count {
            if let Some(entry) = self.entries.pop_front() {
                if found.is_none() && entry.number == number {
                    found = Some(entry);
                } else {
                    self.entries.push_back(entry);
                }
            }
        }
        found
    }

    /// The entry at this place, counted from the oldest; none where there are no more than `i`.
    pub fn at(&self, i: usize) -> Option<&Entry>
        ensures { option_copied result ≡ slice_get self.now i }
    {
        self.entries.get(i)
    }

    /// The entries in order, from the oldest.
    pub fn iter(&self) -> Iter<'_, Entry>
        ensures { result ≡ self.now }
    {
        self.entries.iter()
    }

    /// Gives the entry at this place its outcome.
    pub fn settle(&mut self, i: usize, outcome: Outcome)
        requires { i < length self.old }
        ensures { self.new ≡ settled_at i outcome self.old }
    {
        if let Some(entry) = self.entries.get_mut(i) {
            entry.outcome = Some(outcome);
        }
    }

    /// Takes out the oldest entry, if there is one.
    pub fn leave(&mut self) -> Option<Entry>
        ensures result { result ≡ slice_get self.old 0 }
        ensures rest { self.new ≡ drop 1 self.old }
    {
        self.entries.pop_front()
    }
}
