//! A sink in memory, which fails where it is told to.
ghost use Rattle.std.specs.Prelude.{◌≡◌, ◌≤◌, ◌<◌, ◌+◌, ◌↔◌, ◌⊎◌, ◌++◌, [], None, true, length, take, IfOk, OnOk, OnErr, IsErr};
ghost use Rattle.std.specs.Option.{option_copied};
ghost use Rattle.std.specs.Result.{is_err};
ghost use Rattle.fsb_io.specs.Begun.{IsEmptied};
ghost use Rattle.fsb_io.specs.Faults.{HasCause};
ghost use Rattle.fsb_io.specs.SinkView.{SinkView};
ghost use Rattle.fsb_io.specs.Tally.{IsListed, after_call, tally_of};

use crate::calls::Calls;
use crate::{Failed, Memory, Sink, put_text};
use arrayvec::ArrayVec;
use std::alloc::Global;
use std::marker::Model;

/// A sink that keeps bytes in memory, in room that is reserved when it is made.
///
/// Its calls of `begin` and `write` are counted together, from 0, and the listed ones fail, as does
/// a `write` past the room. A call that fails changes nothing but the counts. No call takes memory.
#[derive(Drop)]
pub struct MemSink {
    bytes: Vec<u8>,
    room: usize,
    name: Option<ArrayVec<u8, 4096>>,
    calls: Calls,
}

impl Model for MemSink {
    ghost use Rattle.std.specs.Prelude.{◌≤◌, length, vec_capacity};
    ghost use Rattle.std.specs.Option.{option_map};
    ghost use Rattle.fsb_io.specs.SinkView.{SinkView};

    ghost Value = { SinkView };

    ghost view = { λ s. record {
      holds = s.bytes.items;
      begun_as = option_map (λ n. n.items) s.name;
      room = s.room;
      tally = s.calls;
    } };

    ghost invariant = { λ s. record {
      within : length s.bytes.items ≤ s.room;
      reserved : s.room ≤ vec_capacity s.bytes;
    } };
}

impl MemSink {
    /// Empty and without a name, with room for `room` bytes, which are reserved now. The calls whose
    /// numbers are in `fails` are to fail.
    pub fn new(alloc: Global, room: usize, fails: &[u32]) -> Result<MemSink, Memory>
        ensures { IfOk result (λ sink. sink ≡ record {
          holds = [];
          begun_as = None;
          room = room;
          tally = tally_of fails.now;
        }) }
    {
        Ok(MemSink {
            bytes: Vec::with_capacity(alloc, room)?,
            room,
            name: None,
            calls: Calls::new(alloc, fails)?,
        })
    }

    /// The bytes that it holds.
    pub fn holds(&self) -> &[u8]
        ensures { result.now ≡ self.now.holds }
    {
        &self.bytes
    }

    /// The name that it was begun under last.
    pub fn begun_as(&self) -> Option<&[u8]>
        ensures { option_copied result ≡ self.now.begun_as }
    {
        match &self.name {
            Some(name) => Some(name.as_slice()),
            None => None,
        }
    }

    /// How many calls of `begin` and `write` were made.
    pub fn calls(&self) -> u64
        ensures { result ≡ self.now.tally.calls }
    {
        self.calls.made()
    }

    /// How many of them failed.
    pub fn faults(&self) -> u64
        ensures { result ≡ self.now.tally.faults }
    {
        self.calls.faults()
    }
}

impl Sink for MemSink {
    ghost tells = { true };

    ghost holds = { λ s. s.holds };

    ghost begun_as = { λ s. s.begun_as };

    ghost faults = { λ s. s.tally.faults };

    fn begin(&mut self, name: &str) -> Result<(), Failed>
        requires { length name.now ≤ 4096 }
        ensures failed { IsErr result ↔ IsListed self.old.tally }
        ensures counted { self.new.tally ≡ after_call (is_err result) self.old.tally }
        ensures room_stays { self.new.room ≡ self.old.room }
        ensures begun { OnOk result (IsEmptied self.new.holds name.now self.new.begun_as) }
        ensures holds_stays { OnErr result (self.new.holds ≡ self.old.holds) }
        ensures name_stays { OnErr result (self.new.begun_as ≡ self.old.begun_as) }
        ensures cause { HasCause self.old.tally.faults self.new.tally.faults result }
    {
        if self.calls.next_fails(false) {
            return Err(Failed);
        }
        let mut begun = ArrayVec::new();
        put_text(&mut begun, name);
        self.name = Some(begun);
        self.bytes.clear();
        Ok(())
    }

    fn write(&mut self, piece: &[u8]) -> Result<usize, Failed>
        ensures failed { IsErr result
            ↔ ((self.old.room < length self.old.holds + length piece.now)
            ⊎ IsListed self.old.tally) }
        ensures counted { self.new.tally ≡ after_call (is_err result) self.old.tally }
        ensures room_stays { self.new.room ≡ self.old.room }
        ensures whole { IfOk result (λ n. n ≡ length piece.now) }
        ensures within { IfOk result (λ n. n ≤ length piece.now) }
        ensures some { 0 < length piece.now → IfOk result (λ n. 0 < n) }
        ensures appends { IfOk result (λ n. self.new.holds ≡ self.old.holds ++ take n piece.now) }
        ensures holds_stays { OnErr result (self.new.holds ≡ self.old.holds) }
        ensures name_stays { self.new.begun_as ≡ self.old.begun_as }
        ensures cause { HasCause self.old.tally.faults self.new.tally.faults result }
    {
        let fits = piece.len() <= self.room - self.bytes.len();
        if self.calls.next_fails(!fits) {
            return Err(Failed);
        }
        self.bytes.extend_from_slice(piece).unwrap();
        Ok(piece.len())
    }
}
