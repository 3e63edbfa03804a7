//! A source in memory, which fails where it is told to.
ghost use Rattle.std.specs.Prelude.{◌≡◌, ◌≤◌, ◌<◌, ◌↔◌, ◌++◌, [], None, true, min, length, take, IfOk, OnOk, OnErr, IsErr};
ghost use Rattle.std.specs.Option.{option_copied};
ghost use Rattle.std.specs.Result.{is_err};
ghost use Rattle.fsb_io.specs.Begun.{IsBegun};
ghost use Rattle.fsb_io.specs.Faults.{HasCause};
ghost use Rattle.fsb_io.specs.SourceView.{SourceView};
ghost use Rattle.fsb_io.specs.Tally.{IsListed, after_call, tally_of};

use crate::calls::Calls;
use crate::{Failed, Memory, Source, put_text};
use arrayvec::ArrayVec;
use std::alloc::Global;
use std::marker::Model;

/// A source that holds bytes in memory.
///
/// Its calls of `begin` and `read` are counted together, from 0, and the listed ones fail. A call
/// that fails changes nothing but the counts.
#[derive(Drop)]
pub struct MemSource {
    bytes: Vec<u8>,
    taken: usize,
    name: Option<ArrayVec<u8, 4096>>,
    calls: Calls,
}

impl Model for MemSource {
    ghost use Rattle.std.specs.Prelude.{◌≤◌, length, drop};
    ghost use Rattle.std.specs.Option.{option_map};
    ghost use Rattle.fsb_io.specs.SourceView.{SourceView};

    ghost Value = { SourceView };

    ghost view = { λ s. record {
      holds = s.bytes.items;
      left = drop s.taken s.bytes.items;
      begun_as = option_map (λ n. n.items) s.name;
      tally = s.calls;
    } };

    ghost invariant = { λ s. s.taken ≤ length s.bytes.items };
}

impl MemSource {
    /// Holds `bytes`, of which nothing is left and which has no name before it is begun. The calls
    /// whose numbers are in `fails` are to fail.
    pub fn new(alloc: Global, bytes: &[u8], fails: &[u32]) -> Result<MemSource, Memory>
        ensures { IfOk result (λ source. source ≡ record {
          holds = bytes.now;
          left = [];
          begun_as = None;
          tally = tally_of fails.now;
        }) }
    {
        Ok(MemSource {
            bytes: Vec::from_slice(alloc, bytes)?,
            taken: bytes.len(),
            name: None,
            calls: Calls::new(alloc, fails)?,
        })
    }

    /// All the bytes that it holds.
    pub fn holds(&self) -> &[u8]
        ensures { result.now ≡ self.now.holds }
    {
        &self.bytes
    }

    /// The bytes that are left to read.
    pub fn left(&self) -> &[u8]
        ensures { result.now ≡ self.now.left }
    {
        &self.bytes[self.taken..]
    }

    /// The name that it was begun under last.
    pub fn begun_as(&self) -> Option<&[u8]>
        ensures { option_copied result ≡ self.now.begun_as }
    {
        match &self.name {
            Some(name) => Some(name.as_slice()),
            None => None,
        }
    }

    /// How many calls of `begin` and `read` were made.
    pub fn calls(&self) -> u64
        ensures { result ≡ self.now.tally.calls }
    {
        self.calls.made()
    }

    /// How many of them failed.
    pub fn faults(&self) -> u64
        ensures { result ≡ self.now.tally.faults }
    {
        self.calls.faults()
    }
}

impl Source for MemSource {
    ghost tells = { true };

    ghost holds = { λ s. s.holds };

    ghost left = { λ s. s.left };

    ghost begun_as = { λ s. s.begun_as };

    ghost faults = { λ s. s.tally.faults };

    fn begin(&mut self, name: &str) -> Result<(), Failed>
        requires { length name.now ≤ 4096 }
        ensures failed { IsErr result ↔ IsListed self.old.tally }
        ensures counted { self.new.tally ≡ after_call (is_err result) self.old.tally }
        ensures begun { OnOk result
            (IsBegun self.old.holds self.new.left name.now self.new.begun_as) }
        ensures left_stays { OnErr result (self.new.left ≡ self.old.left) }
        ensures name_stays { OnErr result (self.new.begun_as ≡ self.old.begun_as) }
        ensures holds_stays { self.new.holds ≡ self.old.holds }
        ensures cause { HasCause self.old.tally.faults self.new.tally.faults result }
    {
        if self.calls.next_fails(false) {
            return Err(Failed);
        }
        let mut begun = ArrayVec::new();
        put_text(&mut begun, name);
        self.name = Some(begun);
        self.taken = 0;
        Ok(())
    }

    fn read(&mut self, buf: &mut [u8]) -> Result<usize, Failed>
        ensures failed { IsErr result ↔ IsListed self.old.tally }
        ensures counted { self.new.tally ≡ after_call (is_err result) self.old.tally }
        ensures count { IfOk result (λ n. n ≡ min (length buf.old) (length self.old.left)) }
        ensures within { IfOk result (λ n. n ≤ length buf.new) }
        ensures bytes { IfOk result (λ n. self.old.left ≡ take n buf.new ++ self.new.left) }
        ensures end { 0 < length buf.old → IfOk result (λ n. n ≡ 0 → self.new.left ≡ []) }
        ensures left_stays { OnErr result (self.new.left ≡ self.old.left) }
        ensures buffer_stays { OnErr result (buf.new ≡ buf.old) }
        ensures name_stays { self.new.begun_as ≡ self.old.begun_as }
        ensures holds_stays { self.new.holds ≡ self.old.holds }
        ensures cause { HasCause self.old.tally.faults self.new.tally.faults result }
    {
        if self.calls.next_fails(false) {
            return Err(Failed);
        }
        let left = &self.bytes[self.taken..];
        let count = left.len().min(buf.len());
        buf[..count].copy_from_slice(&left[..count]);
        self.taken += count;
        Ok(count)
    }
}
