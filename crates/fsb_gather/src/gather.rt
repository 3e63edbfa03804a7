//! The gathering of pieces.
ghost use Rattle.std.specs.Prelude.{◌≡◌, ◌≤◌, ◌<◌, ◌++◌, ◌-◌, min, IsTrue, IfOk, OnOk, OnErr, [], length, take};
ghost use Rattle.fsb_io.specs.Begun.{IsEmptied};
ghost use Rattle.fsb_io.specs.Faults.{HasCause};
ghost use Rattle.fsb_gather.specs.HandsOn.{HandsOn};

use fsb_io::{Failed, Memory, Sink};
use std::alloc::Global;
use std::marker::Model;

/// How many bytes are gathered at most.
const ROOM: usize = 65_536;

/// A sink that gathers up to 65,536 bytes before it hands them on to the sink below, oldest first.
///
/// No byte is lost before a `begin`: after a call that failed, what was not handed on is still gathered. What is gathered
/// at the end is handed on by `finish` alone.
#[derive(Drop)]
pub struct Gather<D: Sink> {
    sink: D,
    gathered: Vec<u8>,
}

impl<D: Sink> Model for Gather<D> {
    ghost use Rattle.std.specs.Prelude.{◌≤◌, length, vec_capacity};
    ghost use Rattle.fsb_gather.specs.GatherView.{GatherView};

    ghost Value = { GatherView D };

    ghost view = { λ g. record { sink = g.sink; gathered = g.gathered.items } };

    ghost invariant = { λ g. record {
      within : length g.gathered.items ≤ 65536;
      reserved : 65536 ≤ vec_capacity g.gathered;
    } };
}

impl<D: Sink + Drop> Gather<D> {
    /// Gathers for `sink`, in room that is taken now.
    pub fn new(alloc: Global, sink: D) -> Result<Gather<D>, Memory>
        ensures sink { IfOk result (λ g. g.sink ≡ sink) }
        ensures empty { IfOk result (λ g. g.gathered ≡ []) }
    {
        Ok(Gather {
            sink,
            gathered: Vec::with_capacity(alloc, ROOM)?,
        })
    }
}

impl<D: Sink> Gather<D> {
    /// The sink below.
    pub fn sink(&self) -> &D
        ensures { result.now ≡ self.now.sink }
    {
        &self.sink
    }

    /// Gives back the sink below. What is still gathered is dropped.
    pub fn into_sink(self) -> D
        ensures { result ≡ self.sink }
    {
        self.sink
    }

    /// The bytes that are still to be handed on.
    pub fn gathered(&self) -> &[u8]
        ensures { result.now ≡ self.now.gathered }
    {
        &self.gathered
    }

    /// Hands on all that is gathered. After `Failed` what was not handed on is still gathered, in its order. It takes no
    /// memory.
    pub fn finish(&mut self) -> Result<(), Failed>
        ensures done { OnOk result (self.new.gathered ≡ []) }
        ensures whole { IsTrue D.tells → OnOk result
            (D.holds self.new.sink ≡ D.holds self.old.sink ++ self.old.gathered) }
        ensures handed { IsTrue D.tells → HandsOn self.old.gathered self.new.gathered
            (D.holds self.old.sink) (D.holds self.new.sink) }
        ensures name_stays { IsTrue D.tells →
            D.begun_as self.new.sink ≡ D.begun_as self.old.sink }
        ensures cause { HasCause (D.faults self.old.sink) (D.faults self.new.sink) result }
        ensures not_called { self.old.gathered ≡ [] → self.new.sink ≡ self.old.sink }
    {
        while !self.gathered.is_empty() {
            self.hand_on()?;
        }
        Ok(())
    }

    // One write of what is gathered, some of it at least.
    fn hand_on(&mut self) -> Result<(), Failed>
        requires { 0 < length self.old.gathered }
        ensures fewer { OnOk result (length self.new.gathered < length self.old.gathered) }
        ensures same { OnErr result (self.new.gathered ≡ self.old.gathered) }
        ensures handed { IsTrue D.tells → HandsOn self.old.gathered self.new.gathered
            (D.holds self.old.sink) (D.holds self.new.sink) }
        ensures name_stays { IsTrue D.tells →
            D.begun_as self.new.sink ≡ D.begun_as self.old.sink }
        ensures cause { HasCause (D.faults self.old.sink) (D.faults self.new.sink) result }
    {
        let count = self.sink.write(&self.gathered)?;
        let left = self.gathered.len() - count;
        self.gathered.copy_within(count.., 0);
        self.gathered.truncate(left);
        Ok(())
    }
}

impl<D: Sink> Sink for Gather<D> {
    ghost tells = { D.tells };

    ghost holds = { λ g. D.holds g.sink ++ g.gathered };

    ghost begun_as = { λ g. D.begun_as g.sink };

    ghost faults = { λ g. D.faults g.sink };

    /// Begins the sink below. What was gathered until then is dropped, as is what that sink held.
    fn begin(&mut self, name: &str) -> Result<(), Failed>
        requires { length name.now ≤ 4096 }
        ensures dropped { OnOk result (self.new.gathered ≡ []) }
        ensures begun { IsTrue D.tells → OnOk result
            (IsEmptied (D.holds self.new.sink) name.now (D.begun_as self.new.sink)) }
        ensures gathered_stays { OnErr result (self.new.gathered ≡ self.old.gathered) }
        ensures holds_stays { IsTrue D.tells →
            OnErr result (D.holds self.new.sink ≡ D.holds self.old.sink) }
        ensures name_stays { IsTrue D.tells →
            OnErr result (D.begun_as self.new.sink ≡ D.begun_as self.old.sink) }
        ensures cause { HasCause (D.faults self.old.sink) (D.faults self.new.sink) result }
    {
        self.sink.begin(name)?;
        self.gathered.clear();
        Ok(())
    }

    /// Gathers what there is room for. Where there is none, all that is gathered is handed on first, and `Failed` means
    /// that this failed.
    fn write(&mut self, piece: &[u8]) -> Result<usize, Failed>
        ensures room { length self.old.gathered < 65536 →
            result ≡ Ok (min (length piece.now) (65536 - length self.old.gathered)) }
        ensures gathers { length self.old.gathered < 65536 →
            IfOk result (λ n. self.new.gathered ≡ self.old.gathered ++ take n piece.now) }
        ensures not_called { length self.old.gathered < 65536 → self.new.sink ≡ self.old.sink }
        ensures full_room { 65536 ≤ length self.old.gathered →
            IfOk result (λ n. n ≡ min (length piece.now) 65536) }
        ensures full_gathers { 65536 ≤ length self.old.gathered →
            IfOk result (λ n. self.new.gathered ≡ take n piece.now) }
        ensures full_whole { IsTrue D.tells → 65536 ≤ length self.old.gathered → OnOk result
            (D.holds self.new.sink ≡ D.holds self.old.sink ++ self.old.gathered) }
        ensures handed { IsTrue D.tells →
            OnErr result (HandsOn self.old.gathered self.new.gathered
            (D.holds self.old.sink) (D.holds self.new.sink)) }
        ensures within { IfOk result (λ n. n ≤ length piece.now) }
        ensures some { 0 < length piece.now → IfOk result (λ n. 0 < n) }
        ensures appends { IsTrue D.tells → IfOk result (λ n.
            D.holds self.new.sink ++ self.new.gathered
            ≡ (D.holds self.old.sink ++ self.old.gathered) ++ take n piece.now) }
        ensures kept { IsTrue D.tells → OnErr result (D.holds self.new.sink ++ self.new.gathered
            ≡ D.holds self.old.sink ++ self.old.gathered) }
        ensures name_stays { IsTrue D.tells →
            D.begun_as self.new.sink ≡ D.begun_as self.old.sink }
        ensures cause { HasCause (D.faults self.old.sink) (D.faults self.new.sink) result }
    {
        if self.gathered.len() == ROOM {
            self.finish()?;
        }
        let count = piece.len().min(ROOM - self.gathered.len());
        self.gathered.extend_from_slice(&piece[..count]).unwrap();
        Ok(count)
    }
}
