ghost use Rattle.std.specs.Prelude.{◌≡◌, ◌==◌, ◌||◌, ◌+◌, ◌≤◌, ◌<◌, ◌++◌, IsSome, length, true, Some};
ghost use Rattle.std.specs.List.{list_all, list_any};
ghost use Rattle.fsb_access.specs.Access.{accessed_line};
ghost use Rattle.fsb_cache.specs.Sets.{Has, copies};
ghost use Rattle.fsb_linebuf.specs.Buffers.{fill_on, promise_on};
ghost use Rattle.fsb_timely.specs.Scripts.{needs_of};
ghost use Rattle.fsb_agent_view.specs.AgentViews.{is_ready_for};
ghost use Rattle.fsb_agent_view.specs.Arriving.{are_met_with, arrived_entries, arrived_for, given_up, hand_by, handed_on, is_arrival_by, landed, line_arrived, may_arrive, may_end_upgrade, may_give_up, met_by, met_entries, sets_settled, upgrade_ended, upgrade_entries};
ghost use Rattle.fsb_agent_view.specs.OwnRequests.{request_numbered};
ghost use Rattle.fsb_agent_view.specs.Sound.{IsSound};
ghost use Rattle.fsb_agent.specs.Parts.{parts_view};

use crate::need::is_load;
use crate::outs::{forget, numbered};
use crate::parts::Parts;
use crate::snooping::kind_asks;
use fsb_access::{Access, Item, Log};
use fsb_agent_view::OwnRequest;
use fsb_cache::Cache;
use fsb_line::Mesi;

impl Parts {
    /// The bytes that it owes to the transaction of this number, which it hands on.
    pub(crate) fn hand_on(&mut self, number: u32) -> Option<[u8; 32]>
        ensures bytes { result ≡ hand_by (parts_view self.old) number }
        ensures agent { parts_view self.new ≡ handed_on (parts_view self.old) number }
    {
        self.buffers.take_push(number)
    }

    /// Its request with this number is not outstanding any more.
    pub(crate) fn give_up(&mut self, number: u32)
        ensures { parts_view self.new ≡ given_up (parts_view self.old) number }
    {
        forget(&mut self.outs, number);
    }

    /// Whether its request with this number may be given up.
    pub(crate) fn may_give_up(&self, number: u32) -> bool
        ensures { result ≡ may_give_up (parts_view self.now) number }
    {
        match numbered(&self.outs, number) {
            Some(out) => !out.granted,
            None => false,
        }
    }

    /// Whether bytes may come for its request with this number.
    pub(crate) fn may_arrive(&self, number: u32) -> bool
        ensures { result ≡ may_arrive (parts_view self.now) number }
    {
        match numbered(&self.outs, number) {
            Some(out) => out.granted,
            None => false,
        }
    }

    /// Whether its upgrade with this number may end without data.
    pub(crate) fn may_end_upgrade(&self, number: u32) -> bool
        ensures { result ≡ may_end_upgrade (parts_view self.now) number }
    {
        match numbered(&self.outs, number) {
            Some(out) => !out.granted || out.kept.is_some(),
            None => false,
        }
    }

    /// Whether the needed line is the one that comes, or serves.
    fn is_there(&self, line: u64, needed: u64, alone: bool) -> bool
        ensures { result
            ≡ ((needed == line) || is_ready_for (parts_view self.now) needed alone) }
    {
        needed == line || self.is_ready_for(needed, alone)
    }

    /// Whether the line of each access of a locked item is the one that comes, or serves.
    fn are_there(&self, line: u64, accesses: &[Access]) -> bool
        ensures { result ≡ list_all (λ access. (accessed_line access == line)
            || is_ready_for (parts_view self.now) (accessed_line access) true) accesses.now }
    {
        accesses
            .iter()
            .all(|access| self.is_there(line, access.line(), true))
    }

    /// Whether the line that comes completes the item.
    #[tactic(auto, using(crate::proofs::Needs::met_one, crate::proofs::Needs::met_group, crate::proofs::Needs::met_idle))]
    fn is_met(&self, line: u64, owns: bool, item: &Item) -> bool
        ensures { result ≡ are_met_with (parts_view self.now) line owns (needs_of item.now) }
    {
        match item {
            Item::One(access) => access.line() == line && (owns || is_load(access)),
            Item::Locked(group) => {
                let accesses = group.as_slice();
                owns && names_line(line, accesses) && self.are_there(line, accesses)
            }
            Item::Idle(_) => false,
        }
    }

    /// Whether it has an arrival at the clock, where the line of this request comes.
    fn is_arrival(&self, clock: u32, out: &OwnRequest) -> bool
        ensures { result ≡ is_arrival_by (parts_view self.now) clock out.now }
    {
        let owns = kind_asks(out.request.kind).owns();
        self.may_complete(clock)
            && match self.script.as_slice().get(self.place) {
                Some(item) => self.is_met(out.request.line, owns, item),
                None => false,
            }
    }

    /// The line of this request comes with these bytes: its next item uses the line where it may,
    /// and the bytes go on where they were promised.
    fn land(&mut self, clock: u32, out: &OwnRequest, bytes: [u8; 32], log: &mut Log)
        requires spare { 8 ≤ log.old.spare }
        requires sound { IsSound (parts_view self.old) }
        requires found { request_numbered out.now.number self.old.outs.items ≡ Some out.now }
        requires granted { out.now.granted ≡ true }
        ensures agent { parts_view self.new
            ≡ arrived_for (parts_view self.old) clock out.now bytes }
        ensures entries { log.new.entries
            ≡ log.old.entries ++ met_entries (parts_view self.old) clock out.now bytes }
        ensures spare { log.new.spare
            + length (met_entries (parts_view self.old) clock out.now bytes) ≡ log.old.spare }
    {
        let line = out.request.line;
        let state = self.state_of(line);
        self.meet(clock, out, bytes, log);
        self.settle(out, state);
    }

    /// What the line that comes completes is completed, with the line as its own.
    fn meet(&mut self, clock: u32, out: &OwnRequest, bytes: [u8; 32], log: &mut Log)
        requires spare { 8 ≤ log.old.spare }
        requires sound { IsSound (parts_view self.old) }
        requires found { request_numbered out.now.number self.old.outs.items ≡ Some out.now }
        ensures agent { parts_view self.new ≡ met_by (parts_view self.old) clock out.now bytes }
        ensures entries { log.new.entries
            ≡ log.old.entries ++ met_entries (parts_view self.old) clock out.now bytes }
        ensures spare { log.new.spare
            + length (met_entries (parts_view self.old) clock out.now bytes) ≡ log.old.spare }
    {
        let completes = self.is_arrival(clock, out);
        self.hand
            .cache
            .fill(out.request.line, bytes, Mesi::Modified);
        if completes {
            self.complete(clock, log);
        }
    }

    /// The line of this request, whose bytes are there now, was held in this state: its request has
    /// ended.
    fn settle(&mut self, out: &OwnRequest, state: Mesi)
        requires held { Has self.old.hand.cache out.now.request.line }
        requires fill { IsSome (fill_on out.now.request.line self.old.buffers.fills) }
        requires room { IsSome (promise_on out.now.request.line self.old.buffers.fills)
            → length self.old.buffers.pushes < 8 }
        ensures { parts_view self.new ≡ landed (parts_view self.old) out.now state }
    {
        let line = out.request.line;
        let bytes = self.hand.cache.bytes_of(line);
        settle_line(&mut self.hand.cache, line, state, bytes);
        self.buffers.arrive(line, bytes);
        forget(&mut self.outs, out.number);
    }

    /// At the clock the last bytes for its request with this number come.
    pub(crate) fn arrive(&mut self, clock: u32, number: u32, bytes: [u8; 32], log: &mut Log)
        requires spare { 8 ≤ log.old.spare }
        requires sound { IsSound (parts_view self.old) }
        requires may { may_arrive (parts_view self.old) number ≡ true }
        ensures agent { parts_view self.new
            ≡ line_arrived (parts_view self.old) clock number bytes }
        ensures entries { log.new.entries
            ≡ log.old.entries ++ arrived_entries (parts_view self.old) clock number bytes }
        ensures spare { log.new.spare
            + length (arrived_entries (parts_view self.old) clock number bytes) ≡ log.old.spare }
    {
        if let Some(out) = numbered(&self.outs, number) {
            self.land(clock, &out, bytes, log);
        }
    }

    /// At the clock its upgrade with this number ends, for which no data moved.
    pub(crate) fn end_upgrade(&mut self, clock: u32, number: u32, log: &mut Log)
        requires spare { 8 ≤ log.old.spare }
        requires sound { IsSound (parts_view self.old) }
        requires may { may_end_upgrade (parts_view self.old) number ≡ true }
        ensures agent { parts_view self.new ≡ upgrade_ended (parts_view self.old) clock number }
        ensures entries { log.new.entries
            ≡ log.old.entries ++ upgrade_entries (parts_view self.old) clock number }
        ensures spare { log.new.spare + length (upgrade_entries (parts_view self.old) clock number)
            ≡ log.old.spare }
    {
        if let Some(out) = numbered(&self.outs, number) {
            match out.kept {
                Some(bytes) => self.land(clock, &out, bytes, log),
                None => forget(&mut self.outs, out.number),
            }
        }
    }
}

/// Whether one of the accesses is to the line.
fn names_line(line: u64, accesses: &[Access]) -> bool
    ensures { result ≡ list_any (λ access. accessed_line access == line) accesses.now }
{
    accesses.iter().any(|access| access.line() == line)
}

/// The line in the state that it is held in, or the cache without it.
fn settle_line(cache: &mut Cache, line: u64, state: Mesi, bytes: [u8; 32])
    requires held { Has cache.old line }
    requires bytes { bytes ≡ copies cache.old line }
    ensures { cache.new ≡ sets_settled cache.old line state }
{
    if state.is_held() {
        cache.fill(line, bytes, state);
    } else {
        cache.drop_line(line);
    }
}
