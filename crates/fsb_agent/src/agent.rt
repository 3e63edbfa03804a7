ghost use Rattle.std.specs.Prelude.{◌≡◌, ◌+◌, ◌<◌, ◌≤◌, ◌++◌, IfOk, IsTrue, length, true};
ghost use Rattle.fsb_script.specs.Bounds.{is_cache, is_lawful_script, is_profile};
ghost use Rattle.fsb_agent_view.specs.AgentEvents.{first_view};
ghost use Rattle.fsb_agent_view.specs.AgentViews.{answer_by};
ghost use Rattle.fsb_agent_view.specs.Arriving.{arrived_entries, given_up, hand_by, handed_on, line_arrived, may_arrive, may_end_upgrade, may_give_up, upgrade_ended, upgrade_entries};
ghost use Rattle.fsb_agent_view.specs.Completing.{performed, performed_entries};
ghost use Rattle.fsb_agent_view.specs.Snooping.{committed, may_commit};
ghost use Rattle.fsb_agent_view.specs.Wanting.{may_send, sent, want_by};

use crate::hand::Hand;
use crate::idling::idle_in_front;
use crate::outlook::Outlook;
use crate::outs::Outs;
use crate::parts::Parts;
use fsb_access::{Log, Script};
use fsb_agent_view::Want;
use fsb_cache::Cache;
use fsb_encode::Request;
use fsb_io::Memory;
use fsb_line::Answer as SnoopAnswer;
use fsb_linebuf::LineBuffers;
use fsb_trace::Outcome;
use std::alloc::Global;
use std::marker::Model;

/// One agent: its script, its cache, its line buffers and its outstanding requests.
#[derive(Drop)]
pub struct Agent {
    parts: Parts,
    /// What it looks ahead to, where nothing of that has changed since it looked.
    outlook: Option<Outlook>,
}

impl Model for Agent {
    ghost use Rattle.fsb_agent_view.specs.AgentViews.{AgentView};
    ghost use Rattle.fsb_agent_view.specs.Sound.{IsSound};
    ghost use Rattle.fsb_agent.specs.Outlooks.{IsKnown};
    ghost use Rattle.fsb_agent.specs.Parts.{parts_view};

    ghost Value = { AgentView };

    ghost view = { λ agent. parts_view agent.parts };

    ghost invariant = { λ agent. IsSound (parts_view agent.parts)
        × IsKnown (parts_view agent.parts) agent.outlook };
}

impl Agent {
    /// An agent before any event, with a script and a cache of so many lines, which may have so
    /// many requests outstanding, on a bus of this profile.
    pub fn new(
        alloc: Global,
        number: u8,
        script: Script,
        cache: u32,
        ahead: u8,
        profile: u8,
    ) -> Result<Agent, Memory>
        requires number { number < 4 }
        requires cache { IsTrue (is_cache cache) }
        requires script { IsTrue (is_lawful_script cache script) }
        requires some_ahead { 1 ≤ ahead }
        requires few_ahead { ahead ≤ 4 }
        requires profile { IsTrue (is_profile profile) }
        ensures { IfOk result (λ agent. agent ≡ first_view number script cache ahead profile) }
    {
        let idling = idle_in_front(script.as_slice());
        let lines = Cache::new(alloc, cache)?;
        Ok(Agent {
            parts: Parts {
                number,
                script,
                ahead,
                profile,
                hand: Hand {
                    cache: lines,
                    last: 0,
                },
                buffers: LineBuffers::new(),
                outs: Outs::new(),
                place: idling.count,
                idle_to: idling.clocks,
                finished: None,
            },
            outlook: None,
        })
    }

    /// What it wants of the bus at the clock.
    pub fn want(&self, clock: u32) -> Option<Want>
        ensures { result ≡ want_by self.now clock }
    {
        self.parts.want(&self.outlook, clock)
    }

    /// Whether it may send its want with this number: it has one, and no outstanding request has
    /// the number.
    pub fn may_send(&self, clock: u32, number: u32) -> bool
        ensures { result ≡ may_send self.now clock number }
    {
        self.parts.may_send(&self.outlook, clock, number)
    }

    /// Its want at the clock begins as the request of this number.
    pub fn sent(&mut self, clock: u32, number: u32)
        requires { may_send self.old clock number ≡ true }
        ensures { self.new ≡ sent self.old clock number }
    {
        self.parts.sent(&self.outlook, clock, number);
        self.outlook = None;
    }

    /// Performs its hit at the clock, if it has one.
    pub fn perform(&mut self, clock: u32, log: &mut Log)
        requires { 8 ≤ log.old.spare }
        ensures agent { self.new ≡ performed self.old clock }
        ensures entries { log.new.entries ≡ log.old.entries ++ performed_entries self.old clock }
        ensures spare { log.new.spare + length (performed_entries self.old clock) ≡ log.old.spare }
    {
        let ready = self.parts.is_ready(&self.outlook);
        if self.parts.perform(ready, clock, log) {
            self.outlook = None;
        } else if self.outlook.is_none() {
            self.outlook = Some(self.parts.outlook(ready));
        }
    }

    /// What it answers at a snoop end of the line.
    pub fn snoop(&self, line: u64) -> SnoopAnswer
        ensures { result ≡ answer_by self.now line }
    {
        self.parts.state_of(line).answer()
    }

    /// Whether it may see this snoop end: it owes bytes to fewer than eight transactions, and its
    /// own request may be settled so.
    pub fn may_commit(&self, number: u32, mine: bool, outcome: Outcome) -> bool
        ensures { result ≡ may_commit self.now number mine outcome }
    {
        self.parts.may_commit(number, mine, outcome)
    }

    /// The snoop end of the request of this number, its own or another agent's. For a reply the
    /// number and the request are those of the deferred request.
    pub fn commit(
        &mut self,
        number: u32,
        mine: bool,
        request: &Request,
        shared: bool,
        outcome: Outcome,
    )
        requires { may_commit self.old number mine outcome ≡ true }
        ensures { self.new ≡ committed self.old number mine request.now shared outcome }
    {
        if mine || self.parts.has_line(request.line) {
            self.parts.commit(number, mine, request, shared, outcome);
            self.outlook = None;
        }
    }

    /// The bytes that it owes to the transaction of this number, which it hands on.
    pub fn hand(&mut self, number: u32) -> Option<[u8; 32]>
        ensures bytes { result ≡ hand_by self.old number }
        ensures agent { self.new ≡ handed_on self.old number }
    {
        self.parts.hand_on(number)
    }

    /// Whether bytes may come for its request with this number: it was granted.
    pub fn may_arrive(&self, number: u32) -> bool
        ensures { result ≡ may_arrive self.now number }
    {
        self.parts.may_arrive(number)
    }

    /// At the clock the last bytes for its request with this number come. For a reply the number is
    /// that of the deferred request.
    pub fn arrive(&mut self, clock: u32, number: u32, bytes: [u8; 32], log: &mut Log)
        requires may { may_arrive self.old number ≡ true }
        requires spare { 8 ≤ log.old.spare }
        ensures agent { self.new ≡ line_arrived self.old clock number bytes }
        ensures entries { log.new.entries
            ≡ log.old.entries ++ arrived_entries self.old clock number bytes }
        ensures spare { log.new.spare + length (arrived_entries self.old clock number bytes)
            ≡ log.old.spare }
    {
        self.parts.arrive(clock, number, bytes, log);
        self.outlook = None;
    }

    /// Whether its upgrade with this number may end without data: it is outstanding, and no bytes
    /// are awaited for it.
    pub fn may_end_upgrade(&self, number: u32) -> bool
        ensures { result ≡ may_end_upgrade self.now number }
    {
        self.parts.may_end_upgrade(number)
    }

    /// At the clock its upgrade with this number ends, for which no data moved. Where it was won,
    /// the bytes that were kept are those that come.
    pub fn upgraded(&mut self, clock: u32, number: u32, log: &mut Log)
        requires may { may_end_upgrade self.old number ≡ true }
        requires spare { 8 ≤ log.old.spare }
        ensures agent { self.new ≡ upgrade_ended self.old clock number }
        ensures entries { log.new.entries
            ≡ log.old.entries ++ upgrade_entries self.old clock number }
        ensures spare { log.new.spare + length (upgrade_entries self.old clock number)
            ≡ log.old.spare }
    {
        self.parts.end_upgrade(clock, number, log);
        self.outlook = None;
    }

    /// Whether its request with this number may be given up: it is outstanding, and was not
    /// granted.
    pub fn may_give_up(&self, number: u32) -> bool
        ensures { result ≡ may_give_up self.now number }
    {
        self.parts.may_give_up(number)
    }

    /// Its request with this number was cancelled or retried, or its write-back has ended.
    pub fn give_up(&mut self, number: u32)
        requires { may_give_up self.old number ≡ true }
        ensures { self.new ≡ given_up self.old number }
    {
        self.parts.give_up(number);
        self.outlook = None;
    }

    /// Its cache. A line that it holds ready has its state and its bytes there.
    pub fn cache(&self) -> &Cache
        ensures { result.now ≡ self.now.lines }
    {
        &self.parts.hand.cache
    }
}
