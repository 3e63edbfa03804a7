//! The snoop end that a clock is.

ghost use Rattle.std.specs.Prelude.{◌≡◌, ◌<◌, length};
ghost use Rattle.fsb_bridge.specs.Deferrals.{deferral_of_id};
ghost use Rattle.fsb_bench_view.specs.BusSnooping.{first_open, is_hit_answer, is_modified_answer, snoop_outcome, snooping_by, snooped_entry, snooped_for, snooping_of, snooped_reply, snooping_with, turn_counted};
ghost use Rattle.fsb_bus.specs.Buses.{bus_view};

use crate::bus::Bus;
use crate::telling::answer_besides;
use fsb_agent::SnoopAnswer;
use fsb_bench_view::{Served, SnoopSettled, Started};
use fsb_bridge::Deferral;
use fsb_encode::Request;
use fsb_hazard::{Turn, effective};
use fsb_phase::Drive;
use fsb_queue::Entry;
use fsb_trace::{Outcome, Who, outcome_by_kind};

impl Bus {
    /// The snoop end that the clock is, if it is one.
    pub(crate) fn snooped(&self, drive: &Drive) -> Option<SnoopSettled>
        requires { length self.now.agents.items < 256 }
        ensures { result ≡ snooping_by (bus_view self.now) drive.now }
    {
        if drive.stall || drive.snoop.is_none() {
            return None;
        }
        match self.first_open() {
            Some(entry) => self.snooped_entry(&entry),
            None => None,
        }
    }

    /// The oldest request in flight without a snoop end.
    fn first_open(&self) -> Option<Entry>
        ensures { result ≡ first_open self.now.queue }
    {
        self.queue
            .iter()
            .find(|entry| entry.outcome.is_none())
            .copied()
    }

    /// The snoop end of the request of an entry.
    fn snooped_entry(&self, entry: &Entry) -> Option<SnoopSettled>
        requires { length self.now.agents.items < 256 }
        ensures { result ≡ snooped_entry (bus_view self.now) entry.now entry.now.who }
    {
        match entry.who {
            Who::Symmetric(agent) => Some(self.snooping_of(agent, entry)),
            Who::Priority => match self.deferral_with(entry.request.did) {
                Some(deferral) => self.snooped_for(entry, &deferral),
                None => None,
            },
        }
    }

    /// The snoop end of this agent's request.
    fn snooping_of(&self, agent: u8, entry: &Entry) -> SnoopSettled
        requires { length self.now.agents.items < 256 }
        ensures { result ≡ snooping_of (bus_view self.now) agent entry.now }
    {
        let answer = answer_besides(self.agents.as_slice(), 0, agent, entry.request.line);
        snooping_with(agent, entry, self.turn_counted(entry), answer)
    }

    /// The turn of a request that counts.
    fn turn_counted(&self, entry: &Entry) -> Turn
        ensures { result ≡ turn_counted (bus_view self.now) entry.now }
    {
        let line = entry.request.line;
        let in_window = self.bridge.in_window(line);
        let pending = self.bridge.pending(line);
        effective(&entry.choice, &entry.request, in_window, pending).turn
    }

    /// The deferral with this ID.
    fn deferral_with(&self, did: u8) -> Option<Deferral>
        ensures { result ≡ deferral_of_id did self.now.bridge.waiting }
    {
        self.bridge
            .waiting()
            .iter()
            .find(|waiting| waiting.deferral.request.did == did)
            .map(|waiting| waiting.deferral)
    }

    /// The snoop end of a reply to this deferral.
    fn snooped_for(&self, entry: &Entry, deferral: &Deferral) -> Option<SnoopSettled>
        ensures { result ≡ snooped_for (bus_view self.now) entry.now deferral.now }
    {
        match self.started.get(deferral.number as usize) {
            Some(begun) => Some(snooped_reply(entry, deferral, begun)),
            None => None,
        }
    }
}

/// The snoop end of this agent's request, where the others answer this.
fn snooping_with(agent: u8, entry: &Entry, turn: Turn, answer: SnoopAnswer) -> SnoopSettled
    ensures { result ≡ snooping_with agent entry.now turn answer }
{
    let hitm = is_modified_answer(answer);
    SnoopSettled {
        entry: *entry,
        served: Served {
            first: entry.clock,
            agent,
            request: entry.request,
        },
        hit: is_hit_answer(answer),
        hitm,
        turn,
        outcome: snoop_outcome(hitm, turn, entry.request),
    }
}

/// The snoop end of a reply to this deferral, where the deferred request has begun so.
fn snooped_reply(entry: &Entry, deferral: &Deferral, begun: &Started) -> SnoopSettled
    ensures { result ≡ snooped_reply entry.now deferral.now begun.now }
{
    SnoopSettled {
        entry: *entry,
        served: Served {
            first: begun.clock,
            agent: deferral.request.did / 16,
            request: deferral.request,
        },
        hit: deferral.shared,
        hitm: false,
        turn: Turn::Keep,
        outcome: Outcome::Replied,
    }
}

/// Whether the answer is that a line is Modified.
fn is_modified_answer(answer: SnoopAnswer) -> bool
    ensures { result ≡ is_modified_answer answer }
{
    matches!(answer, SnoopAnswer::Modified)
}

/// Whether the answer is that a line is held, and not Modified.
fn is_hit_answer(answer: SnoopAnswer) -> bool
    ensures { result ≡ is_hit_answer answer }
{
    matches!(answer, SnoopAnswer::Hit)
}

/// How a request is settled: handed over at HITM#, else by its turn, else by its kind.
fn snoop_outcome(hitm: bool, turn: Turn, request: Request) -> Outcome
    ensures { result ≡ snoop_outcome hitm turn request }
{
    match (hitm, turn) {
        (true, _) => Outcome::Handed,
        (false, Turn::Keep) => outcome_by_kind(Some(request)),
        (false, Turn::Retry) => Outcome::Retried,
        (false, Turn::Defer(_)) => Outcome::Deferred,
    }
}
