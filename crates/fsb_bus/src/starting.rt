//! Which request begins at a clock.

ghost use Rattle.std.specs.Prelude.{◌≡◌};
ghost use Rattle.std.specs.List.{list_any};
ghost use Rattle.fsb_bench_view.specs.BusStarting.{is_kept_from, is_of_other, is_open_of_other, is_spaced_by, may_start, starting_by, starting_for, starting_reply, starting_want, want_in};
ghost use Rattle.fsb_bench_view.specs.BusSample.{began_by, is_latest_before, is_same_who};
ghost use Rattle.fsb_timely.specs.Starts.{reply_to};
ghost use Rattle.fsb_trace.specs.Requests.{is_write_back_kind};
ghost use Rattle.fsb_bus.specs.Buses.{bus_view};

use crate::bus::Bus;
use fsb_agent::Want;
use fsb_bench_view::{AskedFor, Latest, Starting};
use fsb_bridge::Deferral;
use fsb_encode::{Kind, Request};
use fsb_queue::Entry;
use fsb_trace::Who;

impl Bus {
    /// What begins at the clock, where this is the winner.
    pub(crate) fn starting(
        &self,
        winner: Option<Who>,
        clock: u32,
        asked: &AskedFor,
        was_held: bool,
    ) -> Option<Starting>
        ensures { result ≡ starting_by (bus_view self.now) winner clock asked.now was_held }
    {
        if self.may_start(clock, was_held) {
            match winner {
                Some(who) => self.starting_for(asked, who),
                None => None,
            }
        } else {
            None
        }
    }

    /// Whether a request may begin at the clock.
    fn may_start(&self, clock: u32, was_held: bool) -> bool
        ensures { result ≡ may_start (bus_view self.now) clock was_held }
    {
        !was_held && is_spaced(&self.latest, clock) && self.queue.len() < 8
    }

    /// What begins where this agent has won.
    fn starting_for(&self, asked: &AskedFor, who: Who) -> Option<Starting>
        ensures { result ≡ starting_for (bus_view self.now) asked.now who }
    {
        match who {
            Who::Symmetric(agent) => match want_in(asked, agent) {
                Some(want) => self.starting_want(agent, &want),
                None => None,
            },
            Who::Priority => match &asked.due {
                Some(deferral) => Some(starting_reply(deferral)),
                None => None,
            },
        }
    }

    /// The want of the agent that has won begins, unless it is held back.
    fn starting_want(&self, agent: u8, want: &Want) -> Option<Starting>
        ensures { result ≡ starting_want (bus_view self.now) agent want.now }
    {
        if self.is_kept_from(agent, want) {
            None
        } else {
            Some(Starting {
                who: Who::Symmetric(agent),
                request: want.request,
                locked: want.locked,
            })
        }
    }

    /// Whether the agent is held back.
    #[tactic(auto, unfolding(fsb_trace::specs::Requests::is_write_back_kind))]
    fn is_kept_from(&self, agent: u8, want: &Want) -> bool
        ensures { result ≡ is_kept_from (bus_view self.now) agent want.now }
    {
        want.request.kind == Kind::WriteBack && self.is_open_to_other(agent, want.request.line)
    }

    /// Whether another agent's request for the line is in flight, without a snoop end.
    fn is_open_to_other(&self, agent: u8, line: u64) -> bool
        ensures { result ≡ list_any (is_open_of_other agent line) self.now.queue }
    {
        self.queue
            .iter()
            .any(|entry| is_open_of_other(agent, line, entry))
    }

    /// Whether this agent began a request at the clock before.
    #[tactic(auto, unfolding(fsb_count::specs::Options::is_some_and))]
    pub(crate) fn began(&self, clock: u32, who: Who) -> bool
        ensures { result ≡ began_by self.now.latest clock who }
    {
        match &self.latest {
            Some(latest) => is_latest_before(clock, latest) && is_same_who(latest.who, who),
            None => false,
        }
    }
}

/// What the agent of this number wants.
pub(crate) fn want_in(asked: &AskedFor, agent: u8) -> Option<Want>
    ensures { result ≡ want_in asked.now agent }
{
    match asked.wants.get(usize::from(agent)) {
        Some(want) => *want,
        None => None,
    }
}

/// Whether no request began at one of the two clocks before.
fn is_spaced(latest: &Option<Latest>, clock: u32) -> bool
    ensures { result ≡ is_spaced_by latest.now clock }
{
    match latest {
        Some(latest) => u64::from(latest.clock) + 3 <= u64::from(clock),
        None => true,
    }
}

/// Whether the request that began last began at the clock before.
pub(crate) fn is_latest_before(clock: u32, latest: &Latest) -> bool
    ensures { result ≡ is_latest_before clock latest.now }
{
    u64::from(latest.clock) + 1 == u64::from(clock)
}

/// Whether two agents are one.
fn is_same_who(one: Who, other: Who) -> bool
    ensures { result ≡ is_same_who one other }
{
    match (one, other) {
        (Who::Symmetric(a), Who::Symmetric(b)) => a == b,
        (Who::Priority, Who::Priority) => true,
        (Who::Symmetric(_), Who::Priority) | (Who::Priority, Who::Symmetric(_)) => false,
    }
}

/// Whether the request is another agent's.
fn is_of_other(agent: u8, who: Who) -> bool
    ensures { result ≡ is_of_other agent who }
{
    match who {
        Who::Symmetric(other) => other != agent,
        Who::Priority => false,
    }
}

/// Whether the entry is another agent's request for the line, without a snoop end.
fn is_open_of_other(agent: u8, line: u64, entry: &Entry) -> bool
    ensures { result ≡ is_open_of_other agent line entry.now }
{
    is_of_other(agent, entry.who) && entry.request.line == line && entry.outcome.is_none()
}

/// The reply to the deferral begins.
fn starting_reply(deferral: &Deferral) -> Starting
    ensures { result ≡ starting_reply deferral.now }
{
    Starting {
        who: Who::Priority,
        request: reply_to(&deferral.request),
        locked: false,
    }
}

/// The reply to a deferred request.
#[tactic(auto, unfolding(fsb_timely::specs::Starts::reply_to))]
fn reply_to(request: &Request) -> Request
    ensures { result ≡ reply_to request.now }
{
    Request {
        kind: Kind::Reply,
        line: 0,
        chunk: 0,
        did: request.did,
        den: false,
    }
}
