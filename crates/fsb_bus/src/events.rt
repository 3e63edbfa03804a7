//! A request that begins, one that is cancelled, a snoop end, and the response Deferred.

ghost use Rattle.std.specs.Prelude.{◌≡◌, ◌<◌, ◌≤◌, ◌==◌, if◌then◌else◌, length, slice_get, vec_capacity, vec_len, None, Some, true};
ghost use Rattle.fsb_count.specs.Options.{is_some_and};
ghost use Rattle.fsb_encode.specs.Request.{is_lawful_request};
ghost use Rattle.fsb_trace.specs.Outcome.{is_deferral};
ghost use Rattle.fsb_bench_view.specs.BusEvents.{answered_by, bus_answered, bus_cancelled, bus_snooped, bus_started, entry_started, starting_event, waiting_snooped, waiting_started};
ghost use Rattle.fsb_bench_view.specs.BusLocking.{is_retry, retried_by};
ghost use Rattle.fsb_bench_view.specs.MaySteps.{MayCancel, MaySnoop, MayStart};
ghost use Rattle.fsb_bench_view.specs.ToldAgents.{agents_told};
ghost use Rattle.fsb_bus.specs.Buses.{bus_view};

use crate::bus::Bus;
use crate::telling::{commit_all, give_up, send};
use fsb_bench_view::{Latest, SnoopSettled, Started, Starting};
use fsb_hazard::{Choice, Turn};
use fsb_phase::Drive;
use fsb_queue::Entry;
use fsb_trace::{Outcome, Who};

impl Bus {
    /// The entry of a request that begins at the clock, for which this was chosen.
    pub fn entry_started(&self, clock: u32, starting: &Starting, choice: Choice) -> Entry
        requires { length self.now.started.items < 4294967296 }
        ensures { result ≡ entry_started (bus_view self.now) clock starting.now choice }
    {
        Entry {
            number: self.started.len() as u32,
            clock,
            who: starting.who,
            request: starting.request,
            choice,
            outcome: None,
        }
    }

    /// This request begins at the clock.
    pub(crate) fn start(&mut self, clock: u32, starting: &Starting)
        requires may { MayStart (bus_view self.old) clock starting.now }
        requires room { vec_len self.old.started < vec_capacity self.old.started }
        ensures view { bus_view self.new ≡ bus_started (bus_view self.old) clock starting.now }
        ensures rest { self.new ≡ record self.old {
          agents = self.new.agents;
          bridge = self.new.bridge;
          latest = self.new.latest;
          started = self.new.started;
        } }
        ensures room { vec_capacity self.new.started ≡ vec_capacity self.old.started }
    {
        self.tell_start(clock, starting);
        self.latest = Some(Latest {
            clock,
            who: starting.who,
            request: starting.request,
        });
        self.started.push_reserved(Started {
            clock,
            locked: starting.locked,
        });
    }

    /// The agent or the bridge hears of its request that begins.
    fn tell_start(&mut self, clock: u32, starting: &Starting)
        requires { MayStart (bus_view self.old) clock starting.now }
        ensures agents { self.new.agents.items
            ≡ agents_told (starting_event clock starting.now.who) 0 self.old.agents.items }
        ensures bridge { self.new.bridge ≡ record self.old.bridge {
          waiting =
              waiting_started starting.now.request.did starting.now.who self.old.bridge.waiting;
        } }
        ensures rest { self.new
            ≡ record self.old { agents = self.new.agents; bridge = self.new.bridge } }
    {
        match starting.who {
            Who::Symmetric(agent) => send(self.agents.as_mut_slice(), agent, clock),
            Who::Priority => self.bridge.begun(starting.request.did),
        }
    }

    /// An address error cancels the request of this entry.
    pub(crate) fn cancel(&mut self, entry: &Entry)
        requires { MayCancel (bus_view self.old) entry.now }
        ensures view { bus_view self.new ≡ bus_cancelled (bus_view self.old) entry.now }
        ensures rest { self.new
            ≡ record self.old { agents = self.new.agents; bridge = self.new.bridge } }
    {
        match entry.who {
            Who::Symmetric(agent) => give_up(self.agents.as_mut_slice(), agent, entry.clock),
            Who::Priority => self.bridge.cancelled(entry.request.did),
        }
    }

    /// A snoop end.
    pub(crate) fn commit(&mut self, snooped: &SnoopSettled)
        requires few { length self.old.agents.items < 256 }
        requires may { MaySnoop (bus_view self.old) snooped.now }
        ensures view { bus_view self.new ≡ bus_snooped (bus_view self.old) snooped.now }
        ensures rest { self.new ≡ record self.old {
          agents = self.new.agents;
          bridge = self.new.bridge;
          served = self.new.served;
        } }
    {
        commit_all(self.agents.as_mut_slice(), snooped);
        self.defer(snooped);
        self.served.push(snooped.served);
    }

    /// The bridge hears of a snoop end.
    fn defer(&mut self, snooped: &SnoopSettled)
        requires { snooped.now.outcome ≡ Outcome.Deferred → length self.old.bridge.waiting < 16 }
        ensures view { self.new.bridge.waiting
            ≡ waiting_snooped snooped.now snooped.now.outcome self.old.bridge.waiting }
        ensures window { self.new.bridge.window ≡ self.old.bridge.window }
        ensures rest { self.new ≡ record self.old { bridge = self.new.bridge } }
    {
        let Entry {
            number,
            request,
            ..
        } = snooped.entry;
        match (snooped.outcome, snooped.turn) {
            (Outcome::Deferred, Turn::Defer(later)) => {
                self.bridge.defer(number, request, snooped.hit, later)
            }
            (Outcome::Replied, _) => {
                let _ = self.bridge.committed(request.did);
            }
            _ => {}
        }
    }

    /// The oldest request in flight, if it responds at this clock.
    fn responding(&self, drive: &Drive) -> Option<Entry>
        ensures { result ≡ (if drive.now.rs == 0 then None else slice_get self.now.queue 0) }
    {
        if drive.rs == 0 {
            None
        } else {
            self.queue.at(0).copied()
        }
    }

    /// The request whose response Deferred the clock is.
    pub(crate) fn answered(&self, drive: &Drive) -> Option<Entry>
        ensures { result ≡ answered_by (bus_view self.now) drive.now }
    {
        match self.responding(drive) {
            Some(entry) if is_deferred(&entry) => Some(entry),
            _ => None,
        }
    }

    /// The request whose response Retry the clock is.
    pub fn retried(&self, drive: &Drive) -> Option<Entry>
        ensures { result ≡ retried_by (bus_view self.now) drive.now }
    {
        match self.responding(drive) {
            Some(entry) if is_retried(&entry) => Some(entry),
            _ => None,
        }
    }

    /// The response Deferred to the request of this entry.
    pub(crate) fn answer(&mut self, clock: u32, entry: &Entry)
        ensures view { bus_view self.new ≡ bus_answered (bus_view self.old) clock entry.now }
        ensures rest { self.new ≡ record self.old { bridge = self.new.bridge } }
    {
        self.bridge.answered(entry.number, clock);
    }
}

/// Whether the settled outcome is Deferred.
#[tactic(auto, unfolding(fsb_trace::specs::Outcome::is_deferral, fsb_count::specs::Options::is_some_and))]
fn is_deferred(entry: &Entry) -> bool
    ensures { result ≡ is_some_and entry.now.outcome is_deferral }
{
    match entry.outcome {
        Some(Outcome::Deferred) => true,
        _ => false,
    }
}

/// Whether the settled outcome is Retried.
#[tactic(auto, unfolding(fsb_count::specs::Options::is_some_and))]
fn is_retried(entry: &Entry) -> bool
    ensures { result ≡ is_some_and entry.now.outcome is_retry }
{
    match entry.outcome {
        Some(Outcome::Retried) => true,
        _ => false,
    }
}
