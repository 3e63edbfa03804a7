//! The bus lock.

ghost use Rattle.std.specs.Prelude.{◌≡◌, slice_get};
ghost use Rattle.std.specs.List.{list_any};
ghost use Rattle.fsb_access.specs.ScriptOrder.{script_of};
ghost use Rattle.fsb_count.specs.Options.{is_some_and};
ghost use Rattle.fsb_timely.specs.Scripts.{is_locked};
ghost use Rattle.fsb_bench_view.specs.BusLocking.{MayRelease, bus_locked, completes_lock, is_locked_of, is_locked_start, is_locking, is_of, is_released, keeps_after, keeps_in};
ghost use Rattle.fsb_bus.specs.Buses.{bus_view};
ghost use Rattle.fsb_bus.specs.Releases.{releases_of};

use crate::bus::{Bus, Lock};
use fsb_access::{Done, Item, Script};
use fsb_bench_view::{Started, Starting};
use fsb_queue::Entry;
use fsb_trace::Who;

/// What a clock brings that may be a release.
#[derive(Clone, Copy)]
pub struct Released<'a> {
    /// The entries of the log.
    pub entries: &'a [Done],
    /// The request that is retried.
    pub retried: Option<Entry>,
    /// The request that is cancelled.
    pub cancelled: Option<Entry>,
}

impl Bus {
    /// The lock takes the clock.
    pub fn lock(&mut self, scripts: &[Script], starting: &Option<Starting>, may: &Released)
        ensures view { bus_view self.new
            ≡ bus_locked scripts.now (bus_view self.old) starting.now (releases_of may.now) }
        ensures rest { self.new ≡ record self.old { lock = self.new.lock } }
    {
        self.lock = self.locked(scripts, starting, may);
    }

    /// The lock after the clock. Where LOCK# is not asserted no agent keeps the bus locked.
    fn locked(&self, scripts: &[Script], starting: &Option<Starting>, may: &Released) -> Lock
        ensures { record (bus_view self.now) { kept = result.kept }
            ≡ bus_locked scripts.now (bus_view self.now) starting.now (releases_of may.now) }
    {
        if !self.is_lock_driven(starting) {
            return Lock { kept: [false; 4] };
        }
        Lock {
            kept: [
                self.keeps_after(scripts, starting, may, 0),
                self.keeps_after(scripts, starting, may, 1),
                self.keeps_after(scripts, starting, may, 2),
                self.keeps_after(scripts, starting, may, 3),
            ],
        }
    }

    /// Whether the agent keeps the bus locked after the clock.
    fn keeps_after(
        &self,
        scripts: &[Script],
        starting: &Option<Starting>,
        may: &Released,
        agent: u8,
    ) -> bool
        ensures { result ≡ keeps_after scripts.now (bus_view self.now) starting.now
            (releases_of may.now) agent }
    {
        (self.keeps(agent) || is_locking(starting, agent))
            && !is_released(scripts, self.started.as_slice(), may, agent)
    }

    /// Whether the agent keeps the bus locked.
    fn keeps(&self, agent: u8) -> bool
        ensures { result ≡ keeps_in self.now.lock.kept agent }
    {
        match self.lock.kept.get(usize::from(agent)) {
            Some(keeps) => *keeps,
            None => false,
        }
    }
}

/// Whether the agent makes a release.
#[tactic(auto, unfolding(fsb_count::specs::Options::is_some_and))]
fn is_released(scripts: &[Script], started: &[Started], may: &Released, agent: u8) -> bool
    ensures { result ≡ is_released scripts.now started.now (releases_of may.now) agent }
{
    let completes = completes_any(scripts, agent, may.entries);
    let retried = is_lost(started, agent, &may.retried);
    let cancelled = is_lost(started, agent, &may.cancelled);
    completes || (retried || cancelled)
}

/// Whether one of the entries is of a locked item of the agent.
fn completes_any(scripts: &[Script], agent: u8, entries: &[Done]) -> bool
    ensures { result ≡ list_any (completes_lock scripts.now agent) entries.now }
{
    entries
        .iter()
        .any(|done| completes_lock(scripts, agent, done))
}

/// Whether the request, if there is one, is a locked one of the agent.
#[tactic(auto, unfolding(fsb_count::specs::Options::is_some_and))]
fn is_lost(started: &[Started], agent: u8, entry: &Option<Entry>) -> bool
    ensures { result ≡ is_some_and entry.now (is_locked_of started.now agent) }
{
    match entry {
        Some(entry) => is_of(agent, entry.who) && is_locked_start(started, entry.number),
        None => false,
    }
}

/// Whether the entry is of a locked item of the agent.
fn completes_lock(scripts: &[Script], agent: u8, done: &Done) -> bool
    ensures { result ≡ completes_lock scripts.now agent done.now }
{
    done.agent == agent && is_locked_item(items_of(scripts, agent), done.item)
}

/// The items of the agent.
fn items_of(scripts: &[Script], agent: u8) -> &[Item]
    ensures { result.now ≡ script_of scripts.now agent }
{
    match scripts.get(usize::from(agent)) {
        Some(script) => script.as_slice(),
        None => &[],
    }
}

/// Whether the item of this number is a locked one.
#[tactic(auto, unfolding(fsb_timely::specs::Scripts::is_locked, fsb_count::specs::Options::is_some_and))]
fn is_locked_item(items: &[Item], number: u16) -> bool
    ensures { result ≡ is_some_and (slice_get items.now number) is_locked }
{
    match items.get(usize::from(number)) {
        Some(item) => matches!(item, Item::Locked(_)),
        None => false,
    }
}

/// Whether the agent begins a locked request.
#[tactic(auto, unfolding(fsb_count::specs::Options::is_some_and))]
fn is_locking(starting: &Option<Starting>, agent: u8) -> bool
    ensures { result ≡ is_locking starting.now agent }
{
    match starting {
        Some(starting) => is_of(agent, starting.who) && starting.locked,
        None => false,
    }
}

/// Whether the request is the agent's.
fn is_of(agent: u8, who: Who) -> bool
    ensures { result ≡ is_of agent who }
{
    match who {
        Who::Symmetric(other) => other == agent,
        Who::Priority => false,
    }
}

/// Whether the request of this number is a locked one.
fn is_locked_start(started: &[Started], number: u32) -> bool
    ensures { result ≡ is_locked_start started.now number }
{
    match started.get(number as usize) {
        Some(start) => start.locked,
        None => false,
    }
}
