//! One clock of a bench.

ghost use Rattle.std.specs.Prelude.{◌≡◌, ◌<◌, ◌≤◌, ◌++◌, [], ◌∷◌, Bool, drop, length, map, vec_capacity};
ghost use Rattle.std.specs.Option.{option_map, option_map_or};
ghost use Rattle.fsb_bench_view.specs.BenchSteps.{outcome_snooped};
ghost use Rattle.fsb_bench_view.specs.BusEvents.{entry_started};
ghost use Rattle.fsb_bench_view.specs.BusEvents.{bus_performed};
ghost use Rattle.fsb_bench_view.specs.ToldAgents.{hit_entries};
ghost use Rattle.fsb_bus.specs.Buses.{bus_view};
ghost use Rattle.fsb_bus.specs.LogRoom.{HasLogRoom};
ghost use Rattle.fsb_core.specs.Stepping.{HasClockLeft, IsStepped, MayGoOn};
ghost use Rattle.fsb_core.specs.BareBenches.{IsFit, fetched_by, bare_view};

use crate::asking::{ask_choice, ask_hold};
use crate::bare::BareBench;
use fsb_access::{Done, Log};
use fsb_bench_view::{Decided, Starting};
use fsb_bus::{Bus, Released};
use fsb_flight::take_clock;
use fsb_hazard::{Choice, Hazard};
use fsb_phase::Drive;
use fsb_queue::Entry;
use fsb_signal::{Lines, Sample};
use fsb_trace::Outcome;

impl BareBench {
    /// One clock, at which these objects stand.
    pub fn advance<H: Hazard>(&mut self, objects: &mut [H])
        requires fit { IsFit self.old }
        requires clocks { HasClockLeft (bare_view self.old) }
        requires may { MayGoOn (bare_view self.old) }
        ensures fit { IsFit self.new }
        ensures stepped { IsStepped (map H.told objects.old) (bare_view self.old)
            (bare_view self.new) }
        ensures told_stays { map H.told objects.new ≡ map H.told objects.old }
        ensures kinds_stay { map H.is_scripted objects.new ≡ map H.is_scripted objects.old }
    {
        let clock = self.clock();
        let done = self.log.as_slice().len();
        let hold = ask_hold(objects, clock);
        let drive = self.bus.phases.drive(clock, &self.bus.queue);
        let retried = self.bus.retried(&drive);
        fetch_and_perform(&mut self.bus, clock, &drive, &mut self.log);
        let winner = self.bus.arbiter.winner();
        let was_held = self.was_held(clock);
        let decided = self.bus.decide(winner, clock, drive, hold, was_held);
        let sample = self.bus.sample(clock, self.plan.profile, &decided);
        let phased = self.bus.phases.absorb(clock, &sample, &self.bus.queue);
        let number = self.request_number();
        let choice = ask_choice(objects, number, &decided.starting);
        let begun = entry_begun(&self.bus, clock, &decided.starting, choice);
        self.bus.hear(clock, &decided, &phased, &mut self.log);
        let entries = entries_since(&self.log, done);
        let scripts = self.plan.scripts.as_slice();
        let released = Released {
            entries,
            retried,
            cancelled: decided.cancelled,
        };
        self.bus.lock(scripts, &decided.starting, &released);
        let outcome = outcome_snooped(&decided);
        let error = sample.has(Lines::AERR);
        take_clock(&mut self.bus.queue, clock, &phased, outcome, error, begun);
        self.bus.arbiter.absorb(&sample);
        append(&mut self.trace, sample);
        append(&mut self.holds, hold);
        add_choice(&mut self.choices, &decided.starting, choice);
    }
}

/// The bytes that move are fetched, and the hits are made.
fn fetch_and_perform(bus: &mut Bus, clock: u32, drive: &Drive, log: &mut Log)
    requires { HasLogRoom bus.old.agents.items log.old }
    ensures view { bus_view bus.new
        ≡ bus_performed (fetched_by (bus_view bus.old) drive.now) clock }
    ensures entries { log.new.entries ≡ log.old.entries
        ++ hit_entries clock (fetched_by (bus_view bus.old) drive.now).agents }
    ensures room { HasLogRoom bus.new.agents.items log.new }
    ensures count { length bus.new.agents.items ≡ length bus.old.agents.items }
    ensures rest { bus.new
        ≡ record bus.old { agents = bus.new.agents; moved = bus.new.moved } }
{
    let from = bus.bytes_source(drive);
    bus.fetch(from);
    bus.perform(clock, log);
}

/// The entries of the log from this place on.
fn entries_since(log: &Log, done: usize) -> &[Done]
    requires { done ≤ length log.now.entries }
    ensures { result.now ≡ drop done log.now.entries }
{
    &log.as_slice()[done..]
}

/// The entry of the request that begins, if one does, for which this was chosen.
fn entry_begun(bus: &Bus, clock: u32, starting: &Option<Starting>, choice: Choice) -> Option<Entry>
    requires { length bus.now.started.items < 4294967296 }
    ensures { result
        ≡ option_map (λ first. entry_started (bus_view bus.now) clock first choice) starting.now }
{
    match starting {
        Some(starting) => Some(bus.entry_started(clock, starting, choice)),
        None => None,
    }
}

/// The settled outcome of the request whose snoop ends, if one does.
fn outcome_snooped(decided: &Decided) -> Outcome
    ensures { result ≡ outcome_snooped decided.now }
{
    match &decided.snooped {
        Some(snooped) => snooped.outcome,
        None => Outcome::Failed,
    }
}

/// Adds an item as the last one, in the room that is there.
fn append<T>(items: &mut Vec<T>, item: T)
    requires { length items.old.items < vec_capacity items.old }
    ensures items { items.new.items ≡ items.old.items ++ item ∷ [] }
    ensures room { vec_capacity items.new ≡ vec_capacity items.old }
{
    items.push_reserved(item);
}

/// Adds what was chosen for the request that begins, if one does.
fn add_choice(choices: &mut Vec<Choice>, starting: &Option<Starting>, choice: Choice)
    requires { length choices.old.items < vec_capacity choices.old }
    ensures items { choices.new.items
        ≡ choices.old.items ++ option_map_or (λ first. choice ∷ []) starting.now [] }
    ensures room { vec_capacity choices.new ≡ vec_capacity choices.old }
{
    if starting.is_some() {
        append(choices, choice);
    }
}
