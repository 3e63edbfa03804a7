//! The end of a request.

ghost use Rattle.std.specs.Prelude.{◌≡◌, ◌+◌, ◌++◌, ◌<◌, ◌≤◌, ℕ, Some, length, slice_get, true};
ghost use Rattle.fsb_agent_view.specs.AgentViews.{AgentView};
ghost use Rattle.fsb_memory.specs.Controller.{is_mapped, line_in};
ghost use Rattle.fsb_bench_view.specs.BusEvents.{agent_ended, bus_ended, end_entries, end_entries_of, ended_event, ending_by, entries_ended, memory_ended};
ghost use Rattle.fsb_trace.specs.Outcome.{does_take};
ghost use Rattle.fsb_bench_view.specs.MaySteps.{MayEnd, may_end_with};
ghost use Rattle.fsb_bench_view.specs.ToldAgents.{agents_told};
ghost use Rattle.fsb_bus.specs.Buses.{bus_view};
ghost use Rattle.fsb_bus.specs.LogRoom.{HasLogRoom, accesses_left};

use crate::bus::Bus;
use fsb_access::Log;
use fsb_agent::Agent;
use fsb_bench_view::{Ending, Served};
use fsb_memory::Controller;
use fsb_phase::Phased;
use fsb_trace::Outcome;

impl Bus {
    /// The end of a request that the clock is, if it is one.
    pub(crate) fn ending(&self, phased: &Phased) -> Option<Ending>
        ensures { result ≡ ending_by (bus_view self.now) phased.now }
    {
        if phased.ended.is_none() {
            return None;
        }
        match self.served.as_slice().first() {
            Some(served) => match self.head_outcome() {
                Some(outcome) => Some(Ending {
                    served: *served,
                    outcome,
                }),
                None => None,
            },
            None => None,
        }
    }

    /// The request ends.
    pub(crate) fn end(&mut self, clock: u32, ending: &Ending, log: &mut Log)
        requires may { MayEnd (is_mapped self.old.memory) (bus_view self.old) ending.now }
        requires served { 0 < length self.old.served.items }
        requires room { HasLogRoom self.old.agents.items log.old }
        ensures view { bus_view self.new ≡ bus_ended (bus_view self.old) clock ending.now }
        ensures entries { log.new.entries
            ≡ log.old.entries ++ end_entries (bus_view self.old) clock ending.now }
        ensures room { HasLogRoom self.new.agents.items log.new }
        ensures named { (line : ℕ) → is_mapped self.new.memory line
            ≡ is_mapped self.old.memory line }
        ensures rest { self.new ≡ record self.old {
          agents = self.new.agents;
          memory = self.new.memory;
          served = self.new.served;
        } }
    {
        let _ = self.served.remove(0);
        end_at(self.agents.as_mut_slice(), clock, ending, &self.moved, log);
        put_ended(
            &mut self.memory,
            ending.served.request.line,
            &self.moved,
            ending.outcome,
        );
    }
}

/// The agent whose request is served hears of its end.
fn end_at(agents: &mut [Agent], clock: u32, ending: &Ending, moved: &[u8; 32], log: &mut Log)
    requires known { ending.now.served.agent < length agents.old }
    requires may { (v : AgentView) → slice_get agents.old ending.now.served.agent ≡ Some v →
        may_end_with ending.now.served.first ending.now.outcome v ≡ true }
    requires room { HasLogRoom agents.old log.old }
    ensures agents { agents.new
        ≡ agents_told (ended_event clock moved.now ending.now) 0 agents.old }
    ensures entries { log.new.entries
        ≡ log.old.entries ++ end_entries_of agents.old clock moved.now ending.now }
    ensures room { HasLogRoom agents.new log.new }
{
    let Served { first, agent, .. } = ending.served;
    end_with(
        &mut agents[usize::from(agent)],
        clock,
        first,
        ending.outcome,
        moved,
        log,
    );
}

/// An agent hears of the end of its request with this outcome.
fn end_with(
    agent: &mut Agent,
    clock: u32,
    first: u32,
    outcome: Outcome,
    moved: &[u8; 32],
    log: &mut Log,
)
    requires may { may_end_with first outcome agent.old ≡ true }
    requires left { accesses_left agent.old + 8 ≤ log.old.spare }
    ensures agent { agent.new ≡ agent_ended clock first moved.now outcome agent.old }
    ensures entries { log.new.entries
        ≡ log.old.entries ++ entries_ended clock first moved.now outcome agent.old }
    ensures left { log.old.spare + accesses_left agent.new
        ≤ log.new.spare + accesses_left agent.old }
{
    match outcome {
        Outcome::Granted | Outcome::Handed | Outcome::Replied => {
            agent.arrive(clock, first, *moved, log)
        }
        Outcome::Written | Outcome::Retried => agent.give_up(first),
        Outcome::Upgraded => agent.upgraded(clock, first, log),
        Outcome::Deferred | Outcome::Failed => {}
    }
}

/// Memory takes the bytes of a line that have moved, where it takes them with this outcome.
#[tactic(auto, unfolding(fsb_trace::specs::Outcome::does_take))]
fn put_ended(memory: &mut Controller, line: u64, moved: &[u8; 32], outcome: Outcome)
    requires { does_take outcome ≡ true → is_mapped memory.old line ≡ true }
    ensures bytes { (other : ℕ) → line_in memory.new other
        ≡ memory_ended (line_in memory.old) line moved.now outcome other }
    ensures named { (other : ℕ) → is_mapped memory.new other ≡ is_mapped memory.old other }
{
    match outcome {
        Outcome::Handed | Outcome::Written => memory.put(line, *moved),
        Outcome::Granted
        | Outcome::Retried
        | Outcome::Deferred
        | Outcome::Replied
        | Outcome::Failed
        | Outcome::Upgraded => {}
    }
}
