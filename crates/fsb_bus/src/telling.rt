//! What is told to all agents, in order, and to one of them.

ghost use Rattle.std.specs.Prelude.{◌≡◌, ◌+◌, ◌==◌, ◌<◌, ◌++◌, ◌||◌, ℕ, Some, length, map, slice_get, true};
ghost use Rattle.fsb_agent_view.specs.AgentEvents.{GivenUp, Sent};
ghost use Rattle.fsb_agent_view.specs.AgentViews.{AgentView};
ghost use Rattle.fsb_agent_view.specs.Arriving.{handed_on, may_give_up};
ghost use Rattle.fsb_agent_view.specs.Completing.{performed};
ghost use Rattle.fsb_agent_view.specs.Snooping.{may_commit};
ghost use Rattle.fsb_agent_view.specs.Wanting.{may_send};
ghost use Rattle.fsb_bench_view.specs.BusDecisions.{want_at};
ghost use Rattle.fsb_bench_view.specs.BusEvents.{snooped_event};
ghost use Rattle.fsb_bench_view.specs.BusSnooping.{answer_besides, stronger};
ghost use Rattle.fsb_bench_view.specs.ToldAgents.{agents_told, bytes_owed, first_of, for_one, hit_entries};
ghost use Rattle.fsb_bus.specs.LogRoom.{HasLogRoom};

use fsb_access::Log;
use fsb_agent::{Agent, SnoopAnswer, Want};
use fsb_bench_view::SnoopSettled;

/// Of two answers the first one, if it is there.
fn first_of(bytes: Option<[u8; 32]>, other: Option<[u8; 32]>) -> Option<[u8; 32]>
    ensures { result ≡ first_of bytes other }
{
    match bytes {
        Some(bytes) => Some(bytes),
        None => other,
    }
}

/// All agents hand on the bytes that they owe to this transaction: those of the first that does.
pub(crate) fn hand_all(agents: &mut [Agent], number: u32) -> Option<[u8; 32]>
    ensures bytes { result ≡ bytes_owed number agents.old }
    ensures agents { agents.new ≡ map (λ v. handed_on v number) agents.old }
{
    let mut bytes = None;
    for agent in agents {
        let owed = agent.hand(number);
        bytes = first_of(bytes, owed);
    }
    bytes
}

/// The hits of a clock, agent by agent.
pub(crate) fn perform_all(agents: &mut [Agent], clock: u32, log: &mut Log)
    requires room { HasLogRoom agents.old log.old }
    ensures agents { agents.new ≡ map (λ v. performed v clock) agents.old }
    ensures entries { log.new.entries ≡ log.old.entries ++ hit_entries clock agents.old }
    ensures room { HasLogRoom agents.new log.new }
{
    for agent in agents {
        agent.perform(clock, log);
    }
}

/// What the agent of this number wants at a clock, if there is one.
pub(crate) fn want_at(agents: &[Agent], number: usize, clock: u32) -> Option<Want>
    ensures { result ≡ want_at agents.now clock number }
{
    match agents.get(number) {
        Some(agent) => agent.want(clock),
        None => None,
    }
}

/// Of two answers the stronger one.
fn stronger(answer: SnoopAnswer, other: SnoopAnswer) -> SnoopAnswer
    ensures { result ≡ stronger answer other }
{
    match (answer, other) {
        (SnoopAnswer::Clean, _) => other,
        (SnoopAnswer::Modified, _) | (_, SnoopAnswer::Modified) => SnoopAnswer::Modified,
        (SnoopAnswer::Hit, _) => SnoopAnswer::Hit,
    }
}

/// The strongest answer at a snoop end of the line that an agent gives besides this one, where the
/// first of the agents has this number.
pub(crate) fn answer_besides(agents: &[Agent], number: u8, besides: u8, line: u64) -> SnoopAnswer
    requires { number + length agents.now < 256 }
    ensures { result ≡ answer_besides besides line number agents.now }
{
    match agents {
        [] => SnoopAnswer::Clean,
        [agent, others @ ..] => {
            let rest = answer_besides(others, number + 1, besides, line);
            if number == besides {
                rest
            } else {
                stronger(agent.snoop(line), rest)
            }
        }
    }
}

/// Whether another agent was seen to hold the line.
fn is_shared(snooped: &SnoopSettled) -> bool
    ensures { result ≡ (snooped.now.hit || snooped.now.hitm) }
{
    snooped.hit || snooped.hitm
}

/// Tells a snoop end to all agents.
pub(crate) fn commit_all(agents: &mut [Agent], snooped: &SnoopSettled)
    requires few { length agents.old < 256 }
    requires may { (k : ℕ) (v : AgentView) → slice_get agents.old k ≡ Some v →
        may_commit v snooped.now.served.first (k == snooped.now.served.agent)
        snooped.now.outcome ≡ true }
    ensures { agents.new ≡ agents_told (snooped_event snooped.now) 0 agents.old }
{
    let shared = is_shared(snooped);
    let mut number = 0;
    for agent in agents {
        agent.commit(
            snooped.served.first,
            number == snooped.served.agent,
            &snooped.served.request,
            shared,
            snooped.outcome,
        );
        number += 1;
    }
}

/// The agent of this number has sent its want at the clock, with the clock as its number.
pub(crate) fn send(agents: &mut [Agent], number: u8, clock: u32)
    requires known { number < length agents.old }
    requires may { (v : AgentView) → slice_get agents.old number ≡ Some v →
        may_send v clock clock ≡ true }
    ensures { agents.new ≡ agents_told (for_one number (Sent clock clock)) 0 agents.old }
{
    agents[usize::from(number)].sent(clock, clock);
}

/// The agent of this number gives its request up.
pub(crate) fn give_up(agents: &mut [Agent], number: u8, first: u32)
    requires known { number < length agents.old }
    requires may { (v : AgentView) → slice_get agents.old number ≡ Some v →
        may_give_up v first ≡ true }
    ensures { agents.new ≡ agents_told (for_one number (GivenUp first)) 0 agents.old }
{
    agents[usize::from(number)].give_up(first);
}
