//! What is made of a plan before its first clock.

ghost use Rattle.std.specs.Prelude.{◌≡◌, ◌==◌, ◌||◌, ◌<◌, ℕ, IfOk, OnOk, true};
ghost use Rattle.std.specs.List.{list_any};
ghost use Rattle.fsb_access.specs.Access.{accessed_line};
ghost use Rattle.fsb_access.specs.ScriptOrder.{script_of};
ghost use Rattle.fsb_memory.specs.Controller.{is_mapped, line_in, start_bytes};
ghost use Rattle.fsb_script.specs.View.{plan_view};
ghost use Rattle.fsb_timely.specs.Kept.{is_named_in};
ghost use Rattle.fsb_bench_view.specs.FirstBench.{first_agent, first_agents, is_named_line};
ghost use Rattle.fsb_bus.specs.ListedLines.{is_listed};

use fsb_access::{Access, Item, Script};
use fsb_agent::Agent;
use fsb_io::Memory;
use fsb_memory::Controller;
use fsb_script::Plan;
use std::alloc::Global;

/// The four agents of a bus, each with its script.
pub(crate) fn agents_of(alloc: Global, plan: &Plan) -> Result<Vec<Agent>, Memory>
    ensures { IfOk result (λ agents. agents.items ≡ first_agents (plan_view plan.now)) }
{
    let mut agents = Vec::new(alloc);
    agents.push(agent_of(alloc, plan, 0)?)?;
    agents.push(agent_of(alloc, plan, 1)?)?;
    agents.push(agent_of(alloc, plan, 2)?)?;
    agents.push(agent_of(alloc, plan, 3)?)?;
    Ok(agents)
}

/// The agent of this number.
fn agent_of(alloc: Global, plan: &Plan, number: u8) -> Result<Agent, Memory>
    requires { number < 4 }
    ensures { IfOk result (λ agent. agent ≡ first_agent (plan_view plan.now) number) }
{
    let script = script_of(alloc, plan.scripts.as_slice(), number)?;
    Agent::new(alloc, number, script, plan.cache, plan.ahead, plan.profile)
}

/// The script of the agent of this number; an empty one where there are not so many.
fn script_of(alloc: Global, scripts: &[Script], number: u8) -> Result<Script, Memory>
    ensures { IfOk result (λ script. script ≡ script_of scripts.now number) }
{
    match scripts.get(usize::from(number)) {
        Some(script) => script.copy(alloc),
        None => Ok(Script::new(alloc)),
    }
}

/// The memory that the settings of a plan make, with each line that its scripts name.
pub(crate) fn memory_of(alloc: Global, plan: &Plan) -> Result<Controller, Memory>
    ensures bytes { IfOk result (λ memory.
        (line : ℕ) → line_in memory line ≡ start_bytes plan.now.mem line) }
    ensures named { IfOk result (λ memory.
        (line : ℕ) → is_named_line plan.now.scripts line ≡ true → is_mapped memory line ≡ true) }
{
    let mut lines = Vec::new(alloc);
    for script in plan.scripts.as_slice() {
        name_items(&mut lines, script.as_slice())?;
    }
    let memory = Controller::new(alloc, plan.mem.as_slice(), &lines)?;
    Ok(memory)
}

/// Adds the lines of a script.
fn name_items(lines: &mut Vec<u64>, items: &[Item]) -> Result<(), Memory>
    ensures { OnOk result ((line : ℕ) → is_listed lines.new.items line
        ≡ (is_listed lines.old.items line || list_any (is_named_in line) items.now)) }
{
    for item in items {
        name_item(lines, item)?;
    }
    Ok(())
}

/// Adds the lines of an item.
#[tactic(auto, using(crate::proofs::NamedLines::named_lines))]
fn name_item(lines: &mut Vec<u64>, item: &Item) -> Result<(), Memory>
    ensures { OnOk result ((line : ℕ) → is_listed lines.new.items line
        ≡ (is_listed lines.old.items line || is_named_in line item.now)) }
{
    match item {
        Item::One(access) => name_line(lines, access.line())?,
        Item::Locked(group) => name_accesses(lines, group.as_slice())?,
        Item::Idle(_) => {}
    }
    Ok(())
}

/// Adds the lines of accesses.
fn name_accesses(lines: &mut Vec<u64>, accesses: &[Access]) -> Result<(), Memory>
    ensures { OnOk result ((line : ℕ) → is_listed lines.new.items line
        ≡ (is_listed lines.old.items line
        || list_any (λ access. accessed_line access == line) accesses.now)) }
{
    for access in accesses {
        name_line(lines, access.line())?;
    }
    Ok(())
}

/// Adds a line.
fn name_line(lines: &mut Vec<u64>, line: u64) -> Result<(), Memory>
    ensures { OnOk result ((other : ℕ) → is_listed lines.new.items other
        ≡ (is_listed lines.old.items other || (line == other))) }
{
    lines.push(line)?;
    Ok(())
}
