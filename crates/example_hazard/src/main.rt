//! A bench file under hazard objects of one's own: `example_hazard <bench>`.
//!
//! [`TwoOfThree`] keeps state: it counts the requests of an agent. One stands on the bench from the first clock on, beside the
//! object of the file's hazard lines, and a second one is plugged when half of the clocks are taken. Both tell nothing, so no proof
//! knows what they answer. The run breaks no phase rule all the same ([`go`]).
#![tactic(auto)]

ghost use Rattle.std.specs.Prelude.{◌≡◌, ◌<◌, ◌+◌, ◌≤◌, None};
ghost use Rattle.fsb_core.specs.Benches.{bench_view};
ghost use Rattle.fsb_signal.specs.Parity.{marks_in};
ghost use Rattle.fsb_trace.specs.Verdict.{verdict};

use anyhow::{Result, anyhow};
use fsb_core::Bench;
use fsb_encode::Kind;
use fsb_hazard::{Ask, Choice, Hazard, HazardLine, ScriptHazard, Turn, quiet_choice};
use fsb_io::{FileSource, Memory, Source, read_all};
use fsb_script::{Plan, read_bench};
use fsb_trace::requests;
use std::rt::{Env, Files};

/// Has two of three requests of one agent retried.
#[derive(Drop)]
struct TwoOfThree {
    agent: u8,
    /// How many of its requests were retried since one was let through.
    retried: u8,
    ghost at_most_two: { retried ≤ 2 },
}

impl TwoOfThree {
    /// Of the requests of this agent.
    fn new(agent: u8) -> TwoOfThree
        ensures { result.retried ≡ 0 }
    {
        TwoOfThree { agent, retried: 0 }
    }

    /// What becomes of the agent's next request.
    fn next(&mut self) -> Turn
        ensures retried { self.old.retried < 2 → result ≡ Turn.Retry }
        ensures counted { self.old.retried < 2 → self.new.retried ≡ self.old.retried + 1 }
        ensures let_through { self.old.retried ≡ 2 → result ≡ Turn.Keep }
        ensures from_the_start { self.old.retried ≡ 2 → self.new.retried ≡ 0 }
    {
        if self.retried < 2 {
            self.retried += 1;
            Turn::Retry
        } else {
            self.retried = 0;
            Turn::Keep
        }
    }
}

impl Hazard for TwoOfThree {
    ghost use Rattle.std.specs.Prelude.{None, false};

    // It tells nothing: it may answer anything.
    ghost told = { λ _. None };

    // It does not take over the file's hazard lines.
    ghost is_scripted = { λ _. false };

    fn load(&mut self, _lines: &[HazardLine]) -> Result<(), Memory> {
        Ok(())
    }

    fn choose(&mut self, ask: &Ask) -> Choice {
        let turn = match ask {
            Ask::Begun { request, .. }
                if request.did / 16 == self.agent && request.kind != Kind::Reply => self.next(),
            _ => Turn::Keep,
        };
        Choice {
            turn,
            ..quiet_choice()
        }
    }
}

fn main(rt: HostRuntime) -> Result<()> {
    let alloc = rt.alloc();
    let plan = plan_of(&rt)?;
    let mut hazards: Vec<Box<dyn Hazard>> = Vec::new(alloc);
    hazards.push(Box::new(alloc, ScriptHazard::new(alloc))?)?;
    hazards.push(Box::new(alloc, TwoOfThree::new(1))?)?;
    let second: Box<dyn Hazard> = Box::new(alloc, TwoOfThree::new(2))?;
    let mut bench = Bench::make(alloc, plan, hazards)?;
    let half = bench.plan().clocks / 2;
    go(&mut bench, half);
    if bench.plug(second).is_err() {
        return Err(anyhow!("no memory for one object more"));
    }
    go(&mut bench, u32::MAX);
    print_run(&rt, &bench)
}

/// The plan of the bench file that the first word names.
fn plan_of(rt: &(impl Files + Env + AllocGlobal)) -> Result<Plan> {
    let name = std::env::args(rt)?
        .nth(1)
        .ok_or(anyhow!("which bench file?"))?;
    if name.len() > 4_096 {
        return Err(anyhow!("the name is too long"));
    }
    let mut source = FileSource::new(rt);
    source.begin(name.as_str())?;
    let text = read_all(rt.alloc(), &mut source, 1_000_000)?;
    match read_bench(rt.alloc(), text.as_slice()) {
        Ok(plan) => Ok(plan),
        Err(stop) => Err(anyhow!("{stop:?}")),
    }
}

/// Takes so many clocks, or those that the plan has left. Whatever the objects answer, the trace
/// breaks no phase rule.
fn go(bench: &mut Bench, clocks: u32)
    ensures { verdict (marks_in (bench_view bench.new).run.plan.profile)
        (bench_view bench.new).run.trace ≡ None }
{
    for _ in 0..clocks {
        if bench.clock() >= bench.plan().clocks {
            break;
        }
        bench.step();
    }
    bench.breaks_no_rule();
}

/// Prints what was chosen for each request.
fn print_run(rt: &(impl Print + AllocGlobal), bench: &Bench) -> Result<()> {
    let seen = requests(rt.alloc(), bench.trace())?;
    for (seen, choice) in seen.iter().zip(bench.choices()) {
        if let Some(request) = seen.request {
            let agent = request.did / 16;
            println!(rt;
                "{} {:?} of agent {agent}: {:?}",
                seen.clock, request.kind, choice.turn
            )?;
        }
    }
    println!(rt;
        "{} accesses completed in {} clocks",
        bench.log().len(),
        bench.clock()
    )?;
    Ok(())
}
