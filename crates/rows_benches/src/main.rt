//! Benches, run and judged from outside: by stored runs, by the checker and by one byte memory.
//!
//! `rows_benches <seed> <count> <name>..` runs the bench file `<name>.bench` of each name, and compares its log with
//! `<name>.log` and its waveform, clock by clock, with `<name>.trace` (`text`). It runs each of them again with objects that
//! always ask for a retry, always stall, cancel every request, or answer what they draw (`wild`), and then `count` generated
//! plans and `count` drawn ones, with evictions, locked items and hazards (`plans`). Each waveform is judged by the checker,
//! and each log is served again on one byte memory. It prints how many were run and how many were alike, accepted and served.
//!
//! Nothing is promised: the words are in `args`, the stored runs in `data/`, and what is printed is stored in `stdout`. Read
//! rows_timely next, where the prover computes the definition of a simulated run on runs like these.
#![tactic(auto)]

use fsb_access::{Done, Flat};
use fsb_core::Bench;
use fsb_hazard::{Hazard, ScriptHazard, SeedHazard};
use fsb_io::{FileSource, Source, read_all};
use fsb_script::{Plan, plan_of, read_bench};
use fsb_signal::{Marks, Sample};
use rows_judged::checked;
use rows_store::Draws;
use std::alloc::Global;
use std::rt::{Env, Files};

mod plans;
mod text;
mod wild;

use plans::drawn_bench;
use text::{put_log, put_trace};
use wild::{Cancelling, Drawing, Retrying, Stalling};

/// What became of benches.
#[derive(Clone, Copy)]
struct Tally {
    run: u32,
    /// How many had the stored log and the stored waveform.
    alike: u32,
    accepted: u32,
    served: u32,
}

const NONE_RUN: Tally = Tally {
    run: 0,
    alike: 0,
    accepted: 0,
    served: 0,
};

fn main(rt: HostRuntime) {
    let asked = read_words(&rt);
    let mut stored = NONE_RUN;
    let mut wild = NONE_RUN;
    if let Ok(args) = std::env::args(&rt) {
        for word in args.skip(3) {
            if row(&rt, word.as_str(), &mut stored, &mut wild).is_none() {
                let _ = println!(rt; "not run: {}", word.as_str());
            }
        }
    }
    let mut made = NONE_RUN;
    let mut drawn = NONE_RUN;
    for i in 0..asked.count {
        let seed = asked.seed.wrapping_add(u64::from(i));
        if made_run(rt.alloc(), seed, &mut made).is_none() {
            let _ = println!(rt; "not made: {seed}");
        }
        if drawn_run(rt.alloc(), seed, &mut drawn).is_none() {
            let _ = println!(rt; "not drawn: {seed}");
        }
    }
    let _ = println!(rt;
        "stored: {} run, {} alike, {} accepted, {} served",
        stored.run, stored.alike, stored.accepted, stored.served
    );
    report(&rt, "wild", &wild);
    report(&rt, "generated", &made);
    report(&rt, "drawn", &drawn);
}

/// What the words ask for.
#[derive(Clone, Copy)]
struct Asked {
    seed: u64,
    count: u32,
}

/// What the words ask for: seed 1 and 10 plans of each kind where they name none.
fn read_words(rt: &(impl Env + AllocGlobal)) -> Asked {
    let mut asked = Asked { seed: 1, count: 10 };
    let Ok(args) = std::env::args(rt) else {
        return asked;
    };
    for (i, word) in args.enumerate() {
        match i {
            1 => asked.seed = word.as_str().parse().unwrap_or(1),
            2 => asked.count = word.as_str().parse().unwrap_or(10),
            _ => {}
        }
    }
    asked
}

/// Runs the bench file of a stored run, by its own hazard lines and by each wild object; None where a
/// file is not read.
fn row(
    rt: &(impl Files + AllocGlobal),
    name: &str,
    stored: &mut Tally,
    wild: &mut Tally,
) -> Option<()> {
    let alloc = rt.alloc();
    let bench = file(rt, name, ".bench")?;
    let log = file(rt, name, ".log")?;
    let trace = file(rt, name, ".trace")?;
    let texts = Texts {
        log: &log,
        trace: &trace,
    };
    let mut hazards: Vec<Box<dyn Hazard>> = Vec::new(alloc);
    hazards
        .push(Box::new(alloc, ScriptHazard::new(alloc)).ok()?)
        .ok()?;
    stored.try_plan(alloc, read(alloc, &bench)?, hazards, Some(texts))?;
    wild_runs(alloc, &bench, wild)
}

/// Runs a bench file with each wild object: three of them alone, and one that draws its answers
/// beside the file's hazard lines.
fn wild_runs(alloc: Global, bench: &[u8], wild: &mut Tally) -> Option<()> {
    retried(alloc, bench, wild)?;
    stalled(alloc, bench, wild)?;
    cancelled(alloc, bench, wild)?;
    drawn(alloc, read(alloc, bench)?, bench.len() as u64, wild)
}

/// Runs a bench file with an object that always asks for a retry.
fn retried(alloc: Global, bench: &[u8], wild: &mut Tally) -> Option<()> {
    let mut hazards: Vec<Box<dyn Hazard>> = Vec::new(alloc);
    hazards.push(Box::new(alloc, Retrying).ok()?).ok()?;
    wild.try_plan(alloc, read(alloc, bench)?, hazards, None)
}

/// Runs a bench file with an object that always stalls.
fn stalled(alloc: Global, bench: &[u8], wild: &mut Tally) -> Option<()> {
    let mut hazards: Vec<Box<dyn Hazard>> = Vec::new(alloc);
    hazards.push(Box::new(alloc, Stalling).ok()?).ok()?;
    wild.try_plan(alloc, read(alloc, bench)?, hazards, None)
}

/// Runs a bench file with an object that cancels every request.
fn cancelled(alloc: Global, bench: &[u8], wild: &mut Tally) -> Option<()> {
    let mut hazards: Vec<Box<dyn Hazard>> = Vec::new(alloc);
    hazards.push(Box::new(alloc, Cancelling).ok()?).ok()?;
    wild.try_plan(alloc, read(alloc, bench)?, hazards, None)
}

/// Runs a plan by its hazard lines and by an object that draws its answers from the seed.
fn drawn(alloc: Global, plan: Plan, seed: u64, tally: &mut Tally) -> Option<()> {
    let mut hazards: Vec<Box<dyn Hazard>> = Vec::new(alloc);
    hazards
        .push(Box::new(alloc, ScriptHazard::new(alloc)).ok()?)
        .ok()?;
    hazards
        .push(Box::new(alloc, Drawing::new(seed)).ok()?)
        .ok()?;
    tally.try_plan(alloc, plan, hazards, None)
}

/// Runs the plan that is generated from a seed.
fn made_run(alloc: Global, seed: u64, tally: &mut Tally) -> Option<()> {
    let mut draws = Draws::behind(seed, 2);
    let agents = draws.below(4) as u8 + 1;
    let items = draws.below(12) as u16 + 1;
    let plan = plan_of(alloc, seed, agents, items).ok()?;
    let mut hazards: Vec<Box<dyn Hazard>> = Vec::new(alloc);
    hazards
        .push(Box::new(alloc, SeedHazard::new(seed)).ok()?)
        .ok()?;
    tally.try_plan(alloc, plan, hazards, None)
}

/// Runs a plan that is drawn from a seed.
fn drawn_run(alloc: Global, seed: u64, tally: &mut Tally) -> Option<()> {
    let mut text = Vec::new(alloc);
    drawn_bench(&mut text, seed)?;
    drawn(alloc, read(alloc, &text)?, seed, tally)
}

/// The plan of a bench file's bytes.
fn read(alloc: Global, bench: &[u8]) -> Option<Plan> {
    if bench.len() >= 1 << 20 {
        return None;
    }
    read_bench(alloc, bench).ok()
}

/// The bytes of the file of this name and ending.
fn file(rt: &(impl Files + AllocGlobal), name: &str, ending: &str) -> Option<Vec<u8>> {
    let mut whole = String::from_str(rt.alloc(), name).ok()?;
    whole.push_str(ending).ok()?;
    if whole.len() > 4_096 {
        return None;
    }
    let mut source = FileSource::new(rt);
    source.begin(whole.as_str()).ok()?;
    read_all(rt.alloc(), &mut source, 1 << 20).ok()
}

/// Takes all clocks of a bench.
fn take_clocks(bench: &mut Bench) {
    for _ in 0..bench.plan().clocks {
        if bench.clock() < bench.plan().clocks {
            bench.step();
        }
    }
}

/// The log and the waveform that are stored of a run.
#[derive(Clone, Copy)]
struct Texts<'a> {
    log: &'a [u8],
    trace: &'a [u8],
}

/// Whether the bench has these texts; None for want of memory.
fn is_alike(alloc: Global, bench: &Bench, texts: Texts<'_>) -> Option<bool> {
    let mut log = Vec::new(alloc);
    put_log(&mut log, bench)?;
    let mut trace = Vec::new(alloc);
    put_trace(&mut trace, bench.trace())?;
    Some(log.as_slice() == texts.log && trace.as_slice() == texts.trace)
}

impl Tally {
    /// Runs the plan with these objects, and counts it, also whether it has these texts; None for want
    /// of memory.
    fn try_plan(
        &mut self,
        alloc: Global,
        plan: Plan,
        hazards: Vec<Box<dyn Hazard>>,
        texts: Option<Texts<'_>>,
    ) -> Option<()> {
        let mut bench = Bench::make(alloc, plan, hazards).ok()?;
        take_clocks(&mut bench);
        self.judge(alloc, &bench)?;
        if let Some(texts) = texts {
            if is_alike(alloc, &bench, texts)? {
                self.alike = self.alike.wrapping_add(1);
            }
        }
        Some(())
    }

    /// Counts a bench that was run: whether its waveform is accepted, and whether one byte memory
    /// serves its log; None for want of memory.
    fn judge(&mut self, alloc: Global, bench: &Bench) -> Option<()> {
        self.run = self.run.wrapping_add(1);
        if is_accepted(bench.plan().profile, bench.trace()) {
            self.accepted = self.accepted.wrapping_add(1);
        }
        let mut flat = Flat::new(alloc, bench.plan().mem.as_slice()).ok()?;
        if is_served(&mut flat, bench.log())? {
            self.served = self.served.wrapping_add(1);
        }
        Some(())
    }
}

/// Whether the checker accepts the samples of a bus of this profile.
fn is_accepted(profile: u8, trace: &[Sample]) -> bool {
    if trace.len() > 200_000 || profile < 1 || profile > 2 {
        return false;
    }
    checked(Marks::of_profile(profile), trace).is_none()
}

/// Whether the memory, in turn, gives each access the value that it has; None for want of memory.
fn is_served(flat: &mut Flat, log: &[Done]) -> Option<bool> {
    let mut all = true;
    for done in log {
        if done.agent >= 4 || !done.access.is_lawful() {
            return Some(false);
        }
        all = all && flat.serve(done.agent, &done.access).ok()? == done.value;
    }
    Some(all)
}

/// Prints what became of the benches of this kind.
fn report(rt: &HostRuntime, kind: &str, tally: &Tally) {
    let _ = println!(rt;
        "{kind}: {} run, {} accepted, {} served",
        tally.run, tally.accepted, tally.served
    );
}
