//! A cache and a memory under test: a model of what one agent's cache and memory have, which reads the bus and is told what the
//! processors stored. After each clock it is compared with the bench's cache of that agent, and with the bench's memory.
//!
//! The second model is wrong: it does not hear other agents' reads. The comparison says of which line it is wrong first, and when.
#![tactic(auto)]

ghost use Rattle.std.specs.Prelude.{◌<◌, ◌↔◌, IsTrue};
ghost use Rattle.example_cache.specs.Compared.{HasSame, IsFirstApart};

use anyhow::{Result, anyhow};
use fsb_access::{Access, Done};
use fsb_cache::{Cache, Mesi};
use fsb_core::Bench;
use fsb_encode::{Kind, Request};
use fsb_hazard::{Hazard, ScriptHazard};
use fsb_memory::Controller;
use fsb_script::read_bench;
use fsb_signal::{Lines, Marks, Sample};
use fsb_table::{Row, table};
use fsb_trace::Outcome;
use std::alloc::Global;

/// Two agents with a place for each line, so that none is written back. Their stores are of the first byte of a line.
const BENCH: &str = "p6bench 1\nagents 2\nclocks 160\ncache 8\nahead 1\n\
agent 0\nld 4 40\nst 4 40 1\nst 4 60 2\nst 4 40 3\nend\n\
agent 1\nidle 11\nld 4 40\nst 4 60 4\nend\n\
tx 2 stall 1\ntx 3 retry\n";

/// The scripts name none but lines 0 to 7.
const LINES: usize = 8;

/// The agent whose cache is under test.
const AGENT: u8 = 0;

/// What an agent and memory have of each line, by the bus and by the stores that were completed.
#[derive(Drop)]
struct Model {
    /// Whether it hears other agents' reads.
    hears_reads: bool,
    states: [Mesi; LINES],
    /// The first byte of each line, by the stores so far.
    stored: [u8; LINES],
    /// The first byte that memory has of each line.
    memory: [u8; LINES],
}

impl Model {
    /// The snoop that ends in the clock, if one does; and memory takes a line at the end of the transfer that hands it over.
    fn take_rows(&mut self, clock: u32, sample: &Sample, rows: &[Row]) {
        for row in rows {
            if let Some(request) = row.seen.request {
                if row.snoop == Some(clock) {
                    self.end_snoop(&request, sample);
                }
                if row.end == Some(clock) && row.outcome == Some(Outcome::Handed) {
                    let line = (request.line % 8) as usize;
                    self.memory[line] = self.stored[line];
                }
            }
        }
    }

    /// What the end of a snoop makes of its line.
    fn end_snoop(&mut self, request: &Request, sample: &Sample) {
        let line = (request.line % 8) as usize;
        let state = self.states[line];
        let is_own = request.did / 16 == AGENT;
        let is_handed = sample.has(Lines::HITM);
        self.states[line] = match request.kind {
            _ if is_own && !is_handed && sample.has(Lines::DEFER) => state,
            Kind::Read if is_own && (is_handed || sample.has(Lines::HIT)) => Mesi::Shared,
            Kind::Read if is_own => Mesi::Exclusive,
            Kind::Invalidate if is_own => Mesi::Modified,
            Kind::Read if state != Mesi::Invalid && self.hears_reads => Mesi::Shared,
            Kind::Invalidate => Mesi::Invalid,
            _ => state,
        };
    }

    /// Each store of the clock. The agent's own makes an Exclusive line Modified, and the bus sees nothing of it.
    fn take_stores(&mut self, clock: u32, log: &[Done]) {
        for done in log {
            if let (Access::Store { .. }, true) = (done.access, done.clock == clock) {
                let line = (done.access.line() % 8) as usize;
                self.stored[line] = (done.value % 256) as u8;
                if done.agent == AGENT && self.states[line] == Mesi::Exclusive {
                    self.states[line] = Mesi::Modified;
                }
            }
        }
    }
}

fn main(rt: HostRuntime) -> Result<()> {
    let alloc = rt.alloc();
    for hears_reads in [true, false] {
        let plan = read_bench(alloc, BENCH.as_bytes()).map_err(|stop| anyhow!("{stop:?}"))?;
        let mut hazards: Vec<Box<dyn Hazard>> = Vec::new(alloc);
        hazards.push(Box::new(alloc, ScriptHazard::new(alloc))?)?;
        let mut bench = Bench::make(alloc, plan, hazards)?;
        let mut model = Model {
            hears_reads,
            states: [Mesi::Invalid; LINES],
            stored: [0; LINES],
            memory: [0; LINES],
        };
        let line = compare(alloc, &mut bench, &mut model)?;
        let clocks = bench.clock();
        println!(rt; "first line that differs after {clocks} clocks: {line:?}")?;
    }
    Ok(())
}

/// Takes clock after clock, until the model and the bench differ. Answers the first line of which they do.
fn compare(alloc: Global, bench: &mut Bench, model: &mut Model) -> Result<Option<usize>> {
    let mut line = None;
    while line.is_none() && bench.clock() < bench.plan().clocks {
        let clock = bench.clock();
        bench.step();
        let marks = Marks::of_profile(bench.plan().profile);
        bench.breaks_no_rule();
        let rows = table(alloc, marks, bench.trace())?;
        model.take_rows(clock, &bench.trace()[clock as usize], &rows);
        model.take_stores(clock, bench.log());
        if let Some(cache) = bench.cache(AGENT) {
            line = difference(model, cache, bench.memory());
        }
    }
    Ok(line)
}

/// The first line that the cache does not have in the model's state, or of which memory's first byte is not the model's; none
/// exactly where all are the same.
fn difference(model: &Model, cache: &Cache, memory: &Controller) -> Option<usize>
    ensures { IsFirstApart model.now.states model.now.memory cache.now memory.now result }
{
    for at in 0..LINES {
        if !is_same(model, cache, memory, at) {
            return Some(at);
        }
    }
    None
}

/// Whether the cache has the line in the model's state, and memory's first byte of it is the model's.
fn is_same(model: &Model, cache: &Cache, memory: &Controller, at: usize) -> bool
    requires { at < 8 }
    ensures { IsTrue result ↔ HasSame model.now.states model.now.memory cache.now memory.now at }
{
    model.states[at] == cache.state_of(at as u64) && model.memory[at] == memory.line(at as u64)[0]
}
