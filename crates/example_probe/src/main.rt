//! A probe of one's own: how long requests wait for their responses, as a histogram: `example_probe <dump>`.
//!
//! The total of a probe is a sum of weights, one for each sample, and no more can be read through its box. [`Latency`] counts
//! responses so, and keeps a histogram beside, in a cell that it shares with who made it. It is shown a dump by the calls
//! of `show`, and then a bench while that runs.
#![tactic(auto)]

ghost use Rattle.std.specs.Prelude.{◌≡◌, []};
ghost use Rattle.fsb_core.specs.Benches.{bench_view};
ghost use Rattle.fsb_probe.specs.Weights.{total_weight};
ghost use Rattle.example_probe.specs.Responses.{response_weight};

use anyhow::{Result, anyhow};
use arrayvec::ArrayVec;
use fsb_core::Bench;
use fsb_hazard::{Hazard, SeedHazard};
use fsb_io::{FileSource, StdoutSink};
use fsb_probe::Probe;
use fsb_script::plan_of;
use fsb_show::{put_show, show_dump};
use fsb_signal::{Lines, Sample};
use std::cell::Cell;
use std::rc::Rc;
use std::rt::{Env, Files};

/// Counts responses, and how long each one's request waited for it.
#[derive(Drop)]
struct Latency {
    responses: u64,
    /// How many samples were seen.
    clock: u32,
    /// The first clocks of the requests that have no response, the oldest first. Responses come in this order.
    waiting: ArrayVec<u32, 8>,
    /// How many responses came so late: in the first place those of 0 to 3 clocks, in each further one those of four clocks
    /// more, and in the last one all later ones too.
    histogram: Rc<Cell<[u32; 8]>>,
}

impl Latency {
    /// Of no sample yet.
    fn new(histogram: Rc<Cell<[u32; 8]>>) -> Latency
        ensures { result.responses ≡ 0 }
    {
        Latency {
            responses: 0,
            clock: 0,
            waiting: ArrayVec::new(),
            histogram,
        }
    }

    /// Follows the requests in flight: a cancelled one leaves, a response answers the oldest, and a new one begins.
    fn follow(&mut self, sample: &Sample)
        ensures { self.new.responses ≡ self.old.responses }
    {
        let clock = self.clock;
        if sample.has(Lines::AERR) {
            self.waiting
                .retain(|first| first.saturating_add(3) != clock);
        }
        if sample.response() != 0 {
            if let Some(first) = self.waiting.pop_at(0) {
                self.note(clock.saturating_sub(first));
            }
        }
        if sample.has(Lines::ADS) && !self.waiting.is_full() {
            self.waiting.push(clock);
        }
        self.clock = clock.saturating_add(1);
    }

    /// Adds a latency to the histogram.
    fn note(&self, latency: u32) {
        let mut histogram = self.histogram.get();
        let place = (latency as usize / 4).min(7);
        histogram[place] = histogram[place].saturating_add(1);
        self.histogram.set(histogram);
    }
}

impl Probe for Latency {
    ghost use Rattle.example_probe.specs.Responses.{response_weight};

    ghost counted = { λ probe. probe.responses };

    ghost weight = { λ _. response_weight };

    fn clear(&mut self) {
        self.responses = 0;
        self.clock = 0;
        self.waiting.clear();
        self.histogram.set([0; 8]);
    }

    fn see(&mut self, sample: &Sample) {
        self.follow(sample);
        self.responses += u64::from(sample.response() != 0);
    }

    fn total(&self) -> u64 {
        self.responses
    }
}

fn main(rt: HostRuntime) -> Result<()> {
    let alloc = rt.alloc();
    let histogram = Rc::new(alloc, Cell::new([0; 8]))?;
    let mut probes: Vec<Box<dyn Probe>> = Vec::new(alloc);
    probes.push(Box::new(alloc, Latency::new(histogram.clone()?))?)?;
    show(&rt, &mut probes)?;
    println!(rt; "{:?}", histogram.get())?;

    histogram.set([0; 8]);
    let mut hazards: Vec<Box<dyn Hazard>> = Vec::new(alloc);
    hazards.push(Box::new(alloc, SeedHazard::new(7))?)?;
    let mut bench = Bench::make(alloc, plan_of(alloc, 7, 2, 4)?, hazards)?;
    let mut latency = Latency::new(histogram.clone()?);
    watch(&mut bench, &mut latency);
    println!(rt; "{} responses of the bench", latency.total())?;
    println!(rt; "{:?}", histogram.get())?;
    Ok(())
}

/// Shows the probes the dump that the first word names, and prints its table.
fn show(
    rt: &(impl Files + Env + Print + AllocGlobal),
    probes: &mut [Box<dyn Probe>],
) -> Result<()> {
    let name = std::env::args(rt)?.nth(1).ok_or(anyhow!("which dump?"))?;
    if name.len() > 4_096 {
        return Err(anyhow!("the name is too long"));
    }
    let mut source = FileSource::new(rt);
    match show_dump(rt.alloc(), name.as_str(), &mut source, probes) {
        Ok(shown) => Ok(put_show(&mut StdoutSink::new(rt), &shown, probes)?),
        Err(stop) => Err(anyhow!("{stop:?}")),
    }
}

/// Takes all clocks of a bench, and shows the probe each sample as it comes. The probe counts the responses of the whole run.
fn watch(bench: &mut Bench, probe: &mut Latency)
    requires fresh { (bench_view bench.old).run.trace ≡ [] }
    requires cleared { probe.old.responses ≡ 0 }
    ensures { probe.new.responses ≡ total_weight response_weight (bench_view bench.new).run.trace }
{
    while bench.clock() < bench.plan().clocks {
        let clock = bench.clock() as usize;
        bench.step();
        probe.see(&bench.trace()[clock]);
    }
}
