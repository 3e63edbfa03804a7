//! A monitor that is fed samples one by one, as a simulator gives them, and stops at the first broken rule.
//!
//! The samples are those of a bench. No sample of a bench breaks a rule, so a monitor beside it finds nothing, and that is
//! proved ([`watch`], `lawful`). In the second run the sample of one clock is lost on the way.
#![tactic(auto)]

ghost use Rattle.std.specs.Prelude.{◌≡◌, ◌<◌, ◌≤◌, ◌+◌, ◌++◌, [], ◌∷◌, None, IfSome, length};
ghost use Rattle.fsb_core.specs.Benches.{bench_view};
ghost use Rattle.fsb_core.specs.Stepping.{HasClockLeft};
ghost use Rattle.fsb_rules.specs.Checker.{as_broken};
ghost use Rattle.fsb_signal.specs.Parity.{marks_in};
ghost use Rattle.fsb_trace.specs.Verdict.{verdict};
ghost use Rattle.example_monitor.specs.Received.{received, received_at};

use anyhow::{Result, anyhow};
use fsb_core::Bench;
use fsb_hazard::Hazard;
use fsb_rules::{Broken, Checker};
use fsb_script::{Plan, read_bench};
use fsb_signal::{Marks, Sample, idle_sample};
use std::alloc::Global;

/// Two agents that store to one byte.
const BENCH: &str = "p6bench 1
agents 2
clocks 60
cache 64
ahead 1
agent 0
st 1 40 1
end
agent 1
st 1 40 2
end
";

fn main(rt: HostRuntime) -> Result<()> {
    for lost in [None, Some(8)] {
        let hazards: Vec<Box<dyn Hazard>> = Vec::new(rt.alloc());
        let mut bench = Bench::make(rt.alloc(), plan_of(rt.alloc())?, hazards)?;
        match watch(&mut bench, lost) {
            None => println!(rt; "lost {lost:?}: {} clocks break no rule", bench.clock())?,
            Some(broken) => {
                println!(rt;
                    "lost {lost:?}: clock {} breaks rule {}",
                    broken.clock, broken.rule
                )?
            }
        }
    }
    Ok(())
}

/// The plan of the bench's text.
fn plan_of(alloc: Global) -> Result<Plan> {
    match read_bench(alloc, BENCH.as_bytes()) {
        Ok(plan) => Ok(plan),
        Err(stop) => Err(anyhow!("{stop:?}")),
    }
}

/// Feeds a checker sample by sample, until a rule is broken or the plan has no clock left. The answer is the verdict on what was
/// received; where nothing is lost, it is that no rule is broken. The clock of a broken rule is the last one that is taken.
fn watch(bench: &mut Bench, lost: Option<u32>) -> Option<Broken>
    requires { (bench_view bench.old).run.trace ≡ [] }
    ensures verdict { result ≡ as_broken (verdict (marks_in (bench_view bench.new).run.plan.profile)
        (received lost (bench_view bench.new).run.trace)) }
    ensures lawful { lost ≡ None → result ≡ None }
    ensures stops { IfSome result (λ broken.
        length (bench_view bench.new).run.trace ≡ broken.clock + 1) }
    ensures to_the_end { result ≡ None →
        (bench_view bench.new).run.plan.clocks ≤ length (bench_view bench.new).run.trace }
    ensures plan_stays { (bench_view bench.new).run.plan ≡ (bench_view bench.old).run.plan }
{
    let mut checker = Checker::new(Marks::of_profile(bench.plan().profile));
    let mut broken = None;
    while broken.is_none() && bench.clock() < bench.plan().clocks {
        let clock = bench.clock();
        let sample = next_sample(bench);
        broken = checker.feed(&receive(clock, &sample, lost));
    }
    bench.breaks_no_rule();
    broken
}

/// Takes the next clock, and gives its sample, as a simulator would.
fn next_sample(bench: &mut Bench) -> Sample
    requires { HasClockLeft (bench_view bench.old) }
    ensures trace { (bench_view bench.new).run.trace
        ≡ (bench_view bench.old).run.trace ++ result ∷ [] }
    ensures plan_stays { (bench_view bench.new).run.plan ≡ (bench_view bench.old).run.plan }
{
    let clock = bench.clock() as usize;
    bench.step();
    bench.trace()[clock]
}

/// What comes of the sample of this clock: an idle one, where it is lost.
fn receive(clock: u32, sample: &Sample, lost: Option<u32>) -> Sample
    ensures { result ≡ received_at lost clock sample.now }
{
    match lost {
        Some(lost) if lost == clock => idle_sample(),
        _ => *sample,
    }
}
