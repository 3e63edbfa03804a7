//! Benches of texts, and their clocks.

use fsb_hazard::Hazard;
use fsb_play::Bench;
use fsb_script::{Plan, read_bench};
use std::alloc::Global;

/// A load of a byte that memory has, and a store into its line.
pub(crate) const LOAD_THEN_STORE: &str =
    "p6bench 1\nagents 1\nclocks 60\ncache 64\nahead 1\nmem 40 07\nagent 0\nld 1 40\nst 1 41 5\nend\n";

/// The plan of a short text; None where the text is none, or memory lacks.
fn plan_of(alloc: Global, text: &str) -> Option<Plan> {
    let text = text.as_bytes();
    if text.len() <= 4_096 {
        read_bench(alloc, text).ok()
    } else {
        None
    }
}

/// The bench of a short text with these objects; None where the text is none, or memory lacks.
pub(crate) fn bench_of(alloc: Global, text: &str, hazards: Vec<Box<dyn Hazard>>) -> Option<Bench> {
    match plan_of(alloc, text) {
        Some(plan) => Bench::make(alloc, plan, hazards).ok(),
        None => None,
    }
}

/// The bench of a text with no objects.
pub(crate) fn bare_bench(alloc: Global, text: &str) -> Option<Bench> {
    bench_of(alloc, text, Vec::new(alloc))
}

/// So many clocks, or those that the plan has left.
pub(crate) fn go(bench: &mut Bench, clocks: u32) {
    for _ in 0..clocks {
        if bench.clock() < bench.plan().clocks {
            bench.step();
        }
    }
}
