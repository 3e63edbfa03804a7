//! What caches and memory have between clocks.

use crate::benches::{LOAD_THEN_STORE, bench_of, go};
use crate::mixed::MIXED;
use fsb_cache::{Cache, Mesi};
use fsb_hazard::{Hazard, ScriptHazard};
use fsb_play::Bench;
use std::alloc::{AllocError, Global};
use std::process::Abort;

/// What an agent's cache has of a line: the agent, the line, its state, a place in it, and the byte there; no byte where the
/// cache does not have the line.
pub(crate) type Lent = (u8, u64, Mesi, usize, Option<u8>);

/// A byte that memory has: the line, the place in it, and the byte.
type Stored = (u64, usize, u8);

/// A clock before which a run stops, and what there is then.
pub(crate) type Stop<'a> = (u32, &'a [Lent], &'a [Stored]);

/// A bench's text, how many agents it has, and its stops.
pub(crate) type Run<'a> = (&'a str, u8, &'a [Stop<'a>]);

/// A store into a line that leaves its set for another one, and is loaded again.
const EVICTED: &str =
    "p6bench 1\nagents 1\nclocks 60\ncache 1\nahead 1\nagent 0\nst 1 40 1\nld 1 80\nld 1 40\nend\n";

/// A store stays in the cache until its line is moved: memory has it once the victim is written back.
const WORKED: [Run<'static>; 2] = [
    (
        LOAD_THEN_STORE,
        1,
        &[
            (
                0,
                &[(0, 2, Mesi::Invalid, 0, None)],
                &[(2, 0, 7), (2, 1, 0)],
            ),
            (
                12,
                &[
                    (0, 2, Mesi::Exclusive, 0, Some(7)),
                    (0, 2, Mesi::Exclusive, 1, Some(0)),
                ],
                &[(2, 0, 7), (2, 1, 0)],
            ),
            (
                60,
                &[
                    (0, 2, Mesi::Modified, 0, Some(7)),
                    (0, 2, Mesi::Modified, 1, Some(5)),
                ],
                &[(2, 0, 7), (2, 1, 0)],
            ),
        ],
    ),
    (
        EVICTED,
        1,
        &[
            (14, &[(0, 2, Mesi::Modified, 0, Some(1))], &[(2, 0, 0)]),
            (
                60,
                &[
                    (0, 2, Mesi::Exclusive, 0, Some(1)),
                    (0, 4, Mesi::Invalid, 0, None),
                ],
                &[(2, 0, 1)],
            ),
        ],
    ),
];

/// The byte that the cache has at a place in the line; none where it does not have the line.
fn byte(cache: &Cache, line: u64, at: usize) -> Option<u8> {
    if cache.resident(line) == Some(line) {
        cache.bytes_of(line).get(at).copied()
    } else {
        None
    }
}

/// Whether the bench lends this.
fn is_lent(bench: &Bench, lent: &Lent) -> bool {
    match bench.cache(lent.0) {
        Some(cache) => has(cache, lent),
        None => false,
    }
}

/// Whether the cache has this.
fn has(cache: &Cache, lent: &Lent) -> bool {
    let &(_, line, state, at, wanted) = lent;
    cache.state_of(line) == state && byte(cache, line, at) == wanted
}

/// Whether the bench lends all of this.
fn are_lent(bench: &Bench, lent: &[Lent]) -> bool {
    for it in lent {
        if !is_lent(bench, it) {
            return false;
        }
    }
    true
}

/// Whether memory has this.
fn is_stored(bench: &Bench, stored: &Stored) -> bool {
    let &(line, at, wanted) = stored;
    bench.memory().line(line).get(at) == Some(&wanted)
}

/// Whether memory has all of this.
fn are_stored(bench: &Bench, stored: &[Stored]) -> bool {
    for it in stored {
        if !is_stored(bench, it) {
            return false;
        }
    }
    true
}

/// Names what is otherwise than it is wanted at a stop, if anything is.
fn difference(bench: &Bench, agents: u8, stop: &Stop<'_>) -> &'static str {
    let (clock, lent, stored) = *stop;
    if bench.clock() != clock {
        "the clock"
    } else if bench.cache(agents).is_some() {
        "the number of agents"
    } else if !are_lent(bench, lent) {
        "a cache"
    } else if !are_stored(bench, stored) {
        "memory"
    } else {
        ""
    }
}

/// The object that gives the hazard lines of a bench.
fn scripted(alloc: Global) -> Result<Vec<Box<dyn Hazard>>, AllocError> {
    let mut hazards: Vec<Box<dyn Hazard>> = Vec::new(alloc);
    hazards.push(Box::new(alloc, ScriptHazard::new(alloc))?)?;
    Ok(hazards)
}

/// Goes on to the stop, and names what is otherwise there than it is wanted, if anything is.
fn stopped(bench: &mut Bench, agents: u8, stop: &Stop<'_>) -> &'static str {
    let left = stop.0.saturating_sub(bench.clock());
    go(bench, left);
    difference(bench, agents, stop)
}

/// Expects of a bench that at each stop caches and memory have what they are to have.
fn expect_stops(rt: &impl Abort, bench: &mut Bench, agents: u8, stops: &[Stop<'_>]) {
    for (at, stop) in stops.iter().enumerate() {
        let wrong = stopped(bench, agents, stop);
        assert!(rt; wrong == "", "{wrong} at stop {at}");
    }
}

/// The bench of a text with the object that gives its hazard lines.
fn scripted_bench(alloc: Global, text: &str) -> Option<Bench> {
    match scripted(alloc) {
        Ok(hazards) => bench_of(alloc, text, hazards),
        Err(_) => None,
    }
}

/// Expects the same of a run.
fn expect_run(rt: &impl Abort, alloc: Global, run: &Run<'_>) {
    let (text, agents, stops) = *run;
    let mut bench = scripted_bench(alloc, text).expect(rt, text);
    expect_stops(rt, &mut bench, agents, stops);
}

#[test]
fn stores_stay_in_the_cache_until_a_transfer(rt: HostRuntime) {
    for run in WORKED.iter() {
        expect_run(&rt, rt.alloc(), run);
    }
}

#[test]
fn caches_of_ten_mixed_runs(rt: HostRuntime) {
    for run in MIXED.iter() {
        expect_run(&rt, rt.alloc(), run);
    }
}
