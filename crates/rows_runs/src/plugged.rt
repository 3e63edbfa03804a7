//! Whole runs under objects that come and go: every entry of the trace, of the choices and holds and of the log is compared.

use crate::Stubborn;
use crate::benches::{LOAD_THEN_STORE, bare_bench, bench_of, go};
use fsb_access::{Access, Done, Operand};
use fsb_hazard::{Ask, Choice, Hazard, QuietHazard, Turn, quiet_choice};
use fsb_play::Bench;
use fsb_signal::{Lines, Sample};
use rows_store::{ADS, BREQ0, Clock, DEFER, LOAD_THEN_STORE_HIT, RS0, trace_of};
use std::alloc::{AllocError, Global};
use std::process::Abort;

/// One load of a byte that no line of the file sets.
const ONE_LOAD: &str = "p6bench 1\nagents 1\nclocks 60\ncache 64\nahead 1\nagent 0\nld 1 40\nend\n";

/// What there is of a run: its trace, in no clock of which BNR# was asked for, its choices and its log.
#[derive(Clone, Copy)]
struct Whole<'a> {
    trace: &'a [Sample],
    choices: &'a [Choice],
    log: &'a [Done],
}

/// Names what of the run so far is otherwise than it is wanted, if anything is.
fn difference(bench: &Bench, wanted: &Whole<'_>) -> &'static str {
    let clocks = wanted.trace.len();
    if bench.clock() as usize != clocks {
        "the clock"
    } else if bench.trace() != wanted.trace {
        "the trace"
    } else if bench.choices() != wanted.choices {
        "the choices"
    } else if bench.holds().len() != clocks || bench.holds().contains(&true) {
        "the holds"
    } else if bench.log() != wanted.log {
        "the log"
    } else {
        ""
    }
}

/// The loading of this byte at this clock.
fn loaded(clock: u32, value: u64) -> Done {
    Done {
        clock,
        agent: 0,
        item: 0,
        part: 0,
        access: Access::Load {
            size: 1,
            addr: 0x40,
        },
        value,
    }
}

/// The store at this clock.
fn stored(clock: u32) -> Done {
    Done {
        clock,
        agent: 0,
        item: 1,
        part: 0,
        access: Access::Store {
            size: 1,
            addr: 0x41,
            value: Operand::Literal(5),
        },
        value: 5,
    }
}

/// What Stubborn chooses for a request.
fn retry() -> Choice {
    Choice {
        turn: Turn::Retry,
        ..quiet_choice()
    }
}

/// A request that is retried, up to the clock before the next one is asked for.
const RETRIED: [Clock; 9] = [
    (BREQ0, 0, 0),
    (BREQ0, 0, 0),
    (BREQ0 | ADS, 0x6, 0x8),
    (0, 0x2, 0x2),
    (0, 0, 0),
    (0, 0, 0),
    (DEFER, 0, 0),
    (0, 0, 0),
    (RS0, 0, 0),
];

/// The trace of 60 clocks in which the load is retried so often, and then comes with this byte.
fn retried_trace(alloc: Global, times: u32, byte: u64) -> Result<Vec<Sample>, AllocError> {
    let mut clocks: Vec<Clock> = Vec::new(alloc);
    for _ in 0..times {
        clocks.extend_from_slice(&RETRIED)?;
    }
    let response = clocks.len().saturating_add(8);
    clocks.extend_from_slice(&LOAD_THEN_STORE_HIT)?;
    trace_of(alloc, 60, &clocks, &[(response, 0, byte)])
}

/// Whether a request begins at these clocks of the trace and at no others.
fn begins_at(trace: &[Sample], clocks: &[usize]) -> bool {
    for (clock, sample) in trace.iter().enumerate() {
        if sample.has(Lines::ADS) != clocks.contains(&clock) {
            return false;
        }
    }
    true
}

/// Whether the bench has a plan of 60 clocks, and has run none of them.
fn is_new(bench: &Bench) -> bool {
    let nothing = Whole {
        trace: &[],
        choices: &[],
        log: &[],
    };
    bench.plan().clocks == 60 && difference(bench, &nothing) == ""
}

#[test]
fn first_bench(rt: HostRuntime) {
    let bench = bare_bench(rt.alloc(), LOAD_THEN_STORE).expect(&rt, "a bench");
    assert!(rt; is_new(&bench));
}

/// Names what of the worked run is otherwise, if anything is.
fn worked_difference(alloc: Global, bench: &Bench) -> Result<&'static str, AllocError> {
    let trace = retried_trace(alloc, 0, 7)?;
    let wanted = Whole {
        trace: &trace,
        choices: &[quiet_choice()],
        log: &[loaded(11, 7), stored(12)],
    };
    Ok(difference(bench, &wanted))
}

/// Whether the bench takes a quiet object.
fn is_quiet_plugged(alloc: Global, bench: &mut Bench) -> Result<bool, AllocError> {
    let quiet: Box<dyn Hazard> = Box::new(alloc, QuietHazard::new())?;
    Ok(bench.plug(quiet).is_ok())
}

/// Whether the bench has one object, and gives it back.
fn is_unplugged(bench: &mut Bench) -> bool {
    bench.unplug(5).is_none() && bench.unplug(0).is_some()
}

/// A quiet object changes nothing of the worked run.
#[test]
fn plugged_before_the_first_clock(rt: HostRuntime) {
    let mut bench = bare_bench(rt.alloc(), LOAD_THEN_STORE).expect(&rt, "a bench");
    assert!(rt; matches!(is_quiet_plugged(rt.alloc(), &mut bench), Ok(true)));
    go(&mut bench, 60);
    let wrong = worked_difference(rt.alloc(), &bench).unwrap_or("memory");
    assert!(rt; wrong == "", "{wrong}");
    assert!(rt; is_unplugged(&mut bench));
}

/// Whether the bench takes a stubborn object.
fn is_stubborn_plugged(alloc: Global, bench: &mut Bench) -> Result<bool, AllocError> {
    let stubborn: Box<dyn Hazard> = Box::new(alloc, Stubborn::new())?;
    Ok(bench.plug(stubborn).is_ok())
}

/// What the stubborn object chooses for the first five requests, if it is taken out before the fifth.
fn choices() -> [Choice; 5] {
    [retry(), retry(), retry(), retry(), quiet_choice()]
}

/// Names what of the first 30 clocks is otherwise, if anything is: four requests are retried.
fn half_difference(alloc: Global, bench: &Bench, byte: u64) -> Result<&'static str, AllocError> {
    let trace = retried_trace(alloc, 4, byte)?;
    let half = Whole {
        trace: trace.get(..30).unwrap_or(&[]),
        choices: &choices()[..4],
        log: &[],
    };
    Ok(difference(bench, &half))
}

/// Names what of the whole run is otherwise, if anything is: the load then comes with this byte.
fn whole_difference(
    alloc: Global,
    bench: &Bench,
    byte: u64,
    log: &[Done],
) -> Result<&'static str, AllocError> {
    let trace = retried_trace(alloc, 4, byte)?;
    let whole = Whole {
        trace: &trace,
        choices: &choices(),
        log,
    };
    Ok(difference(bench, &whole))
}

/// The choice of the object at the place, which is taken out; None where there is none.
fn taken(bench: &mut Bench, place: usize) -> Option<Choice> {
    let mut object = bench.unplug(place)?;
    Some(object.choose(&Ask::Clock(0)))
}

/// Whether the first object, which is taken out, is the one that was asked so often.
fn was_asked(bench: &mut Bench, often: u8) -> bool {
    match taken(bench, 0) {
        Some(choice) => choice.stall == often,
        None => false,
    }
}

/// Expects that the load is retried as long as the object stands on the bench, and that the object which is taken out after 30
/// clocks is the very one: it was asked at each clock and for each of four requests.
fn expect_retried(rt: &impl Abort, alloc: Global, bench: &mut Bench, byte: u64, log: &[Done]) {
    assert!(rt; matches!(is_stubborn_plugged(alloc, bench), Ok(true)));
    go(bench, 30);
    let wrong = half_difference(alloc, bench, byte).unwrap_or("memory");
    assert!(rt; wrong == "", "{wrong}");
    assert!(rt; was_asked(bench, 34));
    go(bench, 30);
    let wrong = whole_difference(alloc, bench, byte, log).unwrap_or("memory");
    assert!(rt; wrong == "", "{wrong}");
    assert!(rt; begins_at(bench.trace(), &[2, 11, 20, 29, 38]));
}

#[test]
fn objects_come_and_go(rt: HostRuntime) {
    let mut bench = bare_bench(rt.alloc(), ONE_LOAD).expect(&rt, "a bench");
    expect_retried(&rt, rt.alloc(), &mut bench, 0, &[loaded(47, 0)]);
    let mut bench = bare_bench(rt.alloc(), LOAD_THEN_STORE).expect(&rt, "a bench");
    let both = [loaded(47, 7), stored(48)];
    expect_retried(&rt, rt.alloc(), &mut bench, 7, &both);
}

/// A quiet object and a stubborn one behind it.
fn two_objects(alloc: Global) -> Result<Vec<Box<dyn Hazard>>, AllocError> {
    let mut hazards: Vec<Box<dyn Hazard>> = Vec::new(alloc);
    hazards.push(Box::new(alloc, QuietHazard::new())?)?;
    hazards.push(Box::new(alloc, Stubborn::new())?)?;
    Ok(hazards)
}

/// The bench of the worked run with the two objects.
fn bench_of_two(alloc: Global) -> Option<Bench> {
    match two_objects(alloc) {
        Ok(hazards) => bench_of(alloc, LOAD_THEN_STORE, hazards),
        Err(_) => None,
    }
}

/// Whether there is no third object, and the first one is quiet, which is taken out.
fn is_quiet_taken(bench: &mut Bench) -> bool {
    taken(bench, 2) == None && taken(bench, 0) == Some(quiet_choice())
}

/// Whether there are two stubborn objects, which are taken out.
fn are_stubborn_taken(bench: &mut Bench) -> bool {
    taken(bench, 1) == Some(retry()) && taken(bench, 0) == Some(retry()) && taken(bench, 0) == None
}

#[test]
fn plug_and_unplug(rt: HostRuntime) {
    let mut bench = bench_of_two(rt.alloc()).expect(&rt, "a bench");
    assert!(rt; is_quiet_taken(&mut bench));
    assert!(rt; matches!(is_stubborn_plugged(rt.alloc(), &mut bench), Ok(true)));
    assert!(rt; are_stubborn_taken(&mut bench));
}
