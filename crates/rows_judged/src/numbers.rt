//! The numbers of live requests, and the requests of a trace.

ghost use Rattle.std.specs.Prelude.{◌^◌, ◌<◌, length};

use fsb_encode::Kind;
use fsb_trace::{Outcome, Who, end_of, outcome_of, requests, response, snoop_end, verdict};
use rows_store::{
    CANCELLED_BY_ADDRESS_ERROR, Clock, DEFERRED_AND_REPLIED, DIRTY_VICTIM_WRITTEN_BACK,
    LOAD_THEN_STORE_HIT, LOCKED_INCREMENTS, STALLED_SNOOP, STORE_HANDED_OVER_BEFORE_ARRIVAL,
    TWO_AGENTS_OVERLAP, UNMARKED, UPGRADE_LOST_AND_HANDED, UPGRADE_OF_A_SHARED_LINE,
    WRITE_BACK_HELD_OFF, trace,
};
use std::alloc::Global;
use std::process::Abort;

/// A live request's snoop end, response, end and outcome.
type Numbers = (u32, u32, u32, Outcome);

/// Asserts that the trace is accepted and has these live requests and no further one.
fn expect_numbers(rt: &impl Abort, alloc: Global, clocks: &[Clock], numbers: &[Numbers])
    requires clocks { length clocks.now < 2 ^ 32 }
    requires numbers { length numbers.now < 2 ^ 32 }
{
    let w = trace(alloc, clocks).expect(rt, "out of memory");
    assert!(rt; verdict(UNMARKED, &w) == None);
    for (i, &(snoop, answer, end, outcome)) in numbers.iter().enumerate() {
        assert!(rt; snoop_end(&w, i as u32) == Some(snoop));
        assert!(rt; response(&w, i as u32) == Some(answer));
        assert!(rt; end_of(&w, i as u32) == Some(end));
        assert!(rt; outcome_of(&w, i as u32) == Some(outcome));
    }
    assert!(rt; snoop_end(&w, numbers.len() as u32) == None);
}

#[test]
fn numbers_of_one_request(rt: HostRuntime) {
    let w = trace(rt.alloc(), &LOAD_THEN_STORE_HIT).expect(&rt, "out of memory");
    let seen = requests(rt.alloc(), &w).expect(&rt, "out of memory");
    assert!(rt; seen.len() == 1);
    assert!(rt; seen[0].clock == 2);
    assert!(rt; seen[0].who == Some(Who::Symmetric(0)));
    assert!(rt; !seen[0].cancelled);
    assert!(rt; seen[0].request.is_some());
    expect_numbers(
        &rt,
        rt.alloc(),
        &LOAD_THEN_STORE_HIT,
        &[(6, 8, 11, Outcome::Granted)],
    );
}

#[test]
fn numbers_of_overlapping_requests(rt: HostRuntime) {
    let overlap = [(6, 8, 11, Outcome::Granted), (9, 12, 15, Outcome::Granted)];
    expect_numbers(&rt, rt.alloc(), &TWO_AGENTS_OVERLAP, &overlap);
    let handed = [(6, 8, 11, Outcome::Granted), (9, 14, 17, Outcome::Handed)];
    expect_numbers(&rt, rt.alloc(), &STORE_HANDED_OVER_BEFORE_ARRIVAL, &handed);
    expect_numbers(
        &rt,
        rt.alloc(),
        &STALLED_SNOOP,
        &[(10, 12, 15, Outcome::Granted)],
    );
    expect_numbers(
        &rt,
        rt.alloc(),
        &CANCELLED_BY_ADDRESS_ERROR,
        &[(12, 14, 17, Outcome::Granted)],
    );
    let locked = [(6, 8, 11, Outcome::Granted), (18, 22, 25, Outcome::Handed)];
    expect_numbers(&rt, rt.alloc(), &LOCKED_INCREMENTS, &locked);
}

#[test]
fn numbers_of_deferred_and_written_requests(rt: HostRuntime) {
    let deferred = [
        (6, 8, 8, Outcome::Deferred),
        (9, 11, 11, Outcome::Retried),
        (18, 20, 20, Outcome::Retried),
        (25, 27, 30, Outcome::Replied),
        (28, 31, 34, Outcome::Granted),
    ];
    expect_numbers(&rt, rt.alloc(), &DEFERRED_AND_REPLIED, &deferred);
    let held_off = [
        (6, 8, 11, Outcome::Granted),
        (17, 21, 24, Outcome::Handed),
        (22, 25, 28, Outcome::Granted),
    ];
    expect_numbers(&rt, rt.alloc(), &WRITE_BACK_HELD_OFF, &held_off);
    let written = [
        (6, 8, 11, Outcome::Granted),
        (18, 22, 25, Outcome::Written),
        (32, 34, 37, Outcome::Granted),
        (44, 46, 49, Outcome::Granted),
    ];
    expect_numbers(&rt, rt.alloc(), &DIRTY_VICTIM_WRITTEN_BACK, &written);
}

#[test]
fn requests_of_a_reply_and_after_an_address_error(rt: HostRuntime) {
    let w = trace(rt.alloc(), &DEFERRED_AND_REPLIED).expect(&rt, "out of memory");
    let seen = requests(rt.alloc(), &w).expect(&rt, "out of memory");
    let clocks = [2, 5, 14, 21, 24];
    let agents = [
        Who::Symmetric(0),
        Who::Symmetric(1),
        Who::Symmetric(1),
        Who::Priority,
        Who::Symmetric(1),
    ];
    let kinds = [
        Kind::Read,
        Kind::Invalidate,
        Kind::Invalidate,
        Kind::Reply,
        Kind::Invalidate,
    ];
    assert!(rt; seen.len() == 5);
    for (i, request) in seen.iter().enumerate() {
        assert!(rt; Some(request.clock) == clocks.get(i).copied());
        assert!(rt; request.who == agents.get(i).copied());
        assert!(rt; request.request.map(|r| r.kind) == kinds.get(i).copied());
    }
    let cancelled = trace(rt.alloc(), &CANCELLED_BY_ADDRESS_ERROR).expect(&rt, "out of memory");
    let both = requests(rt.alloc(), &cancelled).expect(&rt, "out of memory");
    assert!(rt; both.len() == 2);
    assert!(rt; both[0].clock == 2);
    assert!(rt; both[0].cancelled);
    assert!(rt; both[1].clock == 8);
    assert!(rt; !both[1].cancelled);
}

#[test]
fn numbers_of_upgrades(rt: HostRuntime) {
    let loads = [(6, 8, 11, Outcome::Granted), (9, 12, 15, Outcome::Granted)];
    let won = (18, 20, 20, Outcome::Upgraded);
    let lost = (22, 26, 29, Outcome::Handed);
    expect_numbers(
        &rt,
        rt.alloc(),
        &UPGRADE_OF_A_SHARED_LINE,
        &[loads[0], loads[1], won],
    );
    expect_numbers(
        &rt,
        rt.alloc(),
        &UPGRADE_LOST_AND_HANDED,
        &[loads[0], loads[1], won, lost],
    );
}
