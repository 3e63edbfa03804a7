//! Verdicts, by the plain judge of whole traces and by the checker, which looks at each sample once.

ghost use Rattle.std.specs.Prelude.{◌^◌, ◌<◌, length};

use crate::changed::{with_sample, with_turned};
use crate::checked;
use fsb_rules::{Broken, Checker};
use fsb_signal::Sample;
use fsb_trace::verdict;
use rows_store::{
    ADS, AERR, BNR, BREQ1, Blur, CANCELLED_BY_ADDRESS_ERROR, CLEAR, Clock, DBSY,
    DEFERRED_AND_REPLIED, DIRTY_VICTIM_WRITTEN_BACK, DRDY, HIT, LEAST_RULE_NAMED,
    LOAD_THEN_STORE_HIT, LOCK, LOCKED_INCREMENTS, LOOK_AHEAD_TWO, QUEUE_DEPTH_BROKEN,
    REQUEST_SPACING_BROKEN, REQUEST_WITHOUT_WINNER, RS0, RS1, RS2, STALLED_SNOOP,
    STORE_HANDED_OVER_BEFORE_ARRIVAL, TRDY, TWO_AGENTS_OVERLAP, UNMARKED, UPGRADE_LOST_AND_HANDED,
    UPGRADE_OF_A_SHARED_LINE, WRITE_BACK_HELD_OFF, blurred, sample, trace,
};
use std::alloc::Global;
use std::process::Abort;

/// Asserts that this is what both judges say of a trace.
fn expect_verdict(rt: &impl Abort, w: &[Sample], found: Option<(u32, u8)>)
    requires { length w.now < 2 ^ 32 }
{
    assert!(rt; verdict(UNMARKED, w) == found);
    assert!(rt; checked(UNMARKED, w) == found);
}

/// Asserts that both judges accept the trace of these clocks.
fn expect_accepted(rt: &impl Abort, alloc: Global, clocks: &[Clock])
    requires { length clocks.now < 2 ^ 32 }
{
    let w = trace(alloc, clocks).expect(rt, "out of memory");
    expect_verdict(rt, &w, None);
}

/// Asserts that this is what both judges say of the trace of these clocks.
fn expect_rejected(rt: &impl Abort, alloc: Global, clocks: &[Clock], at: u32, rule: u8)
    requires { length clocks.now < 2 ^ 32 }
{
    let w = trace(alloc, clocks).expect(rt, "out of memory");
    expect_verdict(rt, &w, Some((at, rule)));
}

/// Asserts that both judges accept the clocks, and that this sample at `at` breaks the rule there.
fn expect_broken(
    rt: &impl Abort,
    alloc: Global,
    clocks: &[Clock],
    at: u32,
    sample: Sample,
    rule: u8,
)
    requires { length clocks.now < 2 ^ 32 }
{
    expect_accepted(rt, alloc, clocks);
    let foul = with_sample(alloc, clocks, at as usize, sample).expect(rt, "out of memory");
    expect_verdict(rt, &foul, Some((at, rule)));
}

/// Asserts that the judges agree on the trace of these clocks and on each that differs from it in one line at one clock.
fn expect_alike(rt: &impl Abort, alloc: Global, clocks: &[Clock])
    requires { length clocks.now < 2 ^ 32 }
{
    for at in 0..clocks.len() {
        for bit in 0..19_u32 {
            let line = if bit < 18 { 1_u32 << bit } else { 0 };
            let w = with_turned(alloc, clocks, at, line).expect(rt, "out of memory");
            assert!(rt; checked(UNMARKED, &w) == verdict(UNMARKED, &w));
        }
    }
}

#[test]
fn worked_waveforms_are_accepted(rt: HostRuntime) {
    expect_accepted(&rt, rt.alloc(), &LOAD_THEN_STORE_HIT);
    expect_accepted(&rt, rt.alloc(), &TWO_AGENTS_OVERLAP);
    expect_accepted(&rt, rt.alloc(), &STORE_HANDED_OVER_BEFORE_ARRIVAL);
    expect_accepted(&rt, rt.alloc(), &STALLED_SNOOP);
    expect_accepted(&rt, rt.alloc(), &CANCELLED_BY_ADDRESS_ERROR);
    expect_accepted(&rt, rt.alloc(), &DEFERRED_AND_REPLIED);
    expect_accepted(&rt, rt.alloc(), &DIRTY_VICTIM_WRITTEN_BACK);
    expect_accepted(&rt, rt.alloc(), &LOCKED_INCREMENTS);
    expect_accepted(&rt, rt.alloc(), &LOOK_AHEAD_TWO);
    expect_accepted(&rt, rt.alloc(), &WRITE_BACK_HELD_OFF);
    expect_accepted(&rt, rt.alloc(), &UPGRADE_OF_A_SHARED_LINE);
    expect_accepted(&rt, rt.alloc(), &UPGRADE_LOST_AND_HANDED);
    expect_accepted(&rt, rt.alloc(), &QUEUE_DEPTH_BROKEN[..26]);
    expect_accepted(&rt, rt.alloc(), &REQUEST_WITHOUT_WINNER[..2]);
    expect_verdict(&rt, &[], None);
}

#[test]
fn broken_waveforms_are_rejected(rt: HostRuntime) {
    expect_rejected(&rt, rt.alloc(), &REQUEST_SPACING_BROKEN, 4, 2);
    expect_rejected(&rt, rt.alloc(), &LEAST_RULE_NAMED, 1, 2);
    expect_rejected(&rt, rt.alloc(), &QUEUE_DEPTH_BROKEN, 26, 4);
    expect_rejected(&rt, rt.alloc(), &REQUEST_WITHOUT_WINNER, 2, 6);
}

#[test]
fn each_rule_broken_by_one_sample(rt: HostRuntime) {
    let normal_data = RS0 | RS1 | RS2;
    let moves = DBSY | DRDY;
    // The clock, the asserted lines, the unknown lines, REQ, the address, the unknown data bits, and the rule.
    let edits = [
        (7, 0, HIT, 0, 0, 0, 1),
        (4, BREQ1 | ADS, 0, 6, 0x10, 0, 2),
        (3, BREQ1, 0, 3, 2, 0, 3),
        (3, BREQ1, 0, 2, 0x2_0002, 0, 7),
        (4, 0, 0, 0, 0, 0, 8),
        (7, LOCK, 0, 0, 0, 0, 9),
        (7, AERR, 0, 0, 0, 0, 10),
        (7, HIT, 0, 0, 0, 0, 11),
        (7, normal_data, 0, 0, 0, 0, 13),
        (8, RS0 | RS2 | moves, 0, 0, 0, 0, 14),
        (8, normal_data | TRDY | moves, 0, 0, 0, 0, 15),
        (11, moves, 0, 0, 0, 0, 16),
        (9, moves, 0, 0, 0, 1, 17),
    ];
    for (at, lines, unknown, req, addr, data, rule) in edits {
        let blur = Blur {
            lines: unknown,
            data,
            ..CLEAR
        };
        let edit = blurred((lines, req, addr), blur);
        expect_broken(&rt, rt.alloc(), &TWO_AGENTS_OVERLAP, at, edit, rule);
    }
    let hit_of_a_write_back = sample((HIT, 0, 0));
    expect_broken(
        &rt,
        rt.alloc(),
        &DIRTY_VICTIM_WRITTEN_BACK,
        18,
        hit_of_a_write_back,
        12,
    );
    let id_in_use = sample((0, 2, 2));
    expect_broken(&rt, rt.alloc(), &LOOK_AHEAD_TWO, 7, id_in_use, 18);
    let blocked = with_sample(
        rt.alloc(),
        &TWO_AGENTS_OVERLAP,
        3,
        sample((BREQ1 | BNR, 2, 2)),
    )
    .expect(&rt, "out of memory");
    expect_verdict(&rt, &blocked, Some((5, 5)));
}

#[test]
fn judges_agree_where_one_line_is_turned_over(rt: HostRuntime) {
    expect_alike(&rt, rt.alloc(), &STALLED_SNOOP);
    expect_alike(&rt, rt.alloc(), &CANCELLED_BY_ADDRESS_ERROR);
    expect_alike(&rt, rt.alloc(), &DEFERRED_AND_REPLIED);
    expect_alike(&rt, rt.alloc(), &UPGRADE_OF_A_SHARED_LINE);
    expect_alike(&rt, rt.alloc(), &UPGRADE_LOST_AND_HANDED);
}

#[test]
fn first_verdict_stays(rt: HostRuntime) {
    let found = Some(Broken { clock: 0, rule: 2 });
    let mut checker = Checker::new(UNMARKED);
    assert!(rt; checker.feed(&sample((ADS, 0, 0))) == found);
    assert!(rt; checker.feed(&sample((0, 0, 0))) == found);
    let unknown_hit = Blur {
        lines: HIT,
        ..CLEAR
    };
    let last = blurred((AERR, 0, 0), unknown_hit);
    assert!(rt; checker.feed(&last) == found);
}
