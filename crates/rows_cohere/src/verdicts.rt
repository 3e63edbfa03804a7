//! The verdicts of worked runs and of short traces.

ghost use Rattle.std.specs.Prelude.{◌≡◌, ◌^◌, ◌<◌, length};
ghost use Rattle.fsb_cohere.specs.Cohere.{fed};

use crate::short::{
    ASKED_TWICE, CANCELLED_UPGRADE, DEFERRED_TWICE, FAILED_HARD, FREE_BEHIND_A_CANCELLED_ONE,
    HELD_BACK, READ_IN_TIME, READ_TOO_SOON, REPLY_FAILED_HARD, STORE_IN_TIME, STORE_TOO_SOON,
};
use fsb_cohere::Coherence;
use fsb_owner_judge::OwnerBroken;
use fsb_signal::Lines;
use rows_store::{
    ADS, BREQ0, BREQ1, CANCELLED_BY_ADDRESS_ERROR, Clock, DBSY, DEFERRED_AND_REPLIED,
    DIRTY_VICTIM_WRITTEN_BACK, DRDY, HIT, HITM, LOAD_THEN_STORE_HIT, LOCKED_INCREMENTS,
    SHARED_LINE_INVALIDATED, STALLED_SNOOP, STORE_HANDED_OVER_BEFORE_ARRIVAL, TWO_AGENTS_OVERLAP,
    UPGRADE_LOST_AND_HANDED, UPGRADE_OF_A_SHARED_LINE, WRITE_BACK_HELD_OFF, sample,
};
use std::alloc::Global;
use std::process::Abort;

/// The address parity line.
const AP0: u32 = Lines::AP0.0;

/// What stands at a clock in place of what the run has there.
type Change = (usize, Clock);

/// What the clock has with these changes.
fn changed(clock: Clock, at: usize, changes: &[Change]) -> Clock {
    let mut clock = clock;
    for &(place, other) in changes {
        if place == at {
            clock = other;
        }
    }
    clock
}

/// The clock and the rule of a finding.
fn told(found: Option<OwnerBroken>) -> Option<(u32, u8)> {
    match found {
        Some(found) => Some((found.clock, found.rule)),
        None => None,
    }
}

/// Asserts that the run with these changes has this verdict, which is told with the sample that breaks the rule.
fn expect_verdict(
    rt: &impl Abort,
    alloc: Global,
    clocks: &[Clock],
    changes: &[Change],
    verdict: Option<(u32, u8)>,
)
    requires { length clocks.now < 2 ^ 32 }
{
    expect_of(rt, Coherence::from_reset(alloc), clocks, changes, verdict);
}

/// The same of a pass that was fed no sample yet.
fn expect_of(
    rt: &impl Abort,
    pass: Coherence,
    clocks: &[Clock],
    changes: &[Change],
    verdict: Option<(u32, u8)>,
)
    requires few { length clocks.now < 2 ^ 32 }
    requires none { fed pass ≡ 0 }
{
    let mut pass = pass;
    for at in 0..clocks.len() {
        let next = sample(changed(clocks[at], at, changes));
        let found = told(pass.feed(&next).expect(rt, "out of memory"));
        let due = match verdict {
            Some((clock, _)) => at >= clock as usize,
            None => false,
        };
        assert!(rt; found == if due { verdict } else { None });
    }
    assert!(rt; told(pass.verdict()) == verdict);
}

#[test]
fn verdicts_of_worked_runs(rt: HostRuntime) {
    let a = rt.alloc();
    expect_verdict(&rt, a, &LOAD_THEN_STORE_HIT, &[], None);
    expect_verdict(&rt, a, &TWO_AGENTS_OVERLAP, &[], None);
    expect_verdict(&rt, a, &STORE_HANDED_OVER_BEFORE_ARRIVAL, &[], None);
    expect_verdict(&rt, a, &STALLED_SNOOP, &[], None);
    expect_verdict(&rt, a, &CANCELLED_BY_ADDRESS_ERROR, &[], None);
    expect_verdict(&rt, a, &DEFERRED_AND_REPLIED, &[], None);
    expect_verdict(&rt, a, &LOCKED_INCREMENTS, &[], None);
    expect_verdict(&rt, a, &WRITE_BACK_HELD_OFF, &[], None);
    expect_verdict(&rt, a, &DIRTY_VICTIM_WRITTEN_BACK, &[], None);
    expect_verdict(&rt, a, &SHARED_LINE_INVALIDATED, &[], None);
    expect_verdict(&rt, a, &UPGRADE_OF_A_SHARED_LINE, &[], None);
    expect_verdict(&rt, a, &UPGRADE_LOST_AND_HANDED, &[], None);
}

#[test]
fn verdicts_of_changed_runs(rt: HostRuntime) {
    let a = rt.alloc();
    let idle = (0, 0, 0);
    let bytes = (DBSY | DRDY, 0, 0);
    let hit = (HIT, 0x2, 0x20002);
    let again = &DEFERRED_AND_REPLIED;
    expect_verdict(&rt, a, again, &[(9, idle)], Some((9, 31)));
    expect_verdict(&rt, a, again, &[(25, hit)], Some((25, 30)));
    expect_verdict(&rt, a, again, &[(28, bytes)], Some((28, 27)));
    let handed = &STORE_HANDED_OVER_BEFORE_ARRIVAL;
    expect_verdict(&rt, a, handed, &[(9, bytes)], Some((9, 26)));
    let shared = &SHARED_LINE_INVALIDATED;
    expect_verdict(&rt, a, shared, &[(9, bytes)], Some((9, 27)));
    expect_verdict(&rt, a, shared, &[(18, idle)], None);
    expect_verdict(&rt, a, shared, &[(6, hit)], Some((6, 28)));
    let lost = &UPGRADE_LOST_AND_HANDED;
    expect_verdict(&rt, a, lost, &[(22, idle)], Some((22, 26)));
    let silent = (BREQ1 | ADS | AP0, 0x2, 0x8);
    expect_verdict(&rt, a, lost, &[(18, silent)], Some((19, 27)));
    let nothing = [(2, (BREQ0 | ADS, 0x5, 0x8)), (3, (0, 0x2, 0))];
    expect_verdict(&rt, a, &LOAD_THEN_STORE_HIT, &nothing, Some((3, 22)));
    let early = (DBSY | DRDY | HITM, 0, 0);
    let upgrade = &UPGRADE_OF_A_SHARED_LINE;
    expect_verdict(&rt, a, upgrade, &[(9, early)], Some((9, 25)));
}

#[test]
fn verdicts_of_short_traces(rt: HostRuntime) {
    let a = rt.alloc();
    expect_verdict(&rt, a, &ASKED_TWICE, &[], Some((7, 21)));
    expect_verdict(&rt, a, &HELD_BACK, &[], Some((18, 22)));
    expect_verdict(&rt, a, &FREE_BEHIND_A_CANCELLED_ONE, &[], None);
    expect_verdict(&rt, a, &FAILED_HARD, &[], None);
    expect_verdict(&rt, a, &REPLY_FAILED_HARD, &[], None);
    expect_verdict(&rt, a, &DEFERRED_TWICE, &[], Some((16, 31)));
    expect_verdict(&rt, a, &CANCELLED_UPGRADE, &[], Some((31, 27)));
    expect_verdict(&rt, a, &STORE_TOO_SOON, &[], Some((11, 25)));
    expect_verdict(&rt, a, &STORE_IN_TIME, &[], None);
    expect_verdict(&rt, a, &READ_TOO_SOON, &[], Some((13, 24)));
    expect_verdict(&rt, a, &READ_IN_TIME, &[], None);
}

#[test]
fn verdicts_of_traces_that_begin_in_traffic(rt: HostRuntime) {
    let a = rt.alloc();
    let nothing = [(2, (BREQ0 | ADS, 0x5, 0x8)), (3, (0, 0x2, 0))];
    let within = Coherence::from_within(a);
    expect_of(&rt, within, &LOAD_THEN_STORE_HIT, &nothing, None);
    let within = Coherence::from_within(a);
    expect_of(&rt, within, &ASKED_TWICE, &[], Some((7, 21)));
}
