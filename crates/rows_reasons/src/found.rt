//! What is said of traces that break a rule at their last clock.

ghost use Rattle.std.specs.Prelude.{◌^◌, ◌<◌, length};

use fsb_signal::{Marks, Sample};
use fsb_why::Why;
use reason_texts::Sentence;
use rows_store::{
    ADS, AERR, BNR, BPRI, BREQ0, BREQ1, Blur, CLEAR, Clock, DRDY, HIT, HITM, LEAST_RULE_NAMED,
    LOCK, REQUEST_SPACING_BROKEN, REQUEST_WITHOUT_WINNER, STALLED_SNOOP, UNMARKED, blurred, trace,
};
use std::alloc::Global;
use std::process::Abort;

/// What follows the samples.
fn after(marks: Marks, w: &[Sample]) -> Why
    requires { length w.now < 2 ^ 32 }
{
    let mut why = Why::new(marks);
    for sample in w {
        why.feed(sample);
    }
    why
}

/// Asserts what is said of a rule: this, or nothing where it is empty.
fn expect_said(rt: &impl Abort, alloc: Global, why: &Why, clock: u32, rule: u8, text: &str) {
    match why.why(rule) {
        Some(reason) => {
            let said = format!(in alloc; "{}", Sentence { clock, reason }).expect(rt, "memory");
            assert!(rt; said.as_str() == text);
        }
        None => assert!(rt; text.is_empty()),
    }
}

/// Asserts what is said of a rule at the last of these clocks.
fn expect_last(rt: &impl Abort, alloc: Global, clocks: &[Clock], rule: u8, text: &str)
    requires { length clocks.now < 2 ^ 32 }
{
    let w = trace(alloc, clocks).expect(rt, "memory");
    let last = (clocks.len() as u32).saturating_sub(1);
    expect_said(rt, alloc, &after(UNMARKED, &w), last, rule, text);
}

/// Asserts what is said of a rule where one sample is all there is.
fn expect_first(
    rt: &impl Abort,
    alloc: Global,
    sample: Sample,
    marks: Marks,
    rule: u8,
    text: &str,
) {
    let mut why = Why::new(marks);
    why.feed(&sample);
    expect_said(rt, alloc, &why, 0, rule, text);
}

#[test]
fn requests_that_begin(rt: HostRuntime) {
    let a = rt.alloc();
    let soon =
        "ADS# is asserted at 4. It may come at 5 at the earliest: the last request began at 2.";
    expect_last(&rt, a, &REQUEST_SPACING_BROKEN, 2, soon);
    let start = "ADS# is asserted at 1. No request begins at the first two clocks.";
    expect_last(&rt, a, &LEAST_RULE_NAMED, 2, start);
    let error = "AERR# is asserted at 1, and no request began before.";
    expect_last(&rt, a, &LEAST_RULE_NAMED, 10, error);
    let none = "ADS# is asserted at 2. No agent asked for the bus two clocks before, at 0.";
    expect_last(&rt, a, &REQUEST_WITHOUT_WINNER, 6, none);
    let blocked = [(BREQ0 | BNR, 0, 0), (BREQ0, 0, 0), (BREQ0 | ADS, 0x6, 0x8)];
    let after = "ADS# is asserted at 2, and BNR# was asserted two clocks before, at 0.";
    expect_last(&rt, a, &blocked, 5, after);
    expect_last(&rt, a, &blocked, 6, "");
    expect_last(&rt, a, &STALLED_SNOOP, 2, "");
}

#[test]
fn codes_and_identities(rt: HostRuntime) {
    let a = rt.alloc();
    let code = [
        (BREQ0, 0, 0),
        (BREQ0, 0, 0),
        (BREQ0 | ADS, 0x1f, 0x8),
        (0, 0x2, 0x2),
    ];
    let unlawful = "The REQ word at 2, 11111, is no code of a request.";
    expect_last(&rt, a, &code, 3, unlawful);
    let no_id = "The request that began at 2 is not decoded, so that it has no deferred ID.";
    expect_last(&rt, a, &code, 7, no_id);
    let other = [
        (BREQ1, 0, 0),
        (BREQ1, 0, 0),
        (BREQ1 | ADS, 0x6, 0x8),
        (0, 0x2, 0x2),
    ];
    let of_other =
        "The request that began at 2 has the deferred ID 0, one of agent 0. The bus was won by agent 1.";
    expect_last(&rt, a, &other, 7, of_other);
}

#[test]
fn request_lines(rt: HostRuntime) {
    let a = rt.alloc();
    let dropped = "BPRI# is released at 1, and the priority agent began no request at 0.";
    expect_last(&rt, a, &[(BPRI, 0, 0), (0, 0, 0)], 8, dropped);
    let held = [
        (BREQ0, 0, 0),
        (BREQ0, 0, 0),
        (BREQ0 | ADS, 0x6, 0x8),
        (BREQ0, 0x2, 0x2),
    ];
    let still = "BREQ0# is still asserted at 3, and the request of agent 0 began at 2.";
    expect_last(&rt, a, &held, 8, still);
    let alone = "LOCK# begins at 0, and no request begins there.";
    expect_last(&rt, a, &[(LOCK, 0, 0)], 9, alone);
    let late = [
        (BREQ0, 0, 0),
        (BREQ0, 0, 0),
        (BREQ0 | ADS, 0x6, 0x8),
        (0, 0x2, 0x2),
        (AERR, 0, 0),
    ];
    let error =
        "AERR# is asserted at 4, and no request began three clocks before. The last one began at 2.";
    expect_last(&rt, a, &late, 10, error);
}

#[test]
fn unknown_levels_and_parity(rt: HostRuntime) {
    let a = rt.alloc();
    let lines = Blur {
        lines: HIT | HITM,
        ..CLEAR
    };
    let unknown = "Control lines without a level at 0: HIT#, HITM#.";
    expect_first(&rt, a, blurred((0, 0, 0), lines), UNMARKED, 1, unknown);
    let data = Blur {
        data: 0xff,
        ..CLEAR
    };
    let bits = "DRDY# is asserted at 0, and bits of D have no level: those of 00000000000000ff.";
    expect_first(&rt, a, blurred((DRDY, 0, 0), data), UNMARKED, 17, bits);
    let both = Marks { ap: true, rp: true };
    let low = "At 0 an odd number of AP0# and A[23:3]# is asserted.";
    expect_first(&rt, a, rows_store::sample((ADS, 0, 1)), both, 19, low);
    let request = "At 0 an odd number of RP#, ADS# and REQ[4:0]# is asserted.";
    expect_first(&rt, a, rows_store::sample((ADS, 0, 1)), both, 20, request);
    expect_first(&rt, a, rows_store::sample((ADS, 0, 1)), UNMARKED, 19, "");
}
