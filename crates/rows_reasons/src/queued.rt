//! What is said of traces that break a rule of the queue at their last clock.

ghost use Rattle.std.specs.Prelude.{◌<◌, ◌≤◌};
ghost use Rattle.fsb_why_queue.specs.Queue.{fed};

use fsb_why_queue::Queue;
use reason_texts::Sentence;
use rows_store::{
    ADS, BPRI, BREQ0, Clock, DBSY, DEFERRED_AND_REPLIED, DRDY, HIT, HITM, QUEUE_DEPTH_BROKEN, RS0,
    RS1, RS2, TRDY, sample,
};
use std::alloc::Global;
use std::process::Abort;

/// A read by agent 0 that begins at 2; behind it nothing happens.
const READ: [Clock; 4] = [
    (BREQ0, 0, 0),
    (BREQ0, 0, 0),
    (BREQ0 | ADS, 0x6, 0x8),
    (0, 0x2, 0x2),
];

/// The same read with its response and three of its four chunks.
const ANSWERED: [Clock; 11] = [
    (BREQ0, 0, 0),
    (BREQ0, 0, 0),
    (BREQ0 | ADS, 0x6, 0x8),
    (0, 0x2, 0x2),
    (0, 0, 0),
    (0, 0, 0),
    (0, 0, 0),
    (0, 0, 0),
    (RS0 | RS1 | RS2 | DBSY | DRDY, 0, 0),
    (DBSY | DRDY, 0, 0),
    (DBSY | DRDY, 0, 0),
];

/// Four reads by agent 0 that get no response, each with an ID of its own.
const OPEN: [Clock; 19] = [
    (BREQ0, 0, 0),
    (BREQ0, 0, 0),
    (BREQ0 | ADS, 0x6, 0x8),
    (0, 0x2, 0x2),
    (BREQ0, 0, 0),
    (BREQ0, 0, 0),
    (BREQ0 | ADS, 0x6, 0xc),
    (0, 0x2, 0x2002),
    (BREQ0, 0, 0),
    (BREQ0, 0, 0),
    (BREQ0 | ADS, 0x6, 0x10),
    (0, 0x2, 0x4002),
    (BREQ0, 0, 0),
    (BREQ0, 0, 0),
    (BREQ0 | ADS, 0x6, 0x14),
    (0, 0x2, 0x6002),
    (BREQ0, 0, 0),
    (BREQ0, 0, 0),
    (BREQ0 | ADS, 0x6, 0x18),
];

/// A queue that was fed so many clocks: these, and idle ones.
fn fed_with(rt: &impl Abort, alloc: Global, clocks: &[Clock], count: usize) -> Queue
    requires { count < 1000 }
    ensures { fed result ≤ count }
{
    let mut queue = Queue::new(alloc);
    for at in 0..count {
        let clock = clocks.get(at).copied().unwrap_or((0, 0, 0));
        queue.feed(&sample(clock)).expect(rt, "memory");
    }
    queue
}

/// Asserts what is said of a rule with this clock, which comes after so many of the read and idle
/// ones: this, or nothing where it is empty.
fn expect_after(
    rt: &impl Abort,
    alloc: Global,
    clocks: &[Clock],
    count: u32,
    next: Clock,
    rule: u8,
    text: &str,
)
    requires { count < 1000 }
{
    let queue = fed_with(rt, alloc, clocks, count as usize);
    match queue.why(rule, &sample(next)) {
        Some(reason) => {
            let clock = count;
            let said = format!(in alloc; "{}", Sentence { clock, reason }).expect(rt, "memory");
            assert!(rt; said.as_str() == text);
        }
        None => assert!(rt; text.is_empty()),
    }
}

#[test]
fn snoop_lines(rt: HostRuntime) {
    let a = rt.alloc();
    let over = "HIT# and HITM# are asserted at 2, and no request waits for its snoop end.";
    expect_after(&rt, a, &[], 2, (HIT | HITM, 0, 0), 11, over);
    let early = "HIT# is asserted at 5. The snoop of request 0 (first clock 2) starts at 6.";
    expect_after(&rt, a, &READ, 5, (HIT, 0, 0), 11, early);
    expect_after(&rt, a, &READ, 6, (HIT, 0, 0), 11, "");
    expect_after(&rt, a, &READ, 6, (HIT, 0, 0), 12, "");
}

#[test]
fn response_timing(rt: HostRuntime) {
    let a = rt.alloc();
    let normal = (RS0 | RS1 | RS2 | DBSY | DRDY, 0, 0);
    let none = "RS# is not idle at 2, and no request waits for a response. 0 came before.";
    expect_after(&rt, a, &[], 2, normal, 13, none);
    let unsnooped = "RS# is not idle at 5, and request 0 (first clock 2) has no snoop end yet.";
    expect_after(&rt, a, &READ, 5, normal, 13, unsnooped);
    let now =
        "RS# is not idle at 6. It may answer at 8 at the earliest: request 0 (first clock 2) has its snoop end at 6.";
    expect_after(&rt, a, &READ, 6, normal, 13, now);
    let soon =
        "RS# is not idle at 7. It may answer at 8 at the earliest: request 0 (first clock 2) has its snoop end at 6.";
    expect_after(&rt, a, &READ, 7, normal, 13, soon);
    expect_after(&rt, a, &READ, 8, normal, 13, "");
}

#[test]
fn response_codes(rt: HostRuntime) {
    let a = rt.alloc();
    let open =
        "RS# is 001 at 5, and request 0 (first clock 2) has no snoop end yet. Without HITM# and DEFER# its code is 111, normal data.";
    expect_after(&rt, a, &READ, 5, (RS0, 0, 0), 14, open);
    let other =
        "RS# is 001 at 8. The code of request 0 (first clock 2) is 111, normal data, by its snoop end at 6.";
    expect_after(&rt, a, &READ, 8, (RS0, 0, 0), 14, other);
    expect_after(&rt, a, &READ, 8, (RS0 | RS1 | RS2, 0, 0), 14, "");
}

#[test]
fn targets(rt: HostRuntime) {
    let a = rt.alloc();
    let none = "TRDY# is asserted at 2, and no request waits for a response. 0 came before.";
    expect_after(&rt, a, &[], 2, (TRDY, 0, 0), 15, none);
    let open =
        "TRDY# is asserted at 5, and request 0 (first clock 2) has no snoop end yet. It is no write-back: only HITM# there makes memory take data.";
    expect_after(&rt, a, &READ, 5, (TRDY, 0, 0), 15, open);
    let unwanted =
        "TRDY# is asserted at 8. Memory takes no data of request 0 (first clock 2): it is no write-back, and has its snoop end at 6 without HITM#.";
    expect_after(&rt, a, &READ, 8, (TRDY, 0, 0), 15, unwanted);
}

#[test]
fn queue_depth(rt: HostRuntime) {
    let a = rt.alloc();
    let full =
        "ADS# is asserted at 26 with 8 requests in flight, the oldest since 2. One may begin with at most seven.";
    expect_after(&rt, a, &QUEUE_DEPTH_BROKEN, 26, (ADS, 0x6, 0x28), 4, full);
    expect_after(&rt, a, &QUEUE_DEPTH_BROKEN, 23, (ADS, 0x6, 0x24), 4, "");
    expect_after(&rt, a, &QUEUE_DEPTH_BROKEN, 26, (0, 0, 0), 4, "");
}

#[test]
fn data_lines(rt: HostRuntime) {
    let a = rt.alloc();
    let none = "DRDY# is asserted at 3, and no response came yet.";
    expect_after(&rt, a, &[], 3, (DBSY | DRDY, 0, 0), 16, none);
    let busy = "DBSY# is asserted at 3, and no response came yet.";
    expect_after(&rt, a, &[], 3, (DBSY, 0, 0), 16, busy);
    let first =
        "DBSY# is not asserted at 8. Of the four chunks of request 0 (first clock 2), answered at 8, 1 came.";
    let response = (RS0 | RS1 | RS2 | DRDY, 0, 0);
    expect_after(&rt, a, &READ, 8, response, 16, first);
    let missing =
        "DBSY# is not asserted at 9. Of the four chunks of request 0 (first clock 2), answered at 8, 1 came.";
    expect_after(&rt, a, &ANSWERED, 9, (0, 0, 0), 16, missing);
    let late =
        "DBSY# is asserted at 11, and no data are left to come. The last response came at 8.";
    expect_after(&rt, a, &ANSWERED, 11, (DBSY | DRDY, 0, 0), 16, late);
    expect_after(&rt, a, &ANSWERED, 11, (DRDY, 0, 0), 16, "");
    let unmoved =
        "DRDY# is asserted at 8, and no data are on the way. The last response came at 8.";
    expect_after(&rt, a, &READ, 8, (RS0 | DRDY, 0, 0), 16, unmoved);
}

#[test]
fn deferred_ids(rt: HostRuntime) {
    let a = rt.alloc();
    let alone = [(BPRI, 0, 0), (BPRI, 0, 0), (BPRI | ADS, 0, 0)];
    let unawaited =
        "The reply that began at 2 has the deferred ID 0. No deferred request with this ID awaits one.";
    expect_after(&rt, a, &alone, 3, (0, 0, 0), 18, unawaited);
    expect_after(&rt, a, &DEFERRED_AND_REPLIED, 22, (0, 0, 0), 18, "");
    let taken =
        "The request that began at 6 has the deferred ID 0. The request that began at 2 has it and is outstanding.";
    expect_after(&rt, a, &OPEN, 7, (0, 0x2, 0x2), 18, taken);
    expect_after(&rt, a, &OPEN, 7, (0, 0x2, 0x2002), 18, "");
    let many =
        "At 18 a request of agent 0 began, which had 4 outstanding. It may begin one with at most three.";
    expect_after(&rt, a, &OPEN, 19, (0, 0x2, 0x8002), 18, many);
}
