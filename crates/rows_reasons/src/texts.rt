//! The sentence of each reason that no trace of `found` gives.

use fsb_encode::DecodeFault;
use fsb_reasons::{Concerned, Reason, SnoopLines, Wait};
use fsb_trace::{Outcome, Who};
use reason_texts::Sentence;
use std::alloc::Global;
use std::process::Abort;

/// The request of these tests.
const SECOND: Concerned = Concerned {
    number: 1,
    clock: 23,
};

fn expect_text(rt: &impl Abort, alloc: Global, clock: u32, reason: Reason, text: &str) {
    let said = format!(in alloc; "{}", Sentence { clock, reason }).expect(rt, "memory");
    assert!(rt; said.as_str() == text);
}

#[test]
fn requests(rt: HostRuntime) {
    let a = rt.alloc();
    let full =
        "ADS# is asserted at 26 with 8 requests in flight, the oldest since 2. One may begin with at most seven.";
    expect_text(
        &rt,
        a,
        26,
        Reason::QueueFull {
            in_flight: 8,
            oldest: 2,
        },
        full,
    );
    let bits = "The request that began at 2 has a bit of its address or REQ without a level at 3.";
    expect_text(&rt, a, 3, Reason::UnknownBits { clock: 3 }, bits);
    let len = "The REQ word at 3, 00001, is not the one of the request that began at 2.";
    expect_text(
        &rt,
        a,
        3,
        Reason::Unlawful {
            fault: DecodeFault::BadLen(1),
        },
        len,
    );
    let locked =
        "ADS# is asserted at 9. LOCK# kept the bus for agent 2 at 7, which did not ask there.";
    expect_text(
        &rt,
        a,
        9,
        Reason::Locked {
            holder: Some(Who::Symmetric(2)),
        },
        locked,
    );
    let reply =
        "The request that began at 8 is a deferred reply, and agent 3 won the bus. Only the priority agent replies.";
    let winner = Some(Who::Symmetric(3));
    expect_text(&rt, a, 9, Reason::ReplyByOther { winner }, reply);
    let taken =
        "The request that began at 8 has the deferred ID 5. The request that began at 2 has it and is outstanding.";
    expect_text(&rt, a, 9, Reason::IdTaken { did: 5, by: 2 }, taken);
}

#[test]
fn snoops(rt: HostRuntime) {
    let a = rt.alloc();
    let lines = SnoopLines {
        hit: true,
        hitm: true,
        defer: false,
    };
    let over = "HIT# and HITM# are asserted at 9, and no request waits for its snoop end.";
    expect_text(&rt, a, 9, Reason::SnoopsOver { lines }, over);
    let early =
        "HIT# and HITM# are asserted at 26. The snoop of request 1 (first clock 23) starts at 27.";
    expect_text(
        &rt,
        a,
        26,
        Reason::SnoopEarly {
            lines,
            request: SECOND,
            start: 27,
        },
        early,
    );
    let back =
        "HIT# and HITM# are asserted at 27, the snoop end of request 1 (first clock 23). It is a write-back, which no snoop line answers.";
    expect_text(
        &rt,
        a,
        27,
        Reason::WriteBackSnooped {
            lines,
            request: SECOND,
        },
        back,
    );
}

#[test]
fn responses(rt: HostRuntime) {
    let a = rt.alloc();
    let early =
        "RS# is not idle at 28. It may answer at 29 at the earliest: request 1 (first clock 23) has its snoop end at 27.";
    let wait = Wait::SnoopEnd(27);
    expect_text(
        &rt,
        a,
        28,
        Reason::ResponseEarly {
            request: SECOND,
            wait,
            earliest: Some(29),
        },
        early,
    );
    let code =
        "RS# is 111 at 30. The code of request 1 (first clock 23) is 001, retry, by its snoop end at 27, or 010, deferred.";
    let wrong = Reason::CodeWrong {
        request: SECOND,
        snoop_end: 27,
        found: 7,
        expected: Outcome::Retried,
        may_defer: true,
    };
    expect_text(&rt, a, 30, wrong, code);
    let ready =
        "TRDY# is asserted at 28. It may come at 29 at the earliest: request 1 (first clock 23) has its snoop end at 27.";
    expect_text(
        &rt,
        a,
        28,
        Reason::ReadyEarly {
            request: SECOND,
            wait,
            earliest: Some(29),
        },
        ready,
    );
    let busy =
        "DBSY# is not asserted at 30. Of the four chunks of request 1 (first clock 23), answered at 29, 2 came.";
    expect_text(
        &rt,
        a,
        30,
        Reason::BusyMissing {
            request: SECOND,
            response: 29,
            chunks: 2,
        },
        busy,
    );
}

/// A clock, a reason that holds there, and its sentence.
type Said = (u32, Reason, &'static str);

fn expect_texts(rt: &impl Abort, alloc: Global, said: &[Said]) {
    for (clock, reason, text) in said {
        expect_text(rt, alloc, *clock, *reason, text);
    }
}

#[test]
fn beginnings(rt: HostRuntime) {
    let said = [
        (
            3,
            Reason::Unlawful {
                fault: DecodeFault::BadField,
            },
            "The request that began at 2 has an address bit that its kind does not have.",
        ),
        (
            1,
            Reason::NotArbitrated,
            "ADS# is asserted at 1. Agents ask two clocks before, so that no request begins at the first two clocks.",
        ),
        (
            9,
            Reason::Locked { holder: None },
            "ADS# is asserted at 9. LOCK# was asserted at 7, and nobody held the bus.",
        ),
        (
            9,
            Reason::ReplyByOther { winner: None },
            "The request that began at 8 is a deferred reply, and nobody won the bus. Only the priority agent replies.",
        ),
        (
            0,
            Reason::AddressParity {
                low: false,
                high: true,
            },
            "At 0 an odd number of AP1# and A[35:24]# is asserted.",
        ),
        (
            0,
            Reason::AddressParity {
                low: true,
                high: true,
            },
            "At 0 an odd number of AP0# and A[23:3]# is asserted, and of AP1# and A[35:24]# too.",
        ),
    ];
    expect_texts(&rt, rt.alloc(), &said);
}

#[test]
fn snoops_of_others(rt: HostRuntime) {
    let hit = SnoopLines {
        hit: true,
        hitm: false,
        defer: false,
    };
    let hitm = SnoopLines {
        hit: false,
        hitm: true,
        defer: false,
    };
    let said = [
        (
            28,
            Reason::SnoopBetween {
                lines: hit,
                request: SECOND,
                start: 27,
            },
            "HIT# is asserted at 28, between two snoop clocks of request 1 (first clock 23). They are every second clock from 27 on.",
        ),
        (
            27,
            Reason::ReplySnooped {
                lines: hitm,
                request: SECOND,
            },
            "HITM# is asserted at 27, the snoop end of request 1 (first clock 23). It is a deferred reply, which HIT# alone may answer.",
        ),
    ];
    expect_texts(&rt, rt.alloc(), &said);
}

#[test]
fn waits(rt: HostRuntime) {
    let said = [
        (
            29,
            Reason::ResponseEarly {
                request: SECOND,
                wait: Wait::NotClear(None),
                earliest: None,
            },
            "RS# is not idle at 29, and request 1 (first clock 23) waits for the request before it, which has not ended.",
        ),
        (
            29,
            Reason::ResponseEarly {
                request: SECOND,
                wait: Wait::NotClear(Some(29)),
                earliest: Some(30),
            },
            "RS# is not idle at 29. It may answer at 30 at the earliest: request 1 (first clock 23) waits for the request before it, which ends at 29.",
        ),
        (
            25,
            Reason::ReadyEarly {
                request: SECOND,
                wait: Wait::NoSnoopEnd,
                earliest: None,
            },
            "TRDY# is asserted at 25, and request 1 (first clock 23) has no snoop end yet.",
        ),
    ];
    expect_texts(&rt, rt.alloc(), &said);
}

#[test]
fn codes_and_targets(rt: HostRuntime) {
    let said = [
        (
            28,
            Reason::CodeForNone { number: 1, code: 7 },
            "RS# is 111 at 28, and no request waits for a response. 1 came before.",
        ),
        (
            30,
            Reason::ReadyTwice {
                request: SECOND,
                ready: 29,
            },
            "TRDY# is asserted at 30. It was asserted for request 1 (first clock 23) at 29.",
        ),
        (
            30,
            Reason::ResponseUnready {
                request: SECOND,
                ready: Some(29),
                earliest: Some(31),
            },
            "RS# answers request 1 (first clock 23) at 30. It may do so at 31 at the earliest: TRDY# is asserted for it at 29.",
        ),
        (
            29,
            Reason::ResponseUnready {
                request: SECOND,
                ready: None,
                earliest: None,
            },
            "RS# answers request 1 (first clock 23) at 29, and TRDY# was not asserted for it two clocks before.",
        ),
    ];
    expect_texts(&rt, rt.alloc(), &said);
}
