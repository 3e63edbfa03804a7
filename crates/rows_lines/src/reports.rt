//! Printed lines, and the counts of requests by kind that a summary tells.

use fsb_access::{Access, Done, Operand};
use fsb_io::Line;
use fsb_report::{
    RequestCounts, bus_line, end_line, gen_line, log_line, rejected_line, request_counts,
    verdict_line,
};
use fsb_rules::Broken;
use rows_store::{
    ADS, CANCELLED_BY_ADDRESS_ERROR, Clock, LOAD_THEN_STORE_HIT, LOCKED_ITEM,
    UPGRADE_OF_A_SHARED_LINE, trace,
};
use std::alloc::{AllocError, Global};

/// What is printed.
#[derive(Clone, Copy, Debug)]
enum Printed {
    /// An entry of a log.
    Entry(Done),
    /// The end line: how many clocks were run, and how many accesses were done of how many.
    End(u32, u32, u32),
    /// The verdict over so many clocks.
    Verdict(u32, Option<Broken>),
    /// A broken rule, without a line feed.
    Rejected(Broken),
    /// The first line of a summary: the seed, the agents and their items.
    Gen(u64, u8, u16),
    /// The last line of a summary: its reads, invalidates, write-backs and replies.
    Bus(u32, u32, u32, u32),
}

/// The line that is printed.
fn line_of(printed: &Printed) -> Line {
    match printed {
        Printed::Entry(done) => log_line(done),
        Printed::End(clocks, done, of) => end_line(*clocks, *done, *of),
        Printed::Verdict(clocks, broken) => verdict_line(*clocks, *broken),
        Printed::Rejected(broken) => rejected_line(broken),
        Printed::Gen(seed, agents, items) => gen_line(*seed, *agents, *items),
        Printed::Bus(reads, invalidates, writebacks, replies) => {
            bus_line(&counts(*reads, *invalidates, *writebacks, *replies))
        }
    }
}

/// What is printed, and its text.
type PrintedText = (Printed, &'static str);

static LINES: [PrintedText; 15] = [
    (
        Printed::Entry(Done {
            clock: 11,
            agent: 0,
            item: 0,
            part: 0,
            access: Access::Load {
                size: 1,
                addr: 0x40,
            },
            value: 7,
        }),
        "11 0 0 ld 1 40 = 7\n",
    ),
    (
        Printed::Entry(Done {
            clock: 12,
            agent: 0,
            item: 1,
            part: 0,
            access: Access::Store {
                size: 1,
                addr: 0x41,
                value: Operand::Literal(5),
            },
            value: 5,
        }),
        "12 0 1 st 1 41 = 5\n",
    ),
    (
        Printed::Entry(Done {
            clock: 11,
            agent: 0,
            item: 0,
            part: 0,
            access: Access::Load {
                size: 8,
                addr: 0x58,
            },
            value: 0x0807_0605_0403_0201,
        }),
        "11 0 0 ld 8 58 = 807060504030201\n",
    ),
    // A line tells neither the place in a locked item nor what a store adds.
    (
        Printed::Entry(Done {
            clock: 199_999,
            agent: 3,
            item: 4_095,
            part: 7,
            access: Access::Store {
                size: 4,
                addr: 0xf_ffff_fffc,
                value: Operand::LastPlus(1),
            },
            value: 0xffff_ffff,
        }),
        "199999 3 4095 st 4 ffffffffc = ffffffff\n",
    ),
    (Printed::End(60, 2, 2), "end clocks=60 done=2 of=2\n"),
    (Printed::End(10, 0, 2), "end clocks=10 done=0 of=2\n"),
    (
        Printed::End(200_000, 4_096, 131_072),
        "end clocks=200000 done=4096 of=131072\n",
    ),
    (Printed::Verdict(60, None), "accepted clocks=60\n"),
    (
        Printed::Verdict(60, Some(Broken { clock: 26, rule: 4 })),
        "rejected clock=26 rule=4\n",
    ),
    (
        Printed::Rejected(Broken { clock: 2, rule: 20 }),
        "rejected clock=2 rule=20",
    ),
    // The summary of one locked item; its end line stands behind the first line.
    (Printed::Gen(0, 1, 1), "gen seed=0 agents=1 items=1\n"),
    (Printed::End(40, 2, 2), "end clocks=40 done=2 of=2\n"),
    (
        Printed::Bus(0, 1, 0, 0),
        "bus requests=1 reads=0 invalidates=1 writebacks=0 replies=0\n",
    ),
    // The longest lines of a summary.
    (
        Printed::Gen(u64::MAX, 4, 4_096),
        "gen seed=18446744073709551615 agents=4 items=4096\n",
    ),
    (
        Printed::Bus(1, 2, 3, u32::MAX),
        "bus requests=4294967301 reads=1 invalidates=2 writebacks=3 replies=4294967295\n",
    ),
];

/// Whether the line has its text.
fn is_printed(row: &PrintedText) -> bool {
    line_of(&row.0).as_slice() == row.1.as_bytes()
}

#[test]
fn each_printed_line(rt: HostRuntime) {
    for (at, row) in LINES.iter().enumerate() {
        assert!(rt; is_printed(row), "row {at}");
    }
}

/// A read, two reads and invalidates, three write-backs and four replies, of low lines and of high ones.
static EACH_KIND: [Clock; 20] = [
    (ADS, 0x6, 0x8),
    (0, 0x2, 0x2),
    (ADS, 0x2, 0x9),
    (0, 0x2, 0x2),
    (ADS, 0xa, 0x2000_0000),
    (0, 0x2, 0x20000),
    (ADS, 0x5, 0x8),
    (0, 0x2, 0x0),
    (ADS, 0xd, 0x2000_0008),
    (0, 0x2, 0x2000),
    (ADS, 0x5, 0x10),
    (0, 0x2, 0x4000),
    (ADS, 0x0, 0x0),
    (0, 0x0, 0x0),
    (ADS, 0x0, 0x2000),
    (0, 0x0, 0x0),
    (ADS, 0x0, 0x4000),
    (0, 0x0, 0x0),
    (ADS, 0x0, 0x20000),
    (0, 0x0, 0x0),
];

/// A request that does not decode.
static UNKNOWN_CODE: [Clock; 2] = [(ADS, 0x1f, 0x8), (0, 0x2, 0x2)];

/// The counts, in the order of the line.
fn counts(reads: u32, invalidates: u32, writebacks: u32, replies: u32) -> RequestCounts {
    RequestCounts {
        reads,
        invalidates,
        writebacks,
        replies,
    }
}

/// The clocks of a run, and the counts of its requests.
type Counted<'a> = (&'a [Clock], RequestCounts);

/// Whether the requests of the clocks are counted so.
fn are_counted(alloc: Global, row: &Counted<'_>) -> Result<bool, AllocError> {
    let w = trace(alloc, row.0)?;
    Ok(w.len() < 100 && request_counts(&w) == row.1)
}

#[test]
fn requests_are_counted_by_kind(rt: HostRuntime) {
    let rows: [Counted<'_>; 7] = [
        (&LOCKED_ITEM, counts(0, 1, 0, 0)),
        (&EACH_KIND, counts(1, 2, 3, 4)),
        // A cancelled request counts; one that does not decode, and an upgrade, do not.
        (&CANCELLED_BY_ADDRESS_ERROR, counts(2, 0, 0, 0)),
        (&UNKNOWN_CODE, counts(0, 0, 0, 0)),
        (&UPGRADE_OF_A_SHARED_LINE, counts(2, 0, 0, 0)),
        // The second clock of the only request is past the end, and it is the last clock.
        (&LOAD_THEN_STORE_HIT[..3], counts(0, 0, 0, 0)),
        (&LOAD_THEN_STORE_HIT[..4], counts(1, 0, 0, 0)),
    ];
    for (at, row) in rows.iter().enumerate() {
        assert!(rt;
            matches!(are_counted(rt.alloc(), row), Ok(true)),
            "row {at}"
        );
    }
}
