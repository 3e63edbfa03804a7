//! The report on the parts of a dump.

use arrayvec::ArrayVec;
use scope_check::{Begin, Bound, Part, Verdict};
use scope_parts::{End, PartFound, PartsFound, Plan};
use scope_report::{Grounds, check_text};
use scope_ring::Ring;
use scope_wiring::{Choice, Home, Wiring};
use std::alloc::{AllocError, Global};
use vcd_course::Stamp;
use vcd_header::Section;

/// A part: its first clock, how many it has, the broken clock and its rule, and why it ended.
type Sketch = (u64, u64, Option<(u64, u8)>, End);

/// What is asked for, how many clocks there are, the parts, how many more there are, and what the report has as its second
/// line and as its end.
struct Row {
    begin: Begin,
    to: Option<Bound>,
    most: u32,
    clocks: u64,
    parts: &'static [Sketch],
    more: u64,
    second: &'static str,
    end: &'static str,
}

const ROWS: [Row; 9] = [
    Row {
        begin: Begin::Known,
        to: None,
        most: 1,
        clocks: 264,
        parts: &[(1, 263, None, End::Dump)],
        more: 0,
        second: "accepted: 263 of 264 clocks judged",
        end: "\
clocks judged
clock 1 is the first that is judged: there every control line has a level
",
    },
    Row {
        begin: Begin::Known,
        to: None,
        most: 1,
        clocks: 264,
        parts: &[(1, 99, None, End::Hole), (140, 124, None, End::Dump)],
        more: 0,
        second: "accepted: 223 of 264 clocks judged",
        end: "\
clocks judged
2 parts of the dump are judged:
  part 1: clocks 1 to 99, accepted; the dump stops behind it
  part 2: clocks 140 to 263, accepted
clock 1 is the first that is judged: there every control line has a level
each later part begins with a clock that ends 32 clocks without an asserted line
  No request is taken to wait longer. Who had the bus last is not known: a rule counts as broken
  where it is whoever had it.
the dump stops 1 time, first at 1 us (line 800 of the file)
",
    },
    Row {
        begin: Begin::Known,
        to: None,
        most: 1,
        clocks: 120,
        parts: &[(0, 99, None, End::Hole)],
        more: 0,
        second: "accepted: 99 of 120 clocks judged",
        end: "\
clocks judged
the dump stops 1 time, first at 1 us (line 800 of the file)
clock 99 and those after it are not judged: the dump stopped before it
",
    },
    Row {
        begin: Begin::Known,
        to: None,
        most: 16,
        clocks: 180,
        parts: &[
            (0, 17, Some((16, 13)), End::Broken),
            (60, 1, Some((60, 7)), End::Broken),
            (130, 20, None, End::Hole),
        ],
        more: 0,
        second: "rejected at clock 16, 170 ns (line 48 of the file): rule 13, response timing",
        end: "\
3 parts of the dump are judged, of which 2 break rules:
  part 1: clocks 0 to 16, rejected at clock 16, 170 ns (line 48 of the file): rule 13, response timing
  part 2: clock 60, rejected at clock 60, 610 ns (line 180 of the file): rule 7, request identity
  part 3: clocks 130 to 149, accepted; the dump stops behind it
each later part begins with a clock that ends 32 clocks without an asserted line
  No request is taken to wait longer. Who had the bus last is not known: a rule counts as broken
  where it is whoever had it.
the dump stops 1 time, first at 1 us (line 800 of the file)
clock 150 and those after it are not judged: the dump stopped before it
",
    },
    Row {
        begin: Begin::Known,
        to: None,
        most: 16,
        clocks: 100,
        parts: &[(0, 17, Some((16, 13)), End::Broken)],
        more: 0,
        second: "rejected at clock 16, 170 ns (line 48 of the file): rule 13, response timing",
        end: "\n\nclock 17 and those after it are not judged: no part begins behind the broken rule\n",
    },
    Row {
        begin: Begin::Quiet(Bound::Clock(3), 32),
        to: None,
        most: 1,
        clocks: 200,
        parts: &[(40, 60, None, End::Reply), (150, 50, None, End::Dump)],
        more: 0,
        second: "accepted: 110 of 200 clocks judged",
        end: "\
2 parts of the dump are judged:
  part 1: clocks 40 to 99, accepted; the deferred reply at clock 100 may answer a request of before it
  part 2: clocks 150 to 199, accepted
clock 40 is the first that is judged: it ends 32 clocks without an asserted line
  No request is taken to wait longer. Who had the bus last is not known: a rule counts as broken
  where it is whoever had it.
each later part begins with a clock that ends 32 clocks without an asserted line
",
    },
    Row {
        begin: Begin::At(Bound::Clock(40)),
        to: Some(Bound::Clock(150)),
        most: 1,
        clocks: 200,
        parts: &[(40, 60, None, End::Reply)],
        more: 0,
        second: "accepted: 60 of 200 clocks judged",
        end: "\
clock 100 and those after it are not judged: the deferred reply there may answer a request of before the part
",
    },
    Row {
        begin: Begin::At(Bound::Clock(40)),
        to: None,
        most: 1,
        clocks: 50,
        parts: &[],
        more: 0,
        second: "nothing could be judged: a deferred reply there may answer a request of before, and no part begins behind it",
        end: "behind it\n",
    },
    Row {
        begin: Begin::Known,
        to: Some(Bound::Clock(150)),
        most: 16,
        clocks: 10_000,
        parts: &SEVENTEEN,
        more: 2,
        second: "rejected at clock 1605, 16060 ns (line 4815 of the file): rule 15, target ready",
        end: "\
  part 16: clocks 1500 to 1509, accepted; the dump stops behind it
  and 3 more parts
  clocks 1600 to 1605, rejected at clock 1605, 16060 ns (line 4815 of the file): rule 15, target ready
each later part begins with a clock that ends 32 clocks without an asserted line
  No request is taken to wait longer. Who had the bus last is not known: a rule counts as broken
  where it is whoever had it.
the dump stops 1 time, first at 1 us (line 800 of the file)
",
    },
];

const SEVENTEEN: [Sketch; 17] = [
    (0, 10, None, End::Hole),
    (100, 10, None, End::Hole),
    (200, 10, None, End::Hole),
    (300, 10, None, End::Hole),
    (400, 10, None, End::Hole),
    (500, 10, None, End::Hole),
    (600, 10, None, End::Hole),
    (700, 10, None, End::Hole),
    (800, 10, None, End::Hole),
    (900, 10, None, End::Hole),
    (1000, 10, None, End::Hole),
    (1100, 10, None, End::Hole),
    (1200, 10, None, End::Hole),
    (1300, 10, None, End::Hole),
    (1400, 10, None, End::Hole),
    (1500, 10, None, End::Hole),
    (1600, 6, Some((1605, 15)), End::Broken),
];

/// What was found, of these parts. A dump in which one ends at a hole stops once.
fn found_of(row: &Row) -> PartsFound {
    let mut found = PartsFound {
        plan: Plan {
            first: Part {
                begin: row.begin,
                to: row.to,
            },
            quiet: 32,
            most: row.most,
        },
        clocks: row.clocks,
        judged: 0,
        parts: row.more,
        broken: 0,
        first: ArrayVec::new(),
        faults: ArrayVec::new(),
        holes: 0,
        first_hole: None,
    };
    for sketch in row.parts {
        add(&mut found, part_of(sketch));
    }
    found
}

fn part_of(sketch: &Sketch) -> PartFound {
    let &(start, judged, broken, end) = sketch;
    let verdict = match broken {
        None => Verdict::Accepted,
        Some((clock, rule)) => Verdict::Broken {
            clock,
            rule,
            stamp: Some(stamp(
                clock.saturating_mul(10).saturating_add(10),
                clock.saturating_mul(3),
            )),
        },
    };
    PartFound {
        start,
        judged,
        is_later: false,
        verdict,
        end,
    }
}

fn stamp(time: u64, line: u64) -> Stamp {
    Stamp {
        time,
        place: 0,
        line,
    }
}

fn add(found: &mut PartsFound, part: PartFound) {
    found.parts = found.parts.saturating_add(1);
    found.judged = found.judged.saturating_add(part.judged);
    if !found.first.is_full() {
        found.first.push(part);
    }
    if part.end == End::Hole {
        found.holes = 1;
        found.first_hole = Some(stamp(1000, 800));
    }
    if part.end == End::Broken {
        found.broken = found.broken.saturating_add(1);
        if !found.faults.is_full() {
            found.faults.push(part);
        }
    }
}

/// A section of these words.
fn section(alloc: Global, keyword: &str, words: &[&str]) -> Result<Section, AllocError> {
    let mut section = Section {
        place: 0,
        keyword: Vec::from_slice(alloc, keyword.as_bytes())?,
        words: Vec::new(alloc),
    };
    for word in words {
        section.add(alloc, word.as_bytes())?;
    }
    Ok(section)
}

/// The report on what was found, of a dump in steps of 1 ns whose header has this comment.
fn report(alloc: Global, found: &PartsFound, comment: &[&str]) -> Result<String, AllocError> {
    let mut remarks = Vec::new(alloc);
    remarks.push(section(alloc, "$timescale", &["1ns"])?)?;
    remarks.push(section(alloc, "$comment", comment)?)?;
    let choice = Choice {
        scope: None,
        lines: Vec::new(alloc),
        without: Vec::new(alloc),
    };
    let wiring = Wiring {
        home: Home::Nowhere,
        wires: Vec::new(alloc),
        absent: Vec::new(alloc),
    };
    let ring = Ring::new(alloc)?;
    let text = check_text(
        alloc,
        "x.vcd",
        &[],
        &remarks,
        &choice,
        &wiring,
        found,
        None,
        None,
        &ring,
        &Grounds::none(alloc),
    )?;
    String::from_str(alloc, std::str::from_utf8(&text).unwrap_or("no text"))
}

/// The report on the parts of a row.
fn report_of(alloc: Global, row: &Row) -> Result<String, AllocError> {
    report(alloc, &found_of(row), &["a", "dump"])
}

/// Whether the report has the second line of the row, and its end.
fn is_told(text: &str, row: &Row) -> bool {
    text.starts_with("the named wires of x.vcd: 22 lines\n")
        && text.lines().nth(1) == Some(row.second)
        && text.ends_with(row.end)
}

#[test]
fn the_parts_of_a_dump_are_told(rt: HostRuntime) {
    for (at, row) in ROWS.iter().enumerate() {
        let text = report_of(rt.alloc(), row).expect(&rt, "memory");
        assert!(rt; is_told(text.as_str(), row), "row {at}: {text}");
    }
}

/// Comments, and the line that is told of each, if there is one.
const COMMENTS: [(&[&str], &str); 4] = [
    (
        &["Dump", "Limit", "exceeded."],
        "the file says in a comment: Dump Limit exceeded.\n",
    ),
    (
        &["$dumplimit", "EXCEEDED"],
        "the file says in a comment: $dumplimit EXCEEDED\n",
    ),
    (&["a", "speed", "limit"], ""),
    (&["exceeded"], ""),
];

/// Whether the report on a comment ends so.
fn is_comment_told(alloc: Global, comment: &[&str], wanted: &str) -> Result<bool, AllocError> {
    let found = found_of(&ROWS[0]);
    let text = report(alloc, &found, comment)?;
    Ok(
        text.as_str().ends_with(wanted)
            && text.as_str().contains("in a comment") != wanted.is_empty(),
    )
}

#[test]
fn a_comment_that_says_that_the_dump_was_cut_is_told(rt: HostRuntime) {
    for (comment, wanted) in COMMENTS.iter() {
        assert!(rt;
            matches!(is_comment_told(rt.alloc(), comment, wanted), Ok(true)),
            "{wanted}"
        );
    }
}
