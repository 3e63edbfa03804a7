//! What is written of dumps.

use crate::dumps::{
    HEADER, IDLE, REQUEST, UNKNOWN, VALUES, WRITTEN, copied, joined, plain, rising, sink,
};
use fsb_check::{Judgement, check_dump};
use fsb_io::MemSource;
use fsb_rules::Broken;
use scope_check::{Begin, Bound, Part, Verdict};
use scope_copy::{Copied, CopyFinding};
use scope_parts::{PartFound, Plan};
use scope_watch::{Finding, ScopeStop};
use scope_wiring::Cause;
use std::alloc::Global;
use vcd_grammar::{VcdCause, VcdFault};
use vcd_read::read_dump;

/// Parts of the dump, how many clocks each has, and what stands behind the written header.
static PARTS: [(Begin, Option<Bound>, u64, &'static [&'static str]); 7] = [
    (
        Begin::At(Bound::Clock(0)),
        None,
        3,
        &[
            "#0\n0!\n",
            UNKNOWN,
            "#5\n1!\n#10\n0!\n",
            IDLE,
            "#15\n1!\n#20\n0!\n",
            REQUEST,
            "#25\n1!\n",
        ],
    ),
    (
        Begin::Known,
        None,
        2,
        &["#0\n0!\n", IDLE, "#5\n1!\n#10\n0!\n", REQUEST, "#15\n1!\n"],
    ),
    (
        Begin::At(Bound::Clock(0)),
        Some(Bound::Clock(1)),
        2,
        &["#0\n0!\n", UNKNOWN, "#5\n1!\n#10\n0!\n", IDLE, "#15\n1!\n"],
    ),
    (
        Begin::Known,
        Some(Bound::Time(1500)),
        1,
        &["#0\n0!\n", IDLE, "#5\n1!\n"],
    ),
    (
        Begin::Quiet(Bound::Clock(0), 1),
        Some(Bound::Clock(1)),
        1,
        &["#0\n0!\n", IDLE, "#5\n1!\n"],
    ),
    (Begin::Known, Some(Bound::Clock(0)), 0, &[]),
    (Begin::Quiet(Bound::Clock(0), 2), None, 0, &[]),
];

/// How many clocks were written, where the wires are picked and the dump does not end early.
fn clocks_of(answer: &Result<Copied, ScopeStop>) -> Option<u64> {
    match answer {
        Ok(copied) => match &copied.finding {
            CopyFinding::Copied(_, told) if told.early_end.is_none() => Some(told.clocks),
            _ => None,
        },
        Err(_) => None,
    }
}

/// Whether this is written of a part, read in pieces of a size.
fn is_written(
    alloc: Global,
    size: usize,
    part: Part,
    clocks: u64,
    values: &[&str],
) -> Result<bool, ScopeStop> {
    let text = joined(alloc, &[HEADER, VALUES])?;
    let mut out = sink(alloc, &[])?;
    let answer = copied(alloc, &text, size, part, &mut out);
    let mut wanted = joined(alloc, &[WRITTEN])?;
    wanted.extend_from_slice(&joined(alloc, values)?)?;
    Ok(clocks_of(&answer) == Some(clocks) && out.holds() == wanted.as_slice())
}

#[test]
fn parts_are_written_clock_by_clock(rt: HostRuntime) {
    let alloc = rt.alloc();
    for (begin, to, clocks, values) in PARTS.iter() {
        let part = Part {
            begin: *begin,
            to: *to,
        };
        for size in [1, 7, 4096] {
            let is_so = is_written(alloc, size, part, *clocks, values);
            assert!(rt; matches!(is_so, Ok(true)), "{part:?}");
        }
    }
}

/// The verdict on a dump: its clocks, or the clock and the number of its first broken rule.
type Found = Result<u64, (u64, u8)>;

/// What p6bench's reader finds of a dump.
fn found_strictly(alloc: Global, dump: &[u8]) -> Option<Found> {
    let Ok(mut source) = MemSource::new(alloc, dump, &[]) else {
        return None;
    };
    match check_dump(alloc, "d.vcd", &mut source) {
        Ok(
            Judgement {
                broken: Some(Broken { clock, rule }),
                ..
            },
        ) => Some(Err((u64::from(clock), rule))),
        Ok(Judgement { clocks, .. }) => Some(Ok(u64::from(clocks))),
        Err(_) => None,
    }
}

/// What p6scope finds of a text, in clocks of its part.
fn found_widely(alloc: Global, text: &[u8], part: Part) -> Option<Found> {
    let Ok(mut source) = MemSource::new(alloc, text, &[]) else {
        return None;
    };
    let mut room = [0; 64];
    let plan = Plan {
        first: part,
        quiet: 32,
        most: 1,
    };
    let answer = scope_watch::check_dump(
        alloc,
        "a.vcd",
        &mut source,
        &mut room,
        &plain(alloc),
        plan,
        rising(alloc),
    );
    match answer {
        Ok(checked) => match &checked.finding {
            Finding::Judged(_, told) => found_first(told.judged.first.as_slice()),
            Finding::Refused(_) => None,
        },
        Err(_) => None,
    }
}

/// What is found of the first part, in its clocks.
fn found_first(parts: &[PartFound]) -> Option<Found> {
    match parts.first() {
        None => None,
        Some(part) => match part.verdict {
            Verdict::Broken { clock, rule, .. } => {
                Some(Err((clock.saturating_sub(part.start), rule)))
            }
            _ => Some(Ok(part.judged)),
        },
    }
}

/// Values behind the header.
static VERDICTS: [&'static str; 4] = [
    VALUES,
    "#0 0a 1b 1c b11111 d 1f 1g b111 h 0i 1j 1k #5 1a #10 0a #15 1a ",
    "#0 0a 1b 1c b11111 d 1f 1g b111 h 1i 1j 1k #5 1a #10 0a #15 1a ",
    "#0 0a 1b 1c b11111 d bx e xf 1g bx h 1i 1j 1k #5 1a #10 0a 1f b111 h #15 1a ",
];

#[test]
fn written_dumps_have_the_verdict_of_the_part(rt: HostRuntime) {
    let alloc = rt.alloc();
    for values in VERDICTS.iter() {
        let text = joined(alloc, &[HEADER, values]).ok().expect(&rt, "memory");
        let mut out = sink(alloc, &[]).ok().expect(&rt, "memory");
        let answer = copied(alloc, &text, 64, Part::whole(), &mut out);
        assert!(rt; clocks_of(&answer).is_some(), "{values}");
        let found = found_strictly(alloc, out.holds());
        assert!(rt; found.is_some(), "{values}");
        assert!(rt;
            found == found_widely(alloc, &text, Part::whole()),
            "{values}"
        );
    }
}

#[test]
fn written_dumps_are_read_with_their_unknown_lines(rt: HostRuntime) {
    let alloc = rt.alloc();
    let text = joined(alloc, &[HEADER, VALUES]).ok().expect(&rt, "memory");
    let mut out = sink(alloc, &[]).ok().expect(&rt, "memory");
    let part = Part {
        begin: Begin::At(Bound::Clock(0)),
        to: None,
    };
    let answer = copied(alloc, &text, 64, part, &mut out);
    assert!(rt; clocks_of(&answer) == Some(3));
    let (marks, samples) = read_dump(alloc, out.holds()).ok().expect(&rt, "read");
    assert!(rt; !marks.ap && !marks.rp);
    assert!(rt; samples.len() == 3);
    let first = samples.get(0).expect(&rt, "first");
    assert!(rt; !first.has_known_lines() && first.dbus.unknown == u64::MAX);
    let last = samples.get(2).expect(&rt, "last");
    assert!(rt; last.has_known_lines() && last.addr.unknown == 0);
    assert!(rt; last.addr.bits == (1 << 32) + 1 && last.req.bits == 1);
}

#[test]
fn nothing_is_written_where_no_bus_is_found(rt: HostRuntime) {
    let alloc = rt.alloc();
    let text = "$var wire 1 ! clk $end $enddefinitions $end #0 0! #5 1! ";
    let mut out = sink(alloc, &[]).ok().expect(&rt, "memory");
    match copied(alloc, text.as_bytes(), 64, Part::whole(), &mut out) {
        Ok(copied) => match &copied.finding {
            CopyFinding::Refused(refusal) => assert!(rt; refusal.cause == Cause::NoneWhole),
            CopyFinding::Copied(_, _) => assert!(rt; false),
        },
        Err(_) => assert!(rt; false),
    }
    assert!(rt; out.holds().is_empty() && out.calls() == 0);
}

/// Calls of a sink that fail, and what it holds then behind the header, if it holds that.
static FAILING: [(u32, bool, &'static [&'static str]); 3] = [
    (0, false, &[]),
    (1, true, &[]),
    (2, true, &["#0\n0!\n", IDLE, "#5\n1!\n"]),
];

#[test]
fn a_sink_that_fails_ends_the_copy(rt: HostRuntime) {
    let alloc = rt.alloc();
    let text = joined(alloc, &[HEADER, VALUES]).ok().expect(&rt, "memory");
    for (fails, has_header, values) in FAILING.iter() {
        let mut out = sink(alloc, &[*fails]).ok().expect(&rt, "memory");
        match copied(alloc, &text, 1, Part::whole(), &mut out) {
            Err(ScopeStop::WriteFault) => {}
            _ => assert!(rt; false, "{fails}"),
        }
        let header = if *has_header { WRITTEN } else { "" };
        let mut wanted = joined(alloc, &[header]).ok().expect(&rt, "memory");
        let more = joined(alloc, values).ok().expect(&rt, "memory");
        wanted.extend_from_slice(&more).ok().expect(&rt, "memory");
        assert!(rt; out.holds() == wanted.as_slice(), "{fails}");
        assert!(rt;
            out.faults() == 1 && out.calls() == u64::from(*fails) + 1,
            "{fails}"
        );
    }
}

#[test]
fn a_fault_is_told_behind_what_was_written(rt: HostRuntime) {
    let alloc = rt.alloc();
    let text = joined(alloc, &[HEADER, "#0 0a #5 1a #3 0a "])
        .ok()
        .expect(&rt, "memory");
    let mut out = sink(alloc, &[]).ok().expect(&rt, "memory");
    let fault = VcdFault {
        place: HEADER.len() as u64 + 12,
        cause: VcdCause::TimeBack,
    };
    match copied(alloc, &text, 64, Part::whole(), &mut out) {
        Err(ScopeStop::Bad(found)) => assert!(rt; found == fault),
        _ => assert!(rt; false),
    }
}
