//! What is found of dumps.

use crate::dumps::{HEADER, QUIET, checked, checked_part, joined};
use scope_check::{Begin, Bound, Part, Verdict};
use scope_parts::PartsFound;
use scope_watch::{Checked, Finding, ScopeStop};
use scope_wiring::Cause;
use vcd_grammar::{VcdCause, VcdFault};
use vcd_scan::EarlyEnd;

/// What is found of a text.
enum Found {
    /// How many clocks it has, which is the first that is judged, how many are, and the first broken rule.
    Judged(u64, u64, u64, Option<(u64, u8)>),
    Refused(Cause),
    /// The place of its first fault, and the cause.
    Bad(u64, VcdCause),
}

/// Texts in two parts, and what is found of each.
static TEXTS: [(&'static str, &'static str, Found); 11] = [
    (HEADER, QUIET, Found::Judged(3, 1, 2, None)),
    (HEADER, "", Found::Judged(0, 0, 0, None)),
    (HEADER, " #0 0a #5 1a #6", Found::Judged(1, 1, 0, None)),
    (
        HEADER,
        "\n#0 0a 1b 1c b11111 d 1f 1g b111 h 0i 1j 1k #5 1a #10 0a #15 1a ",
        Found::Judged(2, 0, 2, Some((0, 15))),
    ),
    (
        "$var wire 1 ! clk $end $enddefinitions $end ",
        "#0 0! #5 1! ",
        Found::Refused(Cause::NoneWhole),
    ),
    ("", "", Found::Bad(0, VcdCause::Cut)),
    ("no dump", " at all", Found::Bad(14, VcdCause::Cut)),
    (
        "$var wire 1 ! $end ",
        "$enddefinitions $end ",
        Found::Bad(0, VcdCause::Header),
    ),
    (
        HEADER,
        "\n#4 0a #5 1a #3 0a ",
        Found::Bad(513, VcdCause::TimeBack),
    ),
    (HEADER, "\n#4 1y ", Found::Bad(504, VcdCause::Code)),
    // An open section with a stamp would hide samples.
    (
        HEADER,
        "\n#0 0a #5 1a $comment #6 0a",
        Found::Bad(527, VcdCause::Cut),
    ),
];

/// Whether this is what is found.
fn is_found(found: &Found, answer: &Result<Checked, ScopeStop>) -> bool {
    match (found, answer) {
        (Found::Judged(clocks, start, judged, broken), Ok(checked)) => match &checked.finding {
            Finding::Judged(_, told) => {
                let judged_now = &told.judged;
                judged_now.clocks == *clocks
                    && start_of(judged_now) == *start
                    && judged_now.judged == *judged
                    && is_verdict(*judged, *broken, judged_now)
            }
            Finding::Refused(_) => false,
        },
        (Found::Refused(cause), Ok(checked)) => match &checked.finding {
            Finding::Refused(refusal) => refusal.cause == *cause,
            Finding::Judged(_, _) => false,
        },
        (Found::Bad(place, cause), Err(ScopeStop::Bad(fault))) => {
            *fault
                == VcdFault {
                    place: *place,
                    cause: *cause,
                }
        }
        _ => false,
    }
}

/// The first clock that is judged; all of them, where none is.
fn start_of(found: &PartsFound) -> u64 {
    match found.first.as_slice().first() {
        Some(part) => part.start,
        None => found.clocks,
    }
}

/// Whether the verdict on so many judged clocks says this.
fn is_verdict(judged: u64, broken: Option<(u64, u8)>, answer: &PartsFound) -> bool {
    match answer.first.as_slice().first() {
        None => broken.is_none() && judged == 0,
        Some(part) => match part.verdict {
            Verdict::Nothing => false,
            Verdict::Accepted => broken.is_none() && judged != 0,
            Verdict::Broken { clock, rule, .. } => broken == Some((clock, rule)),
        },
    }
}

#[test]
fn findings_whatever_the_pieces(rt: HostRuntime) {
    let alloc = rt.alloc();
    for (header, values, found) in TEXTS.iter() {
        let text = joined(alloc, &[header, values]).ok().expect(&rt, "memory");
        for size in [1, 7, 4096] {
            let answer = checked(alloc, &text, size, &[]);
            assert!(rt; is_found(found, &answer));
        }
    }
}

/// Parts of a dump of three clocks, the first of unknown lines and the others quiet, and of each which clock is the first
/// that is judged, and how many are. Without one all three lie before the part.
static PARTS: [(Begin, Option<Bound>, u64, u64); 13] = [
    (Begin::Known, Some(Bound::Clock(1)), 1, 1),
    (Begin::Known, Some(Bound::Clock(0)), 3, 0),
    (Begin::At(Bound::Clock(1)), None, 1, 2),
    (Begin::At(Bound::Clock(2)), None, 2, 1),
    (Begin::At(Bound::Clock(3)), None, 3, 0),
    (Begin::At(Bound::Clock(1)), Some(Bound::Clock(1)), 1, 1),
    (Begin::Quiet(Bound::Clock(0), 1), None, 1, 2),
    (Begin::Quiet(Bound::Clock(0), 2), None, 2, 1),
    (Begin::Quiet(Bound::Clock(2), 1), None, 2, 1),
    (Begin::Quiet(Bound::Clock(0), 3), None, 3, 0),
    (Begin::At(Bound::Time(15)), None, 1, 2),
    (Begin::At(Bound::Time(16)), None, 2, 1),
    (Begin::At(Bound::Time(5)), Some(Bound::Time(5)), 0, 1),
];

#[test]
fn parts_begin_and_end_where_they_say(rt: HostRuntime) {
    let alloc = rt.alloc();
    let text = joined(alloc, &[HEADER, QUIET]).ok().expect(&rt, "memory");
    for (begin, to, start, judged) in PARTS.iter() {
        let part = Part {
            begin: *begin,
            to: *to,
        };
        let checked = checked_part(alloc, &text, 64, &[], part)
            .ok()
            .expect(&rt, "checked");
        match &checked.finding {
            Finding::Judged(_, told) => {
                assert!(rt; told.judged.clocks == 3);
                assert!(rt; start_of(&told.judged) == *start, "{part:?}");
                assert!(rt; told.judged.judged == *judged, "{part:?}");
            }
            Finding::Refused(_) => assert!(rt; false),
        }
    }
}

/// Values behind a header that end early: how many clocks they have, the fault that their end would be, and where what
/// stands open there begins.
static EARLY: [(&'static str, u64, u64, VcdCause, Option<u64>); 4] = [
    ("\n#0 0a #5 1a #10 0a #1", 1, 520, VcdCause::TimeBack, None),
    ("\n#0 0a #5 1a #10 0", 1, 517, VcdCause::Token, None),
    ("\n#0 0a #5 1a #10 b1", 1, 519, VcdCause::Cut, Some(517)),
    (
        "\n#0 0a #5 1a $comment all ",
        0,
        526,
        VcdCause::Cut,
        Some(513),
    ),
];

#[test]
fn what_is_whole_is_judged_of_a_dump_that_ends_early(rt: HostRuntime) {
    let alloc = rt.alloc();
    for (values, clocks, place, cause, open_from) in EARLY.iter() {
        let text = joined(alloc, &[HEADER, values]).ok().expect(&rt, "memory");
        let end = EarlyEnd {
            fault: VcdFault {
                place: *place,
                cause: *cause,
            },
            open_from: *open_from,
        };
        for size in [1, 7, 4096] {
            let found = checked(alloc, &text, size, &[]).ok().expect(&rt, "checked");
            match &found.finding {
                Finding::Judged(_, told) => {
                    assert!(rt; told.judged.clocks == *clocks, "{values}");
                    assert!(rt; told.early_end == Some(end), "{values}");
                }
                Finding::Refused(_) => assert!(rt; false, "{values}"),
            }
        }
    }
}

/// Values behind a header, and where the first section begins in them that says that a limit is exceeded.
static LIMITS: [(&'static str, Option<u64>); 4] = [
    (
        "\n#0 0a #5 1a $comment Dump Limit (900) exceeded. $end #10 0a",
        Some(513),
    ),
    (
        "\n#0 0a #5 1a $comment the limit $end $comment exceeded $end",
        None,
    ),
    (
        "\n#0 0a $comment LIMIT x $end $foo limits are EXCEEDED $end $comment limit exceeded $end",
        Some(529),
    ),
    ("\n#0 0a $comment limit exceeded $end", Some(507)),
];

#[test]
fn a_limit_that_is_exceeded_is_told(rt: HostRuntime) {
    let alloc = rt.alloc();
    for (values, limit) in LIMITS.iter() {
        let text = joined(alloc, &[HEADER, values]).ok().expect(&rt, "memory");
        for size in [1, 7, 4096] {
            let found = checked(alloc, &text, size, &[]).ok().expect(&rt, "checked");
            match &found.finding {
                Finding::Judged(_, told) => assert!(rt; told.limit == *limit, "{values}"),
                Finding::Refused(_) => assert!(rt; false, "{values}"),
            }
        }
    }
}

#[test]
fn headers_tell_variables_and_sections(rt: HostRuntime) {
    let alloc = rt.alloc();
    let text = joined(alloc, &[HEADER, QUIET]).ok().expect(&rt, "memory");
    let found = checked(alloc, &text, 64, &[]).ok().expect(&rt, "checked");
    let variables = found.header.variables.as_slice();
    assert!(rt; variables.len() == 13);
    let ads = variables.get(3).expect(&rt, "ads");
    assert!(rt; ads.scope.as_slice() == b"tb.dut.bus".as_slice());
    assert!(rt; ads.name.as_slice() == b"ads_l".as_slice());
    let remarks = found.header.remarks.as_slice();
    let first = remarks.get(0).expect(&rt, "timescale");
    assert!(rt; first.keyword.as_slice() == b"$timescale".as_slice());
    assert!(rt; first.words.len() == 1);
    assert!(rt; remarks.len() == 7);
    match &found.finding {
        Finding::Judged(wiring, _) => {
            assert!(rt; wiring.wires.len() == 12);
            assert!(rt; wiring.absent.len() == 10);
        }
        Finding::Refused(_) => assert!(rt; false),
    }
}

/// So many bytes without a `$` that begins a word are no dump.
const PREFACE: usize = 1_048_576;

/// What stands before a header, the header itself, and whether the whole is seen to be no dump.
static PREFACES: [(usize, &'static str, bool); 4] = [
    (PREFACE - 1, "", false),
    (PREFACE, "", true),
    (PREFACE - 2, "x", true),
    (PREFACE - 2, "\n", false),
];

#[test]
fn a_header_begins_within_a_mebibyte(rt: HostRuntime) {
    let alloc = rt.alloc();
    for (count, behind, is_none) in PREFACES.iter() {
        let mut text = vec![in alloc; b'\t'; *count].ok().expect(&rt, "memory");
        let rest = joined(alloc, &[behind, HEADER]).ok().expect(&rt, "memory");
        text.extend_from_slice(&rest).ok().expect(&rt, "memory");
        for size in [4_096, 3_000_000] {
            let answer = checked(alloc, &text, size, &[]);
            assert!(rt; answer.is_err() == *is_none);
            assert!(rt; !*is_none || matches!(&answer, Err(ScopeStop::NoHeader)));
        }
    }
}
