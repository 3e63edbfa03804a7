//! Where the parts of a dump begin and end.

use fsb_signal::{Lines, Marks, Sample, idle_sample};
use scope_check::{Bound, Part, Verdict};
use scope_parts::{End, PartFound, PartsFound, PartsJudge, Plan, TooMany};
use vcd_course::{CourseEvent, Told};

/// A row: events, the last clock that may be judged, how many broken rules are looked for, and each part: its first clock, how
/// many are judged, the broken clock and rule, and its end.
#[derive(Drop)]
struct Row {
    events: &'static str,
    to: Option<Bound>,
    most: u32,
    parts: &'static [(u64, u64, Option<(u64, u8)>, End)],
}

// `.` is a clock without an asserted line, `bbAn.x` a request of agent 0 that is cancelled, `t` one with TRDY# alone, which breaks rule 15, and `p` one with BPRI#; `R` and
// `r` are the two clocks of a reply with ID 17, `ccCm.x` is a request of agent 1 with that ID that is cancelled, `q` is a clock with RP# alone, `W` and `w` those of a request without an ID of its winner's; at `h` the dump stops,
// and at `g` it goes on.
static ROWS: [Row; 20] = [
    // Without a hole or a broken rule there is one part.
    Row {
        events: "....",
        to: None,
        most: 1,
        parts: &[(0, 4, None, End::Dump)],
    },
    Row {
        events: "",
        to: None,
        most: 16,
        parts: &[],
    },
    // Behind a hole the next part begins with the second clock of a quiet run.
    Row {
        events: "..bbAn.x..hgpp..bbAn.x..",
        to: None,
        most: 1,
        parts: &[(0, 10, None, End::Hole), (13, 9, None, End::Dump)],
    },
    Row {
        events: "...h...",
        to: None,
        most: 1,
        parts: &[(0, 3, None, End::Hole), (4, 2, None, End::Dump)],
    },
    // It never begins again.
    Row {
        events: "...hgp.p.p",
        to: None,
        most: 16,
        parts: &[(0, 3, None, End::Hole)],
    },
    // Behind a broken rule nothing begins, unless more are looked for.
    Row {
        events: "..t....t...",
        to: None,
        most: 1,
        parts: &[(0, 11, Some((2, 15)), End::Broken)],
    },
    Row {
        events: "..t....t...",
        to: None,
        most: 2,
        parts: &[
            (0, 3, Some((2, 15)), End::Broken),
            (4, 7, Some((7, 15)), End::Broken),
        ],
    },
    Row {
        events: "..t....t...",
        to: None,
        most: 16,
        parts: &[
            (0, 3, Some((2, 15)), End::Broken),
            (4, 4, Some((7, 15)), End::Broken),
            (9, 2, None, End::Dump),
        ],
    },
    // A broken rule ends all where no more are looked for, holes too.
    Row {
        events: "..t.h.t...",
        to: None,
        most: 1,
        parts: &[(0, 4, Some((2, 15)), End::Broken)],
    },
    Row {
        events: "..t.h.t...",
        to: None,
        most: 2,
        parts: &[(0, 3, Some((2, 15)), End::Broken), (7, 2, None, End::Dump)],
    },
    // The last clock lies in the second part, before it, and in a hole.
    Row {
        events: "....hg......",
        to: Some(Bound::Clock(6)),
        most: 1,
        parts: &[(0, 4, None, End::Hole), (5, 2, None, End::Dump)],
    },
    Row {
        events: "....hg......",
        to: Some(Bound::Clock(4)),
        most: 1,
        parts: &[(0, 4, None, End::Hole)],
    },
    Row {
        events: "....hg......hg....",
        to: Some(Bound::Clock(2)),
        most: 1,
        parts: &[(0, 3, None, End::Dump)],
    },
    // A reply to a request of before ends a later part; the whole dump it breaks.
    Row {
        events: "...hg...pppRr......",
        to: None,
        most: 1,
        parts: &[
            (0, 3, None, End::Hole),
            (4, 5, None, End::Reply),
            (12, 5, None, End::Dump),
        ],
    },
    Row {
        events: "...pppRr...",
        to: None,
        most: 1,
        parts: &[(0, 11, Some((7, 18)), End::Broken)],
    },
    // Such a reply counts for no broken rule, and a fault behind it does.
    Row {
        events: "..h...pppRr....t...",
        to: None,
        most: 1,
        parts: &[
            (0, 2, None, End::Hole),
            (3, 5, None, End::Reply),
            (11, 7, Some((14, 15)), End::Broken),
        ],
    },
    // Where a request of the part has the reply's ID, it is a fault as any other.
    Row {
        events: "..h...ccCm.x..pppRr....",
        to: None,
        most: 1,
        parts: &[
            (0, 2, None, End::Hole),
            (3, 19, Some((17, 18)), End::Broken),
        ],
    },
    // A dump that stops before its first clock begins later.
    Row {
        events: "hg...pppRr...",
        to: None,
        most: 1,
        parts: &[(0, 6, None, End::Reply), (9, 2, None, End::Dump)],
    },
    // Clocks with a line of parity alone are quiet.
    Row {
        events: "...hgqqq",
        to: None,
        most: 1,
        parts: &[(0, 3, None, End::Hole), (4, 2, None, End::Dump)],
    },
    // Another request that is begun wrongly in a later part is a fault.
    Row {
        events: "..h...pppWw....",
        to: None,
        most: 1,
        parts: &[(0, 2, None, End::Hole), (3, 11, Some((9, 7)), End::Broken)],
    },
];

/// What happens at a letter of a row.
fn told(letter: u8) -> Option<Told> {
    let bpri = Lines::BPRI;
    let begins = Lines(Lines::BREQ0.0 + Lines::ADS.0);
    let begins_one = Lines(Lines::BREQ1.0 + Lines::ADS.0);
    let asks = Lines(Lines::BPRI.0 + Lines::ADS.0);
    match letter {
        b'.' => Some(Told::Sampled(idle_sample())),
        b't' => Some(Told::Sampled(Sample::known(Lines::TRDY, 0, 0, 0))),
        b'p' => Some(Told::Sampled(Sample::known(bpri, 0, 0, 0))),
        b'b' => Some(Told::Sampled(Sample::known(Lines::BREQ0, 0, 0, 0))),
        b'A' => Some(Told::Sampled(Sample::known(begins, 2, 0, 0))),
        b'c' => Some(Told::Sampled(Sample::known(Lines::BREQ1, 0, 0, 0))),
        b'C' => Some(Told::Sampled(Sample::known(begins_one, 2, 0, 0))),
        b'm' => Some(Told::Sampled(Sample::known(Lines(0), 0, 17 * 8192, 0))),
        b'q' => Some(Told::Sampled(Sample::known(Lines::RP, 0, 0, 0))),
        b'n' => Some(Told::Sampled(idle_sample())),
        b'x' => Some(Told::Sampled(Sample::known(Lines::AERR, 0, 0, 0))),
        b'R' => Some(Told::Sampled(Sample::known(asks, 0, 17 * 8192, 0))),
        b'W' => Some(Told::Sampled(Sample::known(asks, 2, 0, 0))),
        b'r' => Some(Told::Sampled(idle_sample())),
        b'w' => Some(Told::Sampled(Sample::known(Lines(0), 0, 17 * 8192, 0))),
        b'h' => Some(Told::Hole),
        b'g' => Some(Told::Resumed),
        _ => None,
    }
}

/// What is found of the events of a row.
fn found(row: &Row) -> Result<PartsFound, TooMany> {
    let marks = Marks {
        ap: false,
        rp: false,
    };
    let plan = Plan {
        first: Part {
            begin: Part::whole().begin,
            to: row.to,
        },
        quiet: 0,
        most: row.most,
    };
    let mut judge = PartsJudge::new(marks, plan);
    for letter in row.events.as_bytes() {
        if let Some(told) = told(*letter) {
            judge.take(&CourseEvent { told, stamp: None })?;
        }
    }
    judge.found()
}

/// Whether the part is this one.
fn is_part(part: &PartFound, wanted: &(u64, u64, Option<(u64, u8)>, End)) -> bool {
    let (start, judged, broken, end) = *wanted;
    let now = match part.verdict {
        Verdict::Broken { clock, rule, .. } => Some((clock, rule)),
        Verdict::Nothing | Verdict::Accepted => None,
    };
    part.start == start && part.judged == judged && now == broken && part.end == end
}

/// Whether these parts are found, and what their sums say.
fn is_found(found: &PartsFound, row: &Row) -> bool {
    let mut judged = 0u64;
    let mut broken = 0u32;
    let parts = found.first.as_slice();
    if parts.len() != row.parts.len() {
        return false;
    }
    for (part, wanted) in parts.iter().zip(row.parts) {
        if !is_part(part, wanted) {
            return false;
        }
        judged = judged.saturating_add(part.judged);
        if part.end == End::Broken {
            broken = broken.saturating_add(1);
        }
    }
    found.judged == judged && found.broken == broken && found.parts == parts.len() as u64
}

#[test]
fn parts_begin_and_end_as_the_plan_says(rt: HostRuntime) {
    for row in ROWS.iter() {
        let found = found(row).ok().expect(&rt, "found");
        assert!(rt; is_found(&found, row), "{} {found:?}", row.events);
    }
}

#[test]
fn sixteen_of_seventeen_parts_are_kept(rt: HostRuntime) {
    let row = Row {
        events: "..hg..hg..hg..hg..hg..hg..hg..hg..hg..hg..hg..hg..hg..hg..hg..hg..",
        to: None,
        most: 1,
        parts: &[],
    };
    let found = found(&row).ok().expect(&rt, "found");
    assert!(rt; found.parts == 17);
    assert!(rt; found.first.len() == 16);
    assert!(rt; found.clocks == 34);
    assert!(rt; found.judged == 18);
    assert!(rt; found.holes == 16);
    assert!(rt; found.broken == 0);
}
