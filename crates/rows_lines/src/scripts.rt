//! Bench files that are read, with what they say, and those that are not, with their first fault.

use fsb_access::{Access, Group, Item, LINE_BYTES};
use fsb_hazard::HazardLine;
use fsb_io::Memory;
use fsb_script::{Plan, ScriptStop, Window, is_lawful_script, read_bench};
use std::alloc::{AllocError, Global};
use std::process::Abort;
use table::{BAD, GOOD};

mod table;

/// What may stand before the text of a row, by its name: nothing, the five lines of a head, a head and the line `agent 0`, a
/// head and the script of a load, a head and the lines `agent 0` and `lock`, and the five lines of a head of two agents.
static STARTS: [(&'static str, &'static str); 6] = [
    ("whole", ""),
    (
        "head",
        "p6bench 1\nagents 1\nclocks 60\ncache 64\nahead 1\n",
    ),
    (
        "items",
        "p6bench 1\nagents 1\nclocks 60\ncache 64\nahead 1\nagent 0\n",
    ),
    (
        "tail",
        "p6bench 1\nagents 1\nclocks 60\ncache 64\nahead 1\nagent 0\nld 1 40\nend\n",
    ),
    (
        "lock",
        "p6bench 1\nagents 1\nclocks 60\ncache 64\nahead 1\nagent 0\nlock\n",
    ),
    ("two", "p6bench 1\nagents 2\nclocks 60\ncache 64\nahead 1\n"),
];

/// A text with what stands before it, which is named; `/` stands for a line feed.
fn behind(alloc: Global, start: &str, text: &str) -> Result<String, AllocError> {
    let mut whole = String::new(alloc);
    for (name, lines) in STARTS.iter() {
        if *name == start {
            whole.push_str(lines)?;
        }
    }
    let lines = text.replace(alloc, "/", "\n")?;
    whole.push_str(&lines)?;
    Ok(whole)
}

/// The plan of a text, or why it is not read; a text that is too long to be read at all is refused for memory.
pub(crate) fn read(alloc: Global, text: &str) -> Result<Plan, ScriptStop> {
    if text.len() <= 1_000_000 {
        read_bench(alloc, text.as_bytes())
    } else {
        Err(ScriptStop::Memory)
    }
}

/// Whether this is told of a text: `read`, or its first bad line and that line's cause.
fn is_told(alloc: Global, text: &str, wanted: &str) -> Result<bool, AllocError> {
    match read(alloc, text) {
        Ok(_) => Ok(wanted == "read"),
        Err(ScriptStop::Bad(fault)) => {
            let line = fault.line;
            let cause = fault.cause;
            let told = format!(in alloc; "{line} {cause:?}")?;
            Ok(told.as_str() == wanted)
        }
        Err(ScriptStop::Memory) => Ok(false),
    }
}

/// Whether what stands last in a row is told of its text.
fn is_row(alloc: Global, row: &str) -> Result<bool, AllocError> {
    let Some((start, rest)) = row.split_once("|") else {
        return Ok(false);
    };
    let Some((text, wanted)) = rest.split_once("|") else {
        return Ok(false);
    };
    let whole = behind(alloc, start, text)?;
    is_told(alloc, whole.as_str(), wanted)
}

/// Expects of each row that it is told of its text.
fn expect_rows(rt: &impl Abort, alloc: Global, rows: &str) {
    for row in rows.lines() {
        assert!(rt; matches!(is_row(alloc, row), Ok(true)), "{row}");
    }
}

#[test]
fn each_bad_line_and_its_cause(rt: HostRuntime) {
    expect_rows(&rt, rt.alloc(), BAD);
}

#[test]
fn each_text_that_is_read(rt: HostRuntime) {
    expect_rows(&rt, rt.alloc(), GOOD);
}

/// What stands before a line that stands 4,096 times, that line, and a line behind them with what is told of it all. A script
/// has at most 4,096 items, and a file at most 4,096 hazard lines; the first word comes before that, and every other cause after.
static BEHIND_4096: [(&'static str, &'static str, &'static str); 2] = [
    (
        "items",
        "ld 1 40/",
        "end/|read\nld x/|4103 Range\nidle x/|4103 Range\nlock x/|4103 Range\ntx x/|4103 Word\n",
    ),
    (
        "tail",
        "tx 0 retry/",
        "|read\ntx x/|4105 Range\nbnr 0 0/|4105 Range\nld 1 40/|4105 Word\n",
    ),
];

/// What stands before, and a line 4,096 times.
fn of_4096(alloc: Global, start: &str, repeated: &str) -> Result<String, AllocError> {
    let lines = repeated.repeat(alloc, 4_096)?;
    behind(alloc, start, lines.as_str())
}

/// Whether what stands last in a row is told of the text with the line of the row behind it.
fn is_told_behind(alloc: Global, whole: &str, row: &str) -> Result<bool, AllocError> {
    let Some((line, wanted)) = row.split_once("|") else {
        return Ok(false);
    };
    let line = behind(alloc, "whole", line)?;
    let text = format!(in alloc; "{whole}{line}")?;
    is_told(alloc, text.as_str(), wanted)
}

/// Expects the same of each row.
fn expect_told_behind(rt: &impl Abort, alloc: Global, whole: &str, rows: &str) {
    for row in rows.lines() {
        assert!(rt;
            matches!(is_told_behind(alloc, whole, row), Ok(true)),
            "{row}"
        );
    }
}

#[test]
fn item_and_hazard_line_4097(rt: HostRuntime) {
    for (start, repeated, rows) in BEHIND_4096.iter() {
        let whole = of_4096(rt.alloc(), start, repeated).expect(&rt, "out of memory");
        expect_told_behind(&rt, rt.alloc(), whole.as_str(), rows);
    }
}

/// Whether a cache of so many lines may stand, where it has a power of two of lines, at most 1,024.
fn is_size_told(alloc: Global, lines: u64) -> Result<bool, AllocError> {
    let is_lawful = lines.count_ones() == 1 && lines <= 1_024;
    let text = format!(in alloc;
        "p6bench 1\nagents 1\nclocks 0\ncache {lines}\nahead 1\nagent 0\nend\n"
    )?;
    let wanted = if is_lawful { "read" } else { "4 Range" };
    is_told(alloc, text.as_str(), wanted)
}

/// A cache has a power of two of lines, at most 1,024.
#[test]
fn sizes_of_caches(rt: HostRuntime) {
    for lines in 0..=4_096_u64 {
        assert!(rt;
            matches!(is_size_told(rt.alloc(), lines), Ok(true)),
            "{lines}"
        );
    }
}

/// Hazard lines, and what each says.
type HazardText = (&'static str, HazardLine);

static HAZARDS: [HazardText; 9] = [
    ("tx 7 stall 1\n", HazardLine::Stall(7, 1)),
    ("tx 7 trdy 2\n", HazardLine::Trdy(7, 2)),
    ("tx 7 resp 3\n", HazardLine::Resp(7, 3)),
    ("tx 7 data 255\n", HazardLine::Gap(7, 255)),
    ("tx 199999 retry\n", HazardLine::Retry(199_999)),
    ("tx 7 defer 65535\n", HazardLine::Defer(7, 65_535)),
    ("tx 0 aerr\n", HazardLine::Aerr(0)),
    ("bnr 5 8\n", HazardLine::Bnr(5, 8)),
    ("bnr 5 5\n", HazardLine::Bnr(5, 5)),
];

/// Whether the line says its hazard.
fn says_hazard(alloc: Global, row: &HazardText) -> Result<bool, AllocError> {
    let &(text, hazard) = row;
    let whole = behind(alloc, "tail", text)?;
    match read(alloc, whole.as_str()) {
        Ok(plan) => Ok(plan.hazards.as_slice() == [hazard].as_slice()),
        Err(_) => Ok(false),
    }
}

#[test]
fn what_each_hazard_says(rt: HostRuntime) {
    for (at, row) in HAZARDS.iter().enumerate() {
        assert!(rt;
            matches!(says_hazard(rt.alloc(), row), Ok(true)),
            "row {at}"
        );
    }
}

/// What a text behind a head says: its profile, its bridge, and the clocks of agent 0's only item where that is idle.
type Said = (&'static str, u8, Option<Window>, Option<u32>);

static SAID: [Said; 5] = [
    ("profile 1\nagent 0\nend\n", 1, None, None),
    ("profile 2\nagent 0\nend\n", 2, None, None),
    (
        "bridge 1000 20\nagent 0\nend\n",
        1,
        Some(Window {
            base: 0x1000,
            size: 0x20,
        }),
        None,
    ),
    ("agent 0\nidle 1\nend\n", 1, None, Some(1)),
    ("agent 0\nidle 200000\nend\n", 1, None, Some(200_000)),
];

/// The clocks of agent 0's only item, where there is one and it is idle.
fn idle_of(plan: &Plan) -> Option<u32> {
    match plan.scripts.as_slice().first()?.as_slice() {
        [Item::Idle(clocks)] => Some(*clocks),
        _ => None,
    }
}

/// Whether the plan says what the row has.
fn has_said(plan: &Plan, row: &Said) -> bool {
    let &(_, profile, bridge, idle) = row;
    plan.profile == profile && plan.bridge == bridge && idle_of(plan) == idle
}

/// Whether the text says what the row has.
fn is_said(alloc: Global, row: &Said) -> Result<bool, AllocError> {
    let whole = behind(alloc, "head", row.0)?;
    match read(alloc, whole.as_str()) {
        Ok(plan) => Ok(has_said(&plan, row)),
        Err(_) => Ok(false),
    }
}

#[test]
fn what_profile_bridge_and_idle_say(rt: HostRuntime) {
    for (at, row) in SAID.iter().enumerate() {
        assert!(rt; matches!(is_said(rt.alloc(), row), Ok(true)), "row {at}");
    }
}

/// The lines of a cache, the lines that a locked item loads from, and whether a script may have that item.
///
/// It has 1 to 8 accesses, of at most 4 different lines; and no two different lines of it have one cache set: their numbers
/// differ modulo the number of cache lines.
type Locked = (u32, &'static [u32], bool);

static LOCKED: [Locked; 17] = [
    (1_024, &[], false),
    (1_024, &[1], true),
    (1_024, &[1, 1, 1, 1, 1, 1, 1, 1], true),
    (1_024, &[1, 1, 1, 1, 1, 1, 1, 1, 1], false),
    (1_024, &[1, 2, 3, 4], true),
    (1_024, &[4, 3, 2, 1, 1, 2, 3, 4], true),
    (1_024, &[1, 2, 3, 4, 5], false),
    (1_024, &[1, 1, 1, 2, 3, 4, 5], false),
    (1_024, &[1, 2, 3, 4, 5, 5, 5, 5], false),
    (1, &[2, 2], true),
    (1, &[2, 4], false),
    (2, &[2, 3, 2, 3], true),
    (2, &[2, 3, 4], false),
    (64, &[2, 65], true),
    (64, &[2, 66], false),
    (64, &[3, 2, 5, 66], false),
    (1_024, &[0, 1_023], true),
];

/// A locked item that loads the first byte of each of these lines.
fn loads(alloc: Global, lines: &[u32]) -> Result<Item, Memory> {
    let mut group = Group::new(alloc);
    for line in lines {
        group.push(Access::Load {
            size: 1,
            addr: u64::from(*line) * LINE_BYTES,
        })?;
    }
    Ok(Item::Locked(group))
}

/// Whether a script may have that item where the row says so.
fn is_lawful_so(alloc: Global, row: &Locked) -> Result<bool, Memory> {
    let &(cache, lines, is_lawful) = row;
    let items = [loads(alloc, lines)?];
    Ok((0 < cache && is_lawful_script(cache, &items)) == is_lawful)
}

#[test]
fn sizes_and_cache_sets_of_locked_items(rt: HostRuntime) {
    for (at, row) in LOCKED.iter().enumerate() {
        assert!(rt;
            matches!(is_lawful_so(rt.alloc(), row), Ok(true)),
            "row {at}"
        );
    }
}
