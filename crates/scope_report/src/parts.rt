//! The parts of a dump that were judged.

use crate::rules::title_of;
use crate::scale::{put_time, time_of};
use crate::text::{put, put_count, put_number};
use crate::verdict::put_broken;
use scope_check::{Begin, Bound, Verdict};
use scope_parts::{End, PartFound, PartsFound};
use scope_time::Scale;
use std::alloc::{AllocError, Global};
use vcd_course::Stamp;

/// Appends the parts, one a line, where there are several.
pub(crate) fn put_parts(
    text: &mut Vec<u8>,
    alloc: Global,
    found: &PartsFound,
    scale: Option<Scale>,
) -> Result<(), AllocError> {
    if found.parts < 2 {
        return Ok(());
    }
    put_sum(text, found)?;
    put_listed_parts(text, alloc, found.first.as_slice(), scale)?;
    put_more_parts(text, alloc, found, scale)
}

// How many parts there are, and how many of them are broken.
fn put_sum(text: &mut Vec<u8>, found: &PartsFound) -> Result<(), AllocError> {
    put_count(text, found.parts, "part")?;
    put(text, " of the dump are judged")?;
    if 0 < found.broken {
        put(text, ", of which ")?;
        put_number(text, u64::from(found.broken))?;
        put(
            text,
            if found.broken == 1 {
                " breaks a rule"
            } else {
                " break rules"
            },
        )?;
    }
    put(text, ":\n")
}

fn put_listed_parts(
    text: &mut Vec<u8>,
    alloc: Global,
    parts: &[PartFound],
    scale: Option<Scale>,
) -> Result<(), AllocError> {
    for (at, part) in parts.iter().enumerate() {
        put(text, "  part ")?;
        put_number(text, (at as u64).saturating_add(1))?;
        put(text, ": ")?;
        put_part(text, alloc, part, scale)?;
    }
    Ok(())
}

// One part: its clocks, what was found, and why it ended.
fn put_part(
    text: &mut Vec<u8>,
    alloc: Global,
    part: &PartFound,
    scale: Option<Scale>,
) -> Result<(), AllocError> {
    put_clocks(text, part)?;
    match part.verdict {
        Verdict::Nothing => {}
        Verdict::Accepted => put(text, "accepted")?,
        Verdict::Broken { clock, rule, stamp } => {
            put_fault(text, alloc, clock, rule, stamp, scale)?;
        }
    }
    put_end(text, part)
}

// What is broken, and where.
fn put_fault(
    text: &mut Vec<u8>,
    alloc: Global,
    clock: u64,
    rule: u8,
    stamp: Option<Stamp>,
    scale: Option<Scale>,
) -> Result<(), AllocError> {
    let time = time_of(alloc, stamp, scale)?;
    put_broken(text, clock, &time, stamp, rule, title_of(rule))
}

fn put_clocks(text: &mut Vec<u8>, part: &PartFound) -> Result<(), AllocError> {
    if part.judged < 2 {
        return put_clock(text, part.start, ", ");
    }
    put(text, "clocks ")?;
    put_number(text, part.start)?;
    put(text, " to ")?;
    put_number(text, last_of(part))?;
    put(text, ", ")
}

// The clock behind the last one of a part.
fn end_of(part: &PartFound) -> u64 {
    part.start.saturating_add(part.judged)
}

// The last clock of a part.
fn last_of(part: &PartFound) -> u64 {
    end_of(part).saturating_sub(1)
}

// Why a part ended, where that is not told by the verdict.
fn put_end(text: &mut Vec<u8>, part: &PartFound) -> Result<(), AllocError> {
    match part.end {
        End::Dump | End::Broken => put(text, "\n"),
        End::Hole => put(text, "; the dump stops behind it\n"),
        End::Reply => {
            put(text, "; the deferred reply at clock ")?;
            put_number(text, end_of(part))?;
            put(text, " may answer a request of before it\n")
        }
    }
}

// The parts behind those that are listed: how many, and what is broken in them.
fn put_more_parts(
    text: &mut Vec<u8>,
    alloc: Global,
    found: &PartsFound,
    scale: Option<Scale>,
) -> Result<(), AllocError> {
    let listed = found.first.as_slice();
    let more = found.parts.saturating_sub(listed.len() as u64);
    if more == 0 {
        return Ok(());
    }
    put(text, "  and ")?;
    put_count(text, more, "more part")?;
    put(text, "\n")?;
    put_later_faults(
        text,
        alloc,
        found.faults.as_slice(),
        end_listed(listed),
        scale,
    )
}

// The clock behind the last one of the listed parts.
fn end_listed(listed: &[PartFound]) -> u64 {
    match listed.last() {
        None => 0,
        Some(part) => end_of(part),
    }
}

// The broken parts that begin at or behind this clock.
fn put_later_faults(
    text: &mut Vec<u8>,
    alloc: Global,
    faults: &[PartFound],
    behind: u64,
    scale: Option<Scale>,
) -> Result<(), AllocError> {
    for fault in faults {
        if behind <= fault.start {
            put(text, "  ")?;
            put_part(text, alloc, fault, scale)?;
        }
    }
    Ok(())
}

/// Appends where the first part begins, unless it is at clock 0, and where the others do.
pub(crate) fn put_starts(text: &mut Vec<u8>, found: &PartsFound) -> Result<(), AllocError> {
    let begin = found.plan.first.begin;
    if let Some(part) = found.first.as_slice().first() {
        put_start(text, part, begin)?;
        put_stopped(text, part, begin)?;
    }
    if found.parts < 2 {
        return Ok(());
    }
    put(text, "each later part begins with a clock that ends ")?;
    put_number(text, u64::from(found.plan.quiet.max(2)))?;
    put(text, " clocks without an asserted line\n")?;
    match begin {
        Begin::Quiet(_, _) => Ok(()),
        _ => put(text, UNKNOWN_BEFORE),
    }
}

fn put_start(text: &mut Vec<u8>, part: &PartFound, begin: Begin) -> Result<(), AllocError> {
    if part.start == 0 {
        return Ok(());
    }
    put_clock(text, part.start, " is the first that is judged: ")?;
    put_begin(text, begin)
}

// That the dump stops before a part that begins where its lines have levels.
fn put_stopped(text: &mut Vec<u8>, part: &PartFound, begin: Begin) -> Result<(), AllocError> {
    if part.is_later && begin == Begin::Known {
        put(text, STOPPED_BEFORE)
    } else {
        Ok(())
    }
}

const STOPPED_BEFORE: &str = "\
the dump stops before the first clock that is judged
  No request is taken to be under way there. Who had the bus last is not known: a rule counts as
  broken where it is whoever had it.
";

// Why the part begins there, and what is taken to be so.
fn put_begin(text: &mut Vec<u8>, begin: Begin) -> Result<(), AllocError> {
    match begin {
        Begin::Known => put(text, "there every control line has a level\n"),
        Begin::At(_) => put(text, AS_SAID),
        Begin::Quiet(_, least) => {
            put(text, "it ends ")?;
            put_count(text, u64::from(least), "clock")?;
            put(text, " without an asserted line\n")?;
            put(text, UNKNOWN_BEFORE)
        }
    }
}

const AS_SAID: &str = "\
as --at says, nothing is under way there
  Who had the bus last is not known: a rule counts as broken where it is whoever had it.
";

const UNKNOWN_BEFORE: &str =
    "  No request is taken to wait longer. Who had the bus last is not known: a rule counts as broken
  where it is whoever had it.
";

fn put_clock(text: &mut Vec<u8>, clock: u64, behind: &str) -> Result<(), AllocError> {
    put(text, "clock ")?;
    put_number(text, clock)?;
    put(text, behind)
}

/// Appends how often the dump stops.
pub(crate) fn put_holes(
    text: &mut Vec<u8>,
    found: &PartsFound,
    scale: Option<Scale>,
) -> Result<(), AllocError> {
    if found.holes == 0 {
        return Ok(());
    }
    put(text, "the dump stops ")?;
    put_count(text, found.holes, "time")?;
    put_hole(text, found.first_hole, scale)?;
    put(text, "\n")
}

// When the dump stopped first.
fn put_hole(
    text: &mut Vec<u8>,
    stamp: Option<Stamp>,
    scale: Option<Scale>,
) -> Result<(), AllocError> {
    match stamp {
        None => Ok(()),
        Some(stamp) => {
            put(text, ", first at ")?;
            put_time(text, stamp.time, scale)?;
            put(text, " (line ")?;
            put_number(text, stamp.line)?;
            put(text, " of the file)")
        }
    }
}

/// Appends the clocks behind the last part, and why none begins again there. Where only the first of more parts are kept,
/// it is not known.
pub(crate) fn put_behind(text: &mut Vec<u8>, found: &PartsFound) -> Result<(), AllocError> {
    let listed = found.first.as_slice();
    if (listed.len() as u64) < found.parts {
        return Ok(());
    }
    match listed.last() {
        None => Ok(()),
        Some(part) => put_behind_part(text, found, part),
    }
}

fn put_behind_part(
    text: &mut Vec<u8>,
    found: &PartsFound,
    part: &PartFound,
) -> Result<(), AllocError> {
    let end = end_of(part);
    if found.clocks <= end {
        return Ok(());
    }
    put_clock(text, end, " and those after it are not judged: ")?;
    put(text, end_cause(found, part.end, end))
}

// Why the last part ended before this clock.
fn end_cause(found: &PartsFound, reason: End, end: u64) -> &'static str {
    let to = found.plan.first.to;
    match reason {
        End::Dump => limit_cause(to, end),
        End::Hole => "the dump stopped before it\n",
        End::Broken => {
            if found.broken < found.plan.most {
                "no part begins behind the broken rule\n"
            } else {
                limit_cause(to, end)
            }
        }
        End::Reply => "the deferred reply there may answer a request of before the part\n",
    }
}

// Why judging went no further, where that may be by `--to`.
fn limit_cause(to: Option<Bound>, end: u64) -> &'static str {
    match to {
        None => "the dump stopped before it\n",
        Some(Bound::Clock(last)) => {
            if u64::from(last) < end {
                "--to names the clock before it\n"
            } else {
                "the dump stopped before it\n"
            }
        }
        Some(Bound::Time(_)) => "it lies above --to, or the dump stopped before it\n",
    }
}
