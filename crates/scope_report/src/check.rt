//! What was judged and found.

use crate::lines::put_home;
use crate::notices::{put_cut_comment, put_limit_behind, put_lost_levels, put_traffic};
use crate::parts::{put_behind, put_holes, put_parts, put_starts};
use crate::reasons::{Grounds, named_by, put_reasons};
use crate::rules::{put_gist, title_of};
use crate::scale::time_of;
use crate::scopes::Heading;
use crate::text::{put, put_bytes, put_count, put_listed, put_number};
use crate::verdict::{put_verdict, verdict_over};
use reason_texts::Sentence;
use scope_check::{Begin, Bound, Verdict};
use scope_draw::drawing;
use scope_parts::PartsFound;
use scope_pick::{Variable, is_listed};
use scope_ring::Ring;
use scope_time::{Scale, scale_of};
use scope_wiring::{Choice, Home, Wiring, settled_lines};
use std::alloc::{AllocError, Global};
use vcd_header::Section;
use vcd_scan::EarlyEnd;

/// The number of D_n.
const DATA: u8 = 19;

/// What was judged of a file, and found: the scope and the lines that are not there, the verdict, the reasons of the first
/// broken clock, of the first broken rule what it asks, the requests around that clock, and the lines around it, which the
/// ring has kept; then the parts, where there are several, and what of the file was not judged, as the end of one that ends
/// early.
pub fn check_text(
    alloc: Global,
    file: &str,
    variables: &[Variable],
    remarks: &[Section],
    choice: &Choice,
    wiring: &Wiring,
    found: &PartsFound,
    early_end: Option<EarlyEnd>,
    limit: Option<u64>,
    last: &Ring,
    grounds: &Grounds,
) -> Result<Vec<u8>, AllocError> {
    let scale = scale_of(alloc, remarks)?;
    let heading = Heading::new(alloc, variables)?;
    let settled = settled_lines(alloc, &choice.lines, &choice.without)?;
    let mut text = Vec::new(alloc);
    put_wires(&mut text, alloc, file, variables, choice, wiring)?;
    put_found(&mut text, alloc, found, scale, last, grounds)?;
    put_unread_data(&mut text, wiring)?;
    put_judged(&mut text, alloc, found, scale)?;
    put_early_end(&mut text, early_end)?;
    put_limit_behind(&mut text, limit)?;
    put_cut_comment(&mut text, alloc, remarks)?;
    put_other_names(&mut text, &heading, &settled, wiring.home)?;
    Ok(text)
}

/// Which wires were judged.
pub(crate) fn put_wires(
    text: &mut Vec<u8>,
    alloc: Global,
    file: &str,
    variables: &[Variable],
    choice: &Choice,
    wiring: &Wiring,
) -> Result<(), AllocError> {
    let absent = absent_beside(alloc, &wiring.absent, &choice.without)?;
    put_home(text, variables, wiring.home)?;
    put(text, " of ")?;
    put_bytes(text, file.as_bytes())?;
    put(text, ": ")?;
    put_count(
        text,
        22usize.saturating_sub(wiring.absent.len()) as u64,
        "line",
    )?;
    put_listed(text, "; not there:", &absent, "")?;
    put_listed(text, "; left out:", &choice.without, "")?;
    put(text, "\n")
}

// The lines that are not there and were not left out.
fn absent_beside(alloc: Global, absent: &[u8], without: &[u8]) -> Result<Vec<u8>, AllocError> {
    absent
        .iter()
        .copied()
        .filter(|line| !is_listed(without, *line))
        .collect(alloc)
}

fn put_unread_data(text: &mut Vec<u8>, wiring: &Wiring) -> Result<(), AllocError> {
    if is_listed(&wiring.absent, DATA) {
        put(text, "rule 17 is not judged without D_n\n")
    } else {
        Ok(())
    }
}

fn put_other_names(
    text: &mut Vec<u8>,
    heading: &Heading<'_>,
    settled: &[u8],
    home: Home,
) -> Result<(), AllocError> {
    match home {
        Home::At(scope) => heading.put_others(text, settled, scope),
        _ => Ok(()),
    }
}

// The verdict, and why.
fn put_found(
    text: &mut Vec<u8>,
    alloc: Global,
    found: &PartsFound,
    scale: Option<Scale>,
    last: &Ring,
    grounds: &Grounds,
) -> Result<(), AllocError> {
    match verdict_over(found) {
        Verdict::Nothing => put_nothing(text, alloc, found, last),
        Verdict::Accepted => put_plain(text, found, "\n"),
        Verdict::Broken { clock, rule, stamp } => {
            let time = time_of(alloc, stamp, scale)?;
            put_verdict(text, found, &time, title_of(rule))?;
            put(text, "\n")?;
            put_why(text, alloc, found, rule, &grounds.sentences)?;
            put_rule(text, rule)?;
            put_traffic(text, found, last)?;
            grounds.put_requests(text, alloc)?;
            put_drawing(text, alloc, clock, last, grounds)
        }
    }
}

// The reasons, or why there are none.
fn put_why(
    text: &mut Vec<u8>,
    alloc: Global,
    found: &PartsFound,
    rule: u8,
    reasons: &[Sentence],
) -> Result<(), AllocError> {
    if reasons.is_empty() {
        put(text, unexplained_cause(found))
    } else {
        put_reasons(text, alloc, rule, reasons)
    }
}

// Why the first broken part has no reasons.
fn unexplained_cause(found: &PartsFound) -> &'static str {
    match found.faults.as_slice().first() {
        None => NOT_READ_AGAIN,
        Some(fault) => if fault.is_later {
            NOT_KNOWN_BEFORE
        } else {
            NOT_READ_AGAIN
        },
    }
}

fn put_plain(text: &mut Vec<u8>, found: &PartsFound, behind: &str) -> Result<(), AllocError> {
    put_verdict(text, found, &[], "")?;
    put(text, behind)
}

// Why nothing could be judged.
fn put_nothing(
    text: &mut Vec<u8>,
    alloc: Global,
    found: &PartsFound,
    last: &Ring,
) -> Result<(), AllocError> {
    let is_whole = found.plan.first.begin == Begin::Known && found.plan.first.to.is_none();
    if 0 < found.clocks && is_whole {
        put_plain(text, found, NEVER_KNOWN)?;
        put_lost_levels(text, alloc, last)?;
        put(text, LEFT_OUT)
    } else {
        put_plain(text, found, unjudged_cause(found))
    }
}

/// What a broken rule asks.
pub(crate) fn put_rule(text: &mut Vec<u8>, rule: u8) -> Result<(), AllocError> {
    put_gist(text, rule)?;
    put(text, "  p6scope rule ")?;
    put_number(text, u64::from(rule))?;
    put(text, " prints this rule\n")
}

// The lines around the broken clock: those that its reasons speak of, and all that are seen where there is none.
fn put_drawing(
    text: &mut Vec<u8>,
    alloc: Global,
    clock: u64,
    last: &Ring,
    grounds: &Grounds,
) -> Result<(), AllocError> {
    let named = named_by(&grounds.sentences);
    let rows = drawing(alloc, last, clock, named.as_ref())?;
    put(text, "\n")?;
    text.extend_from_slice(&rows)?;
    put(text, "\n")
}

// Which clocks were judged.
fn put_judged(
    text: &mut Vec<u8>,
    alloc: Global,
    found: &PartsFound,
    scale: Option<Scale>,
) -> Result<(), AllocError> {
    put_parts(text, alloc, found, scale)?;
    put_starts(text, found)?;
    put_holes(text, found, scale)?;
    put_behind(text, found)
}

fn unjudged_cause(found: &PartsFound) -> &'static str {
    if found.clocks == 0 {
        return NO_EDGE;
    }
    match found.plan.first.begin {
        Begin::Known => KNOWN_LATE,
        Begin::At(bound) => match found.plan.first.to {
            None => no_clock(bound, found.clocks),
            Some(_) => NONE_BETWEEN,
        },
        Begin::Quiet(_, _) => NEVER_QUIET,
    }
}

// Why nothing is judged from a clock on: there is none, or a reply comes first that may answer what is not known.
fn no_clock(bound: Bound, clocks: u64) -> &'static str {
    match bound {
        Bound::Clock(first) => {
            if u64::from(first) < clocks {
                FIRST_REPLY
            } else {
                NO_CLOCK
            }
        }
        Bound::Time(_) => NO_CLOCK,
    }
}

const NO_EDGE: &str = "\
: BCLK has no edge that samples
  A clock that is high when it is first seen has an edge there with --first; --edge fall samples at
  falling edges; --line BCLK=PATH names another clock.
";

const NEVER_KNOWN: &str = ": at no clock has every control line that is there a level\n";

const KNOWN_LATE: &str =
    ": up to --to there is no clock, or at none has every control line that is there a level\n";

const LEFT_OUT: &str =
    "  A line that is always x is left out by --without LINE, unless it is a needed one.
";

const NOT_KNOWN_BEFORE: &str =
    "  There are no reasons: the part begins later, and who had the bus before is not known.
";

const NOT_READ_AGAIN: &str =
    "  There are no reasons: the second reading of the dump, which finds them, failed or was
  not possible, as of a pipe.
";

const NO_CLOCK: &str = ": the dump has no such clock\n";

const NONE_BETWEEN: &str = "\
: from --at on up to --to there is no clock, or only a deferred reply that may answer a request of before
";

const FIRST_REPLY: &str = "\
: a deferred reply there may answer a request of before, and no part begins behind it
";

const NEVER_QUIET: &str = "\
: no clock from there on ends so many clocks in which every line had a level and none was asserted
  --quiet N asks for fewer, --at C begins exactly at a clock.
";

/// The end of a file that ends early: where the word, the value or the section begins that is not whole.
pub(crate) fn put_early_end(
    text: &mut Vec<u8>,
    early_end: Option<EarlyEnd>,
) -> Result<(), AllocError> {
    match early_end {
        None => Ok(()),
        Some(end) => {
            put(text, "the file ends early: what begins at byte ")?;
            put_number(text, end.open_from.unwrap_or(end.fault.place))?;
            put(text, " is cut, and what is whole before it is judged\n")
        }
    }
}
