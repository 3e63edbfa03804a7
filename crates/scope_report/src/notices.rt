//! What a user may try where nothing could be judged, or where a rule is broken that perhaps is not.

use crate::scopes::is_needed;
use crate::text::{put, put_bytes, put_count, put_listed, put_number};
use fsb_signal::{Lines, Sample};
use scope_check::{Begin, Verdict};
use scope_parts::{PartFound, PartsFound};
use scope_ring::Ring;
use std::alloc::{AllocError, Global};
use vcd_header::Section;
use vcd_scan::has_part;

/// Appends that every line is asserted at first, or else that a dump may begin in traffic, where that is so of one that
/// is judged from its first clock with levels on.
pub(crate) fn put_traffic(
    text: &mut Vec<u8>,
    found: &PartsFound,
    last: &Ring,
) -> Result<(), AllocError> {
    match found.first.as_slice().first() {
        Some(part) if found.plan.first.begin == Begin::Known => put_first(
            text,
            part,
            found.plan.quiet,
            last,
        ),
        _ => Ok(()),
    }
}

fn put_first(
    text: &mut Vec<u8>,
    part: &PartFound,
    quiet: u32,
    last: &Ring,
) -> Result<(), AllocError> {
    if has_all_lines(last.sample_at(part.start)) {
        return put_all_asserted(text, part.start, last);
    }
    if is_in_traffic(part, last) {
        put(text, IN_TRAFFIC)?;
        put_count(text, u64::from(quiet), "clock")?;
        put(text, " without an asserted line.\n")
    } else {
        Ok(())
    }
}

fn put_all_asserted(text: &mut Vec<u8>, start: u64, last: &Ring) -> Result<(), AllocError> {
    put(text, "  Every needed line is asserted at clock ")?;
    put_number(text, start)?;
    put(text, ALL_ASSERTED)?;
    match idle_clock(start, last) {
        None => Ok(()),
        Some(clock) => {
            put(text, "  If it begins so before its reset: --at ")?;
            put_number(text, clock)?;
            put(text, " begins where no line is asserted.\n")
        }
    }
}

const ALL_ASSERTED: &str =
    ". Are the levels turned? A wire that is high when asserted has ! before its
  path, as in --line ADS_n=!tb.ads, and one that is low when asserted has none.
";

// The first clock that is kept, from this one on, at which no line is asserted.
fn idle_clock(start: u64, last: &Ring) -> Option<u64> {
    for clock in start..start.saturating_add(16) {
        if is_idle(last.sample_at(clock)) {
            return Some(clock);
        }
    }
    None
}

fn is_idle(sample: Option<&Sample>) -> bool {
    match sample {
        None => false,
        Some(sample) => CONTROL.iter().all(|(_, bits)| sample.lines.0 & bits == 0),
    }
}

// Whether each needed control line is asserted.
fn has_all_lines(sample: Option<&Sample>) -> bool {
    match sample {
        None => false,
        Some(sample) => CONTROL.iter().all(|(line, bits)| !is_needed(*line)
            || sample.lines.0 & bits != 0),
    }
}

const IN_TRAFFIC: &str =
    "  The dump may begin in traffic: no request that is judged comes before that clock.
  --from 0 judges from the first clock on that ends ";

// Whether the part is broken by what may belong to a request of before it.
fn is_in_traffic(part: &PartFound, last: &Ring) -> bool {
    match part.verdict {
        Verdict::Broken { clock, rule, .. } => match rule {
            2 => clock <= part.start.saturating_add(1),
            11 | 13 | 15 | 16 => has_no_request(last, part.start, clock),
            _ => false,
        },
        Verdict::Nothing | Verdict::Accepted => false,
    }
}

// Whether all clocks from this one on up to that one are kept, and ADS# is asserted in none of them.
fn has_no_request(last: &Ring, from: u64, to: u64) -> bool {
    if to < from || 16 < to - from {
        return false;
    }
    for clock in from..to {
        if may_request(last.sample_at(clock)) {
            return false;
        }
    }
    true
}

fn may_request(sample: Option<&Sample>) -> bool {
    match sample {
        None => true,
        Some(sample) => sample.has(Lines::ADS),
    }
}

/// Appends the control lines without a level at the last clock.
pub(crate) fn put_lost_levels(
    text: &mut Vec<u8>,
    alloc: Global,
    last: &Ring,
) -> Result<(), AllocError> {
    match last.sample_at(last.count().saturating_sub(1)) {
        None => Ok(()),
        Some(sample) => {
            let lines = unknown_lines(alloc, sample)?;
            put_listed(text, "  without a level at the last clock:", &lines, "\n")
        }
    }
}

// The control lines that are unknown, by their numbers.
fn unknown_lines(alloc: Global, sample: &Sample) -> Result<Vec<u8>, AllocError> {
    let mut lines = Vec::new(alloc);
    for (line, bits) in CONTROL.iter() {
        if sample.unknown.0 & bits != 0 {
            lines.push(*line)?;
        }
    }
    Ok(lines)
}

/// The control lines by their numbers, and the bits that they have in a sample.
const CONTROL: [(u8, u32); 18] = [
    (1, 0x1),
    (2, 0x2),
    (3, 0x4),
    (4, 0x8),
    (5, 0x10),
    (6, 0x20),
    (7, 0x40),
    (8, 0x80),
    (11, 0x100),
    (12, 0x200),
    (13, 0x400),
    (14, 0x800),
    (15, 0x7000),
    (16, 0x8000),
    (17, 0x10000),
    (18, 0x20000),
    (20, 0xc0000),
    (21, 0x100000),
];

/// Appends a comment of the header that says that a limit is exceeded: the dump may be cut there.
pub(crate) fn put_cut_comment(
    text: &mut Vec<u8>,
    alloc: Global,
    remarks: &[Section],
) -> Result<(), AllocError> {
    for remark in remarks {
        if remark.keyword.as_slice() == b"$comment".as_slice() {
            put_limit(text, alloc, &remark.words)?;
        }
    }
    Ok(())
}

/// Appends where the first comment behind the header begins that says that a limit is exceeded.
pub(crate) fn put_limit_behind(text: &mut Vec<u8>, limit: Option<u64>) -> Result<(), AllocError> {
    match limit {
        None => Ok(()),
        Some(place) => {
            put(text, "a comment at byte ")?;
            put_number(text, place)?;
            put(
                text,
                " says that a limit is exceeded: the dump may be cut there\n",
            )
        }
    }
}

fn put_limit(text: &mut Vec<u8>, alloc: Global, words: &[Vec<u8>]) -> Result<(), AllocError> {
    if has_word(words, b"limit") && has_word(words, b"exceeded") {
        put(text, "the file says in a comment:")?;
        put_words(text, words)?;
        put(text, "\n")
    } else {
        Ok(())
    }
}

// Whether one of the words has this in it, in letters of either case.
fn has_word(words: &[Vec<u8>], wanted: &[u8]) -> bool {
    words.iter().any(|word| has_part(word, wanted))
}

fn put_words(text: &mut Vec<u8>, words: &[Vec<u8>]) -> Result<(), AllocError> {
    for word in words {
        put(text, " ")?;
        put_bytes(text, word)?;
    }
    Ok(())
}
