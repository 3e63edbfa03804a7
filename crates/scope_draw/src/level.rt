//! Lines that are drawn as levels.

use crate::span::{Span, column, sample_before};
use crate::text::{pad_to, put, put_name};
use fsb_signal::{Lines, Sample, control_line};
use scope_ring::Ring;
use std::alloc::{AllocError, Global};

/// What a line has at a clock; it is low where it is asserted.
#[derive(Clone, Copy, PartialEq, Eq)]
enum Level {
    High,
    Low,
    Unknown,
}

/// What is drawn of the lines of a response: their code, where it is known.
const RESPONSE: [Lines; 3] = [Lines::RS2, Lines::RS1, Lines::RS0];

/// Whether the line is asserted or unknown at a drawn clock.
pub(crate) fn is_line_seen(ring: &Ring, span: Span, line: Lines) -> bool {
    for place in 0..span.count {
        if level_of(ring.sample_at(span.clock(place)), line) != Level::High {
            return true;
        }
    }
    false
}

fn level_of(sample: Option<&Sample>, line: Lines) -> Level {
    match sample {
        None => Level::High,
        Some(sample) => level_in(sample, line),
    }
}

fn level_in(sample: &Sample, line: Lines) -> Level {
    if sample.has(line) {
        Level::Low
    } else if sample.has_unknown(line) {
        Level::Unknown
    } else {
        Level::High
    }
}

/// Appends the row of a control line.
pub(crate) fn put_line(
    text: &mut Vec<u8>,
    alloc: Global,
    ring: &Ring,
    span: Span,
    line: Lines,
) -> Result<(), AllocError> {
    put_head(text, alloc, name_of(line))?;
    let mut before = level_of(sample_before(ring, span.from), line);
    for place in 0..span.count {
        let now = level_of(ring.sample_at(span.clock(place)), line);
        put(text, cell(before, now))?;
        before = now;
    }
    put(text, "\n")
}

// The name of a control line.
fn name_of(line: Lines) -> &'static str {
    let number = line.0.trailing_zeros() as usize;
    if number < 21 {
        control_line(number).0
    } else {
        ""
    }
}

// The beginning of a row, up to its first cell.
fn put_head(text: &mut Vec<u8>, alloc: Global, name: &str) -> Result<(), AllocError> {
    let mut line = Vec::new(alloc);
    put_name(&mut line, name, "#")?;
    pad_to(&mut line, column(0))?;
    text.extend_from_slice(&line)
}

// A clock of a row.
fn cell(before: Level, now: Level) -> &'static str {
    match now {
        Level::Unknown => "xxxx",
        Level::Low => {
            if before == Level::Low {
                "____"
            } else {
                "\\___"
            }
        }
        Level::High => {
            if before == Level::High {
                "‾‾‾‾"
            } else {
                "/‾‾‾"
            }
        }
    }
}

/// Whether a line of the response is asserted or unknown at a drawn clock.
pub(crate) fn is_response_seen(ring: &Ring, span: Span) -> bool {
    for line in RESPONSE.iter() {
        if is_line_seen(ring, span, *line) {
            return true;
        }
    }
    false
}

/// Appends the row of RS#.
pub(crate) fn put_response(
    text: &mut Vec<u8>,
    alloc: Global,
    ring: &Ring,
    span: Span,
) -> Result<(), AllocError> {
    put_head(text, alloc, "RS")?;
    let mut before = response_level(sample_before(ring, span.from));
    for place in 0..span.count {
        let sample = ring.sample_at(span.clock(place));
        let now = response_level(sample);
        put_code(text, before, now, sample)?;
        before = now;
    }
    put(text, "\n")
}

// Low where some line of the response is asserted and each is known.
fn response_level(sample: Option<&Sample>) -> Level {
    let high = level_of(sample, Lines::RS2);
    let middle = level_of(sample, Lines::RS1);
    let low = level_of(sample, Lines::RS0);
    if high == Level::Unknown || middle == Level::Unknown || low == Level::Unknown {
        Level::Unknown
    } else if high == Level::Low || middle == Level::Low || low == Level::Low {
        Level::Low
    } else {
        Level::High
    }
}

// A clock of the row of responses: 1 where a line is asserted.
fn put_code(
    text: &mut Vec<u8>,
    before: Level,
    now: Level,
    sample: Option<&Sample>,
) -> Result<(), AllocError> {
    if now != Level::Low {
        return put(text, cell(before, now));
    }
    put(text, side(before))?;
    for line in RESPONSE.iter() {
        put(text, digit(level_of(sample, *line)))?;
    }
    Ok(())
}

fn side(before: Level) -> &'static str {
    if before == Level::Low { "|" } else { "\\" }
}

fn digit(level: Level) -> &'static str {
    if level == Level::Low { "1" } else { "0" }
}
