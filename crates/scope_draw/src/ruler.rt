//! The ruler of clock numbers.

ghost use Rattle.std.specs.Prelude.{◌<◌};

use crate::span::{Span, column};
use crate::text::{pad_to, put};
use arrayvec::ArrayVec;
use fsb_io::{Line, put_decimal};
use std::alloc::{AllocError, Global};

/// Appends the numbers of the clocks; behind the marked one stands a star. Where they are long some are left out.
pub(crate) fn put_ruler(
    text: &mut Vec<u8>,
    alloc: Global,
    span: Span,
    marked: u64,
) -> Result<(), AllocError> {
    let mut line = Vec::new(alloc);
    let step = step_of(span.last());
    for place in 0..span.count {
        let clock = span.clock(place);
        if clock.abs_diff(marked) % step == 0 {
            put_clock(&mut line, place, clock, marked)?;
        }
    }
    text.extend_from_slice(&line)?;
    put(text, "\n")
}

// How many clocks lie from one number to the next, where the largest is this.
fn step_of(largest: u64) -> u64
    ensures { 0 < result }
{
    digits_of(largest).len() as u64 / 4 + 1
}

fn digits_of(number: u64) -> Line {
    let mut digits = ArrayVec::new();
    put_decimal(&mut digits, number);
    digits
}

fn put_clock(line: &mut Vec<u8>, place: u8, clock: u64, marked: u64) -> Result<(), AllocError> {
    let digits = digits_of(clock);
    pad_to(line, (column(place) + 3).saturating_sub(digits.len()))?;
    line.extend_from_slice(digits.as_slice())?;
    put(line, mark_of(clock, marked))
}

fn mark_of(clock: u64, marked: u64) -> &'static str {
    if clock == marked { "*" } else { "" }
}
