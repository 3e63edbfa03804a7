//! The times of a dump.

use crate::text::{put, put_number};
use scope_time::{Scale, factor_of};
use scope_words::Unit;
use std::alloc::{AllocError, Global};
use vcd_course::Stamp;

/// Units of time, each a thousand of the next.
const UNITS: [&str; 6] = ["s", "ms", "us", "ns", "ps", "fs"];

/// Appends a time in the largest unit in which it is whole; without a scale its number alone.
pub(crate) fn put_time(
    text: &mut Vec<u8>,
    time: u64,
    scale: Option<Scale>,
) -> Result<(), AllocError> {
    match scale {
        None => put_steps(text, time),
        Some(scale) => match time.checked_mul(factor_of(scale.factor)) {
            None => put_steps(text, time),
            Some(count) => put_scaled(text, count, place_of(scale.unit)),
        },
    }
}

/// The time of a stamp, as text.
pub(crate) fn time_of(
    alloc: Global,
    stamp: Option<Stamp>,
    scale: Option<Scale>,
) -> Result<Vec<u8>, AllocError> {
    let mut time = Vec::new(alloc);
    match stamp {
        None => Ok(time),
        Some(stamp) => {
            put_time(&mut time, stamp.time, scale)?;
            Ok(time)
        }
    }
}

// The place of a unit, from seconds on.
fn place_of(unit: Unit) -> usize {
    match unit {
        Unit::Second => 0,
        Unit::Millisecond => 1,
        Unit::Microsecond => 2,
        Unit::Nanosecond => 3,
        Unit::Picosecond => 4,
        Unit::Femtosecond => 5,
    }
}

fn put_steps(text: &mut Vec<u8>, time: u64) -> Result<(), AllocError> {
    put(text, "time ")?;
    put_number(text, time)
}

fn put_scaled(text: &mut Vec<u8>, count: u64, unit: usize) -> Result<(), AllocError> {
    let (count, unit) = scaled(count, unit);
    put_number(text, count)?;
    put(text, " ")?;
    put(text, unit_name(unit))
}

// The same time in the largest unit in which it is whole.
fn scaled(count: u64, unit: usize) -> (u64, usize) {
    let mut count = count;
    let mut unit = unit;
    for _ in 0..5u8 {
        if is_larger_whole(count, unit) {
            count /= 1000;
            unit = unit.saturating_sub(1);
        }
    }
    (count, unit)
}

fn is_larger_whole(count: u64, unit: usize) -> bool {
    unit > 0 && count > 0 && count % 1000 == 0
}

fn unit_name(unit: usize) -> &'static str {
    match UNITS.get(unit) {
        None => "",
        Some(name) => *name,
    }
}
