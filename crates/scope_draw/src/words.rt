//! The words of requests and of data.

use crate::span::{Span, column, sample_before};
use crate::text::{pad_to, put, put_name};
use fsb_signal::{Lines, Sample};
use scope_ring::Ring;
use std::alloc::{AllocError, Global};

/// The words that have a row.
#[derive(Clone, Copy)]
pub(crate) enum Words {
    /// REQ#, at the two clocks of a request.
    Request,
    /// A#, at these clocks, as an address of bytes.
    Address,
    /// D#, at clocks with DRDY#.
    Data,
}

/// A word as it is printed, and what it is where all of it is unknown.
#[derive(Clone, Copy)]
struct Shown {
    bits: u64,
    unknown: u64,
    whole: u64,
    /// How many digits there are at least.
    least: u8,
}

impl Words {
    fn name(self) -> &'static str {
        match self {
            Words::Request => "REQ",
            Words::Address => "A",
            Words::Data => "D",
        }
    }

    // Whether the word is shown at a clock.
    fn is_at(self, ring: &Ring, clock: u64) -> bool {
        match self {
            Words::Request | Words::Address => {
                has(ring.sample_at(clock), Lines::ADS)
                    || has(sample_before(ring, clock), Lines::ADS)
            }
            Words::Data => has(ring.sample_at(clock), Lines::DRDY),
        }
    }

    fn shown(self, sample: &Sample) -> Shown {
        match self {
            Words::Request => Shown {
                bits: sample.req.bits,
                unknown: sample.req.unknown,
                whole: (1 << 5) - 1,
                least: 2,
            },
            Words::Address => Shown {
                bits: 8 * sample.addr.bits,
                unknown: 8 * sample.addr.unknown,
                whole: (1 << 36) - 8,
                least: 1,
            },
            Words::Data => Shown {
                bits: sample.dbus.bits,
                unknown: sample.dbus.unknown,
                whole: u64::MAX,
                least: 1,
            },
        }
    }
}

fn has(sample: Option<&Sample>, line: Lines) -> bool {
    match sample {
        None => false,
        Some(sample) => sample.has(line),
    }
}

/// Appends the words, each below its clock. A word that would touch the one before it goes to a line of its own.
pub(crate) fn put_words(
    text: &mut Vec<u8>,
    alloc: Global,
    ring: &Ring,
    span: Span,
    words: Words,
) -> Result<(), AllocError> {
    let mut left = places_of(alloc, ring, span, words)?;
    let mut name = words.name();
    for _ in 0..span.count {
        if !left.is_empty() {
            left = put_line(text, alloc, ring, span, words, name, &left)?;
            name = "";
        }
    }
    Ok(())
}

// The places of the clocks at which the word is shown.
fn places_of(alloc: Global, ring: &Ring, span: Span, words: Words) -> Result<Vec<u8>, AllocError> {
    let mut places = Vec::new(alloc);
    for place in 0..span.count {
        if words.is_at(ring, span.clock(place)) {
            places.push(place)?;
        }
    }
    Ok(places)
}

// Appends a line with those of the words that have room, and answers the others.
fn put_line(
    text: &mut Vec<u8>,
    alloc: Global,
    ring: &Ring,
    span: Span,
    words: Words,
    name: &str,
    places: &[u8],
) -> Result<Vec<u8>, AllocError> {
    let mut line = Vec::new(alloc);
    let mut left = Vec::new(alloc);
    put_name(&mut line, name, "")?;
    for place in places {
        if line.len() <= column(*place) {
            pad_to(&mut line, column(*place) + 1)?;
            put_word(&mut line, words, ring.sample_at(span.clock(*place)))?;
        } else {
            left.push(*place)?;
        }
    }
    text.extend_from_slice(&line)?;
    put(text, "\n")?;
    Ok(left)
}

fn put_word(line: &mut Vec<u8>, words: Words, sample: Option<&Sample>) -> Result<(), AllocError> {
    match sample {
        None => Ok(()),
        Some(sample) => put_shown(line, words.shown(sample)),
    }
}

// Appends a word in hexadecimal, with x for each digit that has an unknown bit.
fn put_shown(line: &mut Vec<u8>, shown: Shown) -> Result<(), AllocError> {
    if shown.unknown == shown.whole {
        return put(line, "x");
    }
    let mut is_begun = false;
    for place in (0..16u8).rev() {
        let digit = digit_at(shown.bits, place);
        let unknown = digit_at(shown.unknown, place);
        is_begun = is_begun || digit != 0 || unknown != 0 || place < shown.least;
        if is_begun {
            line.push(byte_of(digit, unknown))?;
        }
    }
    Ok(())
}

// The hexadecimal digit at a place, from the lowest on.
fn digit_at(number: u64, place: u8) -> u8 {
    if place < 16 {
        ((number >> (4 * u32::from(place))) % 16) as u8
    } else {
        0
    }
}

fn byte_of(digit: u8, unknown: u8) -> u8 {
    if unknown != 0 {
        b'x'
    } else if digit < 10 {
        48 + digit
    } else {
        digit.saturating_add(87)
    }
}
