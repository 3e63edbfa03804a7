//! Single digits of a value.

ghost use Rattle.std.specs.Prelude.{◌≡◌, ◌<◌, ◌≤◌, ◌+◌, length, slice_index};
ghost use Rattle.vcd_grammar.specs.Digits.{is_unknown, is_open, pad_of, extended};
ghost use Rattle.vcd_way.specs.Events.{inverted_digit, inverted_if, run_of};

use vcd_way::{BitRun, Tap};

/// Whether a digit is x.
pub(crate) fn is_unknown(byte: u8) -> bool
    ensures { result ≡ is_unknown byte }
{
    byte == b'x' || byte == b'X'
}

fn is_open(byte: u8) -> bool
    ensures { result ≡ is_open byte }
{
    byte == b'z' || byte == b'Z'
}

/// The digit that is put before a value that is too short, by its first digit.
fn pad_of(first: u8) -> u8
    ensures { result ≡ pad_of first }
{
    if is_unknown(first) || is_open(first) {
        first
    } else {
        b'0'
    }
}

/// The digit that is put before these.
pub(crate) fn pad_before(digits: &[u8]) -> u8
    ensures { result ≡ pad_of (slice_index digits.now 0) }
{
    match digits {
        [] => b'0',
        [first, ..] => pad_of(*first),
    }
}

/// 0 and 1, each for the other.
fn inverted(digit: u8) -> u8
    ensures { result ≡ inverted_digit digit }
{
    if digit == b'0' {
        b'1'
    } else if digit == b'1' {
        b'0'
    } else {
        digit
    }
}

/// A digit of a value that is extended to a width, from the left.
#[inline(always)]
fn extended_at(width: usize, digits: &[u8], at: usize) -> u8
    requires fits { length digits.now ≤ width }
    requires within { at < width }
    ensures { result ≡ slice_index (extended width digits.now) at }
{
    let missing = width - digits.len();
    if at < missing {
        pad_before(digits)
    } else {
        digits[at - missing]
    }
}

/// A digit of a tap that gets a value, from the left.
#[inline(always)]
pub(crate) fn tap_digit(tap: &Tap, digits: &[u8], at: usize) -> u8
    requires fits { length digits.now ≤ tap.now.width }
    requires within { at < tap.now.width }
    ensures { result ≡ slice_index (inverted_if tap.now.inverted (extended tap.now.width digits.now)) at }
{
    let digit = extended_at(tap.width as usize, digits, at);
    if tap.inverted { inverted(digit) } else { digit }
}

/// A digit of a run of a tap's bits, from the left as they stand in the line.
pub(crate) fn run_digit(tap: &Tap, run: &BitRun, digits: &[u8], at: usize) -> u8
    requires fits { length digits.now ≤ tap.now.width }
    requires run { run.now.low + run.now.count ≤ tap.now.width }
    requires within { at < run.now.count }
    ensures { result ≡ slice_index
        (run_of run.now (inverted_if tap.now.inverted (extended tap.now.width digits.now))) at }
{
    let count = run.count as usize;
    let first = tap.width as usize - (run.low as usize + count);
    if run.is_turned {
        tap_digit(tap, digits, first + (count - 1 - at))
    } else {
        tap_digit(tap, digits, first + at)
    }
}
