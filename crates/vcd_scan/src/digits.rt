//! The digits of a value.

ghost use Rattle.std.specs.Prelude.{◌≡◌, Some, None, IfOk, if◌then◌else◌, is_some};
ghost use Rattle.std.specs.List.{list_all};
ghost use Rattle.vcd_grammar.specs.Digits.{is_value_digit};
ghost use Rattle.vcd_way.specs.Wide.{is_among, wide_digit};
ghost use Rattle.vcd_way.specs.Events.{is_known_digit};
ghost use Rattle.vcd_scan.specs.Digits.{digit_by, all_digits};

use std::alloc::AllocError;

/// Whether a byte is a digit of a strict dump.
#[inline(always)]
fn is_value_digit(byte: u8) -> bool
    ensures { result ≡ is_value_digit byte }
{
    (byte == b'0' || byte == b'1')
        || ((byte == b'x' || byte == b'X') || (byte == b'z' || byte == b'Z'))
}

/// Whether the byte is one of these.
fn is_among(bytes: &[u8], byte: u8) -> bool
    ensures { result ≡ is_among bytes.now byte }
{
    bytes.contains(&byte)
}

/// The digit that a byte means, those of VHDL among them.
#[tactic(auto, unfolding(vcd_way::specs::Wide::wide_digit))]
#[inline(always)]
fn wide_digit(byte: u8) -> Option<u8>
    ensures { result ≡ wide_digit byte }
{
    if is_value_digit(byte) {
        Some(byte)
    } else if is_among(b"uUwW-", byte) {
        Some(b'x')
    } else if is_among(b"hH", byte) {
        Some(b'1')
    } else if is_among(b"lL", byte) {
        Some(b'0')
    } else {
        None
    }
}

/// The digit that a byte means.
#[inline(always)]
pub(crate) fn digit_of(is_wide: bool, byte: u8) -> Option<u8>
    ensures { result ≡ digit_by is_wide byte }
{
    if is_wide {
        wide_digit(byte)
    } else if is_value_digit(byte) {
        Some(byte)
    } else {
        None
    }
}

/// Whether each byte is a digit.
pub(crate) fn are_digits(is_wide: bool, bytes: &[u8]) -> bool
    ensures { result ≡ list_all (λ b. is_some (digit_by is_wide b)) bytes.now }
{
    bytes.iter().all(|byte| digit_of(is_wide, *byte).is_some())
}

/// Puts the digits that bytes mean into a list, and tells whether each byte is one.
pub(crate) fn read_digits(is_wide: bool, bytes: &[u8], to: &mut Vec<u8>) -> Result<bool, AllocError>
    ensures { IfOk result (λ all. all_digits is_wide bytes.now
        ≡ (if all then Some to.new.items else None)) }
{
    if are_known(bytes) {
        to.clear();
        to.extend_from_slice(bytes)?;
        return Ok(true);
    }
    read_each(is_wide, bytes, to)
}

/// Whether each byte is 0 or 1. It looks at all of them, and so at many at once.
pub(crate) fn are_known(bytes: &[u8]) -> bool
    ensures { result ≡ list_all is_known_digit bytes.now }
{
    let mut all = true;
    for byte in bytes {
        let is_known = is_known_digit(*byte);
        all = is_known && all;
    }
    all
}

/// Whether the byte is 0 or 1.
fn is_known_digit(byte: u8) -> bool
    ensures { result ≡ is_known_digit byte }
{
    byte == b'0' || byte == b'1'
}

/// Puts the digits that bytes mean into a list one by one, and tells whether each byte is one.
fn read_each(is_wide: bool, bytes: &[u8], to: &mut Vec<u8>) -> Result<bool, AllocError>
    ensures { IfOk result (λ all. all_digits is_wide bytes.now
        ≡ (if all then Some to.new.items else None)) }
{
    to.clear();
    let mut rest = bytes;
    while let Some((byte, more)) = rest.split_first() {
        match digit_of(is_wide, *byte) {
            Some(digit) => to.push(digit)?,
            None => return Ok(false),
        }
        rest = more;
    }
    Ok(true)
}
