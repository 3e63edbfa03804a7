//! What the digits of a line say, sixteen of them at a time.

ghost use Rattle.std.specs.Prelude.{◌≡◌, ◌≤◌, ◌+◌, ◌==◌, [], ◌∷◌, length, take, drop, if◌then◌else◌};
ghost use Rattle.vcd_grammar.specs.Digits.{is_unknown};
ghost use Rattle.vcd_grammar.specs.Levels.{level_of, bits_from};

use crate::digits::is_unknown;
use std::simd::prelude::*;
use vcd_grammar::Level;

/// The sixteen bytes from a place on as a number, with a bit for each that is this one, the first
/// byte's the highest.
#[inline(always)]
fn equal_at(row: &[u8], at: usize, byte: u8) -> u64
    requires { at + 16 ≤ length row.now }
    ensures { result ≡ bits_from (λ b. b == byte) 0 (take 16 (drop at row.now)) }
{
    let v = u8x16::from_slice(&row[at..]).reverse();
    v.simd_eq(u8x16::splat(byte)).to_bitmask()
}

/// The sixteen bytes from a place on as a number, with a bit for each that is unknown.
#[inline(always)]
fn unknown_at(row: &[u8], at: usize) -> u64
    requires { at + 16 ≤ length row.now }
    ensures { result ≡ bits_from is_unknown 0 (take 16 (drop at row.now)) }
{
    let small = equal_at(row, at, b'x');
    let large = equal_at(row, at, b'X');
    small + large
}

/// What as many first ones of 64 digits say. Only the blocks of sixteen are read that they reach into.
#[inline(always)]
fn level_of_first(row: &[u8], width: usize) -> Level
    requires long { length row.now ≡ 64 }
    requires most { width ≤ 64 }
    ensures { result ≡ level_of (take width row.now) }
{
    let mut asserted: u64 = 0;
    let mut unknown: u64 = 0;
    let mut block: usize = 0;
    while 16 * block < width {
        let low = equal_at(row, 16 * block, b'0');
        let open = unknown_at(row, 16 * block);
        asserted = asserted * 65536 + low;
        unknown = unknown * 65536 + open;
        block += 1;
    }
    let behind = 16 * block - width;
    Level {
        asserted: asserted >> behind,
        unknown: unknown >> behind,
    }
}

/// What as many first digits of a row say: 0 is asserted, x unknown.
pub(crate) fn level_of_row(row: &[u8; 64], width: usize) -> Level
    requires { width ≤ 64 }
    ensures { result ≡ level_of (take width row.now) }
{
    level_of_first(row.as_slice(), width)
}

/// The bit, where the test holds, and none where it does not.
fn bit_if(test: bool) -> u64
    ensures { result ≡ (if test then 1 else 0) }
{
    if test { 1 } else { 0 }
}

/// What a single digit says.
#[tactic(auto, unfolding(vcd_grammar::specs::Levels::level_of))]
#[inline(always)]
pub(crate) fn level_of_digit(digit: u8) -> Level
    ensures { result ≡ level_of (digit ∷ []) }
{
    Level {
        asserted: bit_if(digit == b'0'),
        unknown: bit_if(is_unknown(digit)),
    }
}
