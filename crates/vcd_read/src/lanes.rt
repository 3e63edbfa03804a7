//! Sixteen bytes at a time.

ghost use Rattle.std.specs.Prelude.{◌≡◌, ◌+◌, ◌≤◌, ◌==◌, length, take, drop};
ghost use Rattle.vcd_grammar.specs.Levels.{bits_from, is_low};
ghost use Rattle.vcd_read.specs.Scanning.{is_dark};
ghost use Rattle.vcd_read.specs.Lanes.{first_set, is_binary, IsRunOf, BeginsWithBinary};

use std::simd::prelude::*;

/// How many bytes are looked at together.
pub(crate) const LANES: usize = 16;

/// The place of the lowest bit that is set, and 16 where none is.
#[inline(always)]
fn first_set(mask: u64) -> usize
    ensures { result ≡ first_set mask 16 }
{
    if mask == 0 {
        LANES
    } else {
        mask.trailing_zeros() as usize
    }
}

/// How many of the sixteen bytes from a place on stand before the first white space among them.
#[inline(always)]
pub(crate) fn dark_run(bytes: &[u8], at: usize) -> usize
    requires { at + 16 ≤ length bytes.now }
    ensures { IsRunOf is_dark bytes.now at result }
{
    let v = u8x16::from_slice(&bytes[at..]);
    let is_control = v.simd_ge(u8x16::splat(9)) & v.simd_lt(u8x16::splat(14));
    let stops = is_control | v.simd_eq(u8x16::splat(b' '));
    first_set(stops.to_bitmask())
}

/// The sixteen bytes from a place on as a number, with a bit for each that is 0, the first byte's
/// the highest.
#[inline(always)]
pub(crate) fn zeros_at(bytes: &[u8], at: usize) -> u64
    requires { at + 16 ≤ length bytes.now }
    ensures { result ≡ bits_from is_low 0 (take 16 (drop at bytes.now)) }
{
    let v = u8x16::from_slice(&bytes[at..]).reverse();
    v.simd_eq(u8x16::splat(b'0')).to_bitmask()
}

/// How many of the sixteen bytes from a place on stand before the first that is neither 0 nor 1.
#[inline(always)]
pub(crate) fn binary_run(bytes: &[u8], at: usize) -> usize
    requires { at + 16 ≤ length bytes.now }
    ensures { IsRunOf is_binary bytes.now at result }
{
    let v = u8x16::from_slice(&bytes[at..]);
    let stops = v.simd_ne(u8x16::splat(b'0')) & v.simd_ne(u8x16::splat(b'1'));
    first_set(stops.to_bitmask())
}

/// How many of the sixteen bytes from a place on stand before the first that is not 1.
#[inline(always)]
fn one_run(bytes: &[u8], at: usize) -> usize
    requires { at + 16 ≤ length bytes.now }
    ensures { IsRunOf (λ b. b == 49) bytes.now at result }
{
    let v = u8x16::from_slice(&bytes[at..]);
    first_set(v.simd_ne(u8x16::splat(b'1')).to_bitmask())
}

/// What `binary_run` and `zeros_at` answer of the sixteen bytes from a place on; a block of ones is seen at once.
#[inline(always)]
fn block_at(bytes: &[u8], at: usize) -> (usize, u64)
    requires { at + 16 ≤ length bytes.now }
    ensures run { IsRunOf is_binary bytes.now at result.0 }
    ensures zeros { result.1 ≡ bits_from is_low 0 (take 16 (drop at bytes.now)) }
{
    if one_run(bytes, at) == LANES {
        (LANES, 0)
    } else {
        (binary_run(bytes, at), zeros_at(bytes, at))
    }
}

/// How many digits 0 and 1 a text begins with, 64 at most, and as a number with a bit for each that
/// is 0, the first one's the highest.
#[inline(always)]
pub(crate) fn binary_before(text: &[u8]) -> (usize, u64)
    requires { 64 ≤ length text.now }
    ensures { BeginsWithBinary text.now result.0 result.1 }
{
    let mut zeros: u64 = 0;
    for block in 0..4 {
        let at = LANES * block;
        let (run, bits) = block_at(text, at);
        if run < LANES {
            return (at + run, (zeros << run) + (bits >> (LANES - run)));
        }
        zeros = zeros * 65536 + bits;
    }
    (64, zeros)
}
