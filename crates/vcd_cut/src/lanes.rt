//! Sixteen bytes at a time.

ghost use Rattle.std.specs.Prelude.{◌≡◌, ◌+◌, ◌≤◌, length};
ghost use Rattle.vcd_cut.specs.Cutting.{is_dark};
ghost use Rattle.vcd_cut.specs.Lanes.{first_set, IsRunOf};

use std::simd::prelude::*;

/// How many bytes are looked at together.
pub(crate) const LANES: usize = 16;

/// The place of the lowest bit that is set, and 16 where none is.
#[inline(always)]
fn first_set(mask: u64) -> usize
    ensures { result ≡ first_set mask 16 }
{
    if mask == 0 {
        LANES
    } else {
        mask.trailing_zeros() as usize
    }
}

/// How many of the sixteen bytes from a place on stand before the first white space among them.
#[inline(always)]
pub(crate) fn dark_run(bytes: &[u8], at: usize) -> usize
    requires { at + 16 ≤ length bytes.now }
    ensures { IsRunOf is_dark bytes.now at result }
{
    let v = u8x16::from_slice(&bytes[at..]);
    let is_control = v.simd_ge(u8x16::splat(9)) & v.simd_lt(u8x16::splat(14));
    let stops = is_control | v.simd_eq(u8x16::splat(b' '));
    first_set(stops.to_bitmask())
}
