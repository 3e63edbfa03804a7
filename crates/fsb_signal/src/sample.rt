ghost use Rattle.std.specs.Prelude.{◌≡◌, ◌^◌, ◌<◌};
ghost use Rattle.std.specs.Int.RustNames.{bit_and};

use crate::lines::Lines;

/// The bits of a bus word: which are asserted and which are unknown; no bit is both.
#[derive(Clone, Copy, Debug, PartialEq, Eq)]
pub struct Word {
    /// The bits that are asserted; bit 0 is the word's lowest line.
    pub bits: u64,
    /// The bits that are neither known to be asserted nor known not to be.
    pub unknown: u64,
    ghost disjoint: { bit_and bits unknown ≡ 0 },
}

/// What the lines of the bus have at one clock.
///
/// A sample has nothing but what the table's lines can have: no control line above bit 20, no bit of the request
/// word above 4 and none of the address word above 32. So two samples are equal exactly where every line is.
#[derive(Clone, Copy, Debug, PartialEq, Eq)]
pub struct Sample {
    /// The control lines that are asserted.
    pub lines: Lines,
    /// The control lines that are unknown; none of them is in `lines`.
    pub unknown: Lines,
    /// REQ[4:0]#, bits 0 to 4.
    pub req: Word,
    /// A[35:3]#, bits 0 to 32: bit 0 is A3#.
    pub addr: Word,
    /// D[63:0]#.
    pub dbus: Word,
    ghost disjoint: { bit_and lines.0 unknown.0 ≡ 0 },
    ghost line_bits: { lines.0 < 2 ^ 21 },
    ghost line_unknown: { unknown.0 < 2 ^ 21 },
    ghost req_bits: { req.bits < 2 ^ 5 },
    ghost req_unknown: { req.unknown < 2 ^ 5 },
    ghost addr_bits: { addr.bits < 2 ^ 33 },
    ghost addr_unknown: { addr.unknown < 2 ^ 33 },
}
