//! The digits of a line at the first edge.

ghost use Rattle.std.specs.Prelude.{◌≡◌, if◌then◌else◌};
ghost use Rattle.vcd_grammar.specs.Digits.{is_unknown};
ghost use Rattle.vcd_way.specs.Events.{settled_digits};

use crate::digits::is_unknown;

/// Each digit is the one before; where that is unknown, the one after.
pub(crate) fn settle_row(before: &[u8; 64], after: &[u8; 64]) -> [u8; 64]
    ensures { result ≡ settled_digits before.now after.now }
{
    let mut row = *before;
    for i in 0..64 {
        row[i] = settled_digit(before[i], after[i]);
    }
    row
}

/// The digit before; where that is unknown, the one after.
fn settled_digit(before: u8, after: u8) -> u8
    ensures { result ≡ (if is_unknown before then after else before) }
{
    if is_unknown(before) { after } else { before }
}
