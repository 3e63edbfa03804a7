//! The numbers of codes: those that simulators count up get the least.

ghost use Rattle.std.specs.Prelude.{◌≡◌};
ghost use Rattle.vcd_scan.specs.CodeNumbers.{number_of};

/// Codes of more bytes have no number.
const LONGEST: usize = 9;

/// The number of a code of printable characters, the first one counting least.
#[inline(always)]
pub(crate) fn number_of(code: &[u8]) -> Option<u64>
    ensures { result ≡ number_of code.now }
{
    if LONGEST < code.len() {
        return None;
    }
    let mut number: u64 = 0;
    let mut left = code.len();
    while 0 < left {
        left -= 1;
        let byte = code[left];
        if !byte.is_ascii_graphic() {
            return None;
        }
        number = u64::from(byte - 32) + 94 * number;
    }
    Some(number)
}
