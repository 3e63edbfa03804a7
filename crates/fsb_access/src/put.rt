//! The number that a store puts.

ghost use Rattle.std.specs.Prelude.{◌≡◌, ◌*◌, ◌%◌, ◌^◌, IsTrue};
ghost use Rattle.fsb_access.specs.Access.{is_size};
ghost use Rattle.fsb_access.specs.Replay.{put_of};

use crate::access::Operand;

/// The number that a store of so many bytes puts, given the value that its agent loaded last.
pub fn number_put(size: u8, last: u64, value: &Operand) -> u64
    requires { IsTrue (is_size size) }
    ensures { result ≡ put_of size last value.now }
{
    match value {
        Operand::Literal(number) => *number,
        Operand::LastPlus(number) => cut(size, last.wrapping_add(*number)),
    }
}

/// A number cut to so many bytes, the lowest ones.
pub fn cut(size: u8, number: u64) -> u64
    requires { IsTrue (is_size size) }
    ensures { result ≡ number % 2 ^ (8 * size) }
{
    match size {
        1 => number % 0x100,
        2 => number % 0x1_0000,
        4 => number % 0x1_0000_0000,
        _ => number,
    }
}
