//! The control lines of a sample, as a number.

ghost use Rattle.std.specs.Prelude.{◌≡◌, ◌<◌, ◌^◌, length};
ghost use Rattle.fsb_bench_view.specs.BusSample.{bits_of};

/// The number whose bits these are, the lowest one first.
pub(crate) fn bits_of(bits: &[bool]) -> u32
    requires { length bits.now < 32 }
    ensures value { result ≡ bits_of bits.now }
    ensures bound { result < 2 ^ length bits.now }
{
    let mut number = 0;
    let mut place = bits.len();
    while place > 0 {
        place -= 1;
        number = 2 * number + u32::from(bits[place]);
    }
    number
}
