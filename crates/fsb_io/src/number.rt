//! Numbers and short texts, put behind what a vector of a fixed capacity holds.
ghost use Rattle.std.specs.Prelude.{◌≡◌, ◌≤◌, ◌<◌, ◌+◌, ◌++◌, false, length, drop};
ghost use Rattle.std.specs.Fmt.{decimal, digit_glyph};
ghost use Rattle.arrayvec.specs.ArrayVec.{array_vec_len};
ghost use Rattle.fsb_io.specs.NumberText.{hexadecimal};

use arrayvec::ArrayVec;
use itoa::Buffer;

/// One printed line, with its line feed: at most 256 bytes.
pub type Line = ArrayVec<u8, 256>;

/// Appends `bytes`.
pub fn put_bytes<const N: usize>(to: &mut ArrayVec<u8, N>, bytes: &[u8])
    requires { array_vec_len to.old + length bytes.now ≤ N }
    ensures items { to.new.items ≡ to.old.items ++ bytes.now }
    ensures len { array_vec_len to.new ≡ array_vec_len to.old + length bytes.now }
{
    to.try_extend_from_slice(bytes).unwrap()
}

/// Appends `text`.
pub fn put_text<const N: usize>(to: &mut ArrayVec<u8, N>, text: &str)
    requires { array_vec_len to.old + length text.now ≤ N }
    ensures items { to.new.items ≡ to.old.items ++ text.now }
    ensures len { array_vec_len to.new ≡ array_vec_len to.old + length text.now }
{
    put_bytes(to, text.as_bytes());
}

/// Appends `n` in decimal, with no leading zeros. There is room for 20 bytes.
pub fn put_decimal<const N: usize>(to: &mut ArrayVec<u8, N>, n: u64)
    requires { array_vec_len to.old + 20 ≤ N }
    ensures items { to.new.items ≡ to.old.items ++ decimal n }
    ensures len { array_vec_len to.new ≡ array_vec_len to.old + length (decimal n) }
    ensures at_most { array_vec_len to.new ≤ array_vec_len to.old + 20 }
{
    let mut buffer = Buffer::new();
    put_text(to, buffer.format(n));
}

/// Appends `n` in hexadecimal, in lower case and with no leading zeros. There is room for 20
/// bytes; at most 16 are needed.
pub fn put_hex<const N: usize>(to: &mut ArrayVec<u8, N>, n: u64)
    requires { array_vec_len to.old + 20 ≤ N }
    ensures items { to.new.items ≡ to.old.items ++ hexadecimal n }
    ensures len { array_vec_len to.new ≡ array_vec_len to.old + length (hexadecimal n) }
    ensures at_most { array_vec_len to.new ≤ array_vec_len to.old + 16 }
{
    let mut digits = [0; 16];
    let start = write_hex(n, &mut digits);
    put_bytes(to, &digits[start..]);
}

/// Writes `n` in hexadecimal so that it ends where `digits` ends, and answers where it starts.
fn write_hex(n: u64, digits: &mut [u8; 16]) -> usize
    ensures within { result ≤ 16 }
    ensures written { drop result digits.new ≡ hexadecimal n }
{
    let mut start = 15;
    let mut left = n;
    while left >= 16 {
        digits[start] = hex_digit((left % 16) as u8);
        start -= 1;
        left /= 16;
    }
    digits[start] = hex_digit(left as u8);
    start
}

/// The digit of a value below 16.
fn hex_digit(value: u8) -> u8
    requires { value < 16 }
    ensures { result ≡ digit_glyph false value }
{
    if value < 10 {
        b'0' + value
    } else {
        b'a' + (value - 10)
    }
}
