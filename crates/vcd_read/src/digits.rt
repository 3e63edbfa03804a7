//! Numbers, and the digits of a value.

ghost use Rattle.std.specs.Prelude.{◌≡◌, ◌≤◌, ◌<◌, ◌+◌, ◌-◌, ◌*◌, ◌^◌, length, IfSome, IfNone};
ghost use Rattle.vcd_grammar.specs.Tokens.{is_white, is_long};
ghost use Rattle.vcd_grammar.specs.Digits.{is_digit, number_up_to, width_in, time_in, is_unknown, is_open, is_value_digit, pad_of};
ghost use Rattle.vcd_read.specs.Direct.{BeginsWithNumber};

/// A token of more bytes is too long.
pub(crate) const LONGEST: usize = 70_000;

/// Whether a byte divides tokens.
pub(crate) fn is_white(byte: u8) -> bool
    ensures { result ≡ is_white byte }
{
    byte <= b' ' && (byte == b' ' || 9 <= byte && byte <= 13)
}

/// Whether a byte divides tokens, where it mostly does: a line feed and a space are looked for first.
#[inline(always)]
pub(crate) fn is_gap(byte: u8) -> bool
    ensures { result ≡ is_white byte }
{
    byte == b'\n' || byte == b' ' || is_white(byte)
}

/// Whether a word is too long for a token.
pub(crate) fn is_long(word: &[u8]) -> bool
    ensures { result ≡ is_long word.now }
{
    LONGEST < word.len()
}

fn is_digit(byte: u8) -> bool
    ensures { result ≡ is_digit byte }
{
    48 <= byte && byte <= 57
}

/// The number with one more digit, where it fits.
fn next_number(number: u64, byte: u8) -> Option<u64>
    requires { 48 ≤ byte }
    ensures fits { IfSome result (λ n. n ≡ number * 10 + (byte - 48)) }
    ensures past { IfNone result (2 ^ 64 ≤ number * 10 + (byte - 48)) }
{
    let tens = number.checked_mul(10)?;
    tens.checked_add(u64::from(byte - 48))
}

/// The decimal number that a short word is, where it is one and not above the limit: 15 digits make no number too large.
fn short_number_up_to(limit: u64, word: &[u8]) -> Option<u64>
    requires some { 0 < length word.now }
    requires short { length word.now ≤ 15 }
    ensures { result ≡ number_up_to limit word.now }
{
    let mut number: u64 = 0;
    for byte in word {
        if !is_digit(*byte) {
            return None;
        }
        number = number * 10 + u64::from(*byte - 48);
    }
    if number <= limit { Some(number) } else { None }
}

/// The decimal number that a word is, where it is one and not above the limit.
fn number_up_to(limit: u64, word: &[u8]) -> Option<u64>
    ensures { result ≡ number_up_to limit word.now }
{
    if word.is_empty() {
        return None;
    }
    if word.len() <= 15 {
        return short_number_up_to(limit, word);
    }
    let mut number: u64 = 0;
    for byte in word {
        if !is_digit(*byte) {
            return None;
        }
        match next_number(number, *byte) {
            Some(more) => number = more,
            None => return None,
        }
    }
    if number <= limit { Some(number) } else { None }
}

/// How many decimal digits a text begins with, and the number that they are, where there are 15 at most and the text goes on.
pub(crate) fn number_before(text: &[u8]) -> Option<(usize, u64)>
    ensures { IfSome result (λ n. BeginsWithNumber text.now n.0 n.1) }
{
    let mut number: u64 = 0;
    for (i, byte) in text.iter().enumerate() {
        if !is_digit(*byte) {
            return Some((i, number));
        }
        if i == 15 {
            return None;
        }
        number = number * 10 + u64::from(*byte - 48);
    }
    None
}

/// The width that a declaration tells.
pub(crate) fn width_in(word: &[u8]) -> Option<u64>
    ensures { result ≡ width_in word.now }
{
    number_up_to(1_000_000, word)
}

/// The time that a stamp tells behind its number sign.
#[tactic(auto, unfolding(vcd_grammar::specs::Digits::time_in))]
pub(crate) fn time_in(digits: &[u8]) -> Option<u64>
    ensures { result ≡ time_in digits.now }
{
    if digits.len() <= 20 {
        number_up_to(u64::MAX, digits)
    } else {
        None
    }
}

/// Whether a digit is x.
pub(crate) fn is_unknown(byte: u8) -> bool
    ensures { result ≡ is_unknown byte }
{
    byte == b'x' || byte == b'X'
}

fn is_open(byte: u8) -> bool
    ensures { result ≡ is_open byte }
{
    byte == b'z' || byte == b'Z'
}

/// Whether a byte is a digit of a value.
pub(crate) fn is_value_digit(byte: u8) -> bool
    ensures { result ≡ is_value_digit byte }
{
    (byte == b'0' || byte == b'1') || (is_unknown(byte) || is_open(byte))
}

/// The digit that is put before a value that is too short, by its first digit.
pub(crate) fn pad_of(first: u8) -> u8
    ensures { result ≡ pad_of first }
{
    if is_unknown(first) || is_open(first) {
        first
    } else {
        b'0'
    }
}
