ghost use Rattle.std.specs.Prelude.{◌≡◌, ◌<◌, ◌≤◌, ◌^◌, length, IfOk};
ghost use Rattle.fsb_script.specs.Parsing.{ReadsAs};
ghost use Rattle.fsb_script.specs.TextWords.{is_blank, skip_blanks, word_len, is_silent, next_word, is_empty, decimal_from, decimal_of, hex_digit, hex_from, hex_of, decimal_word, hex_word, decimal_within, address};

use crate::fault::Cause;
use fsb_access::ADDRESS_LIMIT;
use memchr::memchr3;

/// What each byte stands for as a hexadecimal digit; 16 where it is none.
pub(crate) static DIGITS: [u8; 256] = [
    16, 16, 16, 16, 16, 16, 16, 16, 16, 16, 16, 16, 16, 16, 16, 16, 16, 16, 16, 16, 16, 16, 16, 16,
    16, 16, 16, 16, 16, 16, 16, 16, 16, 16, 16, 16, 16, 16, 16, 16, 16, 16, 16, 16, 16, 16, 16, 16,
    0, 1, 2, 3, 4, 5, 6, 7, 8, 9, 16, 16, 16, 16, 16, 16, 16, 10, 11, 12, 13, 14, 15, 16, 16, 16,
    16, 16, 16, 16, 16, 16, 16, 16, 16, 16, 16, 16, 16, 16, 16, 16, 16, 16, 16, 16, 16, 16, 16, 10,
    11, 12, 13, 14, 15, 16, 16, 16, 16, 16, 16, 16, 16, 16, 16, 16, 16, 16, 16, 16, 16, 16, 16, 16,
    16, 16, 16, 16, 16, 16, 16, 16, 16, 16, 16, 16, 16, 16, 16, 16, 16, 16, 16, 16, 16, 16, 16, 16,
    16, 16, 16, 16, 16, 16, 16, 16, 16, 16, 16, 16, 16, 16, 16, 16, 16, 16, 16, 16, 16, 16, 16, 16,
    16, 16, 16, 16, 16, 16, 16, 16, 16, 16, 16, 16, 16, 16, 16, 16, 16, 16, 16, 16, 16, 16, 16, 16,
    16, 16, 16, 16, 16, 16, 16, 16, 16, 16, 16, 16, 16, 16, 16, 16, 16, 16, 16, 16, 16, 16, 16, 16,
    16, 16, 16, 16, 16, 16, 16, 16, 16, 16, 16, 16, 16, 16, 16, 16, 16, 16, 16, 16, 16, 16, 16, 16,
    16, 16, 16, 16, 16, 16, 16, 16, 16, 16, 16, 16, 16, 16,
];

fn is_blank(byte: u8) -> bool
    ensures { result ≡ is_blank byte }
{
    byte == b' ' || byte == b'\t' || byte == b'\r'
}

fn skip_blanks(line: &[u8]) -> &[u8]
    ensures { result.now ≡ skip_blanks line.now }
{
    for (i, byte) in line.iter().enumerate() {
        if !is_blank(*byte) {
            return &line[i..];
        }
    }
    &[]
}

fn word_len(line: &[u8]) -> usize
    ensures value { result ≡ word_len line.now }
    ensures within { result ≤ length line.now }
{
    memchr3(b' ', b'\t', b'\r', line).unwrap_or(line.len())
}

/// Whether a line has no words or is a comment.
#[tactic(auto, unfolding(crate::specs::TextWords::is_silent))]
pub(crate) fn is_silent(line: &[u8]) -> bool
    ensures { result ≡ is_silent line.now }
{
    match skip_blanks(line) {
        [] => true,
        [first, ..] => *first == b'#',
    }
}

/// The next word and what follows it.
#[tactic(auto, unfolding(crate::specs::TextWords::next_word))]
pub(crate) fn next_word(line: &[u8]) -> Result<(&[u8], &[u8]), Cause>
    ensures { ReadsAs (λ x. (x.0.now, x.1.now)) result (next_word line.now) }
{
    let line = skip_blanks(line);
    if line.is_empty() {
        return Err(Cause::Missing);
    }
    Ok(line.split_at(word_len(line)))
}

/// Whether no further word follows.
pub(crate) fn is_ended(line: &[u8]) -> bool
    ensures { result ≡ is_empty (skip_blanks line.now) }
{
    skip_blanks(line).is_empty()
}

fn decimal_digits(word: &[u8]) -> Result<u64, Cause>
    requires { length word.now ≤ 18 }
    ensures { ReadsAs (λ n. n) result (decimal_from 0 word.now) }
{
    let mut number: u64 = 0;
    for byte in word {
        if *byte < b'0' || *byte > b'9' {
            return Err(Cause::Number);
        }
        number = number * 10 + (*byte - b'0') as u64;
    }
    Ok(number)
}

#[tactic(auto, unfolding(crate::specs::TextWords::decimal_of))]
fn decimal_of(word: &[u8]) -> Result<u64, Cause>
    ensures { ReadsAs (λ n. n) result (decimal_of word.now) }
{
    if 1 <= word.len() && word.len() <= 18 {
        decimal_digits(word)
    } else {
        Err(Cause::Number)
    }
}

/// What a hexadecimal digit stands for.
#[tactic(auto, unfolding(crate::specs::TextWords::hex_digit))]
pub(crate) fn hex_digit(byte: u8) -> Result<u8, Cause>
    ensures value { ReadsAs (λ digit. digit) result (hex_digit byte) }
    ensures below { IfOk result (λ digit. digit < 16) }
{
    let digit = DIGITS[byte as usize];
    if digit < 16 {
        Ok(digit)
    } else {
        Err(Cause::Number)
    }
}

fn hex_digits(word: &[u8]) -> Result<u64, Cause>
    requires { length word.now ≤ 16 }
    ensures { ReadsAs (λ n. n) result (hex_from 0 word.now) }
{
    let mut number: u64 = 0;
    for byte in word {
        number = number * 16 + hex_digit(*byte)? as u64;
    }
    Ok(number)
}

/// A word as a hexadecimal number.
#[tactic(auto, unfolding(crate::specs::TextWords::hex_of))]
pub(crate) fn hex_of(word: &[u8]) -> Result<u64, Cause>
    ensures { ReadsAs (λ n. n) result (hex_of word.now) }
{
    if 1 <= word.len() && word.len() <= 16 {
        hex_digits(word)
    } else {
        Err(Cause::Number)
    }
}

/// The next word as a decimal number.
#[tactic(auto, unfolding(crate::specs::TextWords::decimal_word))]
pub(crate) fn decimal_word(line: &[u8]) -> Result<(u64, &[u8]), Cause>
    ensures { ReadsAs (λ x. (x.0, x.1.now)) result (decimal_word line.now) }
{
    let (word, rest) = next_word(line)?;
    Ok((decimal_of(word)?, rest))
}

/// The next word as a hexadecimal number.
#[tactic(auto, unfolding(crate::specs::TextWords::hex_word))]
pub(crate) fn hex_word(line: &[u8]) -> Result<(u64, &[u8]), Cause>
    ensures { ReadsAs (λ x. (x.0, x.1.now)) result (hex_word line.now) }
{
    let (word, rest) = next_word(line)?;
    Ok((hex_of(word)?, rest))
}

/// The next word as a decimal number from `low` to `high`.
#[tactic(auto, unfolding(crate::specs::TextWords::decimal_within))]
pub(crate) fn decimal_within(low: u64, high: u64, line: &[u8]) -> Result<(u64, &[u8]), Cause>
    ensures value { ReadsAs (λ x. (x.0, x.1.now)) result (decimal_within low high line.now) }
    ensures least { IfOk result (λ x. low ≤ x.0) }
    ensures most { IfOk result (λ x. x.0 ≤ high) }
{
    let (number, rest) = decimal_word(line)?;
    if low <= number && number <= high {
        Ok((number, rest))
    } else {
        Err(Cause::Range)
    }
}

/// The next word as a byte address.
#[tactic(auto, unfolding(crate::specs::TextWords::address))]
pub(crate) fn address(line: &[u8]) -> Result<(u64, &[u8]), Cause>
    ensures value { ReadsAs (λ x. (x.0, x.1.now)) result (address line.now) }
    ensures below { IfOk result (λ x. x.0 < 2 ^ 36) }
{
    let (number, rest) = hex_word(line)?;
    if number < ADDRESS_LIMIT {
        Ok((number, rest))
    } else {
        Err(Cause::Outside)
    }
}
