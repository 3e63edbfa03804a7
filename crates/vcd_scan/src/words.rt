//! What a token says by itself.

ghost use Rattle.std.specs.Prelude.{◌≡◌, codes};
ghost use Rattle.std.specs.List.{list_all};
ghost use Rattle.vcd_grammar.specs.Digits.{is_digit, is_number, time_in};
ghost use Rattle.vcd_grammar.specs.Words.{is_read_past, same};
ghost use Rattle.vcd_way.specs.Steps.{is_like_stamp, is_unreadable};
ghost use Rattle.vcd_scan.specs.Erased.{opens_remark};

use vcd_header::{is_dollar, is_end, is_long, number_up_to};

/// The time that a stamp tells behind its number sign.
#[tactic(auto, unfolding(vcd_grammar::specs::Digits::time_in))]
pub(crate) fn time_in(digits: &[u8]) -> Option<u64>
    ensures { result ≡ time_in digits.now }
{
    if digits.len() <= 20 {
        number_up_to(u64::MAX, digits)
    } else {
        None
    }
}

/// Whether changes stand behind the word.
#[tactic(auto, unfolding(vcd_grammar::specs::Words::is_read_past))]
fn is_read_past(word: &[u8]) -> bool
    ensures { result ≡ is_read_past word.now }
{
    (b"$dumpvars".as_slice() == word || b"$dumpall".as_slice() == word)
        || ((b"$dumpon".as_slice() == word || b"$dumpoff".as_slice() == word) || is_end(word))
}

/// Whether a section opens with the word.
#[inline(always)]
pub(crate) fn opens_remark(word: &[u8]) -> bool
    ensures { result ≡ opens_remark word.now }
{
    is_dollar(word) && !(is_long(word) || is_read_past(word))
}

/// Whether the dump stops for a time there.
pub(crate) fn is_off_word(word: &[u8]) -> bool
    ensures { result ≡ same (codes "$dumpoff") word.now }
{
    b"$dumpoff".as_slice() == word
}

/// Whether it goes on there.
pub(crate) fn is_on_word(word: &[u8]) -> bool
    ensures { result ≡ same (codes "$dumpon") word.now }
{
    b"$dumpon".as_slice() == word
}

/// Whether a vector has no digits, or more than are known.
pub(crate) fn is_unreadable(digits: &[u8]) -> bool
    ensures { result ≡ is_unreadable digits.now }
{
    digits.len() == 0 || 70_000 <= digits.len()
}

/// Whether the word is a time stamp elsewhere.
pub(crate) fn is_like_stamp(word: &[u8]) -> bool
    ensures { result ≡ is_like_stamp word.now }
{
    match word {
        [] => false,
        [first, digits @ ..] => *first == b'#' && is_number(digits),
    }
}

/// Whether the word is one decimal digit or more.
fn is_number(word: &[u8]) -> bool
    ensures { result ≡ is_number word.now }
{
    word.len() != 0 && are_decimal(word)
}

/// Whether each byte is a decimal digit.
fn are_decimal(word: &[u8]) -> bool
    ensures { result ≡ list_all is_digit word.now }
{
    word.iter().all(|byte| is_digit(*byte))
}

/// Whether the byte is a decimal digit.
fn is_digit(byte: u8) -> bool
    ensures { result ≡ is_digit byte }
{
    48 <= byte && byte <= 57
}
