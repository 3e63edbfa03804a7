//! What a token says by itself.

ghost use Rattle.std.specs.Prelude.{◌≡◌, ◌≤◌, true, take, not, ◌==◌, nat_eq, length, position};
ghost use Rattle.std.specs.List.{list_all, prefix_len};
ghost use Rattle.std.specs.Cmp.Lexicographic.{pointwise};
ghost use Rattle.vcd_grammar.specs.Digits.{is_value_digit};
ghost use Rattle.vcd_grammar.specs.Words.{is_end, is_dollar, is_read_past, is_foreign_type, name_in, is_code_word};
ghost use Rattle.fsb_signal.specs.Table.{signal_number};

use crate::digits::is_value_digit;
use crate::lanes::{LANES, binary_run};
use fsb_signal::{SIGNALS, Signal};

/// Whether the token ends a section.
pub(crate) fn is_end(word: &[u8]) -> bool
    ensures { result ≡ is_end word.now }
{
    b"$end".as_slice() == word
}

/// Whether the token begins with `$`.
pub(crate) fn is_dollar(word: &[u8]) -> bool
    ensures { result ≡ is_dollar word.now }
{
    match word {
        [] => false,
        [first, ..] => *first == b'$',
    }
}

/// Whether changes stand behind the word.
#[tactic(auto, unfolding(vcd_grammar::specs::Words::is_read_past))]
pub(crate) fn is_read_past(word: &[u8]) -> bool
    ensures { result ≡ is_read_past word.now }
{
    (b"$dumpvars".as_slice() == word || b"$dumpall".as_slice() == word)
        || ((b"$dumpon".as_slice() == word || b"$dumpoff".as_slice() == word) || is_end(word))
}

/// Whether a variable of this type is no line, whatever its name.
#[tactic(auto, unfolding(vcd_grammar::specs::Words::is_foreign_type))]
pub(crate) fn is_foreign_type(word: &[u8]) -> bool
    ensures { result ≡ is_foreign_type word.now }
{
    b"real".as_slice() == word || (b"realtime".as_slice() == word || b"string".as_slice() == word)
}

/// How many bytes stand before a `[`.
fn name_len(reference: &[u8]) -> usize
    ensures value { result ≡ prefix_len (λ b. not (b == 91)) reference.now }
    ensures within { result ≤ length reference.now }
{
    for (i, byte) in reference.iter().enumerate() {
        if *byte == b'[' {
            return i;
        }
    }
    reference.len()
}

/// The name in a reference: what stands before a `[`.
fn name_in(reference: &[u8]) -> &[u8]
    ensures { result.now ≡ name_in reference.now }
{
    &reference[..name_len(reference)]
}

// The place of the first of the signals with this name.
fn place_of(signals: &[Signal], name: &[u8]) -> Option<usize>
    ensures { result ≡ position (λ s. pointwise nat_eq s.name.now name.now) signals.now }
{
    signals
        .iter()
        .position(|signal| signal.name.as_bytes() == name)
}

/// The number of the line that a reference names, if it is one.
pub(crate) fn line_in(reference: &[u8]) -> Option<u8>
    ensures { result ≡ signal_number (name_in reference.now) }
{
    let name = name_in(reference);
    let number = place_of(&SIGNALS, name)?;
    Some(number as u8)
}

/// Whether each byte may stand in a code.
pub(crate) fn is_code_word(word: &[u8]) -> bool
    ensures { result ≡ is_code_word word.now }
{
    word.iter().all(|byte| 33 <= *byte && *byte <= 126)
}

/// A number of first bytes that are digits 0 and 1, in steps of sixteen.
fn binary_len(word: &[u8]) -> usize
    ensures within { result ≤ length word.now }
    ensures digits { list_all is_value_digit (take result word.now) ≡ true }
{
    let mut at = 0;
    while LANES <= word.len() - at {
        let run = binary_run(word, at);
        if run < LANES {
            return at + run;
        }
        at += LANES;
    }
    at
}

/// Whether each byte is a digit of a value, byte by byte.
fn are_all_digits(word: &[u8]) -> bool
    ensures { result ≡ list_all is_value_digit word.now }
{
    word.iter().all(|byte| is_value_digit(*byte))
}

/// Whether each byte is a digit of a value.
pub(crate) fn are_value_digits(word: &[u8]) -> bool
    ensures { result ≡ list_all is_value_digit word.now }
{
    let at = binary_len(word);
    are_all_digits(&word[at..])
}
