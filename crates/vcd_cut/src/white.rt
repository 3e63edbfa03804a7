//! White space.

ghost use Rattle.std.specs.Prelude.{◌≡◌, ◌<◌, ◌≤◌, ◌+◌, length, take, true, slice_index, IfSome};
ghost use Rattle.std.specs.List.{list_all};
ghost use Rattle.vcd_grammar.specs.Tokens.{is_white};
ghost use Rattle.vcd_cut.specs.Cutting.{is_dark};
ghost use Rattle.vcd_cut.specs.Standing.{BeginsWithWord};

use crate::lanes::{LANES, dark_run};
use crate::run::LONGEST;

/// Whether a byte divides tokens.
pub(crate) fn is_white(byte: u8) -> bool
    ensures { result ≡ is_white byte }
{
    byte <= b' ' && (byte == b' ' || 9 <= byte && byte <= 13)
}

/// How many bytes the word has with which the bytes begin, where white space stands behind it.
#[inline(always)]
pub fn whole_word(bytes: &[u8]) -> Option<usize>
    ensures { IfSome result (λ len. BeginsWithWord bytes.now len) }
{
    let len = span_len(bytes);
    if len == 0 || LONGEST < len || bytes.len() <= len {
        return None;
    }
    Some(len)
}

/// The same for a word of less than sixteen bytes, looked at byte by byte.
#[inline(always)]
#[tactic(auto, using(std::proofs::lemmas::List::Folds::list_all_more))]
pub fn short_word(bytes: &[u8]) -> Option<usize>
    ensures { IfSome result (λ len. BeginsWithWord bytes.now len) }
{
    let few = if bytes.len() < LANES {
        bytes.len()
    } else {
        LANES
    };
    for i in 0..few {
        if is_white(bytes[i]) {
            return if i == 0 { None } else { Some(i) };
        }
    }
    None
}

/// How many bytes stand before the first white space.
#[inline(always)]
pub(crate) fn span_len(bytes: &[u8]) -> usize
    ensures within { result ≤ length bytes.now }
    ensures dark { list_all is_dark (take result bytes.now) ≡ true }
    ensures white { result < length bytes.now → is_white (slice_index bytes.now result) ≡ true }
{
    let mut at = 0;
    while LANES <= bytes.len() - at {
        let run = dark_run(bytes, at);
        if run < LANES {
            return at + run;
        }
        at += LANES;
    }
    span_len_from(bytes, at)
}

/// How many bytes stand before the first white space, where so many were seen to.
#[tactic(auto, using(std::proofs::lemmas::List::Folds::list_all_more))]
fn span_len_from(bytes: &[u8], at: usize) -> usize
    requires seen { at ≤ length bytes.now }
    requires dark { list_all is_dark (take at bytes.now) ≡ true }
    ensures within { result ≤ length bytes.now }
    ensures dark { list_all is_dark (take result bytes.now) ≡ true }
    ensures white { result < length bytes.now → is_white (slice_index bytes.now result) ≡ true }
{
    for i in at..bytes.len() {
        if is_white(bytes[i]) {
            return i;
        }
    }
    bytes.len()
}
