//! The index at the end of a name.

ghost use Rattle.std.specs.Prelude.{◌≡◌, ◌≤◌, ◌<◌, ◌+◌, ◌*◌, ◌-◌, length, IsTrue, nat_eq, reverse};
ghost use Rattle.std.specs.List.{position};
ghost use Rattle.scope_pick.specs.Splits.{is_index_digit, fits_on, index_from, index_in, after_last, before_last, opener, unclosed, index_of, indexed};

/// The number that a word is: digits alone, one or more, below a hundred million.
#[tactic(auto, unfolding(crate::specs::Splits::index_in))]
pub fn index_in(word: &[u8]) -> Option<u32>
    ensures { result ≡ index_in word.now }
{
    if word.len() == 0 {
        return None;
    }
    index_from_zero(word)
}

fn index_from_zero(word: &[u8]) -> Option<u32>
    ensures { result ≡ index_from 0 word.now }
{
    let mut number: u32 = 0;
    for byte in word {
        if !fits_on(number, *byte) {
            return None;
        }
        number = number * 10 + u32::from(*byte - 48);
    }
    Some(number)
}

#[tactic(auto, unfolding(crate::specs::Splits::fits_on, crate::specs::Splits::is_index_digit))]
fn fits_on(number: u32, byte: u8) -> bool
    ensures value { result ≡ fits_on number byte }
    ensures small { IsTrue result → number ≤ 9999999 }
    ensures digit { IsTrue result → 48 ≤ byte }
{
    48 <= byte && byte <= 57 && number <= 9_999_999
}

/// What stands behind the last such byte of a text; all of it where there is none.
#[tactic(auto, unfolding(crate::specs::Splits::after_last))]
pub fn after_last(byte: u8, text: &[u8]) -> &[u8]
    ensures value { result.now ≡ after_last byte text.now }
    ensures within { length result.now ≤ length text.now }
{
    match last_place(byte, text) {
        None => text,
        Some(count) => &text[text.len().saturating_sub(count)..],
    }
}

// How far from the end the last such byte of a text stands.
fn last_place(byte: u8, text: &[u8]) -> Option<usize>
    ensures { result ≡ position (λ b. nat_eq b byte) (reverse text.now) }
{
    text.iter().rev().position(|other| *other == byte)
}

/// What stands before the last such byte of a text; nothing where there is none.
#[tactic(auto, unfolding(crate::specs::Splits::before_last))]
pub fn before_last(byte: u8, text: &[u8]) -> &[u8]
    ensures value { result.now ≡ before_last byte text.now }
    ensures within { length result.now ≤ length text.now }
{
    let count = after_last(byte, text).len();
    &text[..(text.len() - count).saturating_sub(1)]
}

#[tactic(auto, unfolding(crate::specs::Splits::opener))]
fn opener(name: &[u8]) -> u8
    ensures { result ≡ opener name.now }
{
    if name.ends_with(b"]") {
        91
    } else if name.ends_with(b")") {
        40
    } else {
        95
    }
}

#[tactic(auto, unfolding(crate::specs::Splits::unclosed))]
fn unclosed(name: &[u8]) -> &[u8]
    ensures { result.now ≡ unclosed name.now }
{
    if opener(name) == 95 {
        name
    } else {
        &name[..name.len().saturating_sub(1)]
    }
}

/// The index at the end of a name: `[3]`, `(3)`, `_3`.
#[tactic(auto, unfolding(crate::specs::Splits::index_of))]
pub fn index_of(name: &[u8]) -> Option<u32>
    ensures { result ≡ index_of name.now }
{
    index_in(after_last(opener(name), unclosed(name)))
}

/// The name without its index.
#[tactic(auto, unfolding(crate::specs::Splits::indexed))]
pub fn indexed(name: &[u8]) -> &[u8]
    ensures { result.now ≡ indexed name.now }
{
    before_last(opener(name), unclosed(name))
}
