//! How long a step of a dump's time is.

ghost use Rattle.std.specs.Prelude.{◌≡◌, ◌<◌, ◌≤◌, ◌^◌, ◌*◌, ◌++◌, [], map, IfOk, IfSome, length};
ghost use Rattle.std.specs.List.{concat};
ghost use Rattle.vcd_header.specs.Told.{words_told};
ghost use Rattle.scope_time.specs.Scales.{factor_in, factor_of, femtoseconds, is_scale, place_of, scale_at, scale_in, scale_of, scale_with, step_of, text_of};

use scope_words::{Unit, read_unit};
use std::alloc::{AllocError, Global};
use vcd_header::Section;

/// How many of a unit one step is.
#[derive(Clone, Copy, Debug, PartialEq, Eq)]
pub enum Factor {
    One,
    Ten,
    Hundred,
}

/// How long one step of a dump's time is.
#[derive(Clone, Copy, Debug, PartialEq, Eq)]
pub struct Scale {
    pub factor: Factor,
    pub unit: Unit,
}

/// The number that a factor is.
pub fn factor_of(factor: Factor) -> u64
    ensures { result ≡ factor_of factor }
{
    match factor {
        Factor::One => 1,
        Factor::Ten => 10,
        Factor::Hundred => 100,
    }
}

/// How many femtoseconds a unit has.
pub fn femtoseconds(unit: Unit) -> u64
    ensures { result ≡ femtoseconds unit }
{
    match unit {
        Unit::Second => 1_000_000_000_000_000,
        Unit::Millisecond => 1_000_000_000_000,
        Unit::Microsecond => 1_000_000_000,
        Unit::Nanosecond => 1_000_000,
        Unit::Picosecond => 1_000,
        Unit::Femtosecond => 1,
    }
}

/// What the first `$timescale` of a header says; `None` where there is none, or it says nothing that is a scale.
#[tactic(auto, unfolding(crate::specs::Scales::scale_of))]
pub fn scale_of(alloc: Global, remarks: &[Section]) -> Result<Option<Scale>, AllocError>
    ensures { IfOk result (λ o. o ≡ scale_of remarks.now) }
{
    for remark in remarks {
        if is_scale(remark) {
            let text = text_of(alloc, &remark.words)?;
            return Ok(scale_in(&text));
        }
    }
    Ok(None)
}

fn is_scale(remark: &Section) -> bool
    ensures { result ≡ is_scale remark.now }
{
    remark.keyword.as_slice() == b"$timescale".as_slice()
}

// The words, one right behind the other.
fn text_of(alloc: Global, words: &[Vec<u8>]) -> Result<Vec<u8>, AllocError>
    ensures { IfOk result (λ v. v.items ≡ text_of words.now) }
{
    let mut text = Vec::new(alloc);
    for word in words {
        text.extend_from_slice(word)?;
    }
    Ok(text)
}

#[tactic(auto, unfolding(crate::specs::Scales::scale_in))]
fn scale_in(text: &[u8]) -> Option<Scale>
    ensures { result ≡ scale_in text.now }
{
    scale_at(text, place_of(text))
}

// Where the digits of a text end.
fn place_of(text: &[u8]) -> Option<usize>
    ensures value { result ≡ place_of text.now }
    ensures within { IfSome result (λ i. i < length text.now) }
{
    text.iter().position(|byte| *byte < 48 || 57 < *byte)
}

#[tactic(auto, unfolding(crate::specs::Scales::scale_at))]
fn scale_at(text: &[u8], place: Option<usize>) -> Option<Scale>
    requires { IfSome place (λ i. i < length text.now) }
    ensures { result ≡ scale_at text.now place }
{
    match place {
        None => None,
        Some(place) => scale_with(factor_in(&text[..place]), read_unit(&text[place..])),
    }
}

#[tactic(auto, unfolding(crate::specs::Scales::scale_with))]
fn scale_with(factor: Option<Factor>, unit: Option<Unit>) -> Option<Scale>
    ensures { result ≡ scale_with factor unit }
{
    match factor {
        None => None,
        Some(factor) => match unit {
            None => None,
            Some(unit) => Some(Scale { factor, unit }),
        },
    }
}

#[tactic(auto, unfolding(crate::specs::Scales::factor_in))]
fn factor_in(word: &[u8]) -> Option<Factor>
    ensures { result ≡ factor_in word.now }
{
    if word == b"1".as_slice() {
        Some(Factor::One)
    } else if word == b"10".as_slice() {
        Some(Factor::Ten)
    } else if word == b"100".as_slice() {
        Some(Factor::Hundred)
    } else {
        None
    }
}

// How many femtoseconds a step has.
pub(crate) fn step_of(scale: Scale) -> u128
    ensures value { result ≡ step_of scale }
    ensures some { 0 < result }
{
    u128::from(factor_of(scale.factor)) * u128::from(femtoseconds(scale.unit))
}
