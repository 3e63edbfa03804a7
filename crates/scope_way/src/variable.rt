//! A declaration of a header as a variable.

ghost use Rattle.std.specs.Prelude.{◌≡◌, ◌++◌, ◌-◌, ◌+◌, ◌<◌, ◌≤◌, ◌==◌, length, take, is_some, IfOk, IfSome, position, ℕ};
ghost use Rattle.std.specs.List.{list_all};
ghost use Rattle.vcd_grammar.specs.Digits.{is_digit, is_number};
ghost use Rattle.vcd_way.specs.Declarations.{as_one, is_bracketed, without_backslash, after_bracket, ends_at_end, ends_in, signed_number, ranged, ranged_by_words};
ghost use Rattle.scope_way.specs.Variables.{shown_from, shown_by, dotted, written_in, ranged_text, ranged_of, known_width, declared_as, words_told, IsRanged};

use scope_pick::{Variable, Written, after_last, before_last};
use scope_wiring::range_inside;
use std::alloc::{AllocError, Global};

fn is_digit(byte: u8) -> bool
    ensures { result ≡ is_digit byte }
{
    48 <= byte && byte <= 57
}

fn is_number(word: &[u8]) -> bool
    ensures { result ≡ is_number word.now }
{
    word.len() != 0 && are_digits(word)
}

fn are_digits(word: &[u8]) -> bool
    ensures { result ≡ list_all is_digit word.now }
{
    word.iter().all(|byte| is_digit(*byte))
}

// A number, perhaps with a minus sign.
#[tactic(auto, using(crate::proofs::Ranges::signed_alone, crate::proofs::Ranges::signed_minus))]
fn is_signed(word: &[u8]) -> bool
    ensures { result ≡ is_some (signed_number word.now) }
{
    match word.split_first() {
        None => false,
        Some((first, rest)) => {
            if *first == 45 {
                is_number(rest)
            } else {
                is_number(word)
            }
        }
    }
}

fn colon(inside: &[u8]) -> Option<usize>
    ensures place { result ≡ position (λ b. b == 58) inside.now }
    ensures within { IfSome result (λ i. i < length inside.now) }
{
    inside.iter().position(|byte| *byte == 58)
}

// Two ends, or one.
#[tactic(auto, using(crate::proofs::Ranges::ends_one, crate::proofs::Ranges::ends_two))]
fn are_ends(inside: &[u8]) -> bool
    ensures { result ≡ is_some (ends_in inside.now) }
{
    match colon(inside) {
        None => is_signed(inside),
        Some(place) => is_signed(&inside[..place]) && is_signed(&inside[place + 1..]),
    }
}

#[tactic(auto, using(crate::proofs::Ranges::bracket_same))]
fn after_bracket(text: &[u8]) -> &[u8]
    ensures value { result.now ≡ after_bracket text.now }
    ensures within { length result.now ≤ length text.now }
{
    after_last(91, text)
}

// Whether the text ends with a range.
fn has_ends(text: &[u8]) -> bool
    ensures { result ≡ is_some (ends_at_end text.now) }
{
    let last = after_bracket(text);
    let count = last.len().saturating_sub(1);
    last.len() < text.len() && &last[count..] == b"]".as_slice() && are_ends(&last[..count])
}

fn before_range(text: &[u8]) -> &[u8]
    ensures { result.now ≡ take (length text.now - (length (after_bracket text.now) + 1)) text.now }
{
    let count = after_bracket(text).len();
    &text[..(text.len() - count).saturating_sub(1)]
}

fn without_backslash(text: &[u8]) -> &[u8]
    ensures { result.now ≡ without_backslash text.now }
{
    let count = text.len().saturating_sub(1);
    if &text[count..] == b"\\".as_slice() {
        &text[..count]
    } else {
        text
    }
}

fn is_bracketed(text: &[u8]) -> bool
    ensures { result ≡ is_bracketed text.now }
{
    match text.split_first() {
        None => false,
        Some((first, _)) => *first == 91,
    }
}

#[tactic(auto, unfolding(crate::specs::Variables::written_in))]
fn written_in(text: &[u8]) -> Written
    ensures { result ≡ written_in text.now }
{
    match range_inside(after_last(91, &text[..text.len().saturating_sub(1)])) {
        None => Written::Unreadable,
        Some(range) => Written::Numbers(range),
    }
}

// Words as one, with nothing between them.
fn as_one(alloc: Global, words: &[Vec<u8>]) -> Result<Vec<u8>, AllocError>
    ensures { IfOk result (λ v. v.items ≡ as_one (words_told words.now)) }
{
    let mut text = Vec::new(alloc);
    let mut rest = words;
    while let Some((word, more)) = rest.split_first() {
        text.extend_from_slice(word)?;
        rest = more;
    }
    Ok(text)
}

// Scopes, each with a dot behind it.
fn dotted(alloc: Global, path: &[Vec<u8>]) -> Result<Vec<u8>, AllocError>
    ensures { IfOk result (λ v. v.items ≡ dotted (words_told path.now)) }
{
    let mut text = Vec::new(alloc);
    let mut rest = path;
    while let Some((scope, more)) = rest.split_first() {
        text.extend_from_slice(scope)?;
        text.push(46)?;
        rest = more;
    }
    Ok(text)
}

// Scopes, each with a dot behind it, and a name.
fn full_name(alloc: Global, path: &[Vec<u8>], name: &[u8]) -> Result<Vec<u8>, AllocError>
    ensures { IfOk result (λ v. v.items ≡ dotted (words_told path.now) ++ name.now) }
{
    let mut text = dotted(alloc, path)?;
    text.extend_from_slice(name)?;
    Ok(text)
}

// The two texts, one behind the other.
fn joined(alloc: Global, first: &[u8], second: &[u8]) -> Result<Vec<u8>, AllocError>
    ensures { IfOk result (λ v. v.items ≡ first.now ++ second.now) }
{
    let mut text = Vec::from_slice(alloc, first)?;
    text.extend_from_slice(second)?;
    Ok(text)
}

#[tactic(auto, unfolding(crate::specs::Variables::known_width))]
fn known_width(width: u64) -> u32
    ensures { result ≡ known_width width }
{
    if width <= 4_294_967_295 {
        width as u32
    } else {
        4_294_967_295
    }
}

/// A name, and what is written behind it.
#[derive(Debug, Drop)]
struct NameAndRange {
    name: Vec<u8>,
    range: Written,
}

// The name and the range of a text.
fn ranged(alloc: Global, text: &[u8]) -> Result<NameAndRange, AllocError>
    ensures { IfOk result (IsRanged (ranged text.now (ends_at_end text.now)) text.now) }
{
    if has_ends(text) {
        let name = Vec::from_slice(alloc, before_range(text))?;
        Ok(NameAndRange {
            name,
            range: written_in(text),
        })
    } else {
        let name = Vec::from_slice(alloc, text)?;
        Ok(NameAndRange {
            name,
            range: Written::Absent,
        })
    }
}

// The same, where the words after a reference are to be the range.
fn ranged_by_words(alloc: Global, reference: &[u8], text: &[u8]) -> Result<NameAndRange, AllocError>
    ensures { IfOk result (IsRanged
        (ranged_by_words reference.now text.now (ends_at_end text.now)) text.now) }
{
    if has_ends(text) {
        let name = Vec::from_slice(alloc, before_range(text))?;
        Ok(NameAndRange {
            name,
            range: written_in(text),
        })
    } else {
        let name = Vec::from_slice(alloc, reference)?;
        Ok(NameAndRange {
            name,
            range: Written::Unreadable,
        })
    }
}

// The name and the range of a variable.
fn name_and_range(
    alloc: Global,
    reference: &[u8],
    after: &[Vec<u8>],
) -> Result<NameAndRange, AllocError>
    ensures { IfOk result (IsRanged
        (ranged_of reference.now (words_told after.now))
        (ranged_text reference.now (words_told after.now))) }
{
    let words = as_one(alloc, after)?;
    if is_bracketed(&words) {
        let text = joined(alloc, reference, &words)?;
        ranged_by_words(alloc, reference, without_backslash(&text))
    } else {
        ranged(alloc, without_backslash(reference))
    }
}

/// A declaration of a header as a variable: its path and name parted at their last dot, its name without its range.
pub fn variable_of(
    alloc: Global,
    path: &[Vec<u8>],
    kind: &[u8],
    width: u64,
    code: &[u8],
    reference: &[u8],
    after: &[Vec<u8>],
) -> Result<Variable, AllocError>
    ensures { (place : ℕ) → IfOk result (λ v. shown_by v ≡ shown_from (declared_as place
        (words_told path.now) kind.now width code.now reference.now (words_told after.now))) }
{
    let named = name_and_range(alloc, reference, after)?;
    let text = full_name(alloc, path, &named.name)?;
    let scope = Vec::from_slice(alloc, before_last(46, &text))?;
    let name = Vec::from_slice(alloc, after_last(46, &text))?;
    let kind = Vec::from_slice(alloc, kind)?;
    let code = Vec::from_slice(alloc, code)?;
    Ok(Variable {
        scope,
        name,
        kind,
        width: known_width(width),
        code,
        range: named.range,
    })
}
