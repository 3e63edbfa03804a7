//! The texts by which a user names lines, variables and bits.

ghost use Rattle.std.specs.Prelude.{◌≡◌, ◌<◌, ◌-◌, length, take, nat_eq, IfOk, IfSome, position, option_map};
ghost use Rattle.std.specs.List.{list_any};
ghost use Rattle.scope_wiring.specs.Texts.{has_byte, is_escape, bare_from, is_same_path, said, said_at, said_of, scope_path, range_with, range_inside, bits_named, before_bits, Said};
ghost use Rattle.scope_wiring.specs.Settling.{said_by};

use scope_pick::{Range, after_last, before_last, index_in, line_named};
use std::alloc::{AllocError, Global};

/// A variable that the user names as a line.
#[derive(Debug, Drop)]
pub struct LineOption {
    /// The number of the line.
    pub line: u8,
    /// The wire is active high.
    pub inverted: bool,
    /// A path or a name, perhaps with bits behind it.
    pub target: Vec<u8>,
}

/// What a text `LINE=[!]TARGET` says; `None` where it names no line or no variable.
#[tactic(auto, unfolding(crate::specs::Texts::said))]
pub fn line_option(alloc: Global, text: &[u8]) -> Result<Option<LineOption>, AllocError>
    ensures { IfOk result (λ o. option_map said_by o ≡ said text.now) }
{
    said_at(alloc, text, equals_sign(text))
}

fn equals_sign(text: &[u8]) -> Option<usize>
    ensures value { result ≡ position (λ b. nat_eq b 61) text.now }
    ensures within { IfSome result (λ i. i < length text.now) }
{
    text.iter().position(|byte| *byte == 61)
}

#[tactic(auto, unfolding(crate::specs::Texts::said_at))]
fn said_at(
    alloc: Global,
    text: &[u8],
    place: Option<usize>,
) -> Result<Option<LineOption>, AllocError>
    requires { IfSome place (λ i. i < length text.now) }
    ensures { IfOk result (λ o. option_map said_by o ≡ said_at text.now place) }
{
    match place {
        None => Ok(None),
        Some(place) => said_of(alloc, line_named(&text[..place]), &text[place + 1..]),
    }
}

#[tactic(auto, unfolding(crate::specs::Texts::said_of))]
fn said_of(alloc: Global, line: Option<u8>, text: &[u8]) -> Result<Option<LineOption>, AllocError>
    ensures { IfOk result (λ o. option_map said_by o ≡ said_of line text.now) }
{
    let inverted = text.starts_with(b"!");
    let target = if inverted {
        &text[text.len().min(1)..]
    } else {
        text
    };
    match line {
        None => Ok(None),
        Some(line) => {
            if target.len() == 0 {
                return Ok(None);
            }
            let target = Vec::from_slice(alloc, target)?;
            Ok(Some(LineOption {
                line,
                inverted,
                target,
            }))
        }
    }
}

#[tactic(auto, unfolding(crate::specs::Texts::has_byte))]
pub(crate) fn has_byte(byte: u8, text: &[u8]) -> bool
    ensures { result ≡ has_byte byte text.now }
{
    text.iter().any(|other| *other == byte)
}

/// The scope that a text names: its path, or a dot for the root.
#[tactic(auto, unfolding(crate::specs::Texts::scope_path))]
pub(crate) fn scope_path(text: &[u8]) -> &[u8]
    ensures { result.now ≡ scope_path text.now }
{
    if text == b".".as_slice() {
        b"".as_slice()
    } else {
        text
    }
}

#[tactic(auto, unfolding(crate::specs::Texts::is_escape))]
fn is_escape(byte: u8) -> bool
    ensures { result ≡ is_escape byte }
{
    byte == 92 || byte == 32
}

// The path from its first byte on that no escaped name adds.
fn bare_from(path: &[u8]) -> &[u8]
    ensures { result.now ≡ bare_from path.now }
{
    let mut rest = path;
    while let Some((byte, more)) = rest.split_first() {
        if !is_escape(*byte) {
            return rest;
        }
        rest = more;
    }
    rest
}

/// Whether the paths are the same, whichever of their names are escaped.
pub(crate) fn is_same_path(one: &[u8], other: &[u8]) -> bool
    ensures { result ≡ is_same_path one.now other.now }
{
    let mut left = bare_from(one);
    let mut right = bare_from(other);
    while let Some((byte, more)) = left.split_first() {
        match right.split_first() {
            None => return false,
            Some((same, rest)) => {
                if *byte != *same {
                    return false;
                }
                left = bare_from(more);
                right = bare_from(rest);
            }
        }
    }
    right.is_empty()
}

#[tactic(auto, unfolding(crate::specs::Texts::range_with))]
fn range_with(left: Option<u32>, right: Option<u32>) -> Option<Range>
    ensures { result ≡ range_with left right }
{
    match left {
        None => None,
        Some(left) => match right {
            None => None,
            Some(right) => Some(Range { left, right }),
        },
    }
}

/// The indices between two brackets: `i` or `i:j`.
#[tactic(auto, unfolding(crate::specs::Texts::range_inside))]
pub fn range_inside(text: &[u8]) -> Option<Range>
    ensures { result ≡ range_inside text.now }
{
    if has_byte(58, text) {
        range_with(
            index_in(before_last(58, text)),
            index_in(after_last(58, text)),
        )
    } else {
        range_with(index_in(text), index_in(text))
    }
}

/// The bits that a text names at its end, as `[35:3]`.
#[tactic(auto, unfolding(crate::specs::Texts::bits_named))]
pub(crate) fn bits_named(text: &[u8]) -> Option<Range>
    ensures { result ≡ bits_named text.now }
{
    if text.ends_with(b"]") && has_byte(91, text) {
        range_inside(after_last(91, but_last(text)))
    } else {
        None
    }
}

fn but_last(text: &[u8]) -> &[u8]
    ensures { result.now ≡ take (length text.now - 1) text.now }
{
    &text[..text.len().saturating_sub(1)]
}

/// The text before them.
#[tactic(auto, unfolding(crate::specs::Texts::before_bits))]
pub(crate) fn before_bits(text: &[u8]) -> &[u8]
    ensures { result.now ≡ before_bits text.now }
{
    before_last(91, text)
}
