ghost use Rattle.std.specs.Prelude.{◌≡◌, ◌<◌, IfOk, IfSome};
ghost use Rattle.std.specs.List.{filter_map, enumerate_from};
ghost use Rattle.scope_pick.specs.Splits.{bits};
ghost use Rattle.scope_pick.specs.Wires.{can_be, as_line, as_word, whole_at, split_at, lone_bit, unfit_line, unfit_at, unfit_lines, named_at, named_lines};

use crate::header::Header;
use crate::names::{is_exact_name, line_named};
use crate::numbering::is_wire_kind;
use crate::place::place_of;
use crate::split::{Bit, bit_at, bits};
use crate::variable::Variable;
use crate::words::Words;
use std::alloc::{AllocError, Global};

/// A variable, or a word declared bit by bit, that is named like a line of the bus.
#[derive(Clone, Copy, Debug)]
pub struct Named {
    /// The index of its declaration; of a split word, that of its first bit.
    pub index: usize,
    /// The number of the line.
    pub line: u8,
    /// The name is the line's own, and not only like it.
    pub exact: bool,
    /// The first declaration of its scope.
    pub scope: usize,
    /// The first declaration with its code; of a split word, with that of its first bit.
    pub wire: usize,
    /// It is declared bit by bit.
    pub is_split: bool,
}

/// All variables that are named like lines and cannot be them, by their type, width or range, or since other bits lack.
#[tactic(auto, unfolding(crate::specs::Wires::unfit_lines))]
pub fn unfit_lines(alloc: Global, variables: &[Variable]) -> Result<Vec<Named>, AllocError>
    ensures { IfOk result (λ v. v.items ≡ unfit_lines variables.now) }
{
    let header = Header::new(alloc, variables)?;
    let bits = bits(alloc, &header)?;
    let words = Words::new(alloc, &bits)?;
    unfit_among(alloc, &header, &words)
}

fn unfit_among(
    alloc: Global,
    header: &Header<'_>,
    words: &Words<'_>,
) -> Result<Vec<Named>, AllocError>
    ensures { IfOk result (λ v. v.items
        ≡ filter_map (λ p. unfit_at header.now words.now p.0 p.1) (enumerate_from 0 header.now)) }
{
    header
        .variables()
        .iter()
        .enumerate()
        .filter_map(|(index, variable)| unfit_at(header, words, index, variable))
        .collect(alloc)
}

/// All lines by the variables that are named like them and can be them, in the order of the header.
#[tactic(auto, unfolding(crate::specs::Wires::named_lines))]
pub fn named_lines(alloc: Global, variables: &[Variable]) -> Result<Vec<Named>, AllocError>
    ensures { IfOk result (λ v. v.items ≡ named_lines variables.now) }
{
    let header = Header::new(alloc, variables)?;
    let bits = bits(alloc, &header)?;
    let words = Words::new(alloc, &bits)?;
    named_among(alloc, &header, &words)
}

fn named_among(
    alloc: Global,
    header: &Header<'_>,
    words: &Words<'_>,
) -> Result<Vec<Named>, AllocError>
    ensures { IfOk result (λ v. v.items
        ≡ filter_map (λ p. named_at header.now words.now p.0 p.1) (enumerate_from 0 header.now)) }
{
    header
        .variables()
        .iter()
        .enumerate()
        .filter_map(|(index, variable)| named_at(header, words, index, variable))
        .collect(alloc)
}

#[tactic(auto, unfolding(crate::specs::Wires::named_at))]
fn named_at(
    header: &Header<'_>,
    words: &Words<'_>,
    index: usize,
    variable: &Variable,
) -> Option<Named>
    ensures { result ≡ named_at header.now words.now index variable.now }
{
    match whole_at(header, index, variable) {
        Some(name) => Some(name),
        None => split_at(words, bit_at(header, index, variable)),
    }
}

#[tactic(auto, unfolding(crate::specs::Wires::whole_at))]
fn whole_at(header: &Header<'_>, index: usize, variable: &Variable) -> Option<Named>
    ensures { result ≡ whole_at header.now index variable.now }
{
    match line_named(&variable.name) {
        None => None,
        Some(line) => {
            if can_be(variable, line) {
                Some(as_line(header, index, variable, line))
            } else {
                None
            }
        }
    }
}

#[tactic(auto, unfolding(crate::specs::Wires::split_at))]
fn split_at(words: &Words<'_>, bit: Option<Bit>) -> Option<Named>
    requires { IfSome bit (λ b. b.line < 22) }
    ensures { result ≡ split_at words.now bit }
{
    match bit {
        None => None,
        Some(bit) => {
            if words.is_first_bit(bit) && words.is_joined(bit) {
                Some(as_word(bit))
            } else {
                None
            }
        }
    }
}

#[tactic(auto, unfolding(crate::specs::Wires::unfit_at))]
fn unfit_at(
    header: &Header<'_>,
    words: &Words<'_>,
    index: usize,
    variable: &Variable,
) -> Option<Named>
    ensures { result ≡ unfit_at header.now words.now index variable.now }
{
    let bit = bit_at(header, index, variable);
    match bit {
        Some(bit) => lone_bit(words, Some(bit)),
        None => unfit_line(header, index, variable, line_named(&variable.name)),
    }
}

#[tactic(auto, unfolding(crate::specs::Wires::lone_bit))]
fn lone_bit(words: &Words<'_>, bit: Option<Bit>) -> Option<Named>
    requires { IfSome bit (λ b. b.line < 22) }
    ensures { result ≡ lone_bit words.now bit }
{
    match bit {
        None => None,
        Some(bit) => {
            if words.is_joined(bit) {
                None
            } else {
                Some(as_word(bit))
            }
        }
    }
}

#[tactic(auto, unfolding(crate::specs::Wires::unfit_line))]
fn unfit_line(
    header: &Header<'_>,
    index: usize,
    variable: &Variable,
    line: Option<u8>,
) -> Option<Named>
    requires { IfSome line (λ n. n < 22) }
    ensures { result ≡ unfit_line header.now index variable.now line }
{
    match line {
        None => None,
        Some(line) => {
            if can_be(variable, line) {
                None
            } else {
                Some(as_line(header, index, variable, line))
            }
        }
    }
}

#[tactic(auto, unfolding(crate::specs::Wires::as_word))]
fn as_word(bit: Bit) -> Named
    ensures { result ≡ as_word bit }
{
    Named {
        index: bit.index,
        line: bit.line,
        exact: bit.exact,
        scope: bit.scope,
        wire: bit.wire,
        is_split: true,
    }
}

#[tactic(auto, unfolding(crate::specs::Wires::as_line))]
fn as_line(header: &Header<'_>, index: usize, variable: &Variable, line: u8) -> Named
    requires { line < 22 }
    ensures { result ≡ as_line header.now index variable.now line }
{
    Named {
        index,
        line,
        exact: is_exact_name(line, &variable.name),
        scope: header.scope_number(index, variable),
        wire: header.wire_number(index, variable),
        is_split: false,
    }
}

#[tactic(auto, unfolding(crate::specs::Wires::can_be))]
fn can_be(variable: &Variable, line: u8) -> bool
    requires { line < 22 }
    ensures { result ≡ can_be variable.now line }
{
    is_wire_kind(&variable.kind) && place_of(line, variable.width, variable.range).is_some()
}
