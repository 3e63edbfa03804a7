//! Words of the bus that a dump declares bit by bit.

ghost use Rattle.std.specs.Prelude.{◌≡◌, ◌≤◌, ◌||◌, ◌+◌, nat_le, IfOk, IfSome, ◌<◌};
ghost use Rattle.std.specs.List.{list_all, list_any, find};
ghost use Rattle.scope_pick.specs.Places.{line_width};
ghost use Rattle.scope_pick.specs.Splits.{bit_called, bit_by_name, bit_by_range, bit_name, bit_at, bits, is_of_word, is_bit_of, bit_in, is_other_bit, has_bit, has_bits_from, base_of, is_joined, is_first_bit};

use crate::header::Header;
use crate::index::{index_of, indexed};
use crate::names::{is_exact_name, line_named, without_escape};
use crate::numbering::is_wire_kind;
use crate::place::{is_multi_bit, line_width, lowest_index};
use crate::variable::{Variable, Written};
use std::alloc::{AllocError, Global};

/// A bit of a word of the bus.
#[derive(Clone, Copy, Debug)]
pub struct BitName {
    /// The number of the word's line.
    pub line: u8,
    pub number: u32,
    /// The word's name is the line's own, and not only like it.
    pub exact: bool,
}

/// A variable of one bit that is named like a bit of a word.
#[derive(Clone, Copy, Debug)]
pub struct Bit {
    /// The index of its declaration.
    pub index: usize,
    pub line: u8,
    pub number: u32,
    pub exact: bool,
    /// The first declaration of its scope.
    pub scope: usize,
    /// The first declaration with its code.
    pub wire: usize,
}

/// The numbers of the bits of the widest word.
pub(crate) const BIT_NUMBERS: [u8; 64] = [
    0, 1, 2, 3, 4, 5, 6, 7, 8, 9, 10, 11, 12, 13, 14, 15, 16, 17, 18, 19, 20, 21, 22, 23, 24, 25,
    26, 27, 28, 29, 30, 31, 32, 33, 34, 35, 36, 37, 38, 39, 40, 41, 42, 43, 44, 45, 46, 47, 48, 49,
    50, 51, 52, 53, 54, 55, 56, 57, 58, 59, 60, 61, 62, 63,
];

/// All variables that are bits of words, in the order of the header.
#[tactic(auto, unfolding(crate::specs::Splits::bits))]
pub fn bits(alloc: Global, header: &Header<'_>) -> Result<Vec<Bit>, AllocError>
    ensures { IfOk result (λ v. v.items ≡ bits header.now) }
{
    header
        .variables()
        .iter()
        .enumerate()
        .filter_map(|(index, variable)| bit_at(header, index, variable))
        .collect(alloc)
}

/// The variable as a bit of a word, if it has one bit and is named like one.
#[tactic(auto, unfolding(crate::specs::Splits::bit_at))]
pub fn bit_at(header: &Header<'_>, index: usize, variable: &Variable) -> Option<Bit>
    ensures value { result ≡ bit_at header.now index variable.now }
    ensures line { IfSome result (λ b. b.line < 22) }
{
    match bit_name(&variable.name, variable.range) {
        None => None,
        Some(bit) => {
            if variable.width == 1 && is_wire_kind(&variable.kind) {
                Some(Bit {
                    index,
                    line: bit.line,
                    number: bit.number,
                    exact: bit.exact,
                    scope: header.scope_number(index, variable),
                    wire: header.wire_number(index, variable),
                })
            } else {
                None
            }
        }
    }
}

/// The bit of a word that a name and what is written behind it stand for.
#[tactic(auto, unfolding(crate::specs::Splits::bit_name))]
pub fn bit_name(name: &[u8], range: Written) -> Option<BitName>
    ensures value { result ≡ bit_name name.now range }
    ensures line { IfSome result (λ b. b.line < 22) }
{
    match bit_by_range(name, range) {
        Some(bit) => Some(bit),
        None => bit_by_name(without_escape(name)),
    }
}

#[tactic(auto, unfolding(crate::specs::Splits::bit_by_range))]
fn bit_by_range(name: &[u8], range: Written) -> Option<BitName>
    ensures value { result ≡ bit_by_range name.now range }
    ensures line { IfSome result (λ b. b.line < 22) }
{
    match range {
        Written::Absent => None,
        Written::Unreadable => None,
        Written::Numbers(range) => {
            if range.left == range.right {
                bit_called(name, line_named(name), range.left)
            } else {
                None
            }
        }
    }
}

#[tactic(auto, unfolding(crate::specs::Splits::bit_by_name))]
fn bit_by_name(name: &[u8]) -> Option<BitName>
    ensures value { result ≡ bit_by_name name.now }
    ensures line { IfSome result (λ b. b.line < 22) }
{
    match index_of(name) {
        None => None,
        Some(number) => bit_called(indexed(name), line_named(indexed(name)), number),
    }
}

#[tactic(auto, unfolding(crate::specs::Splits::bit_called))]
fn bit_called(name: &[u8], line: Option<u8>, number: u32) -> Option<BitName>
    requires { IfSome line (λ n. n < 22) }
    ensures value { result ≡ bit_called name.now line number }
    ensures line { IfSome result (λ b. b.line < 22) }
{
    match line {
        None => None,
        Some(line) => {
            if is_multi_bit(line) {
                Some(BitName {
                    line,
                    number,
                    exact: is_exact_name(line, name),
                })
            } else {
                None
            }
        }
    }
}

#[tactic(auto, unfolding(crate::specs::Splits::is_of_word))]
fn is_of_word(one: Bit, other: Bit) -> bool
    ensures { result ≡ is_of_word one other }
{
    other.scope == one.scope
        && other.line == one.line
        && (other.exact && one.exact || !other.exact && !one.exact)
}

#[tactic(auto, unfolding(crate::specs::Splits::is_bit_of))]
fn is_bit_of(one: Bit, number: u32, other: Bit) -> bool
    ensures { result ≡ is_bit_of one number other }
{
    is_of_word(one, other) && other.number == number
}

/// The first bit of this number of the same word.
#[tactic(auto, unfolding(crate::specs::Splits::bit_in))]
pub fn bit_in(bits: &[Bit], bit: Bit, number: u32) -> Option<Bit>
    ensures { result ≡ bit_in bits.now bit number }
{
    bits.iter()
        .copied()
        .find(|other| is_bit_of(bit, number, *other))
}

#[tactic(auto, unfolding(crate::specs::Splits::is_other_bit))]
fn is_other_bit(one: Bit, other: Bit) -> bool
    ensures { result ≡ is_other_bit one other }
{
    is_bit_of(one, one.number, other) && other.wire != one.wire
}

fn has_other_bit(bits: &[Bit], bit: Bit) -> bool
    ensures { result ≡ list_any (is_other_bit bit) bits.now }
{
    bits.iter().any(|other| is_other_bit(bit, *other))
}

#[tactic(auto, unfolding(crate::specs::Splits::has_bit))]
fn has_bit(bits: &[Bit], bit: Bit, number: u32) -> bool
    ensures { result ≡ has_bit bits.now bit number }
{
    match bit_in(bits, bit, number) {
        None => false,
        Some(found) => !has_other_bit(bits, found),
    }
}

/// Whether the word has all its bits, numbered from this number on.
#[tactic(auto, unfolding(crate::specs::Splits::has_bits_from))]
pub fn has_bits_from(bits: &[Bit], bit: Bit, base: u32) -> bool
    requires line { bit.line < 22 }
    requires small { base ≤ 3 }
    ensures { result ≡ has_bits_from bits.now bit base }
{
    has_bits_among(bits, bit, base, line_width(bit.line), &BIT_NUMBERS)
}

fn has_bits_among(bits: &[Bit], bit: Bit, base: u32, width: u32, numbers: &[u8]) -> bool
    requires { base ≤ 3 }
    ensures { result ≡ list_all (λ k. nat_le width k || has_bit bits.now bit (base + k)) numbers.now }
{
    numbers.iter().all(|number| width <= u32::from(*number)
        || has_bit(bits, bit, base + u32::from(*number)))
}

/// The number of the word's lowest bit, where it has all of them: the table's, or else 0.
#[tactic(auto, unfolding(crate::specs::Splits::base_of))]
pub fn base_of(bits: &[Bit], bit: Bit) -> Option<u32>
    requires { bit.line < 22 }
    ensures value { result ≡ base_of bits.now bit }
    ensures small { IfSome result (λ n. n ≤ 3) }
{
    let lowest = lowest_index(bit.line);
    if has_bits_from(bits, bit, lowest) {
        return Some(lowest);
    }
    if has_bits_from(bits, bit, 0) {
        return Some(0);
    }
    None
}

/// Whether the bit belongs to a word that has all its bits.
#[tactic(auto, unfolding(crate::specs::Splits::is_joined))]
pub fn is_joined(bits: &[Bit], bit: Bit) -> bool
    requires { bit.line < 22 }
    ensures { result ≡ is_joined bits.now bit }
{
    base_of(bits, bit).is_some()
}

/// Whether the bit is the first of its word in the header.
#[tactic(auto, unfolding(crate::specs::Splits::is_first_bit))]
pub fn is_first_bit(bits: &[Bit], bit: Bit) -> bool
    ensures { result ≡ is_first_bit bits.now bit }
{
    match first_of_word(bits, bit) {
        None => false,
        Some(first) => first.index == bit.index,
    }
}

fn first_of_word(bits: &[Bit], bit: Bit) -> Option<Bit>
    ensures { result ≡ find (is_of_word bit) bits.now }
{
    bits.iter().copied().find(|other| is_of_word(bit, *other))
}
