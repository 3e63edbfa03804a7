//! Words that are declared bit by bit, by the name that a user gives them.

ghost use Rattle.std.specs.Prelude.{◌≡◌, ◌<◌, ◌≤◌, ◌||◌, ◌&&◌, nat_le, nat_lt, option_map};
ghost use Rattle.std.specs.List.{list_any, list_all};
ghost use Rattle.scope_pick.specs.Places.{line_width};
ghost use Rattle.scope_wiring.specs.NamedWords.{is_same_name, is_called, single_index, index_in_name, is_name_or_bit, index_called, index_in_word, is_in_word, is_index, is_bit, is_index_from, is_bit_from, first_bit, is_other_bit, has_other_bit, is_doubled, has_word, is_whole_called, has_whole, is_word, index_at, has_doubled, has_bit, has_bits, has_bit_from, word_at, range_from, is_lacking, word_meant, as_named};

use crate::meaning::Meaning;
use scope_pick::{
    Range, Variable, Written, index_of, indexed, is_range_of, is_same_wire, is_wire_kind,
    line_width, lowest_index, without_escape,
};

/// The numbers of the bits of the widest word.
pub(crate) const BIT_NUMBERS: [u8; 64] = [
    0, 1, 2, 3, 4, 5, 6, 7, 8, 9, 10, 11, 12, 13, 14, 15, 16, 17, 18, 19, 20, 21, 22, 23, 24, 25,
    26, 27, 28, 29, 30, 31, 32, 33, 34, 35, 36, 37, 38, 39, 40, 41, 42, 43, 44, 45, 46, 47, 48, 49,
    50, 51, 52, 53, 54, 55, 56, 57, 58, 59, 60, 61, 62, 63,
];

#[tactic(auto, unfolding(crate::specs::NamedWords::is_same_name))]
fn is_same_name(one: &[u8], other: &[u8]) -> bool
    ensures { result ≡ is_same_name one.now other.now }
{
    without_escape(one) == without_escape(other)
}

/// Whether the variable stands in the scope and has the name, escaped or not.
#[tactic(auto, unfolding(crate::specs::NamedWords::is_called))]
pub(crate) fn is_called(scope: &[u8], name: &[u8], variable: &Variable) -> bool
    ensures { result ≡ is_called scope.now name.now variable.now }
{
    variable.scope.as_slice() == scope && is_same_name(&variable.name, name)
}

#[tactic(auto, unfolding(crate::specs::NamedWords::single_index))]
fn single_index(range: Written) -> Option<u32>
    ensures { result ≡ single_index range }
{
    match range {
        Written::Absent => None,
        Written::Unreadable => None,
        Written::Numbers(range) => {
            if range.left == range.right {
                Some(range.left)
            } else {
                None
            }
        }
    }
}

#[tactic(auto, unfolding(crate::specs::NamedWords::index_in_name))]
fn index_in_name(word: &[u8], name: &[u8]) -> Option<u32>
    ensures { result ≡ index_in_name word.now name.now }
{
    if is_same_name(indexed(name), word) {
        index_of(name)
    } else {
        None
    }
}

/// Whether the name is this one, or this one with an index behind it.
#[tactic(auto, unfolding(crate::specs::NamedWords::is_name_or_bit))]
pub(crate) fn is_name_or_bit(word: &[u8], name: &[u8]) -> bool
    ensures { result ≡ is_name_or_bit word.now name.now }
{
    is_same_name(name, word) || index_in_name(word, without_escape(name)).is_some()
}

#[tactic(auto, unfolding(crate::specs::NamedWords::index_called))]
fn index_called(word: &[u8], name: &[u8], range: Written) -> Option<u32>
    ensures { result ≡ index_called word.now name.now range }
{
    if is_same_name(name, word) {
        single_index(range)
    } else {
        index_in_name(word, without_escape(name))
    }
}

#[tactic(auto, unfolding(crate::specs::NamedWords::index_in_word))]
fn index_in_word(scope: &[u8], word: &[u8], variable: &Variable) -> Option<u32>
    ensures { result ≡ index_in_word scope.now word.now variable.now }
{
    if variable.scope.as_slice() == scope && variable.width == 1 && is_wire_kind(&variable.kind) {
        index_called(word, &variable.name, variable.range)
    } else {
        None
    }
}

#[tactic(auto, unfolding(crate::specs::NamedWords::is_in_word))]
fn is_in_word(scope: &[u8], word: &[u8], variable: &Variable) -> bool
    ensures { result ≡ is_in_word scope.now word.now variable.now }
{
    index_in_word(scope, word, variable).is_some()
}

#[tactic(auto, unfolding(crate::specs::NamedWords::is_bit, crate::specs::NamedWords::is_index))]
fn is_bit(scope: &[u8], word: &[u8], number: u64, variable: &Variable) -> bool
    ensures { result ≡ is_bit scope.now word.now number variable.now }
{
    match index_in_word(scope, word, variable) {
        None => false,
        Some(index) => u64::from(index) == number,
    }
}

#[tactic(auto, unfolding(crate::specs::NamedWords::is_bit_from, crate::specs::NamedWords::is_index_from))]
fn is_bit_from(scope: &[u8], word: &[u8], number: u32, variable: &Variable) -> bool
    ensures { result ≡ is_bit_from scope.now word.now number variable.now }
{
    match index_in_word(scope, word, variable) {
        None => false,
        Some(index) => number <= index,
    }
}

/// The first variable that is the bit of this index.
#[tactic(auto, unfolding(crate::specs::NamedWords::first_bit))]
pub(crate) fn first_bit(
    variables: &[Variable],
    scope: &[u8],
    word: &[u8],
    number: u64,
) -> Option<usize>
    ensures { result ≡ first_bit variables.now scope.now word.now number }
{
    variables
        .iter()
        .position(|variable| is_bit(scope, word, number, variable))
}

#[tactic(auto, unfolding(crate::specs::NamedWords::is_other_bit))]
fn is_other_bit(scope: &[u8], word: &[u8], number: u64, first: &Variable, other: &Variable) -> bool
    ensures { result ≡ is_other_bit scope.now word.now number first.now other.now }
{
    is_bit(scope, word, number, other) && !is_same_wire(other, first)
}

#[tactic(auto, unfolding(crate::specs::NamedWords::has_other_bit))]
fn has_other_bit(
    variables: &[Variable],
    scope: &[u8],
    word: &[u8],
    number: u64,
    first: Option<&Variable>,
) -> bool
    ensures { result ≡ has_other_bit variables.now scope.now word.now number
        (option_map (λ v. v.now) first.entry) }
{
    match first {
        None => false,
        Some(first) => is_any_other_bit(variables, scope, word, number, first),
    }
}

fn is_any_other_bit(
    variables: &[Variable],
    scope: &[u8],
    word: &[u8],
    number: u64,
    first: &Variable,
) -> bool
    ensures { result ≡ list_any (is_other_bit scope.now word.now number first.now) variables.now }
{
    variables.iter().any(|variable| is_other_bit(scope, word, number, first, variable))
}

#[tactic(auto, unfolding(crate::specs::NamedWords::is_doubled))]
fn is_doubled(variables: &[Variable], scope: &[u8], word: &[u8], number: u64) -> bool
    ensures { result ≡ is_doubled variables.now scope.now word.now number }
{
    match first_bit(variables, scope, word, number) {
        None => false,
        Some(index) => has_other_bit(variables, scope, word, number, variables.get(index)),
    }
}

#[tactic(auto, unfolding(crate::specs::NamedWords::has_word))]
fn has_word(variables: &[Variable], scope: &[u8], word: &[u8]) -> bool
    ensures { result ≡ has_word variables.now scope.now word.now }
{
    variables
        .iter()
        .any(|variable| is_in_word(scope, word, variable))
}

#[tactic(auto, unfolding(crate::specs::NamedWords::is_whole_called))]
fn is_whole_called(scope: &[u8], name: &[u8], variable: &Variable) -> bool
    ensures { result ≡ is_whole_called scope.now name.now variable.now }
{
    is_called(scope, name, variable) && !is_in_word(scope, name, variable)
}

#[tactic(auto, unfolding(crate::specs::NamedWords::has_whole))]
fn has_whole(variables: &[Variable], scope: &[u8], name: &[u8]) -> bool
    ensures { result ≡ has_whole variables.now scope.now name.now }
{
    variables
        .iter()
        .any(|variable| is_whole_called(scope, name, variable))
}

/// Whether in the scope the name is that of a word alone, which is declared bit by bit.
#[tactic(auto, unfolding(crate::specs::NamedWords::is_word))]
pub(crate) fn is_word(variables: &[Variable], scope: &[u8], name: &[u8]) -> bool
    ensures { result ≡ is_word variables.now scope.now name.now }
{
    has_word(variables, scope, name) && !has_whole(variables, scope, name)
}

/// The index of a line's bit of this number, counted from its lowest one, in a word of these indices.
#[tactic(auto, unfolding(crate::specs::NamedWords::index_at))]
pub(crate) fn index_at(range: Range, number: u8) -> u64
    ensures { result ≡ index_at range number }
{
    if range.right <= range.left {
        u64::from(range.right) + u64::from(number)
    } else {
        u64::from(range.right).saturating_sub(u64::from(number))
    }
}

#[tactic(auto, unfolding(crate::specs::NamedWords::has_doubled))]
fn has_doubled(variables: &[Variable], scope: &[u8], word: &[u8], width: u32, range: Range) -> bool
    ensures { result ≡ has_doubled variables.now scope.now word.now width range }
{
    has_doubled_among(variables, scope, word, width, range, &BIT_NUMBERS)
}

fn has_doubled_among(
    variables: &[Variable],
    scope: &[u8],
    word: &[u8],
    width: u32,
    range: Range,
    numbers: &[u8],
) -> bool
    ensures { result ≡ list_any (λ k. nat_lt k width
        && is_doubled variables.now scope.now word.now (index_at range k)) numbers.now }
{
    numbers.iter().any(|number| u32::from(*number) < width
        && is_doubled(variables, scope, word, index_at(range, *number)))
}

#[tactic(auto, unfolding(crate::specs::NamedWords::has_bit))]
fn has_bit(variables: &[Variable], scope: &[u8], word: &[u8], number: u64) -> bool
    ensures { result ≡ has_bit variables.now scope.now word.now number }
{
    first_bit(variables, scope, word, number).is_some()
}

#[tactic(auto, unfolding(crate::specs::NamedWords::has_bits))]
fn has_bits(variables: &[Variable], scope: &[u8], word: &[u8], width: u32, range: Range) -> bool
    ensures { result ≡ has_bits variables.now scope.now word.now width range }
{
    has_bits_among(variables, scope, word, width, range, &BIT_NUMBERS)
}

fn has_bits_among(
    variables: &[Variable],
    scope: &[u8],
    word: &[u8],
    width: u32,
    range: Range,
    numbers: &[u8],
) -> bool
    ensures { result ≡ list_all (λ k. nat_le width k
        || has_bit variables.now scope.now word.now (index_at range k)) numbers.now }
{
    numbers.iter().all(|number| width <= u32::from(*number)
        || has_bit(variables, scope, word, index_at(range, *number)))
}

#[tactic(auto, unfolding(crate::specs::NamedWords::has_bit_from))]
fn has_bit_from(variables: &[Variable], scope: &[u8], word: &[u8], number: u32) -> bool
    ensures { result ≡ has_bit_from variables.now scope.now word.now number }
{
    variables
        .iter()
        .any(|variable| is_bit_from(scope, word, number, variable))
}

/// What these bits of the word are as the line.
#[tactic(auto, unfolding(crate::specs::NamedWords::word_at))]
pub(crate) fn word_at(
    variables: &[Variable],
    line: u8,
    scope: &[u8],
    word: &[u8],
    range: Range,
) -> Meaning
    requires { line < 22 }
    ensures { result ≡ word_at variables.now line scope.now word.now range }
{
    let width = line_width(line);
    if !is_range_of(width, range) {
        Meaning::Lacking
    } else if has_doubled(variables, scope, word, width, range) {
        Meaning::Several
    } else if has_bits(variables, scope, word, width, range) {
        Meaning::Word(range)
    } else {
        Meaning::Lacking
    }
}

#[tactic(auto, unfolding(crate::specs::NamedWords::range_from))]
fn range_from(line: u8, lowest: u32) -> Range
    requires line { line < 22 }
    requires small { lowest ≤ 3 }
    ensures { result ≡ range_from line lowest }
{
    Range {
        left: (lowest + line_width(line)).saturating_sub(1),
        right: lowest,
    }
}

#[tactic(auto, unfolding(crate::specs::NamedWords::is_lacking))]
fn is_lacking(meaning: Meaning) -> bool
    ensures { result ≡ is_lacking meaning }
{
    match meaning {
        Meaning::Lacking => true,
        _ => false,
    }
}

/// What the word is as the line: its indices are the table's, or else they go from one less than the line's width down
/// to 0.
#[tactic(auto, unfolding(crate::specs::NamedWords::word_meant))]
pub(crate) fn word_meant(variables: &[Variable], line: u8, scope: &[u8], word: &[u8]) -> Meaning
    requires { line < 22 }
    ensures { result ≡ word_meant variables.now line scope.now word.now }
{
    let lowest = lowest_index(line);
    let named = word_at(variables, line, scope, word, range_from(line, lowest));
    if is_lacking(named) && !has_bit_from(variables, scope, word, line_width(line)) {
        word_at(variables, line, scope, word, range_from(line, 0))
    } else {
        named
    }
}

/// The same bits, where the user names them.
#[tactic(auto, unfolding(crate::specs::NamedWords::as_named))]
pub(crate) fn as_named(meaning: Meaning) -> Meaning
    ensures { result ≡ as_named meaning }
{
    match meaning {
        Meaning::Word(range) => Meaning::WordBits(range),
        other => other,
    }
}
