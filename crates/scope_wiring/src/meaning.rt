//! Which variable a user's text means.

ghost use Rattle.std.specs.Prelude.{◌≡◌, option_map};
ghost use Rattle.std.specs.List.{list_any};
ghost use Rattle.scope_wiring.specs.NamedWords.{is_called};
ghost use Rattle.scope_wiring.specs.Meanings.{first_called, is_other_called, has_other_called, whole_meant, with_bits, has_range, is_ranged, first_ranged, is_other_ranged, has_other_ranged, picked_bits, ranged_meant, bits_meant, or_bits, meant_in, path_at, judged_in, scope_sought, path_sought, name_sought, meaning_of};

use crate::home::{Home, scope_named};
use crate::named_words::{as_named, is_called, is_word, word_at, word_meant};
use crate::text::{before_bits, bits_named, has_byte};
use scope_pick::{Range, Variable, Written, after_last, before_last, is_multi_bit, is_same_wire};

/// What a text means.
#[derive(Clone, Copy, Debug)]
pub enum Meaning {
    /// No variable.
    Nothing,
    /// Several variables of different codes.
    Several,
    /// A word that is declared bit by bit, and does not have the bits.
    Lacking,
    /// The variable of this index.
    Whole(usize),
    /// Bits of it.
    Bits(usize, Range),
    /// The bits of these indices of a word that is declared bit by bit. The text is its name.
    Word(Range),
    /// The same. The text is the word's name with the bits behind it.
    WordBits(Range),
}

/// What a text means for a line.
#[tactic(auto, unfolding(crate::specs::Meanings::meaning_of))]
pub(crate) fn meaning_of(variables: &[Variable], home: Home, line: u8, text: &[u8]) -> Meaning
    ensures { result ≡ meaning_of variables.now home line text.now }
{
    match path_sought(variables, home, text) {
        None => Meaning::Nothing,
        Some(scope) => meant_in(variables, line, scope, name_sought(text)),
    }
}

/// The path of the scope in which a text is looked for.
#[tactic(auto, unfolding(crate::specs::Meanings::path_sought))]
pub(crate) fn path_sought<'a>(
    variables: &'a [Variable],
    home: Home,
    text: &[u8],
) -> Option<&'a [u8]>
    ensures { option_map (λ path. path.now) result ≡ path_sought variables.now home text.now }
{
    path_at(variables, scope_sought(variables, home, text))
}

#[tactic(auto, unfolding(crate::specs::Meanings::path_at))]
fn path_at(variables: &[Variable], scope: Option<usize>) -> Option<&[u8]>
    ensures { option_map (λ path. path.now) result ≡ path_at variables.now scope }
{
    match scope {
        None => None,
        Some(scope) => match variables.get(scope) {
            None => None,
            Some(first) => Some(&first.scope),
        },
    }
}

// One with a dot is looked for in its own scope, another one in the scope that is judged.
#[tactic(auto, unfolding(crate::specs::Meanings::scope_sought))]
fn scope_sought(variables: &[Variable], home: Home, text: &[u8]) -> Option<usize>
    ensures { result ≡ scope_sought variables.now home text.now }
{
    if has_byte(46, text) {
        scope_named(variables, before_last(46, text))
    } else {
        judged_in(home)
    }
}

#[tactic(auto, unfolding(crate::specs::Meanings::judged_in))]
fn judged_in(home: Home) -> Option<usize>
    ensures { result ≡ judged_in home }
{
    match home {
        Home::Nowhere => None,
        Home::At(scope) => Some(scope),
        Home::Refused(_) => None,
    }
}

/// The name that a text has for a variable.
#[tactic(auto, unfolding(crate::specs::Meanings::name_sought))]
pub(crate) fn name_sought(text: &[u8]) -> &[u8]
    ensures { result.now ≡ name_sought text.now }
{
    after_last(46, text)
}

#[tactic(auto, unfolding(crate::specs::Meanings::meant_in, scope_pick::specs::Places::is_multi_bit))]
fn meant_in(variables: &[Variable], line: u8, scope: &[u8], text: &[u8]) -> Meaning
    ensures { result ≡ meant_in variables.now line scope.now text.now }
{
    if is_multi_bit(line) && is_word(variables, scope, text) {
        word_meant(variables, line, scope, text)
    } else {
        or_bits(
            variables,
            line,
            scope,
            text,
            whole_meant(variables, scope, text),
        )
    }
}

#[tactic(auto, unfolding(crate::specs::Meanings::or_bits))]
fn or_bits(variables: &[Variable], line: u8, scope: &[u8], text: &[u8], meaning: Meaning) -> Meaning
    ensures { result ≡ or_bits variables.now line scope.now text.now meaning }
{
    match meaning {
        Meaning::Nothing => bits_meant(variables, line, scope, text),
        other => other,
    }
}

#[tactic(auto, unfolding(crate::specs::Meanings::bits_meant))]
fn bits_meant(variables: &[Variable], line: u8, scope: &[u8], text: &[u8]) -> Meaning
    ensures { result ≡ bits_meant variables.now line scope.now text.now }
{
    match bits_named(text) {
        None => Meaning::Nothing,
        Some(range) => ranged_meant(variables, line, scope, before_bits(text), range),
    }
}

#[tactic(auto, unfolding(crate::specs::Meanings::ranged_meant))]
fn ranged_meant(
    variables: &[Variable],
    line: u8,
    scope: &[u8],
    name: &[u8],
    range: Range,
) -> Meaning
    ensures { result ≡ ranged_meant variables.now line scope.now name.now range }
{
    match first_ranged(variables, scope, name, range) {
        None => picked_bits(variables, line, scope, name, range),
        Some(index) => {
            if has_other_ranged(variables, scope, name, range, variables.get(index)) {
                Meaning::Several
            } else {
                Meaning::Whole(index)
            }
        }
    }
}

#[tactic(auto, unfolding(crate::specs::Meanings::picked_bits))]
fn picked_bits(variables: &[Variable], line: u8, scope: &[u8], name: &[u8], range: Range) -> Meaning
    ensures { result ≡ picked_bits variables.now line scope.now name.now range }
{
    if line < 22 && is_word(variables, scope, name) {
        as_named(word_at(variables, line, scope, name, range))
    } else {
        with_bits(range, whole_meant(variables, scope, name))
    }
}

#[tactic(auto, unfolding(crate::specs::Meanings::first_ranged))]
fn first_ranged(variables: &[Variable], scope: &[u8], name: &[u8], range: Range) -> Option<usize>
    ensures { result ≡ first_ranged variables.now scope.now name.now range }
{
    variables
        .iter()
        .position(|variable| is_ranged(scope, name, range, variable))
}

#[tactic(auto, unfolding(crate::specs::Meanings::has_other_ranged))]
fn has_other_ranged(
    variables: &[Variable],
    scope: &[u8],
    name: &[u8],
    range: Range,
    first: Option<&Variable>,
) -> bool
    ensures { result ≡ has_other_ranged variables.now scope.now name.now range
        (option_map (λ v. v.now) first.entry) }
{
    match first {
        None => is_any_ranged(variables, scope, name, range),
        Some(first) => is_any_other_ranged(variables, scope, name, range, first),
    }
}

fn is_any_ranged(variables: &[Variable], scope: &[u8], name: &[u8], range: Range) -> bool
    ensures { result ≡ list_any (is_ranged scope.now name.now range) variables.now }
{
    variables
        .iter()
        .any(|variable| is_ranged(scope, name, range, variable))
}

fn is_any_other_ranged(
    variables: &[Variable],
    scope: &[u8],
    name: &[u8],
    range: Range,
    first: &Variable,
) -> bool
    ensures { result ≡ list_any (is_other_ranged scope.now name.now range first.now) variables.now }
{
    variables.iter().any(|variable| is_other_ranged(scope, name, range, first, variable))
}

#[tactic(auto, unfolding(crate::specs::Meanings::is_other_ranged))]
fn is_other_ranged(
    scope: &[u8],
    name: &[u8],
    range: Range,
    first: &Variable,
    other: &Variable,
) -> bool
    ensures { result ≡ is_other_ranged scope.now name.now range first.now other.now }
{
    is_ranged(scope, name, range, other) && !is_same_wire(other, first)
}

#[tactic(auto, unfolding(crate::specs::Meanings::is_ranged))]
fn is_ranged(scope: &[u8], name: &[u8], range: Range, variable: &Variable) -> bool
    ensures { result ≡ is_ranged scope.now name.now range variable.now }
{
    is_called(scope, name, variable) && has_range(range, variable.range)
}

#[tactic(auto, unfolding(crate::specs::Meanings::has_range))]
fn has_range(range: Range, written: Written) -> bool
    ensures { result ≡ has_range range written }
{
    match written {
        Written::Absent => false,
        Written::Unreadable => false,
        Written::Numbers(other) => other.left == range.left && other.right == range.right,
    }
}

#[tactic(auto, unfolding(crate::specs::Meanings::with_bits))]
fn with_bits(range: Range, meaning: Meaning) -> Meaning
    ensures { result ≡ with_bits range meaning }
{
    match meaning {
        Meaning::Nothing => Meaning::Nothing,
        Meaning::Several => Meaning::Several,
        Meaning::Lacking => Meaning::Lacking,
        Meaning::Whole(index) => Meaning::Bits(index, range),
        Meaning::Bits(index, _) => Meaning::Bits(index, range),
        Meaning::Word(_) => Meaning::Nothing,
        Meaning::WordBits(_) => Meaning::Nothing,
    }
}

#[tactic(auto, unfolding(crate::specs::Meanings::whole_meant))]
fn whole_meant(variables: &[Variable], scope: &[u8], name: &[u8]) -> Meaning
    ensures { result ≡ whole_meant variables.now scope.now name.now }
{
    match first_called(variables, scope, name) {
        None => Meaning::Nothing,
        Some(index) => {
            if has_other_called(variables, scope, name, variables.get(index)) {
                Meaning::Several
            } else {
                Meaning::Whole(index)
            }
        }
    }
}

#[tactic(auto, unfolding(crate::specs::Meanings::has_other_called))]
fn has_other_called(
    variables: &[Variable],
    scope: &[u8],
    name: &[u8],
    first: Option<&Variable>,
) -> bool
    ensures { result
        ≡ has_other_called variables.now scope.now name.now (option_map (λ v. v.now) first.entry) }
{
    match first {
        None => is_any_called(variables, scope, name),
        Some(first) => is_any_other_called(variables, scope, name, first),
    }
}

fn is_any_called(variables: &[Variable], scope: &[u8], name: &[u8]) -> bool
    ensures { result ≡ list_any (is_called scope.now name.now) variables.now }
{
    variables
        .iter()
        .any(|variable| is_called(scope, name, variable))
}

fn is_any_other_called(variables: &[Variable], scope: &[u8], name: &[u8], first: &Variable) -> bool
    ensures { result ≡ list_any (is_other_called scope.now name.now first.now) variables.now }
{
    variables
        .iter()
        .any(|variable| is_other_called(scope, name, first, variable))
}

#[tactic(auto, unfolding(crate::specs::Meanings::is_other_called))]
fn is_other_called(scope: &[u8], name: &[u8], first: &Variable, other: &Variable) -> bool
    ensures { result ≡ is_other_called scope.now name.now first.now other.now }
{
    is_called(scope, name, other) && !is_same_wire(other, first)
}

#[tactic(auto, unfolding(crate::specs::Meanings::first_called))]
fn first_called(variables: &[Variable], scope: &[u8], name: &[u8]) -> Option<usize>
    ensures { result ≡ first_called variables.now scope.now name.now }
{
    variables
        .iter()
        .position(|variable| is_called(scope, name, variable))
}
