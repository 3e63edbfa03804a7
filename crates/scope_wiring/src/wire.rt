//! What is taken of a dump's variables.

ghost use Rattle.std.specs.Prelude.{◌≡◌, ◌<◌, IfOk, IfSome, None, map, not, option_map, if◌then◌else◌};
ghost use Rattle.std.specs.List.{filter, filter_map, enumerate_from};
ghost use Rattle.scope_pick.specs.Scopes.{found_in, lines};
ghost use Rattle.scope_pick.specs.Splits.{base_of, bit_in, bits};
ghost use Rattle.scope_wiring.specs.Wirings.{wire_if, whole_wire, bits_wire, bit_wired, word_wire, word_wires, single, wires_meant, wires_named, is_taken, line_wire, is_word_taken, is_first, bit_from, bit_wire, wire_in, wire_at, option_wires, found_wires, wires_with, is_wired, absent_lines};

use crate::home::Home;
use crate::meaning::{Meaning, meaning_of, name_sought, path_sought};
use crate::named_words::{BIT_NUMBERS, first_bit, index_at};
use crate::taps::{bit_tap, tap_named, tap_of};
use crate::text::{LineOption, before_bits};
use scope_pick::{
    Bit, Header, Named, Names, Range, Variable, Words, bit_at, bits, is_listed, line_named,
    line_width,
};
use std::alloc::{AllocError, Global};
use vcd_way::Tap;

/// A variable that is a line of the bus, or a bit of one.
#[derive(Clone, Copy, Debug)]
pub struct Wire {
    /// The index of its declaration. Changes name its code.
    pub index: usize,
    pub tap: Tap,
}

const LINES: [u8; 22] = [
    0, 1, 2, 3, 4, 5, 6, 7, 8, 9, 10, 11, 12, 13, 14, 15, 16, 17, 18, 19, 20, 21,
];

#[tactic(auto, unfolding(crate::specs::Wirings::wire_if))]
fn wire_if(index: usize, tap: Option<Tap>) -> Option<Wire>
    ensures { result ≡ wire_if index tap }
{
    match tap {
        None => None,
        Some(tap) => Some(Wire { index, tap }),
    }
}

/// The variable of this index as the line that the option names.
#[tactic(auto, unfolding(crate::specs::Wirings::whole_wire))]
pub(crate) fn whole_wire(
    option: &LineOption,
    index: usize,
    variable: Option<&Variable>,
) -> Option<Wire>
    ensures { result ≡ whole_wire option.now index (option_map (λ v. v.now) variable.entry) }
{
    match variable {
        None => None,
        Some(variable) => wire_if(index, tap_of(option.line, variable, option.inverted)),
    }
}

/// Bits of it.
#[tactic(auto, unfolding(crate::specs::Wirings::bits_wire))]
pub(crate) fn bits_wire(
    option: &LineOption,
    index: usize,
    range: Range,
    variable: Option<&Variable>,
) -> Option<Wire>
    ensures { result ≡ bits_wire option.now index range (option_map (λ v. v.now) variable.entry) }
{
    match variable {
        None => None,
        Some(variable) => wire_if(
            index,
            tap_named(option.line, variable, option.inverted, range),
        ),
    }
}

#[tactic(auto, unfolding(crate::specs::Wirings::bit_wired))]
fn bit_wired(option: &LineOption, number: u8, index: Option<usize>) -> Option<Wire>
    ensures { result ≡ bit_wired option.now number index }
{
    match index {
        None => None,
        Some(index) => Some(Wire {
            index,
            tap: bit_tap(option.line, number, option.inverted),
        }),
    }
}

#[tactic(auto, unfolding(crate::specs::Wirings::word_wire))]
fn word_wire(
    variables: &[Variable],
    option: &LineOption,
    scope: &[u8],
    word: &[u8],
    range: Range,
    number: u8,
) -> Option<Wire>
    requires { option.now.line < 22 }
    ensures { result ≡ word_wire variables.now option.now scope.now word.now range number }
{
    if u32::from(number) < line_width(option.line) {
        bit_wired(
            option,
            number,
            first_bit(variables, scope, word, index_at(range, number)),
        )
    } else {
        None
    }
}

fn word_wires_among(
    alloc: Global,
    variables: &[Variable],
    option: &LineOption,
    scope: &[u8],
    word: &[u8],
    range: Range,
    numbers: &[u8],
) -> Result<Vec<Wire>, AllocError>
    requires { option.now.line < 22 }
    ensures { IfOk result (λ v. v.items ≡ filter_map
        (word_wire variables.now option.now scope.now word.now range) numbers.now) }
{
    numbers
        .iter()
        .filter_map(|number| word_wire(variables, option, scope, word, range, *number))
        .collect(alloc)
}

#[tactic(auto, unfolding(crate::specs::Wirings::word_wires))]
fn word_wires(
    alloc: Global,
    variables: &[Variable],
    option: &LineOption,
    range: Range,
    word: &[u8],
    scope: Option<&[u8]>,
) -> Result<Vec<Wire>, AllocError>
    ensures { IfOk result (λ v. v.items ≡ word_wires variables.now option.now range word.now
        (option_map (λ path. path.now) scope.entry)) }
{
    match scope {
        None => Ok(Vec::new(alloc)),
        Some(scope) => {
            if option.line < 22 {
                word_wires_among(alloc, variables, option, scope, word, range, &BIT_NUMBERS)
            } else {
                Ok(Vec::new(alloc))
            }
        }
    }
}

#[tactic(auto, unfolding(crate::specs::Wirings::single))]
fn single(alloc: Global, wire: Option<Wire>) -> Result<Vec<Wire>, AllocError>
    ensures { IfOk result (λ v. v.items ≡ single wire) }
{
    match wire {
        None => Ok(Vec::new(alloc)),
        Some(wire) => Vec::from_slice(alloc, &[wire]),
    }
}

#[tactic(auto, unfolding(crate::specs::Wirings::wires_meant))]
fn wires_meant(
    alloc: Global,
    variables: &[Variable],
    home: Home,
    option: &LineOption,
    meaning: Meaning,
) -> Result<Vec<Wire>, AllocError>
    ensures { IfOk result (λ v. v.items ≡ wires_meant variables.now home option.now meaning) }
{
    let name = name_sought(&option.target);
    match meaning {
        Meaning::Nothing | Meaning::Several | Meaning::Lacking => Ok(Vec::new(alloc)),
        Meaning::Whole(index) => { single(alloc, whole_wire(option, index, variables.get(index))) }
        Meaning::Bits(index, range) => {
            single(alloc, bits_wire(option, index, range, variables.get(index)))
        }
        Meaning::Word(range) => {
            let path = path_sought(variables, home, &option.target);
            word_wires(alloc, variables, option, range, name, path)
        }
        Meaning::WordBits(range) => {
            let path = path_sought(variables, home, &option.target);
            word_wires(alloc, variables, option, range, before_bits(name), path)
        }
    }
}

#[tactic(auto, unfolding(crate::specs::Wirings::wires_named))]
fn wires_named(
    alloc: Global,
    variables: &[Variable],
    home: Home,
    option: &LineOption,
) -> Result<Vec<Wire>, AllocError>
    ensures { IfOk result (λ v. v.items ≡ wires_named variables.now home option.now) }
{
    let meaning = meaning_of(variables, home, option.line, &option.target);
    wires_meant(alloc, variables, home, option, meaning)
}

#[tactic(auto, unfolding(crate::specs::Wirings::option_wires))]
fn option_wires(
    alloc: Global,
    variables: &[Variable],
    home: Home,
    options: &[LineOption],
) -> Result<Vec<Wire>, AllocError>
    ensures { IfOk result (λ v. v.items ≡ option_wires variables.now home options.now) }
{
    let mut wires = Vec::new(alloc);
    for option in options {
        let named = wires_named(alloc, variables, home, option)?;
        wires.extend_from_slice(&named)?;
    }
    Ok(wires)
}

#[tactic(auto, unfolding(crate::specs::Wirings::is_taken))]
fn is_taken(index: usize, name: Option<Named>) -> bool
    ensures { result ≡ is_taken index name }
{
    match name {
        None => false,
        Some(name) => name.index == index && !name.is_split,
    }
}

#[tactic(auto, unfolding(crate::specs::Wirings::line_wire))]
fn line_wire(
    names: &Names<'_>,
    found: &[Option<Named>],
    settled: &[u8],
    scope: usize,
    index: usize,
    variable: &Variable,
    line: Option<u8>,
) -> Option<Wire>
    requires table { found.now ≡ map (found_in names.now scope) lines }
    requires line { IfSome line (λ n. n < 22) }
    ensures { result ≡ line_wire names.now settled.now scope index variable.now line }
{
    match line {
        None => None,
        Some(line) => {
            if !is_listed(settled, line) && is_taken(index, found_line(names, found, scope, line)) {
                wire_if(index, tap_of(line, variable, false))
            } else {
                None
            }
        }
    }
}

#[tactic(auto, unfolding(crate::specs::Wirings::is_word_taken))]
fn is_word_taken(bit: Bit, name: Option<Named>) -> bool
    ensures { result ≡ is_word_taken bit name }
{
    match name {
        None => false,
        Some(name) => {
            name.is_split
                && name.scope == bit.scope
                && (name.exact && bit.exact || !name.exact && !bit.exact)
        }
    }
}

#[tactic(auto, unfolding(crate::specs::Wirings::is_first))]
fn is_first(bit: Bit, first: Option<Bit>) -> bool
    ensures { result ≡ is_first bit first }
{
    match first {
        None => false,
        Some(first) => first.index == bit.index,
    }
}

#[tactic(auto, unfolding(crate::specs::Wirings::bit_from))]
fn bit_from(bit: Bit, base: Option<u32>) -> Option<Wire>
    requires { bit.line < 22 }
    ensures { result ≡ bit_from bit base }
{
    match base {
        None => None,
        Some(base) => {
            if base <= bit.number && bit.number - base < line_width(bit.line) {
                Some(Wire {
                    index: bit.index,
                    tap: bit_tap(bit.line, (bit.number - base) as u8, false),
                })
            } else {
                None
            }
        }
    }
}

#[tactic(auto, unfolding(crate::specs::Wirings::bit_wire))]
fn bit_wire(
    words: &Words<'_>,
    names: &Names<'_>,
    found: &[Option<Named>],
    settled: &[u8],
    scope: usize,
    bit: Option<Bit>,
) -> Option<Wire>
    requires table { found.now ≡ map (found_in names.now scope) lines }
    requires line { IfSome bit (λ b. b.line < 22) }
    ensures { result ≡ bit_wire words.now names.now settled.now scope bit }
{
    match bit {
        None => None,
        Some(bit) => {
            if !is_listed(settled, bit.line)
                && is_word_taken(bit, found_line(names, found, scope, bit.line))
            {
                first_bit_from(words, bit)
            } else {
                None
            }
        }
    }
}

// The bit as one of its word, if it is the first of its number. Most numbers of a long word are none of the line.
fn first_bit_from(words: &Words<'_>, bit: Bit) -> Option<Wire>
    requires { bit.line < 22 }
    ensures { result ≡ (if is_first bit (bit_in words.now bit bit.number)
        then bit_from bit (base_of words.now bit) else None) }
{
    match bit_from(bit, words.base_of(bit)) {
        None => None,
        Some(wire) => {
            if is_first(bit, words.bit_in(bit, bit.number)) {
                Some(wire)
            } else {
                None
            }
        }
    }
}

#[tactic(auto, unfolding(crate::specs::Wirings::wire_in))]
fn wire_in(
    header: &Header<'_>,
    words: &Words<'_>,
    names: &Names<'_>,
    found: &[Option<Named>],
    settled: &[u8],
    scope: usize,
    index: usize,
    variable: &Variable,
) -> Option<Wire>
    requires { found.now ≡ map (found_in names.now scope) lines }
    ensures { result
        ≡ wire_in header.now words.now names.now settled.now scope index variable.now }
{
    match line_wire(
        names,
        found,
        settled,
        scope,
        index,
        variable,
        line_named(&variable.name),
    ) {
        Some(wire) => Some(wire),
        None => bit_wire(
            words,
            names,
            found,
            settled,
            scope,
            bit_at(header, index, variable),
        ),
    }
}

// The lines of the table as they are found in the scope.
fn lines_found(
    alloc: Global,
    names: &Names<'_>,
    scope: usize,
) -> Result<Vec<Option<Named>>, AllocError>
    ensures { IfOk result (λ v. v.items ≡ map (found_in names.now scope) lines) }
{
    each_found(alloc, names, scope, &LINES)
}

fn each_found(
    alloc: Global,
    names: &Names<'_>,
    scope: usize,
    lines: &[u8],
) -> Result<Vec<Option<Named>>, AllocError>
    ensures { IfOk result (λ v. v.items ≡ map (found_in names.now scope) lines.now) }
{
    lines
        .iter()
        .map(|line| names.found_in(scope, *line))
        .collect(alloc)
}

// The line as it is found in the scope, of which all are at hand.
#[tactic(auto, using(crate::proofs::FoundLines::found_is))]
fn found_line(names: &Names<'_>, found: &[Option<Named>], scope: usize, line: u8) -> Option<Named>
    requires table { found.now ≡ map (found_in names.now scope) lines }
    requires line { line < 22 }
    ensures { result ≡ found_in names.now scope line }
{
    match found.get(usize::from(line)) {
        None => names.found_in(scope, line),
        Some(name) => *name,
    }
}

fn wires_in(
    alloc: Global,
    header: &Header<'_>,
    words: &Words<'_>,
    names: &Names<'_>,
    found: &[Option<Named>],
    settled: &[u8],
    scope: usize,
) -> Result<Vec<Wire>, AllocError>
    requires { found.now ≡ map (found_in names.now scope) lines }
    ensures { IfOk result (λ v. v.items ≡ filter_map
        (λ p. wire_in header.now words.now names.now settled.now scope p.0 p.1)
        (enumerate_from 0 header.now)) }
{
    header
        .variables()
        .iter()
        .enumerate()
        .filter_map(|(index, variable)| {
            wire_in(header, words, names, found, settled, scope, index, variable)
        })
        .collect(alloc)
}

#[tactic(auto, using(crate::proofs::FoundLines::found_at_home, crate::proofs::FoundLines::found_nowhere, crate::proofs::FoundLines::found_refused))]
fn found_wires(
    alloc: Global,
    header: &Header<'_>,
    words: &Words<'_>,
    names: &Names<'_>,
    settled: &[u8],
    home: Home,
) -> Result<Vec<Wire>, AllocError>
    ensures { IfOk result (λ v.
        v.items ≡ found_wires header.now words.now names.now settled.now home) }
{
    match home {
        Home::Nowhere | Home::Refused(_) => Ok(Vec::new(alloc)),
        Home::At(scope) => {
            let found = lines_found(alloc, names, scope)?;
            wires_in(alloc, header, words, names, &found, settled, scope)
        }
    }
}

/// The wires of the bus: those that the options take, and those that are found in the scope.
#[tactic(auto, unfolding(crate::specs::Wirings::wires_with))]
pub(crate) fn wires_with(
    alloc: Global,
    variables: &[Variable],
    options: &[LineOption],
    names: &[Named],
    settled: &[u8],
    home: Home,
) -> Result<Vec<Wire>, AllocError>
    ensures { IfOk result (λ v.
        v.items ≡ wires_with variables.now options.now names.now settled.now home) }
{
    let header = Header::new(alloc, variables)?;
    let bits = bits(alloc, &header)?;
    let words = Words::new(alloc, &bits)?;
    let names = Names::new(alloc, names)?;
    let found = found_wires(alloc, &header, &words, &names, settled, home)?;
    let mut wires = option_wires(alloc, variables, home, options)?;
    wires.extend_from_slice(&found)?;
    Ok(wires)
}

/// Whether a wire is the line, or a bit of it.
#[tactic(auto, unfolding(crate::specs::Wirings::is_wired))]
pub fn is_wired(wires: &[Wire], line: u8) -> bool
    ensures { result ≡ is_wired wires.now line }
{
    wires.iter().any(|wire| wire.tap.line == line)
}

/// The lines without a wire: they read as never asserted.
#[tactic(auto, unfolding(crate::specs::Wirings::absent_lines))]
pub fn absent_lines(alloc: Global, wires: &[Wire]) -> Result<Vec<u8>, AllocError>
    ensures { IfOk result (λ v. v.items ≡ absent_lines wires.now) }
{
    absent_among(alloc, wires, &LINES)
}

fn absent_among(alloc: Global, wires: &[Wire], lines: &[u8]) -> Result<Vec<u8>, AllocError>
    ensures { IfOk result (λ v. v.items ≡ filter (λ n. not (is_wired wires.now n)) lines.now) }
{
    lines
        .iter()
        .copied()
        .filter(|line| !is_wired(wires, *line))
        .collect(alloc)
}
