//! What is wrong with the options.

ghost use Rattle.std.specs.Prelude.{◌≡◌, ◌++◌, map, nat_eq, count_by, IfOk, slice_get};
ghost use Rattle.std.specs.List.{find, filter_map, enumerate_from};
ghost use Rattle.scope_wiring.specs.Settling.{settled_lines, is_fixed, is_twice, twice_cause, options_cause};
ghost use Rattle.scope_wiring.specs.Wirings.{cause_meant, option_cause, first_cause, cause_at, cause_with};

use crate::cause::Cause;
use crate::home::Home;
use crate::meaning::{Meaning, meaning_of};
use crate::text::LineOption;
use crate::wire::{bits_wire, whole_wire};
use scope_pick::{Variable, is_line_needed};
use std::alloc::{AllocError, Global};

/// The lines that the user named, and those that he left out.
#[tactic(auto, unfolding(crate::specs::Settling::settled_lines))]
pub fn settled_lines(
    alloc: Global,
    options: &[LineOption],
    without: &[u8],
) -> Result<Vec<u8>, AllocError>
    ensures { IfOk result (λ v. v.items ≡ settled_lines options.now without.now) }
{
    let mut settled = lines_of(alloc, options)?;
    settled.extend_from_slice(without)?;
    Ok(settled)
}

fn lines_of(alloc: Global, options: &[LineOption]) -> Result<Vec<u8>, AllocError>
    ensures { IfOk result (λ v. v.items ≡ map (λ o. o.line) options.now) }
{
    options.iter().map(|option| option.line).collect(alloc)
}

#[tactic(auto, unfolding(crate::specs::Settling::is_fixed))]
fn is_fixed(line: u8) -> bool
    ensures { result ≡ is_fixed line }
{
    line < 22 && line != 19 && is_line_needed(line)
}

fn first_fixed(without: &[u8]) -> Option<u8>
    ensures { result ≡ find is_fixed without.now }
{
    without.iter().copied().find(|line| is_fixed(*line))
}

#[tactic(auto, unfolding(crate::specs::Settling::is_twice))]
fn is_twice(settled: &[u8], line: u8) -> bool
    ensures { result ≡ is_twice settled.now line }
{
    1 < count(settled, line)
}

fn count(settled: &[u8], line: u8) -> usize
    ensures { result ≡ count_by (λ n. nat_eq n line) settled.now }
{
    settled.iter().filter(|other| **other == line).count()
}

fn first_twice(settled: &[u8]) -> Option<u8>
    ensures { result ≡ find (is_twice settled.now) settled.now }
{
    settled
        .iter()
        .copied()
        .find(|line| is_twice(settled, *line))
}

#[tactic(auto, unfolding(crate::specs::Settling::twice_cause))]
fn twice_cause(settled: &[u8]) -> Option<Cause>
    ensures { result ≡ twice_cause settled.now }
{
    match first_twice(settled) {
        None => None,
        Some(line) => Some(Cause::Twice(line)),
    }
}

#[tactic(auto, unfolding(crate::specs::Settling::options_cause))]
fn options_cause(settled: &[u8], without: &[u8]) -> Option<Cause>
    ensures { result ≡ options_cause settled.now without.now }
{
    match first_fixed(without) {
        Some(line) => Some(Cause::Needed(line)),
        None => twice_cause(settled),
    }
}

#[tactic(auto, unfolding(crate::specs::Wirings::cause_meant))]
fn cause_meant(
    variables: &[Variable],
    number: usize,
    option: &LineOption,
    meaning: Meaning,
) -> Option<Cause>
    ensures { result ≡ cause_meant variables.now number option.now meaning }
{
    match meaning {
        Meaning::Nothing => Some(Cause::NoVariable(number)),
        Meaning::Several => Some(Cause::SeveralVariables(number)),
        Meaning::Lacking => Some(Cause::LacksBits(number)),
        Meaning::Word(_) | Meaning::WordBits(_) => None,
        Meaning::Whole(index) => {
            if whole_wire(option, index, variables.get(index)).is_some() {
                None
            } else {
                Some(Cause::CannotBe(number))
            }
        }
        Meaning::Bits(index, range) => {
            if bits_wire(option, index, range, variables.get(index)).is_some() {
                None
            } else {
                Some(Cause::LacksBits(number))
            }
        }
    }
}

#[tactic(auto, unfolding(crate::specs::Wirings::option_cause))]
fn option_cause(
    variables: &[Variable],
    home: Home,
    number: usize,
    option: &LineOption,
) -> Option<Cause>
    ensures { result ≡ option_cause variables.now home number option.now }
{
    let meaning = meaning_of(variables, home, option.line, &option.target);
    cause_meant(variables, number, option, meaning)
}

fn option_causes(
    alloc: Global,
    variables: &[Variable],
    home: Home,
    options: &[LineOption],
) -> Result<Vec<Cause>, AllocError>
    ensures { IfOk result (λ v. v.items
        ≡ filter_map (λ p. option_cause variables.now home p.0 p.1) (enumerate_from 0 options.now)) }
{
    options
        .iter()
        .enumerate()
        .filter_map(|(number, option)| option_cause(variables, home, number, option))
        .collect(alloc)
}

fn first_of(causes: &[Cause]) -> Option<Cause>
    ensures { result ≡ slice_get causes.now 0 }
{
    causes.get(0).copied()
}

#[tactic(auto, unfolding(crate::specs::Wirings::first_cause))]
fn first_cause(
    alloc: Global,
    variables: &[Variable],
    home: Home,
    options: &[LineOption],
) -> Result<Option<Cause>, AllocError>
    ensures { IfOk result (λ c. c ≡ first_cause variables.now home options.now) }
{
    let causes = option_causes(alloc, variables, home, options)?;
    Ok(first_of(&causes))
}

#[tactic(auto, unfolding(crate::specs::Wirings::cause_at))]
fn cause_at(
    alloc: Global,
    variables: &[Variable],
    options: &[LineOption],
    home: Home,
) -> Result<Option<Cause>, AllocError>
    ensures { IfOk result (λ c. c ≡ cause_at variables.now options.now home) }
{
    match home {
        Home::Nowhere => first_cause(alloc, variables, Home::Nowhere, options),
        Home::At(scope) => first_cause(alloc, variables, Home::At(scope), options),
        Home::Refused(cause) => Ok(Some(cause)),
    }
}

/// Why the wires are not picked: first the options by themselves, then the scope, then what they name.
#[tactic(auto, unfolding(crate::specs::Wirings::cause_with))]
pub(crate) fn cause_with(
    alloc: Global,
    variables: &[Variable],
    options: &[LineOption],
    without: &[u8],
    settled: &[u8],
    home: Home,
) -> Result<Option<Cause>, AllocError>
    ensures { IfOk result (λ c.
        c ≡ cause_with variables.now options.now without.now settled.now home) }
{
    match options_cause(settled, without) {
        Some(cause) => Ok(Some(cause)),
        None => cause_at(alloc, variables, options, home),
    }
}
