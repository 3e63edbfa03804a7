//! What is listed where the wires are not picked.

ghost use Rattle.std.specs.Prelude.{◌≡◌, ℕ, map, count_by, nat_le, IfOk, option_map};
ghost use Rattle.std.specs.List.{filter, filter_map, enumerate_from};
ghost use Rattle.scope_pick.specs.Groups.{group_at};
ghost use Rattle.scope_pick.specs.Scopes.{qualified, is_head};
ghost use Rattle.scope_wiring.specs.Candidates.{scopes_of, heads, is_found, found_count, is_greatest, best_among, buses_among, is_alike, alike_at, alike, indices_meant, alike_option, meant_by, candidates};

use crate::cause::Cause;
use crate::home::Home;
use crate::meaning::{Meaning, meaning_of};
use crate::named_words::is_name_or_bit;
use crate::text::{LineOption, before_bits};
use scope_pick::{
    Named, Variable, after_last, buses, found_in, group_at, groups_of, is_head, is_line_needed,
    is_listed, qualified,
};
use std::alloc::{AllocError, Global};
use std::collections::BTreeMap;

const LINES: [u8; 22] = [
    0, 1, 2, 3, 4, 5, 6, 7, 8, 9, 10, 11, 12, 13, 14, 15, 16, 17, 18, 19, 20, 21,
];

fn scopes_of(alloc: Global, names: &[Named]) -> Result<Vec<usize>, AllocError>
    ensures { IfOk result (λ v. v.items ≡ scopes_of names.now) }
{
    names.iter().map(|name| name.scope).collect(alloc)
}

/// The scopes with a variable that is named like a line, each by the first such.
pub fn heads(alloc: Global, names: &[Named]) -> Result<Vec<Named>, AllocError>
    ensures { IfOk result (λ v. v.items ≡ heads names.now) }
{
    let groups = groups_of(alloc, names)?;
    heads_among(alloc, names, &groups)
}

// Each is looked for among those of its scope.
fn heads_among(
    alloc: Global,
    names: &[Named],
    groups: &BTreeMap<usize, Vec<Named>>,
) -> Result<Vec<Named>, AllocError>
    ensures { IfOk result (λ v. v.items
        ≡ filter (λ e. is_head (group_at groups.now e.scope) e) names.now) }
{
    names
        .iter()
        .copied()
        .filter(|name| is_head(group_at(groups, name.scope), *name))
        .collect(alloc)
}

#[tactic(auto, unfolding(crate::specs::Candidates::is_found))]
fn is_found(names: &[Named], settled: &[u8], scope: usize, line: u8) -> bool
    ensures { result ≡ is_found names.now settled.now scope line }
{
    line < 22
        && is_line_needed(line)
        && !is_listed(settled, line)
        && found_in(names, scope, line).is_some()
}

fn count_found(names: &[Named], settled: &[u8], scope: usize, lines: &[u8]) -> usize
    ensures { result ≡ count_by (is_found names.now settled.now scope) lines.now }
{
    lines
        .iter()
        .filter(|line| is_found(names, settled, scope, **line))
        .count()
}

/// How many needed lines the scope has, but for the settled ones.
#[tactic(auto, unfolding(crate::specs::Candidates::found_count))]
pub fn found_count(names: &[Named], settled: &[u8], scope: usize) -> usize
    ensures { result ≡ found_count names.now settled.now scope }
{
    count_found(names, settled, scope, &LINES)
}

// How many each of these scopes has, counted among its own variables.
fn found_counts(
    alloc: Global,
    groups: &BTreeMap<usize, Vec<Named>>,
    settled: &[u8],
    scopes: &[Named],
) -> Result<Vec<usize>, AllocError>
    ensures { IfOk result (λ v. v.items
        ≡ map (λ e. found_count (group_at groups.now e.scope) settled.now e.scope) scopes.now) }
{
    scopes
        .iter()
        .map(|scope| found_count(group_at(groups, scope.scope), settled, scope.scope))
        .collect(alloc)
}

// The greatest of these counts, or 0.
fn greatest(counts: &[usize]) -> usize
    ensures { (count : ℕ) → is_greatest counts.now count ≡ nat_le result count }
{
    let mut greatest = 0;
    for count in counts {
        greatest = greatest.max(*count);
    }
    greatest
}

fn greatest_among(
    alloc: Global,
    groups: &BTreeMap<usize, Vec<Named>>,
    settled: &[u8],
    most: usize,
    scopes: &[Named],
) -> Result<Vec<Named>, AllocError>
    ensures { IfOk result (λ v. v.items ≡ filter (λ e.
        nat_le most (found_count (group_at groups.now e.scope) settled.now e.scope)) scopes.now) }
{
    scopes
        .iter()
        .copied()
        .filter(|scope| {
            most <= found_count(group_at(groups, scope.scope), settled, scope.scope)
        })
        .collect(alloc)
}

fn best_among(
    alloc: Global,
    names: &[Named],
    settled: &[u8],
    scopes: &[Named],
) -> Result<Vec<Named>, AllocError>
    ensures { IfOk result (λ v. v.items ≡ best_among names.now settled.now scopes.now) }
{
    let groups = groups_of(alloc, names)?;
    let counts = found_counts(alloc, &groups, settled, scopes)?;
    greatest_among(alloc, &groups, settled, greatest(&counts), scopes)
}

#[tactic(auto, unfolding(crate::specs::Candidates::is_alike))]
fn is_alike(name: &[u8], variable: &Variable) -> bool
    ensures { result ≡ is_alike name.now variable.now }
{
    is_name_or_bit(name, &variable.name) || is_name_or_bit(before_bits(name), &variable.name)
}

#[tactic(auto, unfolding(crate::specs::Candidates::alike_at))]
fn alike_at(name: &[u8], index: usize, variable: &Variable) -> Option<usize>
    ensures { result ≡ alike_at name.now index variable.now }
{
    if is_alike(name, variable) {
        Some(index)
    } else {
        None
    }
}

fn alike_named(alloc: Global, variables: &[Variable], name: &[u8]) -> Result<Vec<usize>, AllocError>
    ensures { IfOk result (λ v. v.items
        ≡ filter_map (λ p. alike_at name.now p.0 p.1) (enumerate_from 0 variables.now)) }
{
    variables
        .iter()
        .enumerate()
        .filter_map(|(index, variable)| alike_at(name, index, variable))
        .collect(alloc)
}

#[tactic(auto, unfolding(crate::specs::Candidates::alike))]
fn alike(alloc: Global, variables: &[Variable], text: &[u8]) -> Result<Vec<usize>, AllocError>
    ensures { IfOk result (λ v. v.items ≡ alike variables.now text.now) }
{
    alike_named(alloc, variables, after_last(46, text))
}

#[tactic(auto, unfolding(crate::specs::Candidates::indices_meant))]
fn indices_meant(
    alloc: Global,
    variables: &[Variable],
    text: &[u8],
    meaning: Meaning,
) -> Result<Vec<usize>, AllocError>
    ensures { IfOk result (λ v. v.items ≡ indices_meant variables.now text.now meaning) }
{
    match meaning {
        Meaning::Nothing | Meaning::Several => Ok(Vec::new(alloc)),
        Meaning::Lacking => alike(alloc, variables, text),
        Meaning::Whole(index) => Vec::from_slice(alloc, &[index]),
        Meaning::Bits(index, _) => Vec::from_slice(alloc, &[index]),
        Meaning::Word(_) | Meaning::WordBits(_) => Ok(Vec::new(alloc)),
    }
}

#[tactic(auto, unfolding(crate::specs::Candidates::alike_option))]
fn alike_option(
    alloc: Global,
    variables: &[Variable],
    option: Option<&LineOption>,
) -> Result<Vec<usize>, AllocError>
    ensures { IfOk result (λ v.
        v.items ≡ alike_option variables.now (option_map (λ o. o.now) option.entry)) }
{
    match option {
        None => Ok(Vec::new(alloc)),
        Some(option) => alike(alloc, variables, &option.target),
    }
}

#[tactic(auto, unfolding(crate::specs::Candidates::meant_by))]
fn meant_by(
    alloc: Global,
    variables: &[Variable],
    home: Home,
    option: Option<&LineOption>,
) -> Result<Vec<usize>, AllocError>
    ensures { IfOk result (λ v.
        v.items ≡ meant_by variables.now home (option_map (λ o. o.now) option.entry)) }
{
    match option {
        None => Ok(Vec::new(alloc)),
        Some(option) => {
            let meaning = meaning_of(variables, home, option.line, &option.target);
            indices_meant(alloc, variables, &option.target, meaning)
        }
    }
}

fn known_scopes(alloc: Global, names: &[Named]) -> Result<Vec<usize>, AllocError>
    ensures { IfOk result (λ v. v.items ≡ scopes_of (heads names.now)) }
{
    let scopes = heads(alloc, names)?;
    scopes_of(alloc, &scopes)
}

fn best_scopes(alloc: Global, names: &[Named], settled: &[u8]) -> Result<Vec<usize>, AllocError>
    ensures { IfOk result (λ v.
        v.items ≡ scopes_of (best_among names.now settled.now (heads names.now))) }
{
    let scopes = heads(alloc, names)?;
    let best = best_among(alloc, names, settled, &scopes)?;
    scopes_of(alloc, &best)
}

#[tactic(auto, unfolding(crate::specs::Candidates::buses_among))]
fn bus_scopes(alloc: Global, names: &[Named], settled: &[u8]) -> Result<Vec<usize>, AllocError>
    ensures { IfOk result (λ v. v.items
        ≡ scopes_of (buses_among names.now settled.now (qualified names.now settled.now))) }
{
    let scopes = qualified(alloc, names, settled)?;
    let apart = buses(alloc, names, settled, &scopes)?;
    scopes_of(alloc, &apart)
}

/// What is listed with a cause, by the indices of declarations: scopes by their first ones, or variables.
#[tactic(auto, unfolding(crate::specs::Candidates::candidates))]
pub(crate) fn candidates(
    alloc: Global,
    variables: &[Variable],
    options: &[LineOption],
    names: &[Named],
    settled: &[u8],
    home: Home,
    cause: Cause,
) -> Result<Vec<usize>, AllocError>
    ensures { IfOk result (λ v. v.items
        ≡ candidates variables.now options.now names.now settled.now home cause) }
{
    match cause {
        Cause::Needed(_) => Ok(Vec::new(alloc)),
        Cause::Twice(_) => Ok(Vec::new(alloc)),
        Cause::NoScope => known_scopes(alloc, names),
        Cause::NotWhole(scope) => Vec::from_slice(alloc, &[scope]),
        Cause::NoneWhole => best_scopes(alloc, names, settled),
        Cause::Several => bus_scopes(alloc, names, settled),
        Cause::NoVariable(number) => alike_option(alloc, variables, options.get(number)),
        Cause::SeveralVariables(number) => alike_option(alloc, variables, options.get(number)),
        Cause::CannotBe(number) => meant_by(alloc, variables, home, options.get(number)),
        Cause::LacksBits(number) => meant_by(alloc, variables, home, options.get(number)),
    }
}
