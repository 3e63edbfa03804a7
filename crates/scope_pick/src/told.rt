ghost use Rattle.std.specs.Prelude.{◌≡◌, ◌&&◌, not, IfOk};
ghost use Rattle.std.specs.List.{filter};
ghost use Rattle.scope_pick.specs.Scopes.{is_ambiguous, is_listed};
ghost use Rattle.scope_pick.specs.Told.{is_unfound, unfound_lines, ambiguous_lines, is_other_name, other_names};

use crate::scopes::{LINES, found_in, is_ambiguous, is_for, is_listed};
use crate::wires::Named;
use std::alloc::{AllocError, Global};

/// The lines that are not found in the scope, by their numbers, but for the settled ones.
#[tactic(auto, unfolding(crate::specs::Told::unfound_lines))]
pub fn unfound_lines(
    alloc: Global,
    names: &[Named],
    settled: &[u8],
    scope: usize,
) -> Result<Vec<u8>, AllocError>
    ensures { IfOk result (λ v. v.items ≡ unfound_lines names.now settled.now scope) }
{
    unfound_among(alloc, names, settled, scope, &LINES)
}

fn unfound_among(
    alloc: Global,
    names: &[Named],
    settled: &[u8],
    scope: usize,
    lines: &[u8],
) -> Result<Vec<u8>, AllocError>
    ensures { IfOk result (λ v.
        v.items ≡ filter (is_unfound names.now settled.now scope) lines.now) }
{
    lines
        .iter()
        .copied()
        .filter(|line| is_unfound(names, settled, scope, *line))
        .collect(alloc)
}

#[tactic(auto, unfolding(crate::specs::Told::is_unfound))]
fn is_unfound(names: &[Named], settled: &[u8], scope: usize, line: u8) -> bool
    ensures { result ≡ is_unfound names.now settled.now scope line }
{
    !is_listed(settled, line) && found_in(names, scope, line).is_none()
}

/// The lines for which several wires of the scope have equally good names, but for the settled ones.
#[tactic(auto, unfolding(crate::specs::Told::ambiguous_lines))]
pub fn ambiguous_lines(
    alloc: Global,
    names: &[Named],
    settled: &[u8],
    scope: usize,
) -> Result<Vec<u8>, AllocError>
    ensures { IfOk result (λ v. v.items ≡ ambiguous_lines names.now settled.now scope) }
{
    ambiguous_among(alloc, names, settled, scope, &LINES)
}

fn ambiguous_among(
    alloc: Global,
    names: &[Named],
    settled: &[u8],
    scope: usize,
    lines: &[u8],
) -> Result<Vec<u8>, AllocError>
    ensures { IfOk result (λ v. v.items
        ≡ filter (λ n. not (is_listed settled.now n) && is_ambiguous names.now scope n) lines.now) }
{
    lines
        .iter()
        .copied()
        .filter(|line| !is_listed(settled, *line) && is_ambiguous(names, scope, *line))
        .collect(alloc)
}

/// The other variables of its scope that are named like the line of this one; of the list of unfit ones, those of them.
#[tactic(auto, unfolding(crate::specs::Told::other_names))]
pub fn other_names(alloc: Global, names: &[Named], taken: Named) -> Result<Vec<Named>, AllocError>
    ensures { IfOk result (λ v. v.items ≡ other_names names.now taken) }
{
    names
        .iter()
        .copied()
        .filter(|name| is_other_name(taken, *name))
        .collect(alloc)
}

#[tactic(auto, unfolding(crate::specs::Told::is_other_name))]
fn is_other_name(taken: Named, name: Named) -> bool
    ensures { result ≡ is_other_name taken name }
{
    is_for(taken.scope, taken.line, name) && name.index != taken.index
}
