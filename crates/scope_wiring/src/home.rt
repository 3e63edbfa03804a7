//! The scope that is judged.

ghost use Rattle.std.specs.Prelude.{◌≡◌, IfOk, option_map};
ghost use Rattle.std.specs.List.{position, list_any};
ghost use Rattle.scope_wiring.specs.Homes.{is_in_scope, scope_at, is_in_like, is_in_other, has_other_scope, scope_like, scope_named, home_among, home_by_default, home_named, home_of};
ghost use Rattle.scope_wiring.specs.Texts.{scope_path};

use crate::cause::Cause;
use crate::text::{is_same_path, scope_path};
use scope_pick::{Named, Variable, fullest, is_scope_needed, is_whole, qualified};
use std::alloc::{AllocError, Global};

/// The scope that is judged, by its first declaration.
#[derive(Clone, Copy, Debug, PartialEq, Eq)]
pub enum Home {
    /// None: the user names every needed line, or leaves it out.
    Nowhere,
    At(usize),
    /// It is not to be told which.
    Refused(Cause),
}

/// The scope that is judged: the one that the user names, or the one that has the lines of all that qualify.
#[tactic(auto, unfolding(crate::specs::Homes::home_of))]
pub(crate) fn home_of(
    alloc: Global,
    variables: &[Variable],
    names: &[Named],
    settled: &[u8],
    scope: &Option<Vec<u8>>,
) -> Result<Home, AllocError>
    ensures { IfOk result (λ h. h ≡ home_of variables.now names.now settled.now scope.now) }
{
    match scope {
        Some(text) => Ok(home_named(variables, names, settled, text)),
        None => home_by_default(alloc, names, settled),
    }
}

#[tactic(auto, unfolding(crate::specs::Homes::home_named))]
fn home_named(variables: &[Variable], names: &[Named], settled: &[u8], text: &[u8]) -> Home
    ensures { result ≡ home_named variables.now names.now settled.now text.now }
{
    match scope_named(variables, scope_path(text)) {
        None => Home::Refused(Cause::NoScope),
        Some(scope) => {
            if is_whole(names, settled, scope) {
                Home::At(scope)
            } else {
                Home::Refused(Cause::NotWhole(scope))
            }
        }
    }
}

/// The number of the scope that a path names: its first declaration. It is the scope of this very path, or else the one
/// scope of this path whichever of its names are escaped.
#[tactic(auto, unfolding(crate::specs::Homes::scope_named))]
pub fn scope_named(variables: &[Variable], path: &[u8]) -> Option<usize>
    ensures { result ≡ scope_named variables.now path.now }
{
    match scope_at(variables, path) {
        Some(index) => Some(index),
        None => scope_like(variables, path),
    }
}

/// The number of the scope of this very path: its first declaration.
#[tactic(auto, unfolding(crate::specs::Homes::scope_at))]
pub fn scope_at(variables: &[Variable], path: &[u8]) -> Option<usize>
    ensures { result ≡ scope_at variables.now path.now }
{
    variables
        .iter()
        .position(|variable| is_in_scope(path, variable))
}

#[tactic(auto, unfolding(crate::specs::Homes::is_in_scope))]
fn is_in_scope(path: &[u8], variable: &Variable) -> bool
    ensures { result ≡ is_in_scope path.now variable.now }
{
    variable.scope.as_slice() == path
}

#[tactic(auto, unfolding(crate::specs::Homes::scope_like))]
fn scope_like(variables: &[Variable], path: &[u8]) -> Option<usize>
    ensures { result ≡ scope_like variables.now path.now }
{
    match first_like(variables, path) {
        None => None,
        Some(index) => {
            if has_other_scope(variables, path, variables.get(index)) {
                None
            } else {
                Some(index)
            }
        }
    }
}

fn first_like(variables: &[Variable], path: &[u8]) -> Option<usize>
    ensures { result ≡ position (is_in_like path.now) variables.now }
{
    variables
        .iter()
        .position(|variable| is_in_like(path, variable))
}

#[tactic(auto, unfolding(crate::specs::Homes::is_in_like))]
fn is_in_like(path: &[u8], variable: &Variable) -> bool
    ensures { result ≡ is_in_like path.now variable.now }
{
    is_same_path(&variable.scope, path)
}

#[tactic(auto, unfolding(crate::specs::Homes::has_other_scope))]
fn has_other_scope(variables: &[Variable], path: &[u8], first: Option<&Variable>) -> bool
    ensures { result
        ≡ has_other_scope variables.now path.now (option_map (λ v. v.now) first.entry) }
{
    match first {
        None => false,
        Some(first) => is_any_in_other(variables, path, first),
    }
}

fn is_any_in_other(variables: &[Variable], path: &[u8], first: &Variable) -> bool
    ensures { result ≡ list_any (is_in_other path.now first.now) variables.now }
{
    variables
        .iter()
        .any(|variable| is_in_other(path, first, variable))
}

#[tactic(auto, unfolding(crate::specs::Homes::is_in_other))]
fn is_in_other(path: &[u8], first: &Variable, other: &Variable) -> bool
    ensures { result ≡ is_in_other path.now first.now other.now }
{
    is_in_like(path, other) && !is_in_scope(&first.scope, other)
}

#[tactic(auto, unfolding(crate::specs::Homes::home_by_default))]
fn home_by_default(alloc: Global, names: &[Named], settled: &[u8]) -> Result<Home, AllocError>
    ensures { IfOk result (λ h. h ≡ home_by_default names.now settled.now) }
{
    if !is_scope_needed(settled) {
        return Ok(Home::Nowhere);
    }
    let scopes = qualified(alloc, names, settled)?;
    home_among(alloc, names, settled, &scopes)
}

#[tactic(auto, unfolding(crate::specs::Homes::home_among))]
fn home_among(
    alloc: Global,
    names: &[Named],
    settled: &[u8],
    scopes: &[Named],
) -> Result<Home, AllocError>
    ensures { IfOk result (λ h. h ≡ home_among names.now settled.now scopes.now) }
{
    match fullest(alloc, names, settled, scopes)? {
        Some(scope) => Ok(Home::At(scope.scope)),
        None => {
            if scopes.len() == 0 {
                Ok(Home::Refused(Cause::NoneWhole))
            } else {
                Ok(Home::Refused(Cause::Several))
            }
        }
    }
}
