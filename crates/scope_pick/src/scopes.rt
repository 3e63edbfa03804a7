ghost use Rattle.std.specs.Prelude.{◌≡◌, ◌≢◌, ◌<◌, ◌||◌, nat_eq, Some, None, IfOk, IfErr, MatchResult, All, [], List, ℕ};
ghost use Rattle.std.specs.List.{list_any, list_all, find, filter};
ghost use Rattle.scope_pick.specs.Scopes.{lines, is_for, exact_in, like_in, first_in, is_rival, is_ambiguous, found_in, is_settled, is_whole, is_head, qualifies, qualified, has_same, may_be_one_word, may_be_two_words, is_same_bus, is_fullest, picked, lies_in, stands_alone, buses, is_free, is_scope_needed, is_listed};
ghost use Rattle.scope_pick.specs.Groups.{group_at};
ghost use Rattle.scope_pick.specs.ScopeFaults.{IsPicked, IsScopeFault};

use crate::groups::{Names, group_at, groups_of};
use crate::place::{is_line_needed, is_multi_bit};
use crate::wires::Named;
use std::alloc::{AllocError, Global};
use std::collections::BTreeMap;

/// Why no scope is picked, where one is needed.
#[derive(Debug, Drop)]
pub enum ScopeFault {
    /// There was no memory for the list.
    Memory(AllocError),
    /// No scope has every needed line and none that is ambiguous.
    Missing,
    /// Several buses have, and none has all lines of the others: a scope of each, by its first variable.
    Several(Vec<Named>),
}

pub(crate) const LINES: [u8; 22] = [
    0, 1, 2, 3, 4, 5, 6, 7, 8, 9, 10, 11, 12, 13, 14, 15, 16, 17, 18, 19, 20, 21,
];

/// The scope that is judged, by its first variable; `None` where none is needed. Settled lines are those that the user
/// named or left out.
pub fn picked(alloc: Global, names: &[Named], settled: &[u8]) -> Result<Option<Named>, ScopeFault>
    ensures { MatchResult result
        (IsPicked names.now settled.now)
        (IsScopeFault names.now settled.now) }
{
    if !is_scope_needed(settled) {
        return Ok(None);
    }
    let scopes = match qualified(alloc, names, settled) {
        Ok(scopes) => scopes,
        Err(error) => return Err(ScopeFault::Memory(error)),
    };
    if scopes.is_empty() {
        return Err(ScopeFault::Missing);
    }
    match fullest(alloc, names, settled, &scopes) {
        Err(error) => Err(ScopeFault::Memory(error)),
        Ok(Some(scope)) => Ok(Some(scope)),
        Ok(None) => match buses(alloc, names, settled, &scopes) {
            Ok(apart) => Err(ScopeFault::Several(apart)),
            Err(error) => Err(ScopeFault::Memory(error)),
        },
    }
}

/// Whether a scope is needed: a needed line is not settled. Where all are, nothing is taken from a scope that nobody named.
#[tactic(auto, unfolding(crate::specs::Scopes::is_scope_needed))]
pub fn is_scope_needed(settled: &[u8]) -> bool
    ensures { result ≡ is_scope_needed settled.now }
{
    !are_free(settled, &LINES)
}

// Whether each of the lines is settled or isn't needed.
fn are_free(settled: &[u8], lines: &[u8]) -> bool
    requires { All (λ n. n < 22) lines.now }
    ensures { result ≡ list_all (is_free settled.now) lines.now }
{
    for line in lines {
        if !is_free(settled, *line) {
            return false;
        }
    }
    true
}

#[tactic(auto, unfolding(crate::specs::Scopes::is_free))]
fn is_free(settled: &[u8], line: u8) -> bool
    requires { line < 22 }
    ensures { result ≡ is_free settled.now line }
{
    !is_line_needed(line) || is_listed(settled, line)
}

/// Of these scopes those that lie in no other of them.
pub fn buses(
    alloc: Global,
    names: &[Named],
    settled: &[u8],
    scopes: &[Named],
) -> Result<Vec<Named>, AllocError>
    ensures { IfOk result (λ v.
        v.items ≡ filter (stands_alone names.now settled.now scopes.now) scopes.now) }
{
    let names = Names::new(alloc, names)?;
    buses_among(alloc, &names, settled, scopes)
}

fn buses_among(
    alloc: Global,
    names: &Names<'_>,
    settled: &[u8],
    scopes: &[Named],
) -> Result<Vec<Named>, AllocError>
    ensures { IfOk result (λ v.
        v.items ≡ filter (stands_alone names.now settled.now scopes.now) scopes.now) }
{
    scopes
        .iter()
        .copied()
        .filter(|scope| stands_alone(names, settled, scopes, *scope))
        .collect(alloc)
}

#[tactic(auto, unfolding(crate::specs::Scopes::stands_alone))]
fn stands_alone(names: &Names<'_>, settled: &[u8], others: &[Named], scope: Named) -> bool
    ensures { result ≡ stands_alone names.now settled.now others.now scope }
{
    !lies_in_any(names, settled, others, scope)
}

fn lies_in_any(names: &Names<'_>, settled: &[u8], others: &[Named], scope: Named) -> bool
    ensures { result ≡ list_any (lies_in names.now settled.now scope) others.now }
{
    others
        .iter()
        .any(|other| lies_in(names, settled, scope, *other))
}

#[tactic(auto, unfolding(crate::specs::Scopes::lies_in))]
fn lies_in(names: &Names<'_>, settled: &[u8], scope: Named, other: Named) -> bool
    ensures { result ≡ lies_in names.now settled.now scope other }
{
    is_same_bus(names, settled, other.scope, scope.scope)
        && (!is_same_bus(names, settled, scope.scope, other.scope) || other.index < scope.index)
}

/// The scopes that have every needed line and none that is ambiguous, each by its first variable.
pub fn qualified(alloc: Global, names: &[Named], settled: &[u8]) -> Result<Vec<Named>, AllocError>
    ensures { IfOk result (λ v. v.items ≡ qualified names.now settled.now) }
{
    let groups = groups_of(alloc, names)?;
    qualified_among(alloc, names, settled, &groups)
}

// Each scope is asked by its own variables.
fn qualified_among(
    alloc: Global,
    names: &[Named],
    settled: &[u8],
    groups: &BTreeMap<usize, Vec<Named>>,
) -> Result<Vec<Named>, AllocError>
    ensures { IfOk result (λ v. v.items
        ≡ filter (λ e. qualifies (group_at groups.now e.scope) settled.now e) names.now) }
{
    names
        .iter()
        .copied()
        .filter(|name| qualifies(group_at(groups, name.scope), settled, *name))
        .collect(alloc)
}

/// The line as it is found in the scope, or `None` where it is not there or ambiguous.
#[tactic(auto, unfolding(crate::specs::Scopes::found_in))]
pub fn found_in(names: &[Named], scope: usize, line: u8) -> Option<Named>
    ensures { result ≡ found_in names.now scope line }
{
    if is_ambiguous(names, scope, line) {
        None
    } else {
        first_in(names, scope, line)
    }
}

/// Whether the scope has wires that are as good as one another for the line.
#[tactic(auto, unfolding(crate::specs::Scopes::is_ambiguous))]
pub fn is_ambiguous(names: &[Named], scope: usize, line: u8) -> bool
    ensures { result ≡ is_ambiguous names.now scope line }
{
    match first_in(names, scope, line) {
        None => false,
        Some(chosen) => has_rival(names, chosen),
    }
}

/// The variable of the scope that has the best name for the line.
#[tactic(auto, unfolding(crate::specs::Scopes::first_in))]
pub fn first_in(names: &[Named], scope: usize, line: u8) -> Option<Named>
    ensures { result ≡ first_in names.now scope line }
{
    match exact_in(names, scope, line) {
        Some(name) => Some(name),
        None => like_in(names, scope, line),
    }
}

/// Whether the line is settled, or has one best wire in the scope, or isn't needed and nothing is named like it.
#[tactic(auto, unfolding(crate::specs::Scopes::is_settled))]
pub fn is_settled(names: &[Named], settled: &[u8], scope: usize, line: u8) -> bool
    requires { line < 22 }
    ensures { result ≡ is_settled names.now settled.now scope line }
{
    is_listed(settled, line)
        || (!is_ambiguous(names, scope, line)
            && (!is_line_needed(line) || first_in(names, scope, line).is_some()))
}

/// Whether the line is among these.
#[tactic(auto, unfolding(crate::specs::Scopes::is_listed))]
pub fn is_listed(lines: &[u8], line: u8) -> bool
    ensures { result ≡ is_listed lines.now line }
{
    lines.iter().any(|other| *other == line)
}

#[tactic(auto, unfolding(crate::specs::Scopes::exact_in))]
fn exact_in(names: &[Named], scope: usize, line: u8) -> Option<Named>
    ensures { result ≡ exact_in names.now scope line }
{
    names
        .iter()
        .copied()
        .find(|name| is_for(scope, line, *name) && name.exact)
}

#[tactic(auto, unfolding(crate::specs::Scopes::like_in))]
fn like_in(names: &[Named], scope: usize, line: u8) -> Option<Named>
    ensures { result ≡ like_in names.now scope line }
{
    names
        .iter()
        .copied()
        .find(|name| is_for(scope, line, *name))
}

#[tactic(auto, unfolding(crate::specs::Scopes::is_for))]
pub(crate) fn is_for(scope: usize, line: u8, name: Named) -> bool
    ensures { result ≡ is_for scope line name }
{
    name.scope == scope && name.line == line
}

fn has_rival(names: &[Named], chosen: Named) -> bool
    ensures { result ≡ list_any (is_rival chosen) names.now }
{
    names.iter().any(|name| is_rival(chosen, *name))
}

#[tactic(auto, unfolding(crate::specs::Scopes::is_rival))]
fn is_rival(chosen: Named, name: Named) -> bool
    ensures { result ≡ is_rival chosen name }
{
    is_for(chosen.scope, chosen.line, name)
        && (!chosen.exact || name.exact)
        && name.wire != chosen.wire
}

#[tactic(auto, unfolding(crate::specs::Scopes::qualifies))]
fn qualifies(names: &[Named], settled: &[u8], name: Named) -> bool
    ensures { result ≡ qualifies names.now settled.now name }
{
    is_head(names, name) && is_whole(names, settled, name.scope)
}

/// Whether the variable is the first of its scope that is named like a line.
#[tactic(auto, unfolding(crate::specs::Scopes::is_head))]
pub fn is_head(names: &[Named], name: Named) -> bool
    ensures { result ≡ is_head names.now name }
{
    match first_of(names, name.scope) {
        None => false,
        Some(first) => first.index == name.index,
    }
}

fn first_of(names: &[Named], scope: usize) -> Option<Named>
    ensures { result ≡ find (λ f. nat_eq f.scope scope) names.now }
{
    names.iter().copied().find(|name| name.scope == scope)
}

/// Whether the scope has every needed line and none that is ambiguous, but for the settled ones.
#[tactic(auto, unfolding(crate::specs::Scopes::is_whole))]
pub fn is_whole(names: &[Named], settled: &[u8], scope: usize) -> bool
    ensures { result ≡ is_whole names.now settled.now scope }
{
    are_settled(names, settled, scope, &LINES)
}

fn are_settled(names: &[Named], settled: &[u8], scope: usize, lines: &[u8]) -> bool
    requires { All (λ n. n < 22) lines.now }
    ensures { result ≡ list_all (is_settled names.now settled.now scope) lines.now }
{
    for line in lines {
        if !is_settled(names, settled, scope, *line) {
            return false;
        }
    }
    true
}

#[tactic(auto, unfolding(crate::specs::Scopes::is_same_bus))]
fn is_same_bus(names: &Names<'_>, settled: &[u8], scope: usize, other: usize) -> bool
    ensures { result ≡ is_same_bus names.now settled.now scope other }
{
    has_lines_of(names, settled, scope, other, &LINES)
        && (shares_words(names, settled, scope, other, &LINES)
            || shares_no_word(names, settled, scope, other, &LINES))
}

fn has_lines_of(names: &Names<'_>, settled: &[u8], scope: usize, other: usize, lines: &[u8]) -> bool
    ensures { result ≡ list_all (λ n. is_listed settled.now n
        || has_same (found_in names.now scope n) (found_in names.now other n)) lines.now }
{
    lines.iter().all(|line| is_listed(settled, *line)
        || has_same(names.found_in(scope, *line), names.found_in(other, *line)))
}

fn shares_words(names: &Names<'_>, settled: &[u8], scope: usize, other: usize, lines: &[u8]) -> bool
    ensures { result ≡ list_all (λ n. is_listed settled.now n
        || may_be_one_word (found_in names.now scope n) (found_in names.now other n)) lines.now }
{
    lines.iter().all(|line| is_listed(settled, *line)
        || may_be_one_word(names.found_in(scope, *line), names.found_in(other, *line)))
}

fn shares_no_word(
    names: &Names<'_>,
    settled: &[u8],
    scope: usize,
    other: usize,
    lines: &[u8],
) -> bool
    ensures { result ≡ list_all (λ n. is_listed settled.now n
        || may_be_two_words (found_in names.now scope n) (found_in names.now other n)) lines.now }
{
    lines.iter().all(|line| is_listed(settled, *line)
        || may_be_two_words(names.found_in(scope, *line), names.found_in(other, *line)))
}

#[tactic(auto, unfolding(crate::specs::Scopes::has_same))]
fn has_same(ours: Option<Named>, theirs: Option<Named>) -> bool
    ensures { result ≡ has_same ours theirs }
{
    match ours {
        None => theirs.is_none(),
        Some(our) => match theirs {
            None => true,
            Some(their) => is_multi_bit(our.line) || our.wire == their.wire,
        },
    }
}

#[tactic(auto, unfolding(crate::specs::Scopes::may_be_one_word))]
fn may_be_one_word(ours: Option<Named>, theirs: Option<Named>) -> bool
    ensures { result ≡ may_be_one_word ours theirs }
{
    match ours {
        None => true,
        Some(our) => match theirs {
            None => true,
            Some(their) => !is_multi_bit(our.line) || our.wire == their.wire,
        },
    }
}

#[tactic(auto, unfolding(crate::specs::Scopes::may_be_two_words))]
fn may_be_two_words(ours: Option<Named>, theirs: Option<Named>) -> bool
    ensures { result ≡ may_be_two_words ours theirs }
{
    match ours {
        None => true,
        Some(our) => match theirs {
            None => true,
            Some(their) => !is_multi_bit(our.line) || our.wire != their.wire,
        },
    }
}

#[tactic(auto, unfolding(crate::specs::Scopes::is_fullest))]
fn is_fullest(names: &Names<'_>, settled: &[u8], others: &[Named], scope: Named) -> bool
    ensures { result ≡ is_fullest names.now settled.now others.now scope }
{
    others.iter().all(|other| is_same_bus(names, settled, scope.scope, other.scope))
}

/// Of these scopes the first that has the lines of all of them.
pub fn fullest(
    alloc: Global,
    names: &[Named],
    settled: &[u8],
    scopes: &[Named],
) -> Result<Option<Named>, AllocError>
    ensures { IfOk result (λ e.
        e ≡ find (is_fullest names.now settled.now scopes.now) scopes.now) }
{
    let names = Names::new(alloc, names)?;
    Ok(fullest_among(&names, settled, scopes))
}

fn fullest_among(names: &Names<'_>, settled: &[u8], scopes: &[Named]) -> Option<Named>
    ensures { result ≡ find (is_fullest names.now settled.now scopes.now) scopes.now }
{
    scopes
        .iter()
        .copied()
        .find(|scope| is_fullest(names, settled, scopes, *scope))
}
