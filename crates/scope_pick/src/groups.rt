//! The variables that are named like lines, by their scopes, so that those of one are at hand.

ghost use Rattle.std.specs.Prelude.{◌≡◌, ℕ, ◌++◌, [], ◌∷◌, nat_eq, IfOk, OnOk, if◌then◌else◌};
ghost use Rattle.scope_pick.specs.Groups.{group_at, AreGroups};
ghost use Rattle.scope_pick.specs.Scopes.{found_in};

use crate::scopes::found_in;
use crate::wires::Named;
use std::alloc::{AllocError, Global};
use std::collections::BTreeMap;
use std::marker::Model;

/// The variables that are named like lines, with those of each scope at hand. Contracts see their list.
#[derive(Drop)]
pub struct Names<'a> {
    names: &'a [Named],
    groups: BTreeMap<usize, Vec<Named>>,
}

impl<'a> Model for Names<'a> {
    ghost use Rattle.std.specs.Prelude.{List};
    ghost use Rattle.scope_pick.specs.declared.wires.Named.{Named as Declared};
    ghost use Rattle.scope_pick.specs.Groups.{AreGroups};

    ghost Value = { List Declared };

    ghost view = { λ names. names.names.now };

    ghost invariant = { λ names. AreGroups names.groups names.names.now };
}

impl<'a> Names<'a> {
    /// What is at hand of these variables.
    pub fn new(alloc: Global, names: &'a [Named]) -> Result<Self, AllocError>
        ensures { IfOk result (λ value. value ≡ names.now) }
    {
        Ok(Names {
            names,
            groups: groups_of(alloc, names)?,
        })
    }

    /// The line as it is found in the scope, or `None` where it is not there or ambiguous.
    pub fn found_in(&self, scope: usize, line: u8) -> Option<Named>
        ensures { result ≡ found_in self.now scope line }
    {
        found_in(group_at(&self.groups, scope), scope, line)
    }
}

/// The variables of each scope, in the order of the header.
pub fn groups_of(alloc: Global, names: &[Named]) -> Result<BTreeMap<usize, Vec<Named>>, AllocError>
    ensures { IfOk result (λ groups. AreGroups groups names.now) }
{
    let mut groups = BTreeMap::new(alloc);
    for name in names {
        add(alloc, &mut groups, *name)?;
    }
    Ok(groups)
}

// Puts the variable behind the others of its scope.
fn add(
    alloc: Global,
    groups: &mut BTreeMap<usize, Vec<Named>>,
    name: Named,
) -> Result<(), AllocError>
    ensures { OnOk result ((scope : ℕ) → group_at groups.new scope
        ≡ group_at groups.old scope ++ (if nat_eq name.scope scope then name ∷ [] else [])) }
{
    let mut group = match groups.remove(&name.scope) {
        Some(group) => group,
        None => Vec::new(alloc),
    };
    group.push(name)?;
    groups.insert(name.scope, group)?;
    Ok(())
}

/// The variables of the scope.
pub fn group_at(groups: &BTreeMap<usize, Vec<Named>>, scope: usize) -> &[Named]
    ensures { result.now ≡ group_at groups.now scope }
{
    match groups.get(&scope) {
        Some(group) => group,
        None => &[],
    }
}
