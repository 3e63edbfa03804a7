//! The variables of a header, with the first of each scope and of each code at hand.

ghost use Rattle.std.specs.Prelude.{◌≡◌, ℕ, List, IfOk, OnOk, if◌then◌else◌, Some, None};
ghost use Rattle.std.specs.Option.{option_or};
ghost use Rattle.std.specs.Str.{bytes_eq};
ghost use Rattle.scope_pick.specs.Headers.{kept_at, AreFirsts, scopes_in, codes_in};
ghost use Rattle.scope_pick.specs.Numbering.{scope_number, wire_number};

use crate::variable::Variable;
use std::alloc::{AllocError, Global};
use std::collections::BTreeMap;
use std::marker::Model;

/// The variables of a header. Contracts see their list.
#[derive(Drop)]
pub struct Header<'a> {
    variables: &'a [Variable],
    scopes: BTreeMap<&'a [u8], usize>,
    codes: BTreeMap<&'a [u8], usize>,
}

impl<'a> Model for Header<'a> {
    ghost use Rattle.std.specs.Prelude.{List};
    ghost use Rattle.scope_pick.specs.declared.variable.Variable.{Variable as Declared};
    ghost use Rattle.scope_pick.specs.Headers.{AreKept};

    ghost Value = { List Declared };

    ghost view = { λ header. header.variables.now };

    ghost invariant = { λ header. AreKept header.scopes header.codes header.variables.now };
}

impl<'a> Header<'a> {
    /// What is at hand of these variables.
    pub fn new(alloc: Global, variables: &'a [Variable]) -> Result<Self, AllocError>
        ensures { IfOk result (λ header. header ≡ variables.now) }
    {
        Ok(Header {
            variables,
            scopes: first_scopes(alloc, variables)?,
            codes: first_codes(alloc, variables)?,
        })
    }

    /// The variables.
    pub fn variables(&self) -> &'a [Variable]
        ensures { result.now ≡ self.now }
    {
        self.variables
    }

    /// The number of the variable's scope: the index of the first declaration in it.
    #[tactic(auto, unfolding(crate::specs::Numbering::scope_number))]
    pub fn scope_number(&self, index: usize, variable: &Variable) -> usize
        ensures { result ≡ scope_number self.now index variable.now }
    {
        kept_at(&self.scopes, &variable.scope).unwrap_or(index)
    }

    /// The number of the variable's wire: the index of the first declaration with its code.
    #[tactic(auto, unfolding(crate::specs::Numbering::wire_number))]
    pub fn wire_number(&self, index: usize, variable: &Variable) -> usize
        ensures { result ≡ wire_number self.now index variable.now }
    {
        kept_at(&self.codes, &variable.code).unwrap_or(index)
    }
}

// The first declaration of each scope.
fn first_scopes<'a>(
    alloc: Global,
    variables: &'a [Variable],
) -> Result<BTreeMap<&'a [u8], usize>, AllocError>
    ensures { IfOk result (λ firsts. AreFirsts firsts (scopes_in variables.now)) }
{
    let mut firsts = BTreeMap::new(alloc);
    for (index, variable) in variables.iter().enumerate() {
        keep_first(&mut firsts, &variable.scope, index)?;
    }
    Ok(firsts)
}

// The first declaration with each code.
fn first_codes<'a>(
    alloc: Global,
    variables: &'a [Variable],
) -> Result<BTreeMap<&'a [u8], usize>, AllocError>
    ensures { IfOk result (λ firsts. AreFirsts firsts (codes_in variables.now)) }
{
    let mut firsts = BTreeMap::new(alloc);
    for (index, variable) in variables.iter().enumerate() {
        keep_first(&mut firsts, &variable.code, index)?;
    }
    Ok(firsts)
}

// Keeps the index for the text, where none is kept yet.
fn keep_first<'a>(
    firsts: &mut BTreeMap<&'a [u8], usize>,
    text: &'a [u8],
    index: usize,
) -> Result<(), AllocError>
    ensures { OnOk result ((other : List ℕ) → kept_at firsts.new other
        ≡ option_or (kept_at firsts.old other) (if bytes_eq text.now other then Some index else None)) }
{
    if kept_at(firsts, text).is_none() {
        firsts.insert(text, index)?;
    }
    Ok(())
}

// What is kept for the text.
fn kept_at(firsts: &BTreeMap<&[u8], usize>, text: &[u8]) -> Option<usize>
    ensures { result ≡ kept_at firsts.now text.now }
{
    firsts.get(text).copied()
}
