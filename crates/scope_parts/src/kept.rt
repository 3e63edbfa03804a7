//! The first parts of a dump, and how many there are.

ghost use Rattle.std.specs.Prelude.{◌≡◌, ◌+◌, ◌<◌, ◌++◌, ◌∷◌, [], List, IfOk, IfErr, OnOk, take, length};
ghost use Rattle.scope_check.specs.Bounds.{most_counted};
ghost use Rattle.scope_parts.specs.declared.finding.PartFound.{PartFound};
ghost use Rattle.scope_parts.specs.Segments.{is_broken};
ghost use Rattle.scope_parts.specs.Standing.{Keeps};

use crate::counts::sum;
use crate::finding::{End, PartFound};
use arrayvec::ArrayVec;
use scope_check::TooMany;

/// How many parts there are, and the first sixteen of them; the same of those that are broken.
#[derive(Drop)]
pub(crate) struct Kept {
    pub(crate) parts: u64,
    pub(crate) broken: u32,
    pub(crate) first: ArrayVec<PartFound, 16>,
    pub(crate) faults: ArrayVec<PartFound, 16>,
}

// One more broken part, where that is counted.
fn one_more(count: u32) -> Result<u32, TooMany>
    ensures more { IfOk result (λ more. more ≡ count + 1) }
    ensures full { IfErr result (λ _. most_counted < count) }
{
    match count.checked_add(1) {
        Some(more) => Ok(more),
        None => Err(TooMany),
    }
}

// Keeps one more part, where there is room.
fn keep(list: &mut ArrayVec<PartFound, 16>, part: PartFound)
    ensures { (xs : List PartFound) → list.old.items ≡ take 16 xs →
        list.new.items ≡ take 16 (xs ++ part ∷ []) }
{
    if !list.is_full() {
        list.push(part);
    }
}

fn is_broken(end: End) -> bool
    ensures { result ≡ is_broken end }
{
    match end {
        End::Broken => true,
        End::Dump | End::Hole | End::Reply => false,
    }
}

impl Kept {
    /// Of no parts.
    pub(crate) fn new() -> Kept
        ensures { Keeps result [] }
    {
        Kept {
            parts: 0,
            broken: 0,
            first: ArrayVec::new(),
            faults: ArrayVec::new(),
        }
    }

    /// With one more part.
    pub(crate) fn add(&mut self, part: PartFound) -> Result<(), TooMany>
        ensures keeps { (xs : List PartFound) → Keeps self.old xs →
            OnOk result (Keeps self.new (xs ++ part ∷ [])) }
        ensures many { (xs : List PartFound) → Keeps self.old xs →
            IfErr result (λ _. most_counted < length xs) }
    {
        self.parts = sum(self.parts, 1)?;
        keep(&mut self.first, part);
        if is_broken(part.end) {
            self.broken = one_more(self.broken)?;
            keep(&mut self.faults, part);
        }
        Ok(())
    }
}
