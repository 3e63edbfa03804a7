//! The sums of the segments that are over.

ghost use Rattle.std.specs.Prelude.{◌≡◌, ◌+◌, ◌<◌, ◌≤◌, ◌^◌, ℕ, ◌++◌, ◌∷◌, [], List, IfOk, IfErr, OnOk, length};
ghost use Rattle.scope_check.specs.Bounds.{most_counted};
ghost use Rattle.scope_check.specs.Parts.{clocks_of};
ghost use Rattle.scope_parts.specs.declared.finding.PartFound.{PartFound};
ghost use Rattle.scope_parts.specs.Segments.{Segment, all_of, clocks_in, judged_in, part_told, shifted, told_if_judged};
ghost use Rattle.scope_parts.specs.Standing.{IsWithin, Keeps, Tallies, clock_in};

use crate::counts::sum;
use crate::finding::{End, PartFound};
use crate::kept::Kept;
use scope_check::{Judged, TooMany, Verdict};

/// How many clocks there are in some segments, how many are judged, and their parts.
#[derive(Drop)]
pub(crate) struct Tally {
    pub(crate) clocks: u64,
    pub(crate) judged: u64,
    pub(crate) kept: Kept,
}

// The verdict, its clock numbered behind so many others.
fn shifted(base: u64, verdict: &Verdict) -> Result<Verdict, TooMany>
    ensures verdict { IfOk result (λ v. v ≡ shifted base verdict.now) }
    ensures full { IfErr result (λ _. 2 ^ 64 ≤ base + clock_in verdict.now) }
{
    match *verdict {
        Verdict::Nothing => Ok(Verdict::Nothing),
        Verdict::Accepted => Ok(Verdict::Accepted),
        Verdict::Broken { clock, rule, stamp } => {
            let clock = sum(base, clock)?;
            Ok(Verdict::Broken { clock, rule, stamp })
        }
    }
}

// What was found of a segment behind so many clocks.
fn part_told(base: u64, found: &Judged, end: End) -> Result<PartFound, TooMany>
    ensures part { IfOk result (λ part. part ≡ part_told base found.now end) }
    ensures full { (clocks : ℕ) → IsWithin found.now clocks →
        IfErr result (λ _. 2 ^ 64 ≤ base + clocks) }
{
    let verdict = shifted(base, &found.verdict)?;
    let start = sum(base, u64::from(found.start))?;
    Ok(PartFound {
        start,
        judged: u64::from(found.judged),
        is_later: found.is_later,
        verdict,
        end,
    })
}

// Keeps the part of a segment behind so many clocks, where it has a judged clock.
fn keep_if_judged(kept: &mut Kept, base: u64, found: &Judged, end: End) -> Result<(), TooMany>
    ensures keeps { (xs : List PartFound) → Keeps kept.old xs →
        OnOk result (Keeps kept.new (xs ++ told_if_judged base found.now end)) }
    ensures many { (xs : List PartFound) (clocks : ℕ) → Keeps kept.old xs → length xs ≤ base →
        IsWithin found.now clocks → IfErr result (λ _. most_counted < base + clocks) }
{
    if 0 < found.judged {
        let part = part_told(base, found, end)?;
        kept.add(part)
    } else {
        Ok(())
    }
}

impl Tally {
    /// Of no segments.
    pub(crate) fn new() -> Tally
        ensures { Tallies result [] }
    {
        Tally {
            clocks: 0,
            judged: 0,
            kept: Kept::new(),
        }
    }

    /// With one more segment of so many clocks.
    pub(crate) fn add(&mut self, clocks: u64, found: &Judged, end: End) -> Result<(), TooMany>
        ensures tallies { (ss : List Segment) (s : Segment) → Tallies self.old ss → s.found ≡ found.now →
            s.end ≡ end → clocks ≡ clocks_of (all_of s) → OnOk result (Tallies self.new (ss ++ s ∷ [])) }
        ensures many { (ss : List Segment) → Tallies self.old ss → judged_in ss ≤ clocks_in ss →
            IsWithin found.now clocks → IfErr result (λ _. most_counted < clocks_in ss + clocks) }
    {
        let judged = sum(self.judged, u64::from(found.judged))?;
        let more = sum(self.clocks, clocks)?;
        keep_if_judged(&mut self.kept, self.clocks, found, end)?;
        self.judged = judged;
        self.clocks = more;
        Ok(())
    }
}
