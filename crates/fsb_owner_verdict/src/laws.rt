//! Laws of the definition: small functions with no code, whose contracts are the laws.

ghost use Rattle.std.specs.Prelude.{◌≡◌, ℕ, ◌+◌, ◌<◌, ◌≤◌, Some, None, true, false, length, List, take};
ghost use Rattle.fsb_signal.specs.declared.marks.Marks.{Marks};
ghost use Rattle.fsb_trace.specs.At.{Trace};
ghost use Rattle.fsb_trace.specs.Agree.{AgreeTo};
ghost use Rattle.fsb_trace.specs.Verdict.{verdict};
ghost use Rattle.fsb_owners.specs.Joint.{Joint};
ghost use Rattle.fsb_owners.specs.Rules.{ownership_verdict};
ghost use Rattle.fsb_owner_verdict.specs.Coherence.{coherence_verdict, earlier_of, is_any_broken};

/// Whether a rule is broken at a clock rests on the samples up to that clock alone; so a verdict stays, however the trace
/// goes on.
pub fn coherence_rests_on_the_past()
    ensures broken { (m : Marks) (first : List Joint) (w v : Trace) (c j : ℕ) →
        AgreeTo (c + 1) w v →
        is_any_broken m first w c j ≡ is_any_broken m first v c j }
    ensures stays { (n : ℕ) (m : Marks) (first : List Joint) (w v : Trace) (c j : ℕ) →
        AgreeTo n w v → c < n → coherence_verdict m first w ≡ Some (c, j) →
        coherence_verdict m first v ≡ Some (c, j) }
{}

/// A verdict names a clock and a rule that is broken there, while no rule is broken before that clock and no lesser one at
/// it; where there is none, no rule is broken at all.
pub fn coherence_verdict_is_least()
    ensures broken { (m : Marks) (first : List Joint) (w : Trace) (c j : ℕ) →
        coherence_verdict m first w ≡ Some (c, j) →
        (c < length w) × (is_any_broken m first w c j ≡ true) }
    ensures rule { (m : Marks) (first : List Joint) (w : Trace) (c j k : ℕ) →
        coherence_verdict m first w ≡ Some (c, j) → k < j →
        is_any_broken m first w c k ≡ false }
    ensures clock { (m : Marks) (first : List Joint) (w : Trace) (c j d k : ℕ) →
        coherence_verdict m first w ≡ Some (c, j) → d < c → k < 32 →
        is_any_broken m first w d k ≡ false }
    ensures coherent { (m : Marks) (first : List Joint) (w : Trace) (c j : ℕ) →
        coherence_verdict m first w ≡ None → c < length w → j < 32 →
        is_any_broken m first w c j ≡ false }
{}

/// The verdict is the earlier one of the verdict of the phase rules and that of the rules of ownership.
pub fn coherence_verdict_is_earlier()
    ensures { (m : Marks) (first : List Joint) (w : Trace) →
        coherence_verdict m first w ≡ earlier_of (verdict m w) (ownership_verdict first w) }
{}

/// Where the verdict names a rule of ownership, the samples up to its clock break no phase rule.
pub fn ownership_is_judged_after_phases()
    ensures { (m : Marks) (first : List Joint) (w : Trace) (c j : ℕ) →
        coherence_verdict m first w ≡ Some (c, j) → 21 ≤ j →
        verdict m (take (c + 1) w) ≡ None }
{}
