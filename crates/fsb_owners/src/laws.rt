//! Laws of the definitions: small functions with no code, whose contracts are the laws.

ghost use Rattle.std.specs.Prelude.{◌≡◌, ℕ, ◌+◌, ◌<◌, Some, None, true, false, length, List};
ghost use Rattle.fsb_trace.specs.At.{Trace};
ghost use Rattle.fsb_trace.specs.Agree.{AgreeTo};
ghost use Rattle.fsb_owners.specs.Joint.{Joint};
ghost use Rattle.fsb_owners.specs.Rules.{is_ownership_broken, ownership_verdict};

/// Whether a rule of ownership is broken at a clock rests on the samples up to that clock alone; so a verdict stays,
/// however the trace goes on.
pub fn ownership_rests_on_the_past()
    ensures broken { (first : List Joint) (w v : Trace) (c j : ℕ) → AgreeTo (c + 1) w v →
        is_ownership_broken first w c j ≡ is_ownership_broken first v c j }
    ensures stays { (n : ℕ) (first : List Joint) (w v : Trace) (c j : ℕ) → AgreeTo n w v → c < n →
        ownership_verdict first w ≡ Some (c, j) → ownership_verdict first v ≡ Some (c, j) }
{}

/// A verdict names a clock and a rule that is broken there, while no rule of ownership is broken before that clock and
/// no lesser one at it; where there is none, no rule of ownership is broken at all.
pub fn ownership_verdict_is_least()
    ensures broken { (first : List Joint) (w : Trace) (c j : ℕ) →
        ownership_verdict first w ≡ Some (c, j) →
        (c < length w) × (is_ownership_broken first w c j ≡ true) }
    ensures rule { (first : List Joint) (w : Trace) (c j k : ℕ) →
        ownership_verdict first w ≡ Some (c, j) → k < j →
        is_ownership_broken first w c k ≡ false }
    ensures clock { (first : List Joint) (w : Trace) (c j d k : ℕ) →
        ownership_verdict first w ≡ Some (c, j) → d < c → k < 32 →
        is_ownership_broken first w d k ≡ false }
    ensures coherent { (first : List Joint) (w : Trace) (c j : ℕ) →
        ownership_verdict first w ≡ None → c < length w → j < 32 →
        is_ownership_broken first w c j ≡ false }
{}
