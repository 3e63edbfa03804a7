//! The steps that are nearest to a time.

ghost use Rattle.std.specs.Prelude.{ℕ};
ghost use Rattle.scope_time.specs.declared.scale.Scale.{Scale as ScaleIs};
ghost use Rattle.scope_time.specs.Parts.{IsFirst, IsLast, steps_from, steps_up_to};

/// A part that is named by a time begins with the least number of steps that reaches it, and ends with the greatest that does
/// not pass it.
#[tactic(auto, using(crate::proofs::Nearest::first_is_first, crate::proofs::Nearest::last_is_last))]
pub fn steps_are_nearest()
    ensures first { (scale : ScaleIs) (time : ℕ) → IsFirst scale time (steps_from scale time) }
    ensures last { (scale : ScaleIs) (time : ℕ) → IsLast scale time (steps_up_to scale time) }
{}
