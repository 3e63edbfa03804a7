//! Laws over what hazard objects were asked: no code.

ghost use Rattle.std.specs.Prelude.{◌≡◌, ◌↔◌, ◌<◌, ℕ, Bool, List, Option, Some, true, false, length, slice_get};
ghost use Rattle.fsb_encode.specs.declared.request.Request.{Request};
ghost use Rattle.fsb_hazard.specs.declared.choice.Ask.TheVariants.{Begun, Clock};
ghost use Rattle.fsb_hazard.specs.declared.choice.Choice.{Choice};
ghost use Rattle.fsb_hazard.specs.Asking.{IsJoined};
ghost use Rattle.fsb_hazard.specs.Told.{Told};
ghost use Rattle.fsb_timely.specs.Asked.{Asked, IsChosen, IsHold};
ghost use Rattle.fsb_timely.specs.AskedSteps.{IsAskedAt, AskedInSteps, IsAskedStep};
ghost use Rattle.fsb_timely.specs.Growth.{IsNext, IsWhole};
ghost use Rattle.fsb_timely.specs.Runs.{Run};

/// What objects answer together is what a step keeps of them: the choice for a request without BNR#, and of the answers to a
/// clock BNR# alone.
pub fn answers_are_kept()
    ensures choice { (objects : List (Option Told)) (k : ℕ) (request : Request) (choice : Choice) →
        IsJoined objects (Begun k request) choice →
        IsChosen objects k (record choice { bnr = false }) }
    ensures hold { (objects : List (Option Told)) (c : ℕ) (choice : Choice) →
        IsJoined objects (Clock c) choice → IsHold objects c choice.bnr }
{}

/// A run was asked step by step exactly where it was up to its last step, and the last step was; objects may come and go
/// between two steps, so each step is said of those that stand at it. Where the same objects stand at each step, this is
/// what `Asked` says of the whole lists of choices and holds.
pub fn asked_in_steps()
    ensures empty { (standing : ℕ → List (Option Told)) (r : Run) → length r.trace ≡ 0 →
        AskedInSteps standing r }
    ensures goes_on { (standing : ℕ → List (Option Told)) (r s : Run) → IsNext r s → IsWhole r →
        AskedInSteps standing s ↔ (AskedInSteps standing r
        × IsAskedAt (standing (length r.trace)) s (length r.trace)) }
    ensures earlier { (objects : List (Option Told)) (r s : Run) (c : ℕ) → IsNext r s → IsWhole r →
        c < length r.trace →
        IsAskedAt objects r c ↔ IsAskedAt objects s c }
    ensures step { (objects : List (Option Told)) (r s : Run) (step : IsNext r s) → IsWhole r →
        IsWhole s →
        IsAskedStep objects r s step ↔ IsAskedAt objects s (length r.trace) }
    ensures stay { (objects : List (Option Told)) (r : Run) → IsWhole r →
        AskedInSteps (λ c. objects) r ↔ Asked objects r.choices r.holds }
{}
