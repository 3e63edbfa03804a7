//! Laws over the definitions: no code.

ghost use Rattle.std.specs.Prelude.{◌≡◌, ◌∷◌, [], ℕ, List, None, false};
ghost use Rattle.std.specs.List.{Contains};
ghost use Rattle.fsb_signal.specs.Parity.{marks_in};
ghost use Rattle.fsb_timely.specs.Runs.{Run};
ghost use Rattle.fsb_timely.specs.Timely.{Timely};
ghost use Rattle.fsb_lawful.specs.Beginning.{KeepsBounds};
ghost use Rattle.fsb_owners.specs.Joint.{Joint, every_joint, unheld};
ghost use Rattle.fsb_owner_verdict.specs.Coherence.{coherence_verdict};
ghost use Rattle.fsb_owners.specs.Rules.{is_ownership_broken, ownership_verdict};
ghost use Rattle.fsb_courses.specs.Coherent.{CouldBeMade};

/// An agent of a timely run, of a plan within these bounds, asks for a line once, until its request is
/// answered: rule 21 is broken at no clock, whatever the caches may hold at first.
pub fn runs_ask_once()
    ensures { (first : List Joint) (r : Run) (c : ℕ) → Timely r → KeepsBounds r.plan →
        is_ownership_broken first r.trace c 21 ≡ false }
{}

/// A timely run, of a plan within the bounds of a bench file, begins with empty caches. It breaks no
/// rule of ownership at any clock, where empty caches are among what a line may have at first. So the
/// verdict on its trace is none, whether the judge knows that they are empty or not.
pub fn runs_keep_ownership()
    ensures clock { (first : List Joint) (r : Run) (c j : ℕ) → Contains first unheld →
        Timely r → KeepsBounds r.plan →
        is_ownership_broken first r.trace c j ≡ false }
    ensures empty { (r : Run) → Timely r → KeepsBounds r.plan →
        ownership_verdict (unheld ∷ []) r.trace ≡ None }
    ensures unknown { (r : Run) → Timely r → KeepsBounds r.plan →
        ownership_verdict every_joint r.trace ≡ None }
{}

/// So such a run is coherent: of all rules, 1 to 31, its trace breaks none, in profile 2 with its
/// parity and in profile 1 without.
pub fn runs_are_coherent()
    ensures { (r : Run) → Timely r → KeepsBounds r.plan →
        coherence_verdict (marks_in r.plan.profile) (unheld ∷ []) r.trace ≡ None }
{}

/// And a coherent system could have made its trace: up to each clock each line has a course, and its
/// requests wait for their turn, unless one of them failed hard.
pub fn runs_could_be_made()
    ensures { (r : Run) → Timely r → KeepsBounds r.plan → CouldBeMade (unheld ∷ []) r.trace }
{}
