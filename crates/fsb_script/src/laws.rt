ghost use Rattle.std.specs.Prelude.{◌≡◌, ℕ, List, ◌⊎◌};
ghost use Rattle.fsb_script.specs.declared.fault.ScriptFault.{ScriptFault};
ghost use Rattle.fsb_script.specs.Plans.{PlanView};
ghost use Rattle.fsb_script.specs.Drafts.{BenchText, FirstBad};

/// Each text has exactly one answer: one plan, or one first bad line.
pub fn one_answer()
    ensures one_plan { (text : List ℕ) (p q : PlanView) → BenchText text p → BenchText text q →
        p ≡ q }
    ensures one_fault { (text : List ℕ) (f g : ScriptFault) → FirstBad text f → FirstBad text g →
        f ≡ g }
    ensures not_both { (text : List ℕ) (p : PlanView) (f : ScriptFault) → BenchText text p →
        FirstBad text f → ⊥ }
    ensures either { (text : List ℕ) →
        ((p : PlanView) × BenchText text p) ⊎ ((f : ScriptFault) × FirstBad text f) }
{}
