//! For which traces a queue stands: functions with no code, whose contracts are the laws.

ghost use Rattle.std.specs.Prelude.{◌≡◌, ℕ, false, None, [], ◌∷◌, ◌++◌, length};
ghost use Rattle.fsb_signal.specs.declared.marks.Marks.{Marks};
ghost use Rattle.fsb_signal.specs.declared.sample.Sample.{Sample};
ghost use Rattle.fsb_trace.specs.At.{Trace};
ghost use Rattle.fsb_trace.specs.Rules.{breaks};
ghost use Rattle.fsb_trace.specs.Verdict.{verdict};
ghost use Rattle.fsb_laws.specs.Orderly.{Orderly};

/// A trace that breaks no phase rule keeps the distance of requests and the time of responses.
pub fn unbroken_traces_are_orderly()
    ensures { (m : Marks) (w : Trace) → verdict m w ≡ None → Orderly w }
{}

/// One sample more keeps them where it breaks neither rule 2 nor rule 13.
pub fn kept_rules_keep_order()
    ensures { (m : Marks) (h : Trace) (x : Sample) → Orderly h →
        breaks m (h ++ x ∷ []) (length h) 2 ≡ false → breaks m (h ++ x ∷ []) (length h) 13 ≡ false →
        Orderly (h ++ x ∷ []) }
{}
