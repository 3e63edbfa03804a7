//! A law of the traces of a pass: a small function with no code, whose contract is the law.

ghost use Rattle.std.specs.Prelude.{◌≡◌, ◌∷◌, ◌++◌, [], None};
ghost use Rattle.fsb_signal.specs.declared.marks.Marks.{Marks};
ghost use Rattle.fsb_signal.specs.declared.sample.Sample.{Sample};
ghost use Rattle.fsb_trace.specs.At.{Trace};
ghost use Rattle.fsb_trace.specs.Verdict.{verdict};
ghost use Rattle.fsb_cohere.specs.Cohere.{KeepsOrder};

/// A trace that breaks no phase rule with its last sample keeps the order before it and with it.
pub fn sound_samples_keep_order()
    ensures { (m : Marks) (h : Trace) (x : Sample) → verdict m (h ++ x ∷ []) ≡ None →
        KeepsOrder h x }
{}
