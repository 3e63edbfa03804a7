//! Laws of spoiled lines: a small function with no code, whose contract is the law.

ghost use Rattle.std.specs.Prelude.{◌≡◌, ◌||◌, ℕ, length};
ghost use Rattle.fsb_signal.specs.declared.sample.Sample.{Sample};
ghost use Rattle.fsb_trace.specs.At.{Trace};
ghost use Rattle.fsb_laws.specs.OneMore.{OneMore};
ghost use Rattle.fsb_laws.specs.Orderly.{Orderly};
ghost use Rattle.fsb_owners.specs.Shown.{is_spoiled};
ghost use Rattle.fsb_owner_fails.specs.Fails.{fails_at};

/// With one sample more those lines are spoiled that were, and the one of which a request, or the reply to one, fails hard with
/// it.
pub fn spoils_go_on()
    ensures { (h : Trace) (x : Sample) (v : Trace) (line : ℕ) → OneMore h x v → Orderly h →
        Orderly v → is_spoiled v line ≡ (fails_at v (length h) line || is_spoiled h line) }
{}
