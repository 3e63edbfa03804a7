//! Laws over the definitions: no code.

ghost use Rattle.std.specs.Prelude.{◌≡◌, ℕ, None, false};
ghost use Rattle.fsb_signal.specs.Parity.{marks_in};
ghost use Rattle.fsb_timely.specs.Runs.{Run};
ghost use Rattle.fsb_timely.specs.Simulated.{Simulated};
ghost use Rattle.fsb_lawful.specs.Beginning.{KeepsBounds};
ghost use Rattle.fsb_audit.specs.Fouls.{finding_of, is_foul_clock};

/// In a simulated run what comes from memory is what was last moved of it: no clock of its trace is
/// foul, and an audit finds nothing in it, in profile 2 with its parity and in profile 1 without.
pub fn simulated_runs_are_clean()
    ensures clock { (r : Run) → Simulated r → KeepsBounds r.plan → (c : ℕ) →
        is_foul_clock r.trace c ≡ false }
    ensures audit { (r : Run) → Simulated r → KeepsBounds r.plan →
        finding_of (marks_in r.plan.profile) r.trace ≡ None }
{}
