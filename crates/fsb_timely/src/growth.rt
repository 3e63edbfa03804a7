//! Laws over a run that grows by a clock: no code.

ghost use Rattle.std.specs.Prelude.{◌≡◌, ◌↔◌, ◌<◌, ◌+◌, ◌++◌, ℕ, List, [], ◌∷◌, nat_eq, length, IsTrue};
ghost use Rattle.std.specs.List.{filter};
ghost use Rattle.fsb_access.specs.Replay.{Served};
ghost use Rattle.fsb_access.specs.ScriptOrder.{InOrder};
ghost use Rattle.fsb_script.specs.Plans.{PlanView};
ghost use Rattle.fsb_signal.specs.Samples.{is_known_trace};
ghost use Rattle.fsb_timely.specs.Carried.{carries_data};
ghost use Rattle.fsb_timely.specs.Growth.{GrowsTo, IsWhole, moment_at_growth};
ghost use Rattle.fsb_timely.specs.Runs.{Run, run_to, past_of, past_to};
ghost use Rattle.fsb_timely.specs.RunsGoOn.{IsBeginning};
ghost use Rattle.fsb_timely.specs.Simulated.{Simulated};
ghost use Rattle.fsb_timely.specs.Timely.{holds_at, IsTimelyAt, Part, Timely};

/// What is said of a clock that a run has passed stays, by however many clocks the run goes on: each of the eight parts
/// holds at that clock of the run exactly where it holds there of each run of which it is a beginning. A timely run has
/// such a beginning up to each of its clocks.
pub fn passed_clocks_stay()
    ensures part { (part : Part) (r s : Run) (c : ℕ) → IsBeginning r s → IsWhole r →
        c < length r.trace →
        holds_at part s c ≡ holds_at part r c }
    ensures timely { (r s : Run) (c : ℕ) → IsBeginning r s → IsWhole r → c < length r.trace →
        IsTimelyAt r c ↔ IsTimelyAt s c }
    ensures beginning { (r : Run) (c : ℕ) → Timely r → c < length r.trace →
        IsBeginning (run_to r c) r }
    ensures whole { (r : Run) (c : ℕ) → Timely r → c < length r.trace → IsWhole (run_to r c) }
{}

/// So with the data: at a clock that a run has passed they are those that are due exactly where they are so in each run
/// of which it is a beginning.
pub fn carried_data_stay()
    ensures { (r s : Run) (c : ℕ) → IsBeginning r s → IsWhole r → c < length r.trace →
        IsTrue (holds_at carries_data r c) ↔ IsTrue (holds_at carries_data s c) }
{}

/// A run that grows by a clock is, up to that clock, itself, and up to the clock before it the run from which it grew. Its
/// moments are those of that run and the one of the new clock, and its entries of that clock are the new ones.
pub fn runs_end_at_their_clock()
    ensures run { (r s : Run) → GrowsTo r s → run_to s (length r.trace) ≡ s }
    ensures past { (r s : Run) → GrowsTo r s → past_to (past_of s) (length r.trace) ≡ past_of s }
    ensures earlier_run { (r s : Run) (n : ℕ) → GrowsTo r s → n + 1 ≡ length r.trace →
        run_to s n ≡ r }
    ensures earlier_past { (r s : Run) (n : ℕ) → GrowsTo r s → n + 1 ≡ length r.trace →
        past_to (past_of s) n ≡ past_of r }
    ensures moments { (r s : Run) → GrowsTo r s →
        (past_of s).moments ≡ (past_of r).moments ++ moment_at_growth r s ∷ [] }
    ensures entries { (r s : Run) (grows : GrowsTo r s) →
        filter (λ done. nat_eq done.clock (length r.trace)) s.log ≡ grows.next.entries }
{}

/// A simulation of no clock.
pub fn empty_runs_are_simulated()
    ensures { (plan : PlanView) →
        Simulated (record { plan = plan; choices = []; holds = []; trace = []; log = [] }) }
{}

/// A simulation that grows by a clock is one again where the parts hold at that clock, the data there are carried, and the
/// log still follows the scripts and is served.
pub fn simulations_grow()
    ensures { (r s : Run) → Simulated r → GrowsTo r s → IsTrue (is_known_trace s.trace) →
        IsTimelyAt s (length r.trace) → IsTrue (holds_at carries_data s (length r.trace)) →
        InOrder s.plan.scripts s.log → Served s.plan.mem s.log → Simulated s }
{}
