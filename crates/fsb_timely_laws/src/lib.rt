//! What is said of a clock of a run is said of the whole run: laws over the definitions of fsb_timely, and no code.
//!
//! A part of a timely run tests the run up to a clock. These laws say that the same test, put to the whole run, answers the
//! same: no later sample takes back what an earlier clock was judged by. `specs/` has the statements and `proofs/` why they
//! hold; docs/proof/bus.md tells which part rests on which numbers. The must-fail edits turn definitions that the laws
//! rest on.
#![tactic(auto)]

ghost use Rattle.std.specs.Prelude.{◌↔◌, ◌<◌, ◌≡◌, ◌+◌, false, length, true, take, IsTrue, ℕ};
ghost use Rattle.fsb_laws.specs.Orderly.{Orderly};
ghost use Rattle.fsb_timely.specs.BusLock.{drives_lock};
ghost use Rattle.fsb_timely.specs.Carried.{Carried, carries_data};
ghost use Rattle.fsb_timely.specs.Completions.{is_in_time, logs_completions};
ghost use Rattle.fsb_timely.specs.ParityLines.{drives_parity};
ghost use Rattle.fsb_timely.specs.Runs.{Run};
ghost use Rattle.fsb_timely.specs.Snoops.{drives_hazards, has_snoop_result};
ghost use Rattle.fsb_timely.specs.Starts.{drives_request_lines, starts_requests};
ghost use Rattle.fsb_timely.specs.Timely.{Timely, holds_at};
ghost use Rattle.fsb_timely.specs.Transfers.{drives_responses};
ghost use Rattle.fsb_trace.specs.Agree.{AgreeTo};
ghost use Rattle.fsb_trace.specs.At.{Trace};
ghost use Rattle.fsb_timely_laws.specs.Disordered.{disordered};
ghost use Rattle.fsb_timely_laws.specs.Numbers.{SameNumbers};
ghost use Rattle.fsb_timely_laws.specs.Whole.{EachIsSaidOfTheWhole, IsSaidOfTheWhole, KeepsOrder, Throughout, TimelyAsAWhole, holds_in_whole};

/// Two orderly traces that are the same up to a clock have the same numbers up to it, so an orderly trace has those of its
/// samples up to the clock.
pub fn numbers_stay()
    ensures two_traces { (w v : Trace) (c : ℕ) → Orderly w → Orderly v → AgreeTo (c + 1) w v →
        SameNumbers c w v }
    ensures first_samples { (w : Trace) (c : ℕ) → Orderly w → c < length w →
        SameNumbers c w (take (c + 1) w) }
{}

/// Where a run keeps its order, each part of a timely run, and that its data are carried, holds of the run up to a clock
/// exactly where it holds of the whole run at that clock. It need hold at no clock for that.
pub fn clocks_are_said_of_the_whole()
    ensures { (r : Run) (c : ℕ) → KeepsOrder r → c < length r.trace → EachIsSaidOfTheWhole r c }
{}

/// How much order each part asks for: parity, the bus lock and the hazard lines none, completions and snoop results a log
/// in time, responses and data an orderly trace. Request starts and request lines ask for both.
pub fn parts_ask_for_little_order()
    ensures parity { (r : Run) (c : ℕ) → c < length r.trace → IsSaidOfTheWhole drives_parity r c }
    ensures bus_lock { (r : Run) (c : ℕ) → c < length r.trace → IsSaidOfTheWhole drives_lock r c }
    ensures hazard_lines { (r : Run) (c : ℕ) → c < length r.trace →
        IsSaidOfTheWhole drives_hazards r c }
    ensures completions { (r : Run) (c : ℕ) → IsTrue (is_in_time 0 (length r.trace) r.log) →
        IsSaidOfTheWhole logs_completions r c }
    ensures snoop_results { (r : Run) (c : ℕ) → IsTrue (is_in_time 0 (length r.trace) r.log) →
        c < length r.trace → IsSaidOfTheWhole has_snoop_result r c }
    ensures responses_and_data { (r : Run) (c : ℕ) → Orderly r.trace → c < length r.trace →
        IsSaidOfTheWhole drives_responses r c }
    ensures carried_data { (r : Run) (c : ℕ) → Orderly r.trace → c < length r.trace →
        IsSaidOfTheWhole carries_data r c }
    ensures request_starts { (r : Run) (c : ℕ) → KeepsOrder r → c < length r.trace →
        IsSaidOfTheWhole starts_requests r c }
    ensures request_lines { (r : Run) (c : ℕ) → KeepsOrder r → c < length r.trace →
        IsSaidOfTheWhole drives_request_lines r c }
{}

/// Without order it is otherwise: where a request is answered before its snoop end, responses and data are as they must be
/// in the run up to clock 2, and not so when the whole run is asked.
pub fn order_is_asked_for()
    ensures beginning { holds_at drives_responses disordered 2 ≡ true }
    ensures whole { holds_in_whole drives_responses disordered 2 ≡ false }
{}

/// So a run is timely exactly where it is so as a whole; the parts bring the order along. The data of an orderly run are
/// carried exactly where they are so throughout the run.
pub fn timely_runs_are_timely_as_a_whole()
    ensures timely { (r : Run) → Timely r ↔ TimelyAsAWhole r }
    ensures order { (r : Run) → Timely r → KeepsOrder r }
    ensures carried { (r : Run) → Orderly r.trace → Carried r ↔ Throughout carries_data r }
{}
