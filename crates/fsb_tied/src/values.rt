//! Laws of values: which bytes the line of the machine has in a run. No code.

ghost use Rattle.std.specs.Prelude.{◌≡◌, ◌<◌, ◌≤◌, ◌∷◌, ℕ, List, Some, None, true, false, length};
ghost use Rattle.fsb_line.specs.declared.link.Link.{Link};
ghost use Rattle.fsb_line.specs.Line.{Bytes, MemoryLine, source};
ghost use Rattle.fsb_line.specs.LineRuns.{stored_by_all};
ghost use Rattle.fsb_timely.specs.Grants.{holds_line, is_ready};
ghost use Rattle.fsb_timely.specs.Kept.{bytes_now, bytes_put};
ghost use Rattle.fsb_timely.specs.Runs.{Run, past_of};
ghost use Rattle.fsb_timely.specs.Timely.{Timely};
ghost use Rattle.fsb_lawful.specs.Beginning.{KeepsBounds};
ghost use Rattle.fsb_coherent.specs.Facts.{does_end_on, does_respond_on};
ghost use Rattle.fsb_coherent.specs.KeepsTie.{IsTiedTo};
ghost use Rattle.fsb_coherent.specs.LineEvents.{changes_of, entries_on, events_at};
ghost use Rattle.fsb_coherent.specs.Relation.{chain_below};
ghost use Rattle.fsb_tied.specs.RunBytes.{HasValues, bytes_below, bytes_put_below, machine_line, stores_of};

/// Each clock of a timely run stores into a line what the stores among its entries on the line
/// store, in the order of the log.
pub fn clocks_store_what_is_logged()
    ensures { (r : Run) (line n : ℕ) (x : MemoryLine) (bytes : Bytes) →
        Timely r → KeepsBounds r.plan → n < length r.trace → IsTiedTo (past_of r) line n x →
        stored_by_all x (events_at (past_of r) line n) bytes
        ≡ changes_of (stores_of (entries_on (past_of r) line n)) bytes }
{}

/// Where the log is served and follows the scripts, the line of the machine has at each clock the
/// bytes of the one byte memory; so has each copy that is held and ready, and the source of the
/// oldest link.
pub fn lines_have_the_bytes_of_the_log()
    ensures now { (r : Run) (line n : ℕ) → HasValues r → n ≤ length r.trace →
        (machine_line r line n).now ≡ bytes_below r line n }
    ensures copies { (r : Run) (line n a : ℕ) → HasValues r → n ≤ length r.trace →
        holds_line (past_of r) a line n ≡ true → is_ready (past_of r) a line n ≡ true →
        (machine_line r line n).copy a ≡ bytes_below r line n }
    ensures source { (r : Run) (line n : ℕ) (link : Link) (links : List Link) → HasValues r →
        n ≤ length r.trace → chain_below (past_of r) line n ≡ link ∷ links →
        source (machine_line r line n) link ≡ Some (bytes_below r line n) }
{}

/// Data that a response puts on the bus are the bytes that the one byte memory has below the
/// response, and are there until an end is awaited on the line.
pub fn responses_move_the_bytes_of_the_log()
    ensures { (r : Run) (line u n : ℕ) → HasValues r → u < n → n ≤ length r.trace →
        does_respond_on (past_of r) line u ≡ true →
        ((c : ℕ) → u ≤ c → c < n → does_end_on (past_of r) line c ≡ false) →
        (machine_line r line n).moved ≡ Some (bytes_below r line u) }
{}

/// The memory has of a line, at each clock, the bytes that were put there last: those below the
/// response of the last request that was Handed or Written and has ended, or those of the plan. At
/// the end of the trace memory and ready copies are as the run keeps them.
pub fn memory_has_what_was_put_last()
    ensures below { (r : Run) (line n : ℕ) → HasValues r → n ≤ length r.trace →
        (machine_line r line n).memory ≡ bytes_put_below r line n }
    ensures put { (r : Run) (line : ℕ) → HasValues r →
        (machine_line r line (length r.trace)).memory ≡ bytes_put r line }
    ensures copies { (r : Run) (a line : ℕ) → HasValues r →
        holds_line (past_of r) a line (length r.trace) ≡ true →
        is_ready (past_of r) a line (length r.trace) ≡ true →
        (machine_line r line (length r.trace)).copy a ≡ bytes_now r line }
{}
