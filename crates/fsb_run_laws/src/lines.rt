//! Laws over lines: their states by what happens at a clock, victims, what ends bring and put: no
//! code.

ghost use Rattle.std.specs.Prelude.{◌≡◌, ◌↔◌, ◌+◌, ℕ, true, false, None, Some, if◌then◌else◌};
ghost use Rattle.std.specs.List.{list_any};
ghost use Rattle.fsb_line.specs.declared.state.Mesi.TheVariants.{Invalid};
ghost use Rattle.fsb_timely.specs.Past.{Grant, Past, SnoopEnd};
ghost use Rattle.fsb_timely.specs.Grants.{ended_requests, grant_at, is_evicted, is_granted, is_lost, is_named_by_other, is_rival, is_taken_away, is_written_back, snooped_at};
ghost use Rattle.fsb_timely.specs.Completions.{is_brought};
ghost use Rattle.fsb_timely.specs.Scripts.{Need};
ghost use Rattle.fsb_coherent.specs.Facts.{IsRepliedOn};
ghost use Rattle.fsb_run_laws.specs.Brought.{ServesDeferred, brings};
ghost use Rattle.fsb_timely.specs.Hits.{is_dirty, is_hit, line_state_of};
ghost use Rattle.fsb_timely.specs.Runs.{Run, past_of};
ghost use Rattle.fsb_timely.specs.Wants.{victim_of};
ghost use Rattle.fsb_run_laws.specs.Reaches.{Reaches};
ghost use Rattle.fsb_run_laws.specs.RunStates.{state_below, state_granted, state_read, state_stored, state_through, stores_at};
ghost use Rattle.fsb_trace.specs.Response.{end_of};
ghost use Rattle.fsb_tied.specs.RunBytes.{is_put_below, number_put_below};

/// The state of a line at an agent, by what happens at a clock. A hit there counts at the clock; a
/// store makes a line that the agent has for itself a modified one. One clock on the state is that
/// of the grant, where the line is granted to the agent; otherwise nothing is left of it where the
/// agent begins a request for a rival or writes it back, or another agent asks it for itself;
/// another agent's request that names it leaves it shared; and else it stays.
pub fn line_states_step()
    ensures hits { (p : Past) (a line n : ℕ) → line_state_of p a line n
        ≡ (if is_hit p a n then state_through p a line n else state_below p a line n) }
    ensures stores { (p : Past) (a line n : ℕ) → state_through p a line n
        ≡ (if stores_at p a line n then state_stored (state_below p a line n)
        else state_below p a line n) }
    ensures granted { (r : Run) (a line n : ℕ) (grant : Grant) → Reaches r (n + 1) →
        is_granted (past_of r) a line n ≡ true → grant_at (past_of r) n ≡ Some grant →
        state_below (past_of r) a line (n + 1) ≡ state_granted grant }
    ensures evicted { (p : Past) (a line n : ℕ) → is_granted p a line n ≡ false →
        is_evicted p a line n ≡ true → state_below p a line (n + 1) ≡ Invalid }
    ensures written_back { (p : Past) (a line n : ℕ) → is_granted p a line n ≡ false →
        is_written_back p a line n ≡ true → state_below p a line (n + 1) ≡ Invalid }
    ensures taken_away { (p : Past) (a line n : ℕ) → is_granted p a line n ≡ false →
        is_taken_away p a line n ≡ true → state_below p a line (n + 1) ≡ Invalid }
    ensures read { (p : Past) (a line n : ℕ) → is_granted p a line n ≡ false →
        is_lost p a line n ≡ false → is_named_by_other p a line n ≡ true →
        state_below p a line (n + 1) ≡ state_read (state_through p a line n) }
    ensures kept { (p : Past) (a line n : ℕ) → is_granted p a line n ≡ false →
        is_lost p a line n ≡ false → is_named_by_other p a line n ≡ false →
        state_below p a line (n + 1) ≡ state_through p a line n }
{}

/// The victim of an agent for a line is, in a timely run, the rival of the line on which the agent
/// is dirty: there is one at most, since an agent has one line of a cache set (fsb_tied's
/// sets_have_one_line).
pub fn victims_are_dirty_rivals()
    ensures dirty { (r : Run) (a line victim n : ℕ) → Reaches r n →
        is_rival (past_of r) victim line ≡ true → is_dirty (past_of r) a victim n ≡ true →
        victim_of (past_of r) a n line ≡ Some victim }
    ensures victim { (r : Run) (a line victim n : ℕ) →
        victim_of (past_of r) a n line ≡ Some victim →
        (is_rival (past_of r) victim line ≡ true)
        × (is_dirty (past_of r) a victim n ≡ true) }
{}

/// A line is brought to an agent at a clock exactly where a request ends there whose snoop end
/// granted it to the agent, as it is needed: so whether an agent has an arrival shows by the ends
/// of the clock.
pub fn ends_bring_lines()
    ensures { (r : Run) (a n : ℕ) (need : Need) → Reaches r (n + 1) →
        is_brought (past_of r) a n need
        ≡ list_any (brings (past_of r) a n need) (ended_requests (past_of r) n) }
{}

/// The snoop end of a reply that grants a line is for the deferral of the line, and the request
/// that it serves is the one that was Deferred.
pub fn replies_serve_deferrals()
    ensures deferral { (r : Run) (n : ℕ) (s : SnoopEnd) (grant : Grant) → Reaches r (n + 1) →
        snooped_at (past_of r) n ≡ Some s → s.claim ≡ None → s.grant ≡ Some grant →
        IsRepliedOn (past_of r) grant.line n s grant }
    ensures served { (r : Run) (n : ℕ) (s : SnoopEnd) (grant : Grant) →
        snooped_at (past_of r) n ≡ Some s → s.claim ≡ None → s.grant ≡ Some grant →
        ServesDeferred r n grant }
{}

/// The last request that put a line into memory, one clock on: the one that ends at the clock,
/// where it puts the line, and otherwise the one of before.
pub fn last_puts_step()
    ensures kept { (r : Run) (line n : ℕ) →
        ((i : ℕ) → end_of r.trace i ≡ Some n →
        is_put_below r (past_of r) line (n + 1) i ≡ false) →
        number_put_below r line (n + 1) ≡ number_put_below r line n }
    ensures put { (r : Run) (line n i : ℕ) → Reaches r (n + 1) → end_of r.trace i ≡ Some n →
        is_put_below r (past_of r) line (n + 1) i ≡ true →
        number_put_below r line (n + 1) ≡ Some i }
{}
