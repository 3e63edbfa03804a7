//! Laws over what a past has one clock further: no code.

ghost use Rattle.std.specs.Prelude.{◌≡◌, ◌<◌, ◌≤◌, ◌⊎◌, ◌+◌, ◌&&◌, ◌||◌, ℕ, Some, true, false, not, nat_lt, length, take, if◌then◌else◌};
ghost use Rattle.std.specs.List.{filter};
ghost use Rattle.fsb_access.specs.ScriptOrder.{accesses_of, steps_of};
ghost use Rattle.fsb_count.specs.Options.{is_some_and};
ghost use Rattle.fsb_encode.specs.declared.request.Request.{Request};
ghost use Rattle.fsb_signal.specs.declared.lines.TheConstants.Lines.{ADS};
ghost use Rattle.fsb_signal.specs.Samples.{line_at};
ghost use Rattle.fsb_trace.specs.declared.who.Who.{Who};
ghost use Rattle.fsb_trace.specs.Winner.{winner_at};
ghost use Rattle.fsb_timely.specs.BusLock.{is_locked_request, is_release, keeps_lock};
ghost use Rattle.fsb_timely.specs.Carried.{memory_below};
ghost use Rattle.fsb_timely.specs.Completions.{is_arrival};
ghost use Rattle.fsb_timely.specs.Grants.{grant_at, is_end_at, is_ended, is_granted, is_ready, latest_grant};
ghost use Rattle.fsb_timely.specs.Growth.{IsNext, IsWhole};
ghost use Rattle.fsb_timely.specs.Hits.{is_hit};
ghost use Rattle.fsb_timely.specs.Past.{Past};
ghost use Rattle.fsb_timely.specs.Runs.{Run, run_to, past_of, past_to};
ghost use Rattle.fsb_timely.specs.Scripts.{completes_at, is_logged, is_logged_at, items_of, next_number};
ghost use Rattle.fsb_timely.specs.Starts.{would_begin};
ghost use Rattle.fsb_timely.specs.Staying.{CompletesNext, OwesNoMore};
ghost use Rattle.fsb_timely.specs.Timely.{Timely};
ghost use Rattle.fsb_timely.specs.Wants.{want_of};

/// An agent keeps the bus locked exactly where it begins a locked request, or kept it locked at the clock before and made no
/// release there. Whether a request is locked stays as a run goes on.
pub fn locks_step()
    ensures kept { (p : Past) (a c : ℕ) → keeps_lock p (c + 1) a
        ≡ (is_locked_request p a (c + 1) || (keeps_lock p c a && not (is_release p a c))) }
    ensures request { (r s : Run) (a t : ℕ) → IsNext r s → IsWhole r → t < length r.trace →
        is_locked_request (past_of s) a t ≡ is_locked_request (past_of r) a t }
{}

/// An agent that wants something, and begins no request at a clock, wants something at the next clock, be it the same or
/// not: where it has no entry at the clock, and where it completes its next item there. In a timely run one of these is so:
/// an agent with an entry at a clock completes its next item there.
pub fn wants_stay()
    ensures waiting { (p : Past) (a c : ℕ) (request : Request) → OwesNoMore p a c →
        completes_at p a c ≡ false →
        want_of p a c ≡ Some request → (next : Request) × (want_of p a (c + 1) ≡ Some next) }
    ensures timely { (r : Run) (a c : ℕ) (request : Request) → Timely r → c < length r.trace →
        OwesNoMore (past_of r) a c → want_of (past_of r) a c ≡ Some request →
        (next : Request) × (want_of (past_of r) a (c + 1) ≡ Some next) }
    ensures completes { (r : Run) (a c : ℕ) → Timely r → c < length r.trace →
        OwesNoMore (past_of r) a c →
        completes_at (past_of r) a c ≡ true → CompletesNext (past_of r) a c }
    ensures completing { (p : Past) (a c : ℕ) (request : Request) → OwesNoMore p a c →
        CompletesNext p a c →
        want_of p a c ≡ Some request → (next : Request) × (want_of p a (c + 1) ≡ Some next) }
{}

/// In a timely run the entries of an agent at a clock are of its next item there, by a hit or an arrival; no item behind
/// its next one was logged before.
pub fn entries_are_of_next_items()
    ensures next { (r : Run) (a c m : ℕ) → Timely r → c < length r.trace →
        is_logged_at (past_of r) a c m ≡ true →
        (next_number (past_of r) a c ≡ Some m)
        × ((is_hit (past_of r) a c ≡ true) ⊎ (is_arrival (past_of r) a c ≡ true)) }
    ensures behind { (r : Run) (a c n m : ℕ) → Timely r → c ≤ length r.trace →
        next_number (past_of r) a c ≡ Some n → n < m → is_logged (past_of r) a c m ≡ false }
{}

/// Below each clock the entries of an agent of a timely run are the accesses of its script up to its next item there, in
/// order.
pub fn logs_follow_scripts()
    ensures { (r : Run) (a c n : ℕ) → Timely r → a < 4 → c ≤ length r.trace →
        next_number (past_of r) a c ≡ Some n →
        steps_of a (filter (λ done. nat_lt done.clock c) r.log)
        ≡ accesses_of (take n (items_of (past_of r) a)) }
{}

/// Where a request begins in a timely run there is a winner, and it has something to begin: a symmetric agent its want, the
/// priority agent the reply to a request that is due.
pub fn requests_are_wanted()
    ensures { (r : Run) (c : ℕ) → Timely r → c < length r.trace → line_at ADS r.trace c ≡ true →
        (who : Who) × (winner_at (run_to r c).trace c ≡ Some who)
        × (request : Request) × (would_begin (run_to r c) (past_to (past_of r) c) c who
        ≡ Some request) }
{}

/// The bytes that the replay of the entries below a clock leaves stay as they are, as a run goes on from that clock or a
/// later one: so do those that memory is to have at a response.
pub fn earlier_bytes_stay()
    ensures { (r s : Run) (t : ℕ) → IsNext r s → t ≤ length r.trace →
        memory_below s t ≡ memory_below r t }
{}

/// A line is ready for an agent one clock further where the request that granted it last has ended, or ends at this clock.
pub fn ready_lines_step()
    ensures { (p : Past) (a line c : ℕ) → is_ready p a line (c + 1)
        ≡ is_some_and (if is_granted p a line c then grant_at p c else latest_grant p a line c)
        (λ grant. is_ended p c grant.first || is_end_at p c grant.first) }
{}
