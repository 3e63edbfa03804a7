//! Laws over what the phases tell of the clock after a timely run: no code.

ghost use Rattle.std.specs.Prelude.{◌≡◌, ◌<◌, ◌++◌, ℕ, List, Some, length, slice_get, slice_index, true};
ghost use Rattle.std.specs.Option.{option_and_then, option_map};
ghost use Rattle.fsb_count.specs.Options.{is_at};
ghost use Rattle.fsb_signal.specs.declared.lines.TheConstants.Lines.{ADS};
ghost use Rattle.fsb_signal.specs.Samples.{line_at, response_of};
ghost use Rattle.fsb_laws.specs.Orderly.{Orderly};
ghost use Rattle.fsb_trace.specs.declared.outcome.Outcome.{Outcome};
ghost use Rattle.fsb_trace.specs.Outcome.{settled_by};
ghost use Rattle.fsb_trace.specs.Requests.{is_write_back, live_request_of};
ghost use Rattle.fsb_trace.specs.Snoop.{snoop_end_of};
ghost use Rattle.fsb_queue.specs.declared.entry.Entry.{Entry};
ghost use Rattle.fsb_phase.specs.Drive.{drive_of, phased_at};
ghost use Rattle.fsb_phase.specs.FitQueue.{HoldsInFlight};
ghost use Rattle.fsb_heads.specs.Heads.{snooped_count};
ghost use Rattle.fsb_flight.specs.GoesOn.{goes_on};
ghost use Rattle.fsb_timely.specs.Grants.{is_end_at, snooped_at};
ghost use Rattle.fsb_timely.specs.Growth.{GrowsTo};
ghost use Rattle.fsb_timely.specs.Moments.{turns_in};
ghost use Rattle.fsb_timely.specs.Past.{SnoopEnd};
ghost use Rattle.fsb_timely.specs.Runs.{Run, past_of, requests_below};
ghost use Rattle.fsb_coherent.specs.Awaits.{responded_in};
ghost use Rattle.fsb_phase_run.specs.Holds.{AreRequestsOf, HoldsRequests};
ghost use Rattle.fsb_phase_run.specs.Responding.{responding_of, retried_of};

/// The request whose snoop end the phases tell of the next clock is that of the clock's moment, by
/// its number among all requests; and they tell none where the moment has none.
pub fn snoop_ends_are_told()
    ensures { (r s : Run) (queue : List Entry) → GrowsTo r s → HoldsRequests queue r →
        (phased_at s.trace (length r.trace) queue).snooped
        ≡ option_map (λ end. requests_below s.trace end.first)
        (snooped_at (past_of s) (length r.trace)) }
{}

/// The request whose end the phases tell of the next clock, where the longer trace is orderly (as
/// it is where the phases stand for it): of each request its moment has the end exactly where they
/// tell its number.
pub fn ends_are_told()
    ensures { (r s : Run) (queue : List Entry) (q : ℕ) → GrowsTo r s → HoldsRequests queue r →
        Orderly s.trace → line_at ADS s.trace q ≡ true →
        is_at (phased_at s.trace (length r.trace) queue).ended (requests_below s.trace q)
        ≡ is_end_at (past_of s) (length r.trace) q }
{}

/// Where RS# of the next clock is what is driven, its moment has the response of the entry that is
/// to respond, and has it as a Retry exactly where the code is that of Retry.
pub fn responses_are_told()
    ensures responded { (r s : Run) (queue : List Entry) (grows : GrowsTo r s) →
        HoldsRequests queue r →
        response_of grows.next.sample ≡ (drive_of r.trace queue).rs →
        responded_in (past_of s) (length r.trace) ≡ responding_of r.trace queue }
    ensures retried { (r s : Run) (queue : List Entry) (grows : GrowsTo r s) →
        HoldsRequests queue r →
        response_of grows.next.sample ≡ (drive_of r.trace queue).rs →
        option_and_then (λ moment. moment.retried) (slice_get (past_of s).moments (length r.trace))
        ≡ retried_of r.trace queue }
{}

/// Where the queue after the clock holds the requests in flight again, with the turns of the longer
/// run's moments, its entries have their choices and their numbers too, if those that begin have.
pub fn queues_go_on()
    ensures { (r s : Run) (queue new : List Entry) (outcome : Outcome) (grows : GrowsTo r s) →
        HoldsRequests queue r → AreRequestsOf new s →
        HoldsInFlight (goes_on r.trace grows.next.sample outcome queue ++ new)
        (turns_in (past_of s).moments) s.trace →
        HoldsRequests (goes_on r.trace grows.next.sample outcome queue ++ new) s }
{}

/// The turns of the requests with their snoop end stay as a run grows, and the outcome that the new
/// moment has of a snoop end is the one that is settled by the turn of its request. A write-back is
/// kept.
pub fn turns_are_taken()
    ensures same { (r s : Run) (i : ℕ) → GrowsTo r s → i < snooped_count r.trace →
        slice_index (turns_in (past_of s).moments) i
        ≡ slice_index (turns_in (past_of r).moments) i }
    ensures outcome { (r s : Run) (i : ℕ) (end : SnoopEnd) →
        snooped_at (past_of s) (length r.trace) ≡ Some end →
        snoop_end_of s.trace i ≡ Some (length r.trace) → end.outcome
        ≡ settled_by s.trace (slice_index (turns_in (past_of s).moments) i) i (length r.trace) }
    ensures kept { (r : Run) (i : ℕ) → is_write_back (live_request_of r.trace i) ≡ true →
        slice_index (turns_in (past_of r).moments) i ≡ 0 }
{}
