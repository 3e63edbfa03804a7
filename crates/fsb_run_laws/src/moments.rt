//! Laws over the moments of a run: no code.

ghost use Rattle.std.specs.Prelude.{◌≡◌, ◌<◌, ◌+◌, ◌++◌, ℕ, [], None, Some, false, true, length, not};
ghost use Rattle.std.specs.List.{filter, filter_map};
ghost use Rattle.std.specs.Option.{option_map};
ghost use Rattle.fsb_encode.specs.declared.request.Request.{Request};
ghost use Rattle.fsb_trace.specs.Flight.{outstanding};
ghost use Rattle.fsb_trace.specs.Outcome.{is_deferral};
ghost use Rattle.fsb_timely.specs.Past.{Claim, Grant, Owing, SnoopEnd};
ghost use Rattle.fsb_timely.specs.Grants.{begun_at, ended_requests, is_end_at, snooped_at};
ghost use Rattle.fsb_timely.specs.Growth.{GrowsTo, is_last_clock};
ghost use Rattle.fsb_timely.specs.Moments.{number_of_turn, requests_ending_at, responded_at, retried_at, turns_in};
ghost use Rattle.fsb_timely.specs.Runs.{Run, past_of};
ghost use Rattle.fsb_timely.specs.Wants.{outstanding_at, unsnooped_at, want_of};
ghost use Rattle.fsb_coherent.specs.Awaits.{cancelled_in, responded_in, snoop_end_below};
ghost use Rattle.fsb_run_laws.specs.Reaches.{Reaches};
ghost use Rattle.fsb_run_laws.specs.RunSteps.{listed, open_claims, owing_begun, retried_in, stays_open, stays_owed};

/// The moment of a clock has the response, the Retry and the ends of that clock as the whole trace
/// of a timely run has them.
pub fn moments_have_the_answers()
    ensures responded { (r : Run) (n : ℕ) → Reaches r (n + 1) →
        responded_in (past_of r) n ≡ responded_at r.trace n }
    ensures retried { (r : Run) (n : ℕ) → Reaches r (n + 1) →
        retried_in (past_of r) n ≡ retried_at r.trace n }
    ensures ended { (r : Run) (n : ℕ) → Reaches r (n + 1) →
        ended_requests (past_of r) n ≡ requests_ending_at r.trace n }
{}

/// The open requests of a clock are those of symmetric agents that began below it, and were neither
/// cancelled nor snooped below it, in order.
pub fn open_lists_are_told()
    ensures { (r : Run) (n : ℕ) → Reaches r n →
        unsnooped_at (past_of r) n ≡ open_claims (past_of r) n }
{}

/// The open requests one clock on: without the one that is cancelled or snooped at the clock, and
/// with the one that begins.
pub fn open_lists_step()
    ensures { (r : Run) (n : ℕ) → Reaches r (n + 1) → unsnooped_at (past_of r) (n + 1)
        ≡ filter (stays_open (past_of r) n) (unsnooped_at (past_of r) n)
        ++ listed (begun_at (past_of r) n) }
{}

/// The outstanding requests of symmetric agents that the moments have at a clock are, in order,
/// those that the whole trace has as outstanding there.
pub fn outstanding_lists_are_told()
    ensures { (r : Run) (n : ℕ) → Reaches r n → outstanding_at (past_of r) n
        ≡ filter_map (owing_begun (past_of r)) (outstanding r.trace n) }
{}

/// The outstanding requests one clock on: without those of which the clock is the last one as such,
/// and with the one that begins. The moment tells which those are: the one that is cancelled, those
/// that end and were not Deferred, and those whose replies end. The one that begins has the ID of
/// what its agent wants at the clock.
pub fn outstanding_lists_step()
    ensures list { (r : Run) (n : ℕ) → Reaches r (n + 1) → outstanding_at (past_of r) (n + 1)
        ≡ filter (λ owing. not (is_last_clock r.trace n owing.claim.first))
        (outstanding_at (past_of r) n) ++ listed (owing_begun (past_of r) n) }
    ensures told { (r : Run) (n : ℕ) → Reaches r (n + 1) → outstanding_at (past_of r) (n + 1)
        ≡ filter (λ owing. stays_owed (past_of r) n owing.claim) (outstanding_at (past_of r) n)
        ++ listed (owing_begun (past_of r) n) }
    ensures begun { (r : Run) (n : ℕ) (owing : Owing) → Reaches r (n + 1) →
        owing_begun (past_of r) n ≡ Some owing →
        (request : Request) × (want_of (past_of r) owing.claim.agent n ≡ Some request)
        × (owing.did ≡ request.did) × (owing.claim.line ≡ request.line)
        × (owing.claim.first ≡ n) }
{}

/// Which clock is the last one of a request as outstanding, by its moment: the clock that cancels
/// it; its end, unless its settled outcome is Deferred; and for a Deferred one, which the snoop end
/// of its reply names by its grant, the end of that reply. A clock that cancels nothing and has no
/// end is the last one of none.
pub fn last_clocks_are_told()
    ensures cancelled { (r : Run) (n q : ℕ) → Reaches r (n + 1) →
        cancelled_in (past_of r) n ≡ Some q → is_last_clock r.trace n q ≡ true }
    ensures ended { (r : Run) (n q : ℕ) (s : SnoopEnd) → Reaches r (n + 1) →
        is_end_at (past_of r) n q ≡ true → snoop_end_below (past_of r) (n + 1) q ≡ Some s →
        is_last_clock r.trace n q ≡ not (is_deferral s.outcome) }
    ensures replied { (r : Run) (n q : ℕ) (s : SnoopEnd) (grant : Grant) → Reaches r (n + 1) →
        is_end_at (past_of r) n q ≡ true → snoop_end_below (past_of r) (n + 1) q ≡ Some s →
        s.claim ≡ None → s.grant ≡ Some grant →
        (claim : Claim) × (claim.agent ≡ grant.agent) × (claim.line ≡ grant.line)
        × (is_last_clock r.trace n claim.first ≡ true) }
    ensures quiet { (r : Run) (n q : ℕ) (claim : Claim) → Reaches r (n + 1) →
        begun_at (past_of r) q ≡ Some claim → q < n → cancelled_in (past_of r) n ≡ None →
        ended_requests (past_of r) n ≡ [] → is_last_clock r.trace n q ≡ false }
{}

/// The turns of a run one clock on: with that of the snoop end of the clock behind the others.
pub fn turns_step()
    ensures { (r s : Run) → GrowsTo r s → turns_in (past_of s).moments
        ≡ turns_in (past_of r).moments
        ++ listed (option_map (λ end. number_of_turn end.turn)
        (snooped_at (past_of s) (length r.trace))) }
{}
