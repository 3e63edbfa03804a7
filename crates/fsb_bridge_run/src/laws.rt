//! Laws over the deferrals of a timely run: no code.

ghost use Rattle.std.specs.Prelude.{◌≡◌, ◌<◌, ◌≤◌, ◌+◌, ℕ, List, [], None, Some, true, false, is_some, if◌then◌else◌, length, take};
ghost use Rattle.std.specs.Option.{option_map, option_map_or};
ghost use Rattle.fsb_encode.specs.declared.request.Request.{Request};
ghost use Rattle.fsb_hazard.specs.Choice.{effective};
ghost use Rattle.fsb_trace.specs.declared.who.Who.TheVariants.{Priority};
ghost use Rattle.fsb_trace.specs.At.{request_at};
ghost use Rattle.fsb_trace.specs.Deferral.{is_pending};
ghost use Rattle.fsb_trace.specs.Outcome.{is_deferral};
ghost use Rattle.fsb_trace.specs.Requests.{is_reply_kind};
ghost use Rattle.fsb_trace.specs.Winner.{begins_at};
ghost use Rattle.fsb_timely.specs.Grants.{snooped_at};
ghost use Rattle.fsb_timely.specs.Growth.{GrowsTo};
ghost use Rattle.fsb_timely.specs.Moments.{choice_at, effective_choice, turns_in};
ghost use Rattle.fsb_timely.specs.Past.{SnoopEnd};
ghost use Rattle.fsb_timely.specs.Runs.{Run, moments_below, past_of, past_to, run_to};
ghost use Rattle.fsb_timely.specs.Snoops.{number_served_at, was_hit_before};
ghost use Rattle.fsb_timely.specs.Starts.{due_number, reply_to, starts_requests, would_begin};
ghost use Rattle.fsb_lawful.specs.Beginning.{KeepsBounds};
ghost use Rattle.fsb_run_laws.specs.Reaches.{Reaches};
ghost use Rattle.fsb_bridge.specs.declared.deferral.Waiting.{Waiting};
ghost use Rattle.fsb_bridge.specs.Deferrals.{deferral_of_id, due_deferral, is_covered, is_waited_for};
ghost use Rattle.fsb_bridge.specs.DeferralList.{HaveOwnIds, IsThatOf, RespondsInOrder, StandsFor};
ghost use Rattle.fsb_bridge_run.specs.DeferralSteps.{after_clock, reply_at, reply_begun};
ghost use Rattle.fsb_bridge_run.specs.RunDeferrals.{FindsDeferrals, HasDeferrals, ShowsBegun, turns_of};

/// What the bridge's laws ask of a trace, a timely run has at each of its clocks: no request
/// responds before its snoop end, and those that wait for their replies have IDs of their own.
pub fn runs_have_what_the_list_needs()
    ensures order { (r : Run) (n c : ℕ) → Reaches r n → RespondsInOrder (take n r.trace) c }
    ensures ids { (r : Run) (n c : ℕ) → Reaches r n → c ≤ n →
        HaveOwnIds (take n r.trace) (turns_of r) c }
{}

/// Before the first clock there is no deferral; and a list that has the deferrals of a run has
/// those of the run that grows from it.
pub fn deferrals_start_and_stay()
    ensures first { (r : Run) → HasDeferrals [] r 0 }
    ensures grown { (r s : Run) (list : List Waiting) → GrowsTo r s →
        HasDeferrals list r (length r.trace) → HasDeferrals list s (length r.trace) }
{}

/// A list that has the deferrals below a clock is what the clock finds, for its own words; and what
/// the clock makes of it, by the reply that begins, the cancellation, the snoop end and the
/// response, has the deferrals below the next clock.
pub fn clocks_change_the_deferrals()
    ensures found { (r : Run) (n : ℕ) (list : List Waiting) → Reaches r (n + 1) →
        HasDeferrals list r n → FindsDeferrals list r n }
    ensures left { (r : Run) (n : ℕ) (list : List Waiting) → Reaches r (n + 1) →
        HasDeferrals list r n → HasDeferrals (after_clock r n list) r (n + 1) }
{}

/// There are sixteen deferrals at most, and where a request is Deferred there is room for one more.
pub fn deferrals_are_few()
    ensures most { (r : Run) (n : ℕ) (list : List Waiting) → Reaches r n →
        HasDeferrals list r n → length list ≤ 16 }
    ensures room { (r : Run) (n : ℕ) (s : SnoopEnd) (list : List Waiting) → Reaches r (n + 1) →
        FindsDeferrals list r n → snooped_at (past_of r) n ≡ Some s →
        is_deferral s.outcome ≡ true → length list < 16 }
{}

/// A line is pending at a clock, for the words of the clock, exactly where the list waits for it;
/// so the effective choice of a request whose snoop end may be there rests on the window and the
/// list.
pub fn pending_lines_are_those_of_the_list()
    ensures pending { (r : Run) (n line : ℕ) (list : List Waiting) → Reaches r (n + 1) →
        FindsDeferrals list r n →
        is_pending (run_to r n).trace (turns_in (moments_below r n)) line n
        ≡ is_waited_for line list }
    ensures choice { (r : Run) (n q : ℕ) (request : Request) (list : List Waiting) →
        Reaches r (n + 1) → FindsDeferrals list r n →
        request_at (run_to r n).trace q ≡ Some request →
        effective_choice r.plan.bridge (run_to r n).choices (run_to r n).trace
        (turns_in (moments_below r n)) q n
        ≡ effective (choice_at (run_to r n).choices (run_to r n).trace q) request
        (is_covered r.plan.bridge request.line) (is_waited_for request.line list) }
{}

/// The least request that is due at a clock is that of the list's first due deferral; so the
/// priority agent would begin the reply to that one.
pub fn due_replies_are_those_of_the_list()
    ensures number { (r : Run) (n : ℕ) (list : List Waiting) → Reaches r (n + 1) →
        FindsDeferrals list r n → IsThatOf (run_to r n).trace (due_deferral n list)
        (due_number (run_to r n) (past_to (past_of r) n) n) }
    ensures any { (r : Run) (n : ℕ) (list : List Waiting) → Reaches r (n + 1) →
        FindsDeferrals list r n → is_some (due_number (run_to r n) (past_to (past_of r) n) n)
        ≡ is_some (due_deferral n list) }
    ensures would { (r : Run) (n : ℕ) (list : List Waiting) → Reaches r (n + 1) →
        FindsDeferrals list r n →
        would_begin (run_to r n) (past_to (past_of r) n) n Priority
        ≡ option_map (λ deferral. reply_to deferral.request) (due_deferral n list) }
{}

/// A reply begins exactly where the priority agent begins a request: by the list it is the reply to
/// the first due deferral, and the two clocks of the request show it as that.
pub fn replies_begin_as_due()
    ensures due { (r : Run) (n : ℕ) (list : List Waiting) → Reaches r (n + 1) →
        FindsDeferrals list r n →
        reply_begun r n ≡ (if begins_at (run_to r n).trace n Priority
        then option_map (λ deferral. reply_to deferral.request) (due_deferral n list) else None) }
    ensures shown { (r : Run) (n : ℕ) → Reaches r (n + 2) → reply_at r.trace n ≡ reply_begun r n }
    ensures requests { (r : Run) (n : ℕ) → Reaches r (n + 2) → reply_at r.trace n
        ≡ (if begins_at r.trace n Priority then request_at r.trace n else None) }
{}

/// A reply has its snoop end for the deferral that its ID has in the list, and HIT# there is what
/// it was at the snoop end of the request that was deferred.
pub fn replies_take_their_deferrals()
    ensures deferral { (r : Run) (n : ℕ) (s : SnoopEnd) (reply : Request) (list : List Waiting) →
        Reaches r (n + 1) → FindsDeferrals list r n → snooped_at (past_of r) n ≡ Some s →
        request_at r.trace s.first ≡ Some reply → is_reply_kind reply.kind ≡ true →
        IsThatOf (run_to r n).trace (deferral_of_id reply.did list)
        (number_served_at (run_to r n) (past_to (past_of r) n) n) }
    ensures hit { (r : Run) (n : ℕ) (s : SnoopEnd) (reply : Request) (list : List Waiting) →
        Reaches r (n + 1) → FindsDeferrals list r n → snooped_at (past_of r) n ≡ Some s →
        request_at r.trace s.first ≡ Some reply → is_reply_kind reply.kind ≡ true →
        was_hit_before (run_to r n) (past_to (past_of r) n) n
        ≡ option_map_or (λ deferral. deferral.shared) (deferral_of_id reply.did list) false }
{}

/// The request that began at the last clock of a run shows as what it is at the next one, where the
/// requests of that clock start as they must.
pub fn words_show_what_began()
    ensures { (r s : Run) → GrowsTo r s → KeepsBounds r.plan →
        starts_requests s (past_of s) (length r.trace) ≡ true → ShowsBegun r s }
{}

/// What the next clock of a run finds in its list, before it is known that the clock is timely:
/// only the request that began at the clock before has to show as what it is. The list stands for
/// the deferrals, and has the pending lines, the due reply, and the deferral of a reply's snoop
/// end; and there is room where the snoop end is that of any other request.
pub fn growing_runs_have_the_deferrals()
    ensures found { (r s : Run) (list : List Waiting) → GrowsTo r s → KeepsBounds r.plan →
        ShowsBegun r s → HasDeferrals list r (length r.trace) →
        StandsFor list s.trace (turns_of s) (length r.trace) }
    ensures pending { (r s : Run) (line : ℕ) (list : List Waiting) → GrowsTo r s →
        KeepsBounds r.plan → ShowsBegun r s → HasDeferrals list r (length r.trace) →
        is_pending s.trace (turns_of r) line (length r.trace) ≡ is_waited_for line list }
    ensures choice { (r s : Run) (q : ℕ) (request : Request) (list : List Waiting) → GrowsTo r s →
        KeepsBounds r.plan → ShowsBegun r s → HasDeferrals list r (length r.trace) →
        request_at s.trace q ≡ Some request →
        effective_choice s.plan.bridge s.choices s.trace (turns_of r) q (length r.trace)
        ≡ effective (choice_at s.choices s.trace q) request
        (is_covered s.plan.bridge request.line) (is_waited_for request.line list) }
    ensures number { (r s : Run) (list : List Waiting) → GrowsTo r s → KeepsBounds r.plan →
        ShowsBegun r s → HasDeferrals list r (length r.trace) → IsThatOf s.trace
        (due_deferral (length r.trace) list) (due_number s (past_of s) (length r.trace)) }
    ensures any { (r s : Run) (list : List Waiting) → GrowsTo r s → KeepsBounds r.plan →
        ShowsBegun r s → HasDeferrals list r (length r.trace) →
        is_some (due_number s (past_of s) (length r.trace))
        ≡ is_some (due_deferral (length r.trace) list) }
    ensures would { (r s : Run) (list : List Waiting) → GrowsTo r s → KeepsBounds r.plan →
        ShowsBegun r s → HasDeferrals list r (length r.trace) →
        would_begin s (past_of s) (length r.trace) Priority ≡ option_map
        (λ deferral. reply_to deferral.request) (due_deferral (length r.trace) list) }
    ensures deferral { (r s : Run) (end : SnoopEnd) (reply : Request) (list : List Waiting) →
        GrowsTo r s → KeepsBounds r.plan → ShowsBegun r s → HasDeferrals list r (length r.trace) →
        snooped_at (past_of s) (length r.trace) ≡ Some end →
        request_at s.trace end.first ≡ Some reply → is_reply_kind reply.kind ≡ true →
        IsThatOf s.trace (deferral_of_id reply.did list)
        (number_served_at s (past_of s) (length r.trace)) }
    ensures hit { (r s : Run) (end : SnoopEnd) (reply : Request) (list : List Waiting) →
        GrowsTo r s → KeepsBounds r.plan → ShowsBegun r s → HasDeferrals list r (length r.trace) →
        snooped_at (past_of s) (length r.trace) ≡ Some end →
        request_at s.trace end.first ≡ Some reply → is_reply_kind reply.kind ≡ true →
        was_hit_before s (past_of s) (length r.trace)
        ≡ option_map_or (λ deferral. deferral.shared) (deferral_of_id reply.did list) false }
    ensures taken { (r s : Run) (end : SnoopEnd) (reply : Request) (list : List Waiting) →
        GrowsTo r s → KeepsBounds r.plan → ShowsBegun r s → HasDeferrals list r (length r.trace) →
        snooped_at (past_of s) (length r.trace) ≡ Some end →
        request_at s.trace end.first ≡ Some reply → is_reply_kind reply.kind ≡ true →
        is_some (deferral_of_id reply.did list) ≡ true }
    ensures room { (r s : Run) (end : SnoopEnd) (request : Request) (list : List Waiting) →
        GrowsTo r s → KeepsBounds r.plan → HasDeferrals list r (length r.trace) →
        snooped_at (past_of s) (length r.trace) ≡ Some end →
        request_at s.trace end.first ≡ Some request → is_reply_kind request.kind ≡ false →
        length list < 16 }
{}
