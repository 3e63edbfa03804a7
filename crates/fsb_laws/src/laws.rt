//! How the numbers of an orderly trace go on when one sample is added: functions with no code, whose contracts are
//! the laws.

ghost use Rattle.std.specs.Prelude.{◌≡◌, ℕ, suc, ◌+◌, ◌<◌, true, false, not, ◌&&◌, ◌||◌, if◌then◌else◌, [], ◌∷◌, ◌++◌, filter, Some, None, length};
ghost use Rattle.fsb_count.specs.Options.{is_some_and, is_before, is_at};
ghost use Rattle.fsb_signal.specs.declared.lines.TheConstants.Lines.{ADS, TRDY, DRDY};
ghost use Rattle.fsb_signal.specs.declared.sample.Sample.{Sample};
ghost use Rattle.fsb_signal.specs.Samples.{has_line, response_of};
ghost use Rattle.fsb_trace.specs.At.{Trace};
ghost use Rattle.fsb_trace.specs.Requests.{live_clock_of, live_number_of};
ghost use Rattle.fsb_trace.specs.Snoop.{snoop_end_of, is_snoop_clock};
ghost use Rattle.fsb_trace.specs.Outcome.{outcome_of, told_by, does_move, is_deferred};
ghost use Rattle.fsb_trace.specs.Response.{end_of, ready_clock_of};
ghost use Rattle.fsb_trace.specs.Rules.{may_answer};
ghost use Rattle.fsb_trace.specs.Flight.{in_flight, last_clock_of, reply_clock_of};
ghost use Rattle.fsb_laws.specs.OneMore.{OneMore, cancels, responds};
ghost use Rattle.fsb_laws.specs.Orderly.{Spaced, Orderly};
ghost use Rattle.fsb_laws.specs.Progress.{SnoopsTo, EndsTo, is_snoop_due, ends_snoop_of, response_count, transfer_of, may_answer_next, chunk_step};
ghost use Rattle.fsb_laws.specs.Leaving.{leaves, ends_at};

/// A live request keeps its number, unless the sample cancels it; one that begins with the sample has the next one.
pub fn requests_go_on()
    ensures kept { (h : Trace) (x : Sample) (v : Trace) (i q : ℕ) → OneMore h x v → Spaced h →
        live_clock_of h i ≡ Some q → cancels x (length h) q ≡ false → live_clock_of v i ≡ Some q }
    ensures none_but { (h : Trace) (x : Sample) (v : Trace) (i q : ℕ) → OneMore h x v → Spaced h →
        q < length h → live_clock_of v i ≡ Some q → live_clock_of h i ≡ Some q }
    ensures new { (h : Trace) (x : Sample) (v : Trace) → OneMore h x v → has_line x ADS ≡ true →
        live_clock_of v (live_number_of v (length h)) ≡ Some (length h) }
{}

/// Snoop ends stay, the first request without one has it with the sample exactly where it has a snoop clock there and is
/// not stalled, and the new clock is a snoop clock exactly where it is one of that request.
pub fn snoops_go_on()
    ensures kept { (h : Trace) (x : Sample) (v : Trace) (s i : ℕ) → OneMore h x v → SnoopsTo h s →
        i < s → snoop_end_of v i ≡ snoop_end_of h i }
    ensures next { (h : Trace) (x : Sample) (v : Trace) (s : ℕ) → OneMore h x v → Spaced h →
        SnoopsTo h s → snoop_end_of v s ≡ (if ends_snoop_of h s x then Some (length h) else None) }
    ensures ended { (h : Trace) (x : Sample) (v : Trace) (s : ℕ) → OneMore h x v → Spaced h →
        SnoopsTo h s → ends_snoop_of h s x ≡ true → SnoopsTo v (s + 1) }
    ensures not_ended { (h : Trace) (x : Sample) (v : Trace) (s : ℕ) → OneMore h x v → Spaced h →
        SnoopsTo h s → ends_snoop_of h s x ≡ false → SnoopsTo v s }
    ensures clock { (h : Trace) (x : Sample) (v : Trace) (s : ℕ) → OneMore h x v → Spaced h →
        SnoopsTo h s → is_snoop_clock v (length h) ≡ is_snoop_due h s (length h) }
{}

/// Responses and outcomes stay; a response of the sample is that of the next request, and tells of it what the old
/// trace knows; it may come exactly where the old trace says so.
pub fn responses_go_on()
    ensures count { (h : Trace) (x : Sample) (v : Trace) → OneMore h x v →
        response_count v ≡ response_count h + (if responds x then 1 else 0) }
    ensures kept { (h : Trace) (x : Sample) (v : Trace) (i : ℕ) → OneMore h x v → Orderly h →
        i < response_count h → outcome_of v i ≡ outcome_of h i }
    ensures new { (h : Trace) (x : Sample) (v : Trace) (s : ℕ) → OneMore h x v → SnoopsTo h s →
        response_count h < s → responds x ≡ true →
        outcome_of v (response_count h) ≡ Some (told_by h (response_count h) (response_of x)) }
    ensures may { (h : Trace) (x : Sample) (v : Trace) (s : ℕ) → OneMore h x v → Orderly h →
        SnoopsTo h s → may_answer v (length h) (response_count h) ≡ may_answer_next h }
    ensures orderly { (h : Trace) (x : Sample) (v : Trace) (s : ℕ) → OneMore h x v → Orderly h →
        SnoopsTo h s → Spaced v → (responds x ≡ true → may_answer_next h ≡ true) → Orderly v }
{}

/// The transfer that is on the way goes on by the sample's response and chunk; which requests have their ends shows by
/// it; and the target of the next request to respond is ready, and stays so, with the first TRDY# at which it may respond.
pub fn transfers_go_on()
    ensures begun { (h : Trace) (x : Sample) (v : Trace) (s : ℕ) → OneMore h x v → SnoopsTo h s →
        response_count h < s → responds x ≡ true →
        transfer_of v ≡ chunk_step (has_line x DRDY)
        (if does_move (told_by h (response_count h) (response_of x)) then Some 0 else None) }
    ensures kept { (h : Trace) (x : Sample) (v : Trace) → OneMore h x v → Orderly h →
        responds x ≡ false → transfer_of v ≡ chunk_step (has_line x DRDY) (transfer_of h) }
    ensures still { (h : Trace) → Orderly h → transfer_of h ≡ None → EndsTo h (response_count h) }
    ensures moving { (h : Trace) (k i : ℕ) → Orderly h → transfer_of h ≡ Some k →
        response_count h ≡ suc i → EndsTo h i }
    ensures ready { (h : Trace) (x : Sample) (v : Trace) (s : ℕ) → OneMore h x v → Orderly h →
        SnoopsTo h s → ready_clock_of h (response_count h) ≡ None →
        ready_clock_of v (response_count h)
        ≡ (if has_line x TRDY && may_answer_next h then Some (length h) else None) }
    ensures still_ready { (h : Trace) (x : Sample) (v : Trace) (i y : ℕ) → OneMore h x v →
        ready_clock_of h i ≡ Some y → ready_clock_of v i ≡ Some y }
{}

/// With the sample those requests leave that it cancels or ends, and the one that it begins comes.
pub fn flight_goes_on()
    ensures { (h : Trace) (x : Sample) (v : Trace) → OneMore h x v → Orderly h → Orderly v →
        in_flight v (length v) ≡ filter (λ q. not (leaves h x v q)) (in_flight h (length h))
        ++ (if has_line x ADS then length h ∷ [] else []) }
{}

/// A request that is not Deferred stops being outstanding with its end, and a Deferred one with the end of its reply; one
/// that the sample makes Deferred is outstanding still.
pub fn outstanding_requests_go_on()
    ensures plain { (h : Trace) (x : Sample) (v : Trace) (i : ℕ) → OneMore h x v → Orderly h →
        is_deferred h i ≡ false → is_deferred v i ≡ false →
        is_before (last_clock_of v i) (length v)
        ≡ (is_before (last_clock_of h i) (length h) || is_at (end_of v i) (length h)) }
    ensures deferred { (h : Trace) (x : Sample) (v : Trace) (i : ℕ) → OneMore h x v → Orderly h →
        Orderly v → is_deferred h i ≡ true →
        is_before (last_clock_of v i) (length v)
        ≡ (is_before (last_clock_of h i) (length h)
        || is_some_and (reply_clock_of h i) (ends_at v (length h))) }
    ensures newly { (h : Trace) (x : Sample) (v : Trace) (i : ℕ) → OneMore h x v → Orderly h →
        is_deferred h i ≡ false → is_deferred v i ≡ true →
        is_before (last_clock_of v i) (length v) ≡ false }
{}
