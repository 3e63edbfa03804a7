//! Laws of the definitions: small functions with no code, whose contracts are the laws.

ghost use Rattle.std.specs.Prelude.{◌≡◌, ℕ, ◌+◌, ◌<◌, ◌≤◌, Some, None, true, false, length};
ghost use Rattle.fsb_signal.specs.declared.marks.Marks.{Marks};
ghost use Rattle.fsb_trace.specs.At.{Trace};
ghost use Rattle.fsb_trace.specs.Agree.{AgreeTo};
ghost use Rattle.fsb_trace.specs.Winner.{winner_at};
ghost use Rattle.fsb_trace.specs.Requests.{first_clock_of, live_clock_of};
ghost use Rattle.fsb_trace.specs.Snoop.{snoop_end_of, is_snoop_clock_of};
ghost use Rattle.fsb_trace.specs.Outcome.{response_clock_of, outcome_of};
ghost use Rattle.fsb_trace.specs.Response.{end_of, ready_clock_of};
ghost use Rattle.fsb_trace.specs.Verdict.{is_broken, verdict};

/// Requests, and live requests, are numbered in the order of their first clocks.
pub fn requests_rise()
    ensures requests { (w : Trace) (j k p q : ℕ) → j < k → first_clock_of w j ≡ Some p →
        first_clock_of w k ≡ Some q → p < q }
    ensures live { (w : Trace) (i j p q : ℕ) → i < j → live_clock_of w i ≡ Some p →
        live_clock_of w j ≡ Some q → p < q }
{}

/// Where a snoop end is reached, its request's first clock lies four clocks before it at least, and every earlier
/// snoop end is reached too and lies three clocks before it at least.
pub fn snoop_ends_rise()
    ensures clock { (w : Trace) (i s : ℕ) → snoop_end_of w i ≡ Some s →
        (q : ℕ) × (live_clock_of w i ≡ Some q) × (q + 4 ≤ s) }
    ensures apart { (w : Trace) (i j t : ℕ) → i < j → snoop_end_of w j ≡ Some t →
        (s : ℕ) × (snoop_end_of w i ≡ Some s) × (s + 3 ≤ t) }
{}

/// A clock is a snoop clock of one request at most.
pub fn one_snoop_at_a_clock()
    ensures { (w : Trace) (c i j : ℕ) → is_snoop_clock_of w c i ≡ true →
        is_snoop_clock_of w c j ≡ true → i ≡ j }
{}

/// A number that is reached is the same in every trace with the same samples up to it: however a trace goes on, the
/// number stays. Whether a request is live shows three clocks after its first clock alone; an outcome and an end stay
/// where the snoop end was reached, as it is before each lawful response.
pub fn numbers_stay()
    ensures winner { (n : ℕ) (w v : Trace) (c : ℕ) → AgreeTo n w v → c ≤ n →
        winner_at w c ≡ winner_at v c }
    ensures request { (n : ℕ) (w v : Trace) (k q : ℕ) → AgreeTo n w v → q < n →
        first_clock_of w k ≡ Some q → first_clock_of v k ≡ Some q }
    ensures live { (n : ℕ) (w v : Trace) (i q : ℕ) → AgreeTo n w v → q + 3 < n →
        live_clock_of w i ≡ Some q → live_clock_of v i ≡ Some q }
    ensures snoop_end { (n : ℕ) (w v : Trace) (i s : ℕ) → AgreeTo n w v → s < n →
        snoop_end_of w i ≡ Some s → snoop_end_of v i ≡ Some s }
    ensures response { (n : ℕ) (w v : Trace) (i r : ℕ) → AgreeTo n w v → r < n →
        response_clock_of w i ≡ Some r → response_clock_of v i ≡ Some r }
    ensures outcome { (n : ℕ) (w v : Trace) (i s r : ℕ) → AgreeTo n w v → s < n →
        snoop_end_of w i ≡ Some s → r < n → response_clock_of w i ≡ Some r →
        outcome_of w i ≡ outcome_of v i }
    ensures end { (n : ℕ) (w v : Trace) (i s e : ℕ) → AgreeTo n w v → s < n →
        snoop_end_of w i ≡ Some s → e < n → end_of w i ≡ Some e → end_of v i ≡ Some e }
    ensures ready { (n : ℕ) (w v : Trace) (i y : ℕ) → AgreeTo n w v → y < n →
        ready_clock_of w i ≡ Some y → ready_clock_of v i ≡ Some y }
{}

/// Whether a rule is broken at a clock rests on the marks and on the samples up to that clock alone; so a verdict stays,
/// however the trace goes on.
pub fn rules_rest_on_the_past()
    ensures broken { (m : Marks) (w v : Trace) (c j : ℕ) → AgreeTo (c + 1) w v →
        is_broken m w c j ≡ is_broken m v c j }
    ensures stays { (n : ℕ) (m : Marks) (w v : Trace) (c j : ℕ) → AgreeTo n w v → c < n →
        verdict m w ≡ Some (c, j) → verdict m v ≡ Some (c, j) }
{}

/// A verdict names a clock and a rule that is broken there, while no rule is broken before that clock and no lesser
/// one at it; where there is none, no rule is broken at all.
pub fn verdict_is_least()
    ensures broken { (m : Marks) (w : Trace) (c j : ℕ) → verdict m w ≡ Some (c, j) →
        (c < length w) × (is_broken m w c j ≡ true) }
    ensures rule { (m : Marks) (w : Trace) (c j k : ℕ) → verdict m w ≡ Some (c, j) → k < j →
        is_broken m w c k ≡ false }
    ensures clock { (m : Marks) (w : Trace) (c j d k : ℕ) → verdict m w ≡ Some (c, j) → d < c →
        k < 21 →
        is_broken m w d k ≡ false }
    ensures accepted { (m : Marks) (w : Trace) (c j : ℕ) → verdict m w ≡ None → j < 21 →
        is_broken m w c j ≡ false }
{}
