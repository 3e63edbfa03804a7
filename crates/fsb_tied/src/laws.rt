//! Laws over the definitions: no code.

ghost use Rattle.std.specs.Prelude.{◌++◌, ◌≡◌, ◌≢◌, ◌<◌, ◌≤◌, ℕ, Some, None, true, false, length};
ghost use Rattle.fsb_line.specs.Line.{Bytes, LineDeferral, unheld};
ghost use Rattle.fsb_line.specs.LineRuns.{MayRun, run};
ghost use Rattle.fsb_signal.specs.Parity.{marks_in};
ghost use Rattle.fsb_trace.specs.Verdict.{breaks_a_rule, verdict};
ghost use Rattle.fsb_timely.specs.Grants.{holds_line, is_exclusive, is_rival};
ghost use Rattle.fsb_timely.specs.Hits.{is_dirty, line_state_of};
ghost use Rattle.fsb_timely.specs.Runs.{Run, past_of};
ghost use Rattle.fsb_timely.specs.Timely.{Timely};
ghost use Rattle.fsb_timely.specs.Wants.{is_asked_for, owed};
ghost use Rattle.fsb_lawful.specs.Beginning.{KeepsBounds};
ghost use Rattle.fsb_lawful.specs.Premises.{WritesBackAlone};
ghost use Rattle.fsb_coherent.specs.Facts.{ClockFacts};
ghost use Rattle.fsb_coherent.specs.KeepsTie.{IsTiedTo, KeepsTie};
ghost use Rattle.fsb_coherent.specs.LineEvents.{events_below, hits_on, responds_on};
ghost use Rattle.fsb_coherent.specs.Relation.{deferral_below};
ghost use Rattle.fsb_coherent.specs.BeforeSnoop.{TiedThrough, events_before_snoop};

/// What has to be known of a clock is so at each clock of a timely run whose plan keeps its bounds,
/// and the clock keeps the tie of each line.
pub fn timely_runs_keep_ties()
    ensures facts { (r : Run) (line n : ℕ) → Timely r → KeepsBounds r.plan → n < length r.trace →
        ClockFacts (past_of r) line n }
    ensures tie { (r : Run) (line n : ℕ) → Timely r → KeepsBounds r.plan → n < length r.trace →
        KeepsTie (past_of r) line n }
{}

/// The events of a line below a clock of a timely run may happen to a line that nobody holds, and
/// the line after them is in order, has its bytes where they belong, and is that of the run: held,
/// exclusive and dirty as the run says; and so, with the hits of the clock counted, is the line
/// before the clock's snoop end.
pub fn events_of_runs_may_happen()
    ensures before { (r : Run) (line n : ℕ) (bytes : Bytes) → Timely r → KeepsBounds r.plan →
        n ≤ length r.trace →
        MayRun (unheld bytes) (events_below (past_of r) line n)
        × IsTiedTo (past_of r) line n (run (unheld bytes) (events_below (past_of r) line n)) }
    ensures through { (r : Run) (line n : ℕ) (bytes : Bytes) → Timely r → KeepsBounds r.plan →
        n < length r.trace →
        TiedThrough (past_of r) line n (run (run (unheld bytes) (events_below (past_of r) line n))
        (events_before_snoop (past_of r) line n)) }
{}

/// At the sample of a clock, with its response and its hits counted, the state of the machine's
/// line at an agent is that which the run says of it there.
pub fn states_are_those_of_the_run()
    ensures { (r : Run) (a line n : ℕ) (bytes : Bytes) → Timely r → KeepsBounds r.plan →
        n < length r.trace →
        (run (run (unheld bytes) (events_below (past_of r) line n))
        (responds_on (past_of r) line n ++ hits_on (past_of r) line n)).state a
        ≡ line_state_of (past_of r) a line n }
{}

/// An agent of a timely run has one line of a cache set at most: where it holds one, it neither
/// holds nor has asked for another one of the set; and where it has asked for one, it has not asked
/// for another.
pub fn sets_have_one_line()
    ensures held { (r : Run) (a line other n : ℕ) → Timely r → KeepsBounds r.plan →
        n ≤ length r.trace → is_rival (past_of r) line other ≡ true →
        holds_line (past_of r) a line n ≡ true → holds_line (past_of r) a other n ≡ false }
    ensures unasked { (r : Run) (a line other n : ℕ) → Timely r → KeepsBounds r.plan →
        n ≤ length r.trace → is_rival (past_of r) line other ≡ true →
        holds_line (past_of r) a line n ≡ true →
        is_asked_for (owed (past_of r) a n) other ≡ false }
    ensures asked { (r : Run) (a line other n : ℕ) → Timely r → KeepsBounds r.plan →
        n ≤ length r.trace → is_rival (past_of r) line other ≡ true →
        is_asked_for (owed (past_of r) a n) line ≡ true →
        is_asked_for (owed (past_of r) a n) other ≡ false }
{}

/// In a timely run nobody else holds a line that an agent has for itself; so one agent at most is
/// dirty on a line. And nobody has for itself a line that is deferred and awaits its reply.
pub fn lines_have_one_owner()
    ensures alone { (r : Run) (a b line n : ℕ) → Timely r → KeepsBounds r.plan →
        n ≤ length r.trace → is_exclusive (past_of r) a line n ≡ true → b ≢ a →
        holds_line (past_of r) b line n ≡ false }
    ensures dirty { (r : Run) (a b line n : ℕ) → Timely r → KeepsBounds r.plan →
        n ≤ length r.trace → is_dirty (past_of r) a line n ≡ true →
        is_dirty (past_of r) b line n ≡ true → a ≡ b }
    ensures pending { (r : Run) (a line n : ℕ) (d : LineDeferral) → Timely r → KeepsBounds r.plan →
        n ≤ length r.trace → deferral_below (past_of r) line n ≡ Some d →
        is_exclusive (past_of r) a line n ≡ false }
{}

/// In a timely run no other agent holds a line at the snoop end of its write-back.
pub fn lines_are_written_back_alone()
    ensures { (r : Run) → Timely r → KeepsBounds r.plan → WritesBackAlone r }
{}

/// A timely run breaks no phase rule: its trace is accepted, in profile 2 with its parity and in
/// profile 1 without; and no rule is broken at any of its clocks.
pub fn timely_runs_break_no_rule()
    ensures whole { (r : Run) → Timely r → KeepsBounds r.plan →
        verdict (marks_in r.plan.profile) r.trace ≡ None }
    ensures clock { (r : Run) → Timely r → KeepsBounds r.plan → (c : ℕ) →
        breaks_a_rule (marks_in r.plan.profile) r.trace c ≡ false }
{}
