//! Laws over the definitions: no code.

ghost use Rattle.std.specs.Prelude.{◌+◌, ◌<◌, ◌≤◌, ◌≡◌, ℕ, None, IsTrue, false, is_some, length};
ghost use Rattle.fsb_signal.specs.declared.marks.Marks.{Marks};
ghost use Rattle.fsb_signal.specs.Parity.{marks_in};
ghost use Rattle.fsb_trace.specs.declared.who.Who.TheVariants.{Symmetric};
ghost use Rattle.fsb_trace.specs.Verdict.{breaks_a_rule, verdict};
ghost use Rattle.fsb_trace.specs.Winner.{begins_at};
ghost use Rattle.fsb_timely.specs.Runs.{Run, past_of, run_to};
ghost use Rattle.fsb_timely.specs.Timely.{Timely};
ghost use Rattle.fsb_timely.specs.Wants.{want_of};
ghost use Rattle.fsb_lawful.specs.Beginning.{KeepsBounds, WantsLawfully};
ghost use Rattle.fsb_lawful.specs.Keeps.{Keeps};
ghost use Rattle.fsb_lawful.specs.Owed.{GrantsAreOwed};
ghost use Rattle.fsb_lawful.specs.Premises.{WritesBackAlone};

/// In a timely run no control line is unknown, and no bit of its data (rules 1 and 17).
pub fn words_are_known()
    ensures control_lines { (m : Marks) (r : Run) → Timely r → Keeps m 1 r.trace }
    ensures data { (m : Marks) (r : Run) → Timely r → Keeps m 17 r.trace }
{}

/// A request of a timely run begins far enough behind the one before it, with room in the queue, unblocked, and by an
/// agent that wins the bus (rules 2, 4, 5 and 6).
pub fn requests_begin_lawfully()
    ensures spacing { (m : Marks) (r : Run) → Timely r → Keeps m 2 r.trace }
    ensures queue_depth { (m : Marks) (r : Run) → Timely r → Keeps m 4 r.trace }
    ensures unblocked { (m : Marks) (r : Run) → Timely r → Keeps m 5 r.trace }
    ensures winner { (m : Marks) (r : Run) → Timely r → Keeps m 6 r.trace }
{}

/// Where each request that a winner would begin is lawful, a timely run has lawful codes in the two clocks of each request
/// (rule 3).
pub fn codes_are_lawful()
    ensures { (m : Marks) (r : Run) → Timely r → WantsLawfully r → Keeps m 3 r.trace }
{}

/// Where each request that a winner would begin is lawful, and an agent has 4 requests outstanding at most, a request of a
/// timely run is identified by its winner: a reply by the priority agent, any other by an ID of its agent (rule 7).
pub fn requests_are_identified()
    ensures { (m : Marks) (r : Run) → Timely r → r.plan.ahead ≤ 4 → WantsLawfully r →
        Keeps m 7 r.trace }
{}

/// In a timely run an address error comes three clocks behind a request (rule 10).
pub fn address_errors_cancel_requests()
    ensures { (m : Marks) (r : Run) → Timely r → Keeps m 10 r.trace }
{}

/// In a timely run HIT#, HITM# and DEFER# come at snoop clocks alone (rule 11).
pub fn snoop_lines_have_snoop_clocks()
    ensures { (m : Marks) (r : Run) → Timely r → Keeps m 11 r.trace }
{}

/// In a timely run the bus lock begins with a request (rule 9).
pub fn locks_begin_with_requests()
    ensures { (m : Marks) (r : Run) → Timely r → Keeps m 9 r.trace }
{}

/// A timely run has even parity wherever its dump declares parity lines: in profile 2, where it has them (rules 19 and 20).
pub fn parity_is_even()
    ensures address { (r : Run) → Timely r → Keeps (marks_in r.plan.profile) 19 r.trace }
    ensures request { (r : Run) → Timely r → Keeps (marks_in r.plan.profile) 20 r.trace }
{}

/// Where the plan keeps the bounds of a bench file, each request that a winner would begin is lawful.
pub fn wants_are_lawful()
    ensures { (r : Run) → KeepsBounds r.plan → WantsLawfully r }
{}

/// In a timely run an agent gets what it has asked for alone: where a line is granted to it, or is brought with the end of
/// its grant, one of its outstanding requests is for the line.
pub fn grants_are_owed()
    ensures { (r : Run) → Timely r → GrantsAreOwed r }
{}

/// In a timely run a want stays until its request begins: an agent that wants something at a clock and begins no request
/// there wants something at the next clock.
pub fn wants_last()
    ensures { (r : Run) (a c : ℕ) → Timely r → c < length r.trace →
        IsTrue (is_some (want_of (past_of r) a c)) →
        begins_at (run_to r c).trace c (Symmetric a) ≡ false →
        IsTrue (is_some (want_of (past_of r) a (c + 1))) }
{}

/// In a timely run an agent asks as it must: its want stays until its request begins, so its request line does, and is
/// released then (rule 8).
pub fn request_lines_are_held()
    ensures { (m : Marks) (r : Run) → Timely r → WantsLawfully r → r.plan.ahead ≤ 4 →
        Keeps m 8 r.trace }
{}

/// In a timely run in which an agent that writes back has its line alone, nothing is told at the snoop end of a write-back
/// or a reply (rule 12).
pub fn snoop_results_fit()
    ensures { (m : Marks) (r : Run) → Timely r → WantsLawfully r → WritesBackAlone r →
        Keeps m 12 r.trace }
{}

/// In a timely run a response comes two clocks after its snoop end at least, and after the end before; TRDY# comes once for
/// a request whose data memory takes, when it is the next one to be answered, and two clocks before its response at least
/// (rules 13 and 15).
pub fn answers_come_in_order()
    ensures responses { (m : Marks) (r : Run) → Timely r → Keeps m 13 r.trace }
    ensures targets { (m : Marks) (r : Run) → Timely r → Keeps m 15 r.trace }
{}

/// In a timely run each response has the code that fits its request and its snoop end (rule 14).
pub fn response_codes_fit()
    ensures { (m : Marks) (r : Run) → Timely r → WantsLawfully r → Keeps m 14 r.trace }
{}

/// In a timely run DRDY# and DBSY# go with the four chunks of the request that responded last, where its data move (rule
/// 16).
pub fn data_follow_responses()
    ensures { (m : Marks) (r : Run) → Timely r → Keeps m 16 r.trace }
{}

/// In a timely run a reply answers a request that awaits it, and any other request has an ID that none of the outstanding
/// ones has, of which its agent has fewer than 4 (rule 18).
pub fn outstanding_requests_are_few()
    ensures { (m : Marks) (r : Run) → Timely r → WantsLawfully r → r.plan.ahead ≤ 4 →
        Keeps m 18 r.trace }
{}

/// A timely run is accepted, in profile 2 with its parity and in profile 1 without; and no rule is broken at any clock.
pub fn timely_runs_are_accepted()
    ensures whole { (r : Run) → Timely r → KeepsBounds r.plan → WritesBackAlone r →
        verdict (marks_in r.plan.profile) r.trace ≡ None }
    ensures clock { (r : Run) → Timely r → KeepsBounds r.plan → WritesBackAlone r → (c : ℕ) →
        breaks_a_rule (marks_in r.plan.profile) r.trace c ≡ false }
{}
