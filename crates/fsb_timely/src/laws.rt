//! Laws over the definitions: no code.

ghost use Rattle.std.specs.Prelude.{◌≡◌, ◌↔◌, ◌<◌, ◌≤◌, ◌+◌, ◌&&◌, ◌||◌, ℕ, List, false, not, None, Some, length, slice_get, if◌then◌else◌, IsTrue};
ghost use Rattle.std.specs.Option.{option_and_then};
ghost use Rattle.fsb_count.specs.Options.{is_some_and};
ghost use Rattle.fsb_encode.specs.declared.request.Request.{Request};
ghost use Rattle.fsb_hazard.specs.declared.choice.Ask.TheVariants.{Begun};
ghost use Rattle.fsb_hazard.specs.declared.line.HazardLine.{HazardLine};
ghost use Rattle.fsb_hazard.specs.Entry.{entry};
ghost use Rattle.fsb_signal.specs.declared.lines.TheConstants.Lines.{ADS};
ghost use Rattle.fsb_signal.specs.Samples.{is_known_trace, line_at};
ghost use Rattle.fsb_trace.specs.At.{Trace};
ghost use Rattle.fsb_trace.specs.Snoop.{snoop_end_of};
ghost use Rattle.fsb_trace.specs.Flight.{is_outstanding};
ghost use Rattle.fsb_timely.specs.Past.{SnoopEnd, Past};
ghost use Rattle.fsb_timely.specs.Tied.{IsSnoopOf};
ghost use Rattle.fsb_timely.specs.Runs.{Run, run_to, past_of, past_to};
ghost use Rattle.fsb_timely.specs.Moments.{cancelled_at, claim_at};
ghost use Rattle.fsb_timely.specs.Grants.{begun_at, snooped_at, is_end_at, is_ended, grant_at, is_granted, is_lost, holds_line, IsHeldSince, latest_grant, is_ready, is_named_by_other, is_sole_grant, is_exclusive};
ghost use Rattle.fsb_timely.specs.Completions.{is_arrival, is_brought};
ghost use Rattle.fsb_timely.specs.Scripts.{Need, completes_at, is_logged_at, is_logged, next_number, next_item, is_idling, window};
ghost use Rattle.fsb_timely.specs.Hits.{is_hit, is_dirty};
ghost use Rattle.fsb_timely.specs.Wants.{owed, is_asked_for, want_of, is_held_back};
ghost use Rattle.fsb_timely.specs.Timely.{Part, holds_at, keeps, AtEachClock, IsTimelyAt, Timely};
ghost use Rattle.fsb_timely.specs.Growth.{IsNext, IsWhole, GoesOn, GoesOnAfterHits, is_last_clock};

/// What is said of a clock that a run has passed stays as it is when the run goes on: the run and its past up to that
/// clock are the same, and so is each test of them.
pub fn each_part_stays()
    ensures run { (r s : Run) (c : ℕ) → IsNext r s → IsWhole r → c < length r.trace →
        run_to s c ≡ run_to r c }
    ensures past { (r s : Run) (c : ℕ) → IsNext r s → IsWhole r → c < length r.trace →
        past_to (past_of s) c ≡ past_to (past_of r) c }
    ensures part { (part : Part) (r s : Run) (c : ℕ) → IsNext r s → IsWhole r → c < length r.trace →
        holds_at part s c ≡ holds_at part r c }
{}

/// A run that is timely stays so with one more clock at which the parts hold, and so does a part by itself.
pub fn runs_grow()
    ensures part { (part : Part) (r s : Run) → IsNext r s → IsWhole r → AtEachClock part r →
        IsTrue (holds_at part s (length r.trace)) → AtEachClock part s }
    ensures timely { (r s : Run) → Timely r → IsNext r s → IsWhole s →
        IsTrue (is_known_trace s.trace) →
        IsTimelyAt s (length r.trace) → Timely s }
{}

/// A part holds at each clock exactly where its test of the whole run passes.
pub fn parts_are_tested()
    ensures { (part : Part) (r : Run) → IsTrue (keeps part r) ↔ AtEachClock part r }
{}

/// The moments of a run have the snoop ends of its whole trace, and no others: each live request whose snoop end is reached
/// has it in the moment of that clock, with its first clock, claim, kind, turn and settled outcome.
pub fn moments_have_the_snoop_ends()
    ensures reached { (r : Run) (i t : ℕ) → snoop_end_of r.trace i ≡ Some t →
        (s : SnoopEnd) × IsSnoopOf r i t s }
    ensures told { (r : Run) (t : ℕ) (s : SnoopEnd) → snooped_at (past_of r) t ≡ Some s →
        (i : ℕ) × IsSnoopOf r i t s }
{}

/// The moment of a clock has the request that begins there, and the one that AERR# cancels there, as the whole trace says.
pub fn moments_have_the_beginnings()
    ensures begun { (r : Run) (t : ℕ) → t < length r.trace →
        begun_at (past_of r) t ≡ (if line_at ADS r.trace t then claim_at r.trace t else None) }
    ensures cancelled { (r : Run) (t : ℕ) → t < length r.trace →
        option_and_then (λ moment. moment.cancelled) (slice_get (past_of r).moments t)
        ≡ cancelled_at r.trace t }
{}

/// An agent holds a line exactly where the line was granted to it and it did not lose it since.
pub fn held_lines_were_granted()
    ensures { (p : Past) (a line c : ℕ) → IsTrue (holds_line p a line c) ↔ IsHeldSince p a line c }
{}

/// What an agent holds, one clock further: a grant at the clock, or what it held and does not lose there. The latest grant
/// is then the one at the clock, or stays. The line is the agent's own by a sole grant, or stays its own where it is not
/// lost and no other agent names it. A request has ended below the next clock where it had, or ends at this one.
pub fn held_lines_step()
    ensures held { (p : Past) (a line c : ℕ) →
        holds_line p a line (c + 1)
        ≡ (is_granted p a line c || (holds_line p a line c && not (is_lost p a line c))) }
    ensures latest { (p : Past) (a line c : ℕ) →
        latest_grant p a line (c + 1)
        ≡ (if is_granted p a line c then grant_at p c else latest_grant p a line c) }
    ensures exclusive { (p : Past) (a line c : ℕ) →
        is_exclusive p a line (c + 1)
        ≡ (if is_granted p a line c then is_some_and (grant_at p c) is_sole_grant else
        (is_exclusive p a line c && (not (is_lost p a line c)
        && not (is_named_by_other p a line c)))) }
    ensures ended { (p : Past) (c q : ℕ) →
        is_ended p (c + 1) q ≡ (is_ended p c q || is_end_at p c q) }
{}

/// An agent without an entry at a clock stays where it is in its script; an item is done from the clock after its entry on.
pub fn scripts_step()
    ensures number { (p : Past) (a c : ℕ) → completes_at p a c ≡ false →
        next_number p a (c + 1) ≡ next_number p a c }
    ensures item { (p : Past) (a c : ℕ) → completes_at p a c ≡ false →
        next_item p a (c + 1) ≡ next_item p a c }
    ensures window { (p : Past) (a c : ℕ) → completes_at p a c ≡ false →
        window p a (c + 1) ≡ window p a c }
    ensures logged { (p : Past) (a c n : ℕ) →
        is_logged p a (c + 1) n ≡ (is_logged p a c n || is_logged_at p a c n) }
{}

/// A request that began before a clock stays outstanding after it, unless that is its last clock as such.
pub fn outstanding_requests_step()
    ensures { (w : Trace) (c q : ℕ) → q < c →
        is_outstanding w (c + 1) q ≡ (is_outstanding w c q && not (is_last_clock w c q)) }
{}

/// A clock is the snoop end of one live request at most.
pub fn one_snoop_end_at_a_clock()
    ensures { (w : Trace) (s i j : ℕ) → snoop_end_of w i ≡ Some s → snoop_end_of w j ≡ Some s →
        i ≡ j }
{}

/// What an agent wants is a line that none of its outstanding requests is for.
pub fn wants_are_new()
    ensures { (p : Past) (a c : ℕ) (request : Request) → want_of p a c ≡ Some request →
        is_asked_for (owed p a c) request.line ≡ false }
{}

/// What hazard lines choose for a request depends on its number alone, so an object that tells lines has an entry for each
/// number.
pub fn hazard_lines_go_by_number()
    ensures { (lines : List HazardLine) (k : ℕ) (a b : Request) →
        entry lines (Begun k a) ≡ entry lines (Begun k b) }
{}

/// What an agent has and does at a clock rests on the past below that clock: where a past goes on, the lines that the agent
/// holds, has ready and has for itself, its place in its script and its hit are the same, up to the clock at which it goes
/// on.
pub fn pasts_go_on()
    ensures held { (n : ℕ) (p q : Past) (a line c : ℕ) → GoesOn n p q → c ≤ n →
        holds_line p a line c ≡ holds_line q a line c }
    ensures latest { (n : ℕ) (p q : Past) (a line c : ℕ) → GoesOn n p q → c ≤ n →
        latest_grant p a line c ≡ latest_grant q a line c }
    ensures ready { (n : ℕ) (p q : Past) (a line c : ℕ) → GoesOn n p q → c ≤ n →
        is_ready p a line c ≡ is_ready q a line c }
    ensures exclusive { (n : ℕ) (p q : Past) (a line c : ℕ) → GoesOn n p q → c ≤ n →
        is_exclusive p a line c ≡ is_exclusive q a line c }
    ensures item { (n : ℕ) (p q : Past) (a c : ℕ) → GoesOn n p q → c ≤ n →
        next_item p a c ≡ next_item q a c }
    ensures window { (n : ℕ) (p q : Past) (a c : ℕ) → GoesOn n p q → c ≤ n →
        window p a c ≡ window q a c }
    ensures idling { (n : ℕ) (p q : Past) (a c : ℕ) → GoesOn n p q → c ≤ n →
        is_idling p a c ≡ is_idling q a c }
    ensures hit { (n : ℕ) (p q : Past) (a c : ℕ) → GoesOn n p q → c ≤ n →
        is_hit p a c ≡ is_hit q a c }
    ensures next { (r s : Run) → IsNext r s → IsWhole r →
        GoesOn (length r.trace) (past_of r) (past_of s) }
{}

/// The past of a timely run goes on from its past up to each clock, so what rests on the past up to a clock is the same of
/// both: all that `pasts_go_on` and `wants_go_on` name, and arrivals.
pub fn whole_pasts_go_on()
    ensures begins { (r : Run) (c : ℕ) → Timely r → c < length r.trace →
        GoesOn (c + 1) (past_to (past_of r) c) (past_of r) }
    ensures arrival { (n : ℕ) (p q : Past) (a c : ℕ) → GoesOn n p q → c < n →
        is_arrival p a c ≡ is_arrival q a c }
    ensures brought { (n : ℕ) (p q : Past) (a c : ℕ) (need : Need) → GoesOn n p q → c < n →
        is_brought p a c need ≡ is_brought q a c need }
{}

/// What an agent wants at a clock, and whether it is held back there, rests on the past below that clock and on the entries
/// of the clock's own hits. So it stays where a past goes on behind those hits, and at each earlier clock however it goes
/// on; so do what the agent owes, and on which lines it is dirty.
pub fn wants_go_on()
    ensures owed { (n : ℕ) (p q : Past) (a c : ℕ) → GoesOn n p q → c ≤ n → owed p a c ≡ owed q a c }
    ensures dirty { (n : ℕ) (p q : Past) (a line c : ℕ) → GoesOnAfterHits n p q → c ≤ n →
        is_dirty p a line c ≡ is_dirty q a line c }
    ensures want { (n : ℕ) (p q : Past) (a c : ℕ) → GoesOnAfterHits n p q → c ≤ n →
        want_of p a c ≡ want_of q a c }
    ensures held_back { (n : ℕ) (p q : Past) (a c : ℕ) → GoesOnAfterHits n p q → c ≤ n →
        is_held_back p a c ≡ is_held_back q a c }
    ensures earlier_dirty { (n : ℕ) (p q : Past) (a line c : ℕ) → GoesOn n p q → c < n →
        is_dirty p a line c ≡ is_dirty q a line c }
    ensures earlier_want { (n : ℕ) (p q : Past) (a c : ℕ) → GoesOn n p q → c < n →
        want_of p a c ≡ want_of q a c }
    ensures earlier_held_back { (n : ℕ) (p q : Past) (a c : ℕ) → GoesOn n p q → c < n →
        is_held_back p a c ≡ is_held_back q a c }
{}
