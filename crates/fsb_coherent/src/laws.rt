//! Laws over the definitions: no code.

ghost use Rattle.std.specs.Prelude.{◌≡◌, ◌≢◌, ◌<◌, ◌≤◌, ◌+◌, ◌++◌, ◌&&◌, ◌||◌, not, ℕ, [], ◌∷◌, true, false, Some, None, length, if◌then◌else◌};
ghost use Rattle.std.specs.Option.{option_map_or};
ghost use Rattle.fsb_count.specs.Options.{is_at, is_some_and};
ghost use Rattle.fsb_hazard.specs.declared.choice.Turn.TheVariants.{Keep};
ghost use Rattle.fsb_line.specs.Coherence.{Ordered, Valued};
ghost use Rattle.fsb_line.specs.Line.{Bytes, LineDeferral, MemoryLine, OpenRequest, unheld};
ghost use Rattle.fsb_line.specs.LineRuns.{MayRun, run};
ghost use Rattle.fsb_line.specs.States.{is_held};
ghost use Rattle.fsb_signal.specs.declared.lines.TheConstants.Lines.{HITM};
ghost use Rattle.fsb_signal.specs.Samples.{line_at};
ghost use Rattle.fsb_trace.specs.At.{request_at};
ghost use Rattle.fsb_trace.specs.Outcome.{is_deferral};
ghost use Rattle.fsb_trace.specs.Requests.{is_reply};
ghost use Rattle.fsb_timely.specs.Past.{Claim, Past, SnoopEnd};
ghost use Rattle.fsb_timely.specs.Grants.{grant_at, holds_line, is_ended, is_exclusive, is_granted, is_lost, is_named_by_other, snooped_at};
ghost use Rattle.fsb_timely.specs.Hits.{is_dirty, is_hit};
ghost use Rattle.fsb_timely.specs.Moments.{is_snoop_of};
ghost use Rattle.fsb_timely.specs.Runs.{Run, past_of, past_to};
ghost use Rattle.fsb_timely.specs.Growth.{IsNext, IsWhole};
ghost use Rattle.fsb_coherent.specs.Awaits.{awaited_by, cancelled_in};
ghost use Rattle.fsb_coherent.specs.Facts.{ClockFacts};
ghost use Rattle.fsb_coherent.specs.Fitting.{IsSnoopOn, IsUncontested, is_granted_by, is_lost_by};
ghost use Rattle.fsb_coherent.specs.LineEvents.{events_at, events_below, snoop_events};
ghost use Rattle.fsb_coherent.specs.KeepsTie.{IsTiedTo, KeepsTie};
ghost use Rattle.fsb_coherent.specs.Quiet.{IsQuiet};
ghost use Rattle.fsb_coherent.specs.BeforeSnoop.{TiedThrough, events_before_snoop, events_from_snoop};
ghost use Rattle.fsb_coherent.specs.Settled.{is_always_kept, outcome_under, own_grant};
ghost use Rattle.fsb_coherent.specs.Worked.{worked_events, worked_past};
ghost use Rattle.fsb_coherent.specs.Relation.{IsOpen, Tied, chain_below, deferred_to, deferral_at, deferral_below, defers_line, is_dirty_below, is_dirty_through, is_dirtying, link_for, link_left, links_left, replies_line};

/// The events of a line at a clock that a run has passed stay as they are when the run goes on, and
/// so do all events of the line below its end.
pub fn events_stay()
    ensures at { (r s : Run) (line c : ℕ) → IsNext r s → IsWhole r → c < length r.trace →
        events_at (past_of s) line c ≡ events_at (past_of r) line c }
    ensures below { (r s : Run) (line n : ℕ) → IsNext r s → IsWhole r → n ≤ length r.trace →
        events_below (past_of s) line n ≡ events_below (past_of r) line n }
{}

/// Before the first clock a line that nobody holds or asks for is the line of every run.
pub fn lines_start_tied()
    ensures { (p : Past) (line : ℕ) (bytes : Bytes) → Tied p line 0 (unheld bytes) }
{}

/// Where each clock below n keeps the tie of a line, its events below n may happen to a line that
/// nobody holds, and the line after them is that of the run.
pub fn ties_go_on()
    ensures { (p : Past) (line n : ℕ) (bytes : Bytes) → ((c : ℕ) → c < n → KeepsTie p line c) →
        MayRun (unheld bytes) (events_below p line n)
        × IsTiedTo p line n (run (unheld bytes) (events_below p line n)) }
{}

/// A clock at which nothing happens has no event of any line, and keeps the tie of each.
pub fn quiet_clocks_keep_ties()
    ensures events { (p : Past) (line n : ℕ) → IsQuiet p n → events_at p line n ≡ [] }
    ensures tie { (p : Past) (line n : ℕ) → IsQuiet p n → KeepsTie p line n }
{}

/// An open request stays open until it is cancelled or has its snoop end; and no other is open that
/// began before.
pub fn open_requests_step()
    ensures kept { (p : Past) (a line n : ℕ) (request : OpenRequest) → IsOpen p a line n request →
        is_at (cancelled_in p n) request.number ≡ false →
        is_some_and (snooped_at p n) (is_snoop_of request.number) ≡ false →
        IsOpen p a line (n + 1) request }
    ensures before { (p : Past) (a line n : ℕ) (request : OpenRequest) →
        IsOpen p a line (n + 1) request → request.number < n → IsOpen p a line n request }
    ensures untouched { (p : Past) (a line n : ℕ) (request : OpenRequest) →
        IsOpen p a line (n + 1) request →
        (is_at (cancelled_in p n) request.number ≡ false)
        × (is_some_and (snooped_at p n) (is_snoop_of request.number) ≡ false) }
{}

/// The links of a line one clock on are those of before that are left, and that of a snoop end at
/// the clock; where no request ends there, all are left. And its deferral is the one made at the
/// clock, none where a reply grants the line there, and otherwise the one of before.
pub fn links_and_deferrals_step()
    ensures links { (p : Past) (line n : ℕ) → chain_below p line (n + 1)
        ≡ links_left p line (n + 1) n
        ++ option_map_or (link_left p line (n + 1) n) (snooped_at p n) [] }
    ensures kept { (p : Past) (line n : ℕ) → ((q : ℕ) → is_ended p (n + 1) q ≡ is_ended p n q) →
        chain_below p line (n + 1)
        ≡ chain_below p line n ++ option_map_or (link_left p line n n) (snooped_at p n) [] }
    ensures deferral { (p : Past) (line n : ℕ) → deferral_below p line (n + 1)
        ≡ (if defers_line p line n then deferral_at p line n
        else (if replies_line p line n then None else deferral_below p line n)) }
{}

/// Where the line of the machine is in order, has its bytes where they belong and is that of a run,
/// an agent that has the line for itself is its only holder, and nobody has a pending line for
/// itself.
pub fn tied_lines_have_one_owner()
    ensures alone { (p : Past) (line n : ℕ) (x : MemoryLine) → IsTiedTo p line n x →
        (a b : ℕ) → is_exclusive p a line n ≡ true → b ≢ a → holds_line p b line n ≡ false }
    ensures pending { (p : Past) (line n : ℕ) (x : MemoryLine) → IsTiedTo p line n x →
        (d : LineDeferral) → deferral_below p line n ≡ Some d →
        (a : ℕ) → is_exclusive p a line n ≡ false }
{}

/// At its snoop end a request has the outcome that HITM#, its turn and its kind make; one of a
/// symmetric agent makes a grant to its own claim; and a write-back or a reply is neither retried
/// nor put off.
pub fn snoop_ends_are_settled()
    ensures outcome { (r : Run) (t : ℕ) (s : SnoopEnd) → snooped_at (past_of r) t ≡ Some s →
        s.outcome ≡ outcome_under (line_at HITM r.trace t) s.turn (request_at r.trace s.first) }
    ensures grant { (r : Run) (t : ℕ) (s : SnoopEnd) (claim : Claim) →
        snooped_at (past_of r) t ≡ Some s → s.claim ≡ Some claim →
        is_reply (request_at r.trace s.first) ≡ false →
        s.grant ≡ own_grant (past_of r) r.trace s.first t s.outcome claim }
    ensures turn { (r : Run) (t : ℕ) (s : SnoopEnd) → snooped_at (past_of r) t ≡ Some s →
        is_always_kept (request_at r.trace s.first) ≡ true → s.turn ≡ Keep }
{}

/// In a few clocks by hand a hit stores before the snoop end of its clock, the line is handed over
/// by the agent that is dirty on it, a line is dropped where its agent begins a request for another
/// one of the cache set, and an upgrade is lost.
pub fn line_is_worked_out()
    ensures { (events_at worked_past 2 3 ∷ events_at worked_past 2 4 ∷ events_at worked_past 2 5
        ∷ events_at worked_past 2 6 ∷ []) ≡ worked_events }
{}

/// An agent that has a hit at a clock is dirty there by its stores of the clock too. One clock on
/// it is dirty by a grant at the clock, and otherwise where it was, its stores of the clock
/// counted, did not lose the line, and was not named by another.
pub fn dirty_lines_step()
    ensures hits { (p : Past) (a line n : ℕ) → is_dirty p a line n
        ≡ (if is_hit p a n then is_dirty_through p a line n else is_dirty_below p a line n) }
    ensures step { (p : Past) (a line n : ℕ) → is_dirty_below p a line (n + 1)
        ≡ (if is_granted p a line n then is_some_and (grant_at p n) (is_dirtying p a line (n + 1))
        else (is_dirty_through p a line n
        && (not (is_lost p a line n) && not (is_named_by_other p a line n)))) }
{}

/// At the snoop end of a request for a line, as it may be, the line of the machine gets the links
/// that the run has
/// of it: by its grant, or by its write-back, or none; and the deferral, where it is Deferred.
/// Where an upgrade is won by an agent that holds the line, those hold it afterwards who get it
/// there, and who held it and do not lose it. A write-back must not have met HITM#.
pub fn snoop_ends_make_links()
    ensures links { (p : Past) (line n : ℕ) (s : SnoopEnd) (x : MemoryLine)
        (h : IsSnoopOn p line n s) → IsUncontested h.kind s.outcome →
        (run x (snoop_events (past_to p n) line n s)).chain
        ≡ x.chain ++ option_map_or (link_for p line n s) (awaited_by s) [] }
    ensures deferral { (p : Past) (line n : ℕ) (s : SnoopEnd) (x : MemoryLine)
        (h : IsSnoopOn p line n s) → IsUncontested h.kind s.outcome →
        (run x (snoop_events (past_to p n) line n s)).deferral
        ≡ (if is_deferral s.outcome then Some (deferred_to p line n s h.agent) else x.deferral) }
    ensures holders { (p : Past) (line n : ℕ) (s : SnoopEnd) (x : MemoryLine)
        (h : IsSnoopOn p line n s) → IsUncontested h.kind s.outcome →
        h.won ≡ is_held (x.state h.agent) → (b : ℕ) →
        is_held ((run x (snoop_events (past_to p n) line n s)).state b)
        ≡ (is_granted_by s b line || (is_held (x.state b) && not (is_lost_by s b line))) }
{}

/// Where the facts of a clock are known, its events are those before its snoop end and those from
/// it on. The first ones, its response, hits, first clock and cancellation, may happen to a line of
/// the machine that is that of the run and has its bytes where they belong, and after them it is
/// that of the run before the snoop end.
pub fn first_events_keep_ties()
    ensures parts { (p : Past) (line n : ℕ) → ClockFacts p line n →
        events_at p line n ≡ events_before_snoop p line n ++ events_from_snoop p line n }
    ensures tie { (p : Past) (line n : ℕ) (x : MemoryLine) → ClockFacts p line n → Valued x →
        Tied p line n x → MayRun x (events_before_snoop p line n)
        × TiedThrough p line n (run x (events_before_snoop p line n)) }
{}

/// Where the facts of a clock are known, its events from the snoop end on may happen to a line of
/// the machine that is in order and is that of the run before that snoop end, and after them it is
/// that of the run one clock on.
pub fn snoop_ends_keep_ties()
    ensures { (p : Past) (line n : ℕ) (x : MemoryLine) → ClockFacts p line n → Ordered x →
        TiedThrough p line n x → MayRun x (events_from_snoop p line n)
        × Tied p line (n + 1) (run x (events_from_snoop p line n)) }
{}

/// A clock of which the facts are known keeps the tie of the line: its events may happen to the
/// line of the machine, and after them it is that of the run one clock on.
pub fn clock_facts_keep_ties()
    ensures { (p : Past) (line n : ℕ) → ClockFacts p line n → KeepsTie p line n }
{}
