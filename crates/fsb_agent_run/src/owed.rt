//! Laws over what an agent owes: no code.

ghost use Rattle.std.specs.Prelude.{◌≡◌, ◌≢◌, ◌<◌, ◌≤◌, ℕ, ◌+◌, Bool, List, None, Some, false, fold, is_some, true};
ghost use Rattle.fsb_count.specs.Clocks.{count_where};
ghost use Rattle.fsb_count.specs.Options.{is_at};
ghost use Rattle.fsb_encode.specs.declared.request.Request.{Request};
ghost use Rattle.fsb_timely.specs.Past.{Claim, Grant, Past, SnoopEnd};
ghost use Rattle.fsb_timely.specs.Grants.{snooped_at};
ghost use Rattle.fsb_timely.specs.Growth.{GrowsTo};
ghost use Rattle.fsb_timely.specs.Runs.{Run, past_of};
ghost use Rattle.fsb_timely.specs.Scripts.{items_of};
ghost use Rattle.fsb_timely.specs.Wants.{want_of};
ghost use Rattle.fsb_coherent.specs.Awaits.{responded_in};
ghost use Rattle.fsb_run_laws.specs.Reaches.{Reaches};
ghost use Rattle.fsb_agent_view.specs.AgentEvents.{agent_after, first_view};
ghost use Rattle.fsb_agent_view.specs.AgentViews.{AgentView};
ghost use Rattle.fsb_agent_view.specs.Arriving.{hand_by, handed_on, line_arrived, upgrade_ended};
ghost use Rattle.fsb_agent_view.specs.Snooping.{committed};
ghost use Rattle.fsb_agent_run.specs.AgentClocks.{events_of_agent, events_of_agent_below, giver_of, number_asked};
ghost use Rattle.fsb_agent_run.specs.BytesOwed.{HasBytesOwed, is_given_below, owes_bytes_from};
ghost use Rattle.fsb_agent_run.specs.Stages.{IsViewAfterSnoop, IsViewBeforeSnoop, IsViewOf};

/// An agent owes nothing before any event; and what its record tells of it rests on the buffers
/// alone.
pub fn agents_begin_owing_no_bytes()
    ensures first { (p : Past) (a : ℕ) →
        HasBytesOwed p a 0 0 0
        (first_view a (items_of p a) p.plan.cache p.plan.ahead p.plan.profile) }
    ensures same { (p : Past) (a n r c : ℕ) (v w : AgentView) → w.buffers ≡ v.buffers →
        HasBytesOwed p a n r c v → HasBytesOwed p a n r c w }
{}

/// At the response of a request an agent gives its bytes exactly where it is named as the giver of
/// what is awaited after the request's snoop end.
pub fn givers_give_the_bytes()
    ensures { (r : Run) (a c q : ℕ) → Reaches r (c + 1) → responded_in (past_of r) c ≡ Some q →
        is_given_below (past_of r) a c q ≡ is_at (giver_of (past_of r) c q) a }
{}

/// At the response of a request whose bytes an agent gives its record has them, and hands them on.
/// Where the agent gives no bytes for the request that responds, or none does, what it owes stays.
pub fn bytes_are_handed_on()
    ensures there { (r : Run) (a c q : ℕ) (v : AgentView) → Reaches r (c + 1) →
        responded_in (past_of r) c ≡ Some q → is_given_below (past_of r) a c q ≡ true →
        HasBytesOwed (past_of r) a c c c v → is_some (hand_by v q) ≡ true }
    ensures handed { (r : Run) (a c q : ℕ) (v : AgentView) → Reaches r (c + 1) →
        responded_in (past_of r) c ≡ Some q → is_given_below (past_of r) a c q ≡ true →
        HasBytesOwed (past_of r) a c c c v →
        HasBytesOwed (past_of r) a c (c + 1) c (handed_on v q) }
    ensures kept { (r : Run) (a c : ℕ) (v : AgentView) → Reaches r (c + 1) →
        ((q : ℕ) → responded_in (past_of r) c ≡ Some q → is_given_below (past_of r) a c q ≡ false) →
        HasBytesOwed (past_of r) a c c c v → HasBytesOwed (past_of r) a c (c + 1) c v }
{}

/// What an agent owes after the snoop end of its own request, or of a reply to it, by the record
/// that it has before.
pub fn own_snoop_ends_leave_bytes_owed()
    ensures claimed { (r : Run) (a c : ℕ) (s : SnoopEnd) (claim : Claim) (request : Request)
        (shared : Bool) (v : AgentView) → Reaches r (c + 1) → snooped_at (past_of r) c ≡ Some s →
        s.claim ≡ Some claim → claim.agent ≡ a → IsViewBeforeSnoop (past_of r) a c v →
        HasBytesOwed (past_of r) a c (c + 1) c v →
        HasBytesOwed (past_of r) a (c + 1) (c + 1) c
        (committed v s.first true request shared s.outcome) }
    ensures replied { (r : Run) (a c number : ℕ) (s : SnoopEnd) (grant : Grant) (request : Request)
        (shared : Bool) (v : AgentView) → Reaches r (c + 1) → snooped_at (past_of r) c ≡ Some s →
        s.claim ≡ None → s.grant ≡ Some grant → grant.agent ≡ a →
        number_asked (past_of r) a c grant.line ≡ Some number →
        IsViewBeforeSnoop (past_of r) a c v → HasBytesOwed (past_of r) a c (c + 1) c v →
        HasBytesOwed (past_of r) a (c + 1) (c + 1) c
        (committed v number true request shared s.outcome) }
{}

/// What an agent owes after the snoop end of another agent's request, by its first clock and as
/// what that agent wanted; of a reply to another agent, whatever is named; and after a clock
/// without a snoop end, or with one that is of nobody's request.
pub fn snoop_ends_of_others_leave_bytes_owed()
    ensures claimed { (r : Run) (a c : ℕ) (s : SnoopEnd) (claim : Claim) (request : Request)
        (shared : Bool) (v : AgentView) → Reaches r (c + 1) → a < 4 →
        snooped_at (past_of r) c ≡ Some s → s.claim ≡ Some claim → claim.agent ≢ a →
        want_of (past_of r) claim.agent s.first ≡ Some request →
        IsViewBeforeSnoop (past_of r) a c v → HasBytesOwed (past_of r) a c (c + 1) c v →
        HasBytesOwed (past_of r) a (c + 1) (c + 1) c
        (committed v s.first false request shared s.outcome) }
    ensures replied { (r : Run) (a c number : ℕ) (s : SnoopEnd) (grant : Grant) (request : Request)
        (shared : Bool) (v : AgentView) → Reaches r (c + 1) → snooped_at (past_of r) c ≡ Some s →
        s.claim ≡ None → s.grant ≡ Some grant → HasBytesOwed (past_of r) a c (c + 1) c v →
        HasBytesOwed (past_of r) a (c + 1) (c + 1) c
        (committed v number false request shared s.outcome) }
    ensures quiet { (r : Run) (a c : ℕ) (v : AgentView) → Reaches r (c + 1) →
        ((s : SnoopEnd) → snooped_at (past_of r) c ≡ Some s → s.claim ≡ None) →
        HasBytesOwed (past_of r) a c (c + 1) c v → HasBytesOwed (past_of r) a (c + 1) (c + 1) c v }
{}

/// What an agent owes after the ends of a clock, by its record before and behind them: of a line
/// that comes and that it has promised it has the bytes from there on; without a line that comes
/// what it owes stays.
pub fn ends_bring_what_is_promised()
    ensures arrived { (r : Run) (a c number : ℕ) (bytes : List ℕ) (v : AgentView) →
        Reaches r (c + 1) → IsViewAfterSnoop (past_of r) a c v →
        IsViewOf (past_of r) a (c + 1) (line_arrived v c number bytes) →
        HasBytesOwed (past_of r) a (c + 1) (c + 1) c v →
        HasBytesOwed (past_of r) a (c + 1) (c + 1) (c + 1) (line_arrived v c number bytes) }
    ensures upgraded { (r : Run) (a c number : ℕ) (v : AgentView) → Reaches r (c + 1) →
        IsViewAfterSnoop (past_of r) a c v →
        IsViewOf (past_of r) a (c + 1) (upgrade_ended v c number) →
        HasBytesOwed (past_of r) a (c + 1) (c + 1) c v →
        HasBytesOwed (past_of r) a (c + 1) (c + 1) (c + 1) (upgrade_ended v c number) }
    ensures kept { (p : Past) (a c : ℕ) (v w : AgentView) → w.buffers ≡ v.buffers →
        IsViewAfterSnoop p a c v → IsViewOf p a (c + 1) w → HasBytesOwed p a (c + 1) (c + 1) c v →
        HasBytesOwed p a (c + 1) (c + 1) (c + 1) w }
{}

/// An agent owes bytes to at most eight requests, since each of them is in flight; and to at most
/// seven before a snoop end, since that request is in flight too.
pub fn bytes_are_owed_to_few()
    ensures before { (r : Run) (a c : ℕ) (s : SnoopEnd) → Reaches r (c + 1) →
        snooped_at (past_of r) c ≡ Some s →
        count_where (owes_bytes_from (past_of r) a (c + 1)) c < 8 }
    ensures most { (r : Run) (a n : ℕ) → Reaches r n →
        count_where (owes_bytes_from (past_of r) a n) n ≤ 8 }
{}

/// What an agent owes goes on by its events at a clock, whatever bytes come; so after its events
/// below a clock of a timely run its record tells what it owes there.
pub fn clocks_keep_bytes_owed()
    ensures clock { (r : Run) (a c : ℕ) (bytes : ℕ → List ℕ) (v : AgentView) → Reaches r (c + 1) →
        0 < r.plan.cache → a < 4 → IsViewOf (past_of r) a c v → HasBytesOwed (past_of r) a c c c v →
        HasBytesOwed (past_of r) a (c + 1) (c + 1) (c + 1)
        (fold agent_after v (events_of_agent (past_of r) a c bytes)) }
    ensures below { (r : Run) (a n : ℕ) (bytes : ℕ → List ℕ) → Reaches r n → 0 < r.plan.cache →
        a < 4 → HasBytesOwed (past_of r) a n n n (fold agent_after
        (first_view a (items_of (past_of r) a) r.plan.cache r.plan.ahead r.plan.profile)
        (events_of_agent_below (past_of r) a n bytes)) }
{}

/// What an agent's record tells of the bytes that it owes in a run stays true where the run grows
/// by a clock, whatever comes at that clock.
pub fn bytes_owed_stay_as_runs_grow()
    ensures { (r s : Run) (a n : ℕ) (v : AgentView) → GrowsTo r s → Reaches r n →
        HasBytesOwed (past_of r) a n n n v → HasBytesOwed (past_of s) a n n n v }
{}
