//! Laws over the events of a clock: each leads from one moment of the clock to the next. No code.

ghost use Rattle.std.specs.Prelude.{◌≡◌, ◌≢◌, ◌<◌, ◌⊎◌, ℕ, ◌+◌, Bool, List, None, Some, false, true};
ghost use Rattle.fsb_encode.specs.declared.request.Request.{Request};
ghost use Rattle.fsb_trace.specs.declared.outcome.Outcome.TheVariants.{Retried, Upgraded, Written};
ghost use Rattle.fsb_timely.specs.Hits.{is_hit};
ghost use Rattle.fsb_timely.specs.Past.{Claim, Grant, Past, SnoopEnd};
ghost use Rattle.fsb_timely.specs.Grants.{begun_at, snooped_at};
ghost use Rattle.fsb_timely.specs.Runs.{Run, past_of};
ghost use Rattle.fsb_timely.specs.Wants.{want_of};
ghost use Rattle.fsb_coherent.specs.Awaits.{cancelled_in};
ghost use Rattle.fsb_run_laws.specs.Reaches.{Reaches};
ghost use Rattle.fsb_agent_view.specs.AgentViews.{AgentView};
ghost use Rattle.fsb_agent_view.specs.Arriving.{given_up, handed_on, line_arrived, upgrade_ended};
ghost use Rattle.fsb_agent_view.specs.Completing.{performed};
ghost use Rattle.fsb_agent_view.specs.Snooping.{committed};
ghost use Rattle.fsb_agent_view.specs.Wanting.{sent};
ghost use Rattle.fsb_agent_run.specs.AgentClocks.{number_asked};
ghost use Rattle.fsb_agent_run.specs.Ending.{EndsFor, NothingEndsFor};
ghost use Rattle.fsb_agent_run.specs.RunViews.{LogsItem};
ghost use Rattle.fsb_agent_run.specs.Stages.{IsViewAfterHit, IsViewAfterSent, IsViewAfterSnoop, IsViewBeforeSnoop, IsViewOf};

/// A clock finds an agent as before where the agent hands on bytes there; and with the agent's hit,
/// if it has one, the view is that after the hits. Of the clock itself no more has to be known than
/// that the entries of a hit are those of the next item, as they are in a timely run.
pub fn hits_lead_on()
    ensures handed { (r : Run) (a c number : ℕ) (v : AgentView) → IsViewOf (past_of r) a c v →
        IsViewOf (past_of r) a c (handed_on v number) }
    ensures logged { (p : Past) (a c : ℕ) (v : AgentView) → IsViewOf p a c v →
        (is_hit p a c ≡ true → LogsItem p a c) → IsViewAfterHit p a c (performed v c) }
    ensures hit { (r : Run) (a c : ℕ) (v : AgentView) → Reaches r (c + 1) → a < 4 →
        IsViewOf (past_of r) a c v → IsViewAfterHit (past_of r) a c (performed v c) }
{}

/// With the request that an agent begins at a clock its view is that after what it has sent; where
/// it begins none, it stays as it is.
pub fn begun_requests_lead_on()
    ensures sent { (r : Run) (a c : ℕ) (claim : Claim) (v : AgentView) → Reaches r (c + 1) →
        begun_at (past_of r) c ≡ Some claim → claim.agent ≡ a →
        IsViewAfterHit (past_of r) a c v → IsViewAfterSent (past_of r) a c (sent v c c) }
    ensures unsent { (r : Run) (a c : ℕ) (v : AgentView) →
        ((claim : Claim) → begun_at (past_of r) c ≡ Some claim → claim.agent ≢ a) →
        IsViewAfterHit (past_of r) a c v → IsViewAfterSent (past_of r) a c v }
{}

/// Where a clock cancels an agent's request, its view without the request is that before the snoop
/// end; where it cancels none of the agent's, the view stays as it is.
pub fn cancelled_requests_lead_on()
    ensures cancelled { (r : Run) (a c q : ℕ) (v : AgentView) → Reaches r (c + 1) →
        cancelled_in (past_of r) c ≡ Some q →
        IsViewAfterSent (past_of r) a c v → IsViewBeforeSnoop (past_of r) a c (given_up v q) }
    ensures uncancelled { (r : Run) (a c : ℕ) (v : AgentView) → Reaches r (c + 1) →
        ((q : ℕ) (claim : Claim) → cancelled_in (past_of r) c ≡ Some q →
        begun_at (past_of r) q ≡ Some claim → claim.agent ≢ a) →
        IsViewAfterSent (past_of r) a c v → IsViewBeforeSnoop (past_of r) a c v }
{}

/// The snoop end of an agent's own request leads to its view after the snoop end; so does that of a
/// reply to its deferred request. Whether another agent was seen to hold the line is as the grant
/// says; the request that is named beside the number is nothing to the agent whose own it is.
pub fn own_snoop_ends_lead_on()
    ensures claimed { (r : Run) (a c : ℕ) (s : SnoopEnd) (claim : Claim) (request : Request)
        (shared : Bool) (v : AgentView) → Reaches r (c + 1) → 0 < r.plan.cache →
        snooped_at (past_of r) c ≡ Some s → s.claim ≡ Some claim → claim.agent ≡ a →
        ((grant : Grant) → s.grant ≡ Some grant → shared ≡ grant.shared) →
        IsViewBeforeSnoop (past_of r) a c v →
        IsViewAfterSnoop (past_of r) a c (committed v s.first true request shared s.outcome) }
    ensures replied { (r : Run) (a c number : ℕ) (s : SnoopEnd) (grant : Grant) (request : Request)
        (v : AgentView) → Reaches r (c + 1) → 0 < r.plan.cache →
        snooped_at (past_of r) c ≡ Some s → s.claim ≡ None → s.grant ≡ Some grant →
        grant.agent ≡ a → number_asked (past_of r) a c grant.line ≡ Some number →
        IsViewBeforeSnoop (past_of r) a c v →
        IsViewAfterSnoop (past_of r) a c
        (committed v number true request grant.shared s.outcome) }
{}

/// The snoop end of another agent's request leads to the view after the snoop end, where the named
/// request is what that agent wanted when it began it; that of a reply to another agent does so
/// whatever is named; and without a snoop end, or with one that neither is of a claim nor makes a
/// grant, the view stays.
pub fn snoop_ends_of_others_lead_on()
    ensures claimed { (r : Run) (a c number : ℕ) (s : SnoopEnd) (claim : Claim) (request : Request)
        (shared : Bool) (v : AgentView) → Reaches r (c + 1) →
        snooped_at (past_of r) c ≡ Some s → s.claim ≡ Some claim → claim.agent ≢ a →
        want_of (past_of r) claim.agent s.first ≡ Some request →
        IsViewBeforeSnoop (past_of r) a c v →
        IsViewAfterSnoop (past_of r) a c (committed v number false request shared s.outcome) }
    ensures replied { (r : Run) (a c number : ℕ) (s : SnoopEnd) (grant : Grant) (request : Request)
        (shared : Bool) (v : AgentView) → Reaches r (c + 1) →
        snooped_at (past_of r) c ≡ Some s → s.claim ≡ None → s.grant ≡ Some grant →
        grant.agent ≢ a → IsViewBeforeSnoop (past_of r) a c v →
        IsViewAfterSnoop (past_of r) a c (committed v number false request shared s.outcome) }
    ensures quiet { (r : Run) (a c : ℕ) (v : AgentView) → Reaches r (c + 1) →
        ((s : SnoopEnd) → snooped_at (past_of r) c ≡ Some s →
        (s.claim ≡ None) × (s.grant ≡ None)) → IsViewBeforeSnoop (past_of r) a c v →
        IsViewAfterSnoop (past_of r) a c v }
{}

/// What ends for an agent at a clock leads from its view after the snoop end to the one that the
/// next clock finds: a line comes for a request that was granted, whatever its bytes; an upgrade
/// ends; a request was retried, or a write-back has ended. Where nothing ends for the agent, its
/// view stays.
pub fn ends_lead_on()
    ensures arrived { (r : Run) (a c number : ℕ) (s : SnoopEnd) (grant : Grant) (bytes : List ℕ)
        (v : AgentView) → Reaches r (c + 1) → 0 < r.plan.cache → a < 4 →
        EndsFor (past_of r) a c number s → s.grant ≡ Some grant →
        IsViewAfterSnoop (past_of r) a c v →
        IsViewOf (past_of r) a (c + 1) (line_arrived v c number bytes) }
    ensures upgraded { (r : Run) (a c number : ℕ) (s : SnoopEnd) (v : AgentView) →
        Reaches r (c + 1) → 0 < r.plan.cache → a < 4 → EndsFor (past_of r) a c number s →
        s.outcome ≡ Upgraded → IsViewAfterSnoop (past_of r) a c v →
        IsViewOf (past_of r) a (c + 1) (upgrade_ended v c number) }
    ensures given_up { (r : Run) (a c number : ℕ) (s : SnoopEnd) (v : AgentView) →
        Reaches r (c + 1) → a < 4 → EndsFor (past_of r) a c number s →
        (s.outcome ≡ Retried) ⊎ (s.outcome ≡ Written) → IsViewAfterSnoop (past_of r) a c v →
        IsViewOf (past_of r) a (c + 1) (given_up v number) }
    ensures quiet { (r : Run) (a c : ℕ) (v : AgentView) → Reaches r (c + 1) → a < 4 →
        NothingEndsFor (past_of r) a c → IsViewAfterSnoop (past_of r) a c v →
        IsViewOf (past_of r) a (c + 1) v }
{}
