//! Laws over when the calls of an agent may come: no code.

ghost use Rattle.std.specs.Prelude.{◌≡◌, ◌≢◌, ◌<◌, ◌⊎◌, ℕ, ◌+◌, Bool, List, None, Some, false, fold, true};
ghost use Rattle.fsb_trace.specs.declared.outcome.Outcome.TheVariants.{Retried, Upgraded, Written};
ghost use Rattle.fsb_timely.specs.Past.{Claim, Grant, Past, SnoopEnd};
ghost use Rattle.fsb_timely.specs.Grants.{begun_at, snooped_at};
ghost use Rattle.fsb_timely.specs.Runs.{Run, past_of};
ghost use Rattle.fsb_coherent.specs.Awaits.{cancelled_in};
ghost use Rattle.fsb_run_laws.specs.Reaches.{Reaches};
ghost use Rattle.fsb_agent_view.specs.declared.want.OwnRequest.{OwnRequest};
ghost use Rattle.fsb_agent_view.specs.AgentEvents.{agent_after};
ghost use Rattle.fsb_agent_view.specs.AgentViews.{AgentView};
ghost use Rattle.fsb_agent_view.specs.Arriving.{may_arrive, may_end_upgrade, may_give_up};
ghost use Rattle.fsb_agent_view.specs.OwnRequests.{request_numbered};
ghost use Rattle.fsb_agent_view.specs.Snooping.{may_commit};
ghost use Rattle.fsb_agent_view.specs.Sound.{IsSound};
ghost use Rattle.fsb_agent_view.specs.Wanting.{may_send};
ghost use Rattle.fsb_agent_run.specs.AgentClocks.{events_of_agent, number_asked};
ghost use Rattle.fsb_agent_run.specs.BytesOwed.{HasBytesOwed};
ghost use Rattle.fsb_agent_run.specs.Ending.{EndsFor};
ghost use Rattle.fsb_agent_run.specs.EventsSeen.{may_see_all};
ghost use Rattle.fsb_agent_run.specs.RunViews.{HasLines};
ghost use Rattle.fsb_agent_run.specs.Stages.{IsViewAfterHit, IsViewAfterSent, IsViewAfterSnoop, IsViewBeforeSnoop, IsViewOf};

/// A sound agent whose record has its lines tells of each of its requests whether it was granted:
/// exactly where the line's bytes are awaited.
pub fn requests_tell_grants()
    ensures { (held alone dirty awaited : ℕ → Bool) (number : ℕ) (v : AgentView)
        (out : OwnRequest) → IsSound v → HasLines held alone dirty awaited v →
        request_numbered number v.outs ≡ Some out → out.granted ≡ awaited out.request.line }
{}

/// Where an agent begins a request in a timely run, its record may send its want; and where its
/// request is cancelled, its record may give it up.
pub fn requests_may_begin_and_be_cancelled()
    ensures begun { (r : Run) (a c : ℕ) (claim : Claim) (v : AgentView) → Reaches r (c + 1) →
        begun_at (past_of r) c ≡ Some claim → claim.agent ≡ a → IsViewAfterHit (past_of r) a c v →
        may_send v c c ≡ true }
    ensures cancelled { (r : Run) (a c q : ℕ) (claim : Claim) (v : AgentView) → Reaches r (c + 1) →
        cancelled_in (past_of r) c ≡ Some q → begun_at (past_of r) q ≡ Some claim →
        claim.agent ≡ a → IsSound v → IsViewAfterSent (past_of r) a c v →
        may_give_up v q ≡ true }
{}

/// The record of an agent may see each snoop end of a timely run: that of its own request, that of
/// a reply to it, and that of another agent's.
pub fn snoop_ends_may_be_seen()
    ensures claimed { (r : Run) (a c : ℕ) (s : SnoopEnd) (claim : Claim) (v : AgentView) →
        Reaches r (c + 1) → snooped_at (past_of r) c ≡ Some s → s.claim ≡ Some claim →
        claim.agent ≡ a → IsSound v → IsViewBeforeSnoop (past_of r) a c v →
        HasBytesOwed (past_of r) a c (c + 1) c v → may_commit v s.first true s.outcome ≡ true }
    ensures replied { (r : Run) (a c number : ℕ) (s : SnoopEnd) (grant : Grant) (v : AgentView) →
        Reaches r (c + 1) → snooped_at (past_of r) c ≡ Some s → s.claim ≡ None →
        s.grant ≡ Some grant → grant.agent ≡ a →
        number_asked (past_of r) a c grant.line ≡ Some number → IsSound v →
        IsViewBeforeSnoop (past_of r) a c v → HasBytesOwed (past_of r) a c (c + 1) c v →
        may_commit v number true s.outcome ≡ true }
    ensures others { (r : Run) (a c number : ℕ) (s : SnoopEnd) (v : AgentView) →
        Reaches r (c + 1) → snooped_at (past_of r) c ≡ Some s →
        HasBytesOwed (past_of r) a c (c + 1) c v → may_commit v number false s.outcome ≡ true }
{}

/// The record of an agent may see each end of its own requests in a timely run: bytes come for one
/// that was granted; an upgrade for which no data moved ends, won or lost; and one that was retried
/// or written back is given up.
pub fn ends_may_be_seen()
    ensures arrives { (r : Run) (a c number : ℕ) (s : SnoopEnd) (grant : Grant) (v : AgentView) →
        Reaches r (c + 1) → EndsFor (past_of r) a c number s → s.grant ≡ Some grant → IsSound v →
        IsViewAfterSnoop (past_of r) a c v → may_arrive v number ≡ true }
    ensures upgraded { (r : Run) (a c number : ℕ) (s : SnoopEnd) (v : AgentView) →
        Reaches r (c + 1) → EndsFor (past_of r) a c number s → s.outcome ≡ Upgraded → IsSound v →
        IsViewAfterSnoop (past_of r) a c v → may_end_upgrade v number ≡ true }
    ensures given_up { (r : Run) (a c number : ℕ) (s : SnoopEnd) (v : AgentView) →
        Reaches r (c + 1) → EndsFor (past_of r) a c number s →
        (s.outcome ≡ Retried) ⊎ (s.outcome ≡ Written) → IsSound v →
        IsViewAfterSnoop (past_of r) a c v → may_give_up v number ≡ true }
{}

/// The record of a sound agent may see each of its events at a clock of a timely run behind those
/// before it, whatever bytes come; so the agent is sound at the next clock too.
pub fn clocks_keep_agents_sound()
    ensures seen { (r : Run) (a c : ℕ) (bytes : ℕ → List ℕ) (v : AgentView) → Reaches r (c + 1) →
        0 < r.plan.cache → a < 4 → IsSound v → IsViewOf (past_of r) a c v →
        HasBytesOwed (past_of r) a c c c v →
        may_see_all v (events_of_agent (past_of r) a c bytes) ≡ true }
    ensures sound { (r : Run) (a c : ℕ) (bytes : ℕ → List ℕ) (v : AgentView) → Reaches r (c + 1) →
        0 < r.plan.cache → a < 4 → IsSound v → IsViewOf (past_of r) a c v →
        HasBytesOwed (past_of r) a c c c v →
        IsSound (fold agent_after v (events_of_agent (past_of r) a c bytes)) }
{}
