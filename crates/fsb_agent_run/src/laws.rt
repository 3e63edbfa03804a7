//! Laws over the definitions: no code.

ghost use Rattle.std.specs.Prelude.{◌≡◌, ◌<◌, ◌⊎◌, ℕ, ◌+◌, ◌&&◌, ◌++◌, List, None, Some, false, is_some, length, map, nat_eq, true, if◌then◌else◌};
ghost use Rattle.std.specs.List.{filter};
ghost use Rattle.std.specs.Option.{option_map};
ghost use Rattle.fsb_access.specs.declared.log.Done.{Done};
ghost use Rattle.fsb_access.specs.ScriptOrder.{step_of, steps_of};
ghost use Rattle.fsb_trace.specs.declared.outcome.Outcome.TheVariants.{Upgraded};
ghost use Rattle.fsb_timely.specs.BusLock.{wants_lock};
ghost use Rattle.fsb_timely.specs.Past.{Claim, Grant, Past, SnoopEnd};
ghost use Rattle.fsb_timely.specs.Runs.{Run, past_of};
ghost use Rattle.fsb_timely.specs.Timely.{Timely};
ghost use Rattle.fsb_lawful.specs.Beginning.{KeepsBounds};
ghost use Rattle.fsb_timely.specs.Grants.{begun_at, holds_line};
ghost use Rattle.fsb_timely.specs.Scripts.{Need, completes_at, is_idling, items_of, next_item, window};
ghost use Rattle.fsb_agent_view.specs.AgentEvents.{first_view};
ghost use Rattle.fsb_timely.specs.Hits.{is_dirty, is_hit, is_met, is_served};
ghost use Rattle.fsb_timely.specs.Wants.{want_of};
ghost use Rattle.fsb_timely.specs.Completions.{completed_if, is_arrival, is_there};
ghost use Rattle.fsb_agent_view.specs.declared.want.OwnRequest.{OwnRequest};
ghost use Rattle.fsb_agent_view.specs.declared.want.Want.{Want};
ghost use Rattle.fsb_agent_view.specs.AgentViews.{AgentView, answer_by, is_idle_by, is_met_by, is_served_by, next_item_by};
ghost use Rattle.fsb_agent_view.specs.Arriving.{arrived_entries, is_arrival_by, upgrade_entries};
ghost use Rattle.fsb_agent_view.specs.Completing.{completed_by, is_hit_by, performed_entries};
ghost use Rattle.fsb_agent_view.specs.OwnRequests.{request_numbered};
ghost use Rattle.fsb_agent_view.specs.Wanting.{want_by, window_by};
ghost use Rattle.fsb_run_laws.specs.Reaches.{Reaches};
ghost use Rattle.fsb_agent_run.specs.Ending.{EndsFor, NothingEndsFor};
ghost use Rattle.fsb_agent_run.specs.BegunAsWanted.{BeginsAsWanted};
ghost use Rattle.fsb_agent_run.specs.EntriesMade.{LogsAccesses};
ghost use Rattle.fsb_agent_run.specs.RunViews.{IsAgentOf, IsPlacedIn};
ghost use Rattle.fsb_agent_run.specs.Stages.{IsViewAfterHit, IsViewAfterSnoop, IsViewOf};

use fsb_line::Answer;

/// The view of an agent before any event is that of the run at its first clock.
pub fn first_views_are_of_the_run()
    ensures { (p : Past) (a : ℕ) →
        IsViewOf p a 0 (first_view a (items_of p a) p.plan.cache p.plan.ahead p.plan.profile) }
{}

/// A view of an agent has its next item and its window, tells what is met and what is served, and
/// idles where the agent does, as long as there is a next item: the run has nobody idle behind its
/// last one.
pub fn views_go_by_the_run()
    ensures next { (p : Past) (a c : ℕ) (v : AgentView) → IsViewOf p a c v →
        next_item_by v ≡ next_item p a c }
    ensures window { (p : Past) (a c : ℕ) (v : AgentView) → IsViewOf p a c v →
        window_by v c ≡ window p a c }
    ensures idling { (p : Past) (a c : ℕ) (v : AgentView) → IsViewOf p a c v →
        (is_some (next_item_by v) && is_idle_by v c) ≡ is_idling p a c }
    ensures met { (p : Past) (a c : ℕ) (v : AgentView) (need : Need) → IsViewOf p a c v →
        is_met_by v need ≡ is_met p a c need }
    ensures served { (p : Past) (a c : ℕ) (v : AgentView) (need : Need) → IsViewOf p a c v →
        is_served_by v need ≡ is_served p a c need }
    ensures there { (p : Past) (a c : ℕ) (v : AgentView) (need : Need) → IsViewAfterSnoop p a c v →
        is_served_by v need ≡ is_there p a c need }
{}

/// A view of an agent has a hit exactly where the run has one. After the snoop end it has an
/// arrival, where a request of the agent ends that was granted, exactly where the run has one; and
/// the run has none where nothing ends for the agent, or only a request that was granted nothing.
pub fn hits_go_by_the_run()
    ensures hit { (p : Past) (a c : ℕ) (v : AgentView) → IsViewOf p a c v →
        is_hit_by v c ≡ is_hit p a c }
    ensures arrival { (r : Run) (a c number : ℕ) (s : SnoopEnd) (grant : Grant) (out : OwnRequest)
        (v : AgentView) → Reaches r (c + 1) → EndsFor (past_of r) a c number s →
        s.grant ≡ Some grant → IsViewAfterSnoop (past_of r) a c v →
        request_numbered number v.outs ≡ Some out →
        is_arrival_by v c out ≡ is_arrival (past_of r) a c }
    ensures quiet { (r : Run) (a c : ℕ) → Reaches r (c + 1) → NothingEndsFor (past_of r) a c →
        is_arrival (past_of r) a c ≡ false }
    ensures ungranted { (r : Run) (a c number : ℕ) (s : SnoopEnd) → Reaches r (c + 1) →
        EndsFor (past_of r) a c number s → s.grant ≡ None → is_arrival (past_of r) a c ≡ false }
{}

/// The entries that a view makes at a clock, by its hit, by a line that comes or by an upgrade that
/// ends, are of that clock, and they log the accesses that the run completes there for the agent,
/// in order: those of its next item where the run has the hit or the arrival, and none elsewhere.
/// Those of the hit and those of the arrival together have the steps that a timely run logs of the
/// agent at the clock.
pub fn entries_go_by_the_run()
    ensures performed { (p : Past) (a c : ℕ) (v : AgentView) → IsViewOf p a c v →
        LogsAccesses c (completed_if p c (is_hit p a c) a) (performed_entries v c) }
    ensures arrived { (r : Run) (a c number : ℕ) (s : SnoopEnd) (grant : Grant) (bytes : List ℕ)
        (v : AgentView) → Reaches r (c + 1) → EndsFor (past_of r) a c number s →
        s.grant ≡ Some grant → IsViewAfterSnoop (past_of r) a c v →
        LogsAccesses c (completed_if (past_of r) c (is_arrival (past_of r) a c) a)
        (arrived_entries v c number bytes) }
    ensures upgraded { (r : Run) (a c number : ℕ) (s : SnoopEnd) (v : AgentView) →
        Reaches r (c + 1) → EndsFor (past_of r) a c number s → s.outcome ≡ Upgraded →
        IsViewAfterSnoop (past_of r) a c v →
        LogsAccesses c (completed_if (past_of r) c (is_arrival (past_of r) a c) a)
        (upgrade_entries v c number) }
    ensures logged { (r : Run) (a c : ℕ) (hits arrivals : List Done) → Reaches r (c + 1) → a < 4 →
        LogsAccesses c (completed_if (past_of r) c (is_hit (past_of r) a c) a) hits →
        LogsAccesses c (completed_if (past_of r) c (is_arrival (past_of r) a c) a) arrivals →
        map step_of (hits ++ arrivals)
        ≡ steps_of a (filter (λ (done : Done). nat_eq done.clock c) r.log) }
{}

/// After its hit a view of an agent wants what the run says: the same request, line, kind and ID,
/// or nothing; and the want is locked exactly where the agent wants to lock the bus.
pub fn wants_go_by_the_run()
    ensures locked { (p : Past) (a c : ℕ) (want : Want) (v : AgentView) → IsViewAfterHit p a c v →
        want_by v c ≡ Some want → want.locked ≡ wants_lock p a c }
    ensures wanted { (p : Past) (a c : ℕ) (v : AgentView) → IsViewAfterHit p a c v →
        option_map (λ (want : Want). want.request) (want_by v c) ≡ want_of p a c }
{}

/// After its hit a view of an agent answers a snoop as the run does: HITM# where the agent is dirty
/// on the line, HIT# where it is not and holds it, and neither elsewhere.
pub fn snoop_answers_go_by_the_run()
    ensures { (p : Past) (a c line : ℕ) (v : AgentView) → IsViewAfterHit p a c v →
        answer_by v line
        ≡ (if is_dirty p a line c then Answer.Modified
        else (if holds_line p a line c then Answer.Hit else Answer.Clean)) }
{}

/// The place of a view in its script by one clock: without an entry it stays, and where the agent
/// of a timely run has a hit or an arrival the view goes on behind the item that it completes, and
/// behind the idle items that follow.
pub fn places_of_views_step()
    ensures quiet { (p : Past) (a c : ℕ) (v : AgentView) → completes_at p a c ≡ false →
        IsPlacedIn p a c v → IsPlacedIn p a (c + 1) v }
    ensures completed { (r : Run) (a c : ℕ) (v : AgentView) → Reaches r (c + 1) → a < 4 →
        (is_hit (past_of r) a c ≡ true) ⊎ (is_arrival (past_of r) a c ≡ true) →
        IsAgentOf (past_of r) a v → IsPlacedIn (past_of r) a c v →
        IsPlacedIn (past_of r) a (c + 1) (completed_by v c) }
{}

/// In a timely run what begins is the whole request that its agent wants there, and its two clocks
/// show it: so the record may keep it.
pub fn begun_requests_are_wants()
    ensures { (r : Run) (n : ℕ) (claim : Claim) → Timely r → KeepsBounds r.plan →
        n < length r.trace →
        begun_at (past_of r) n ≡ Some claim → BeginsAsWanted r n claim }
{}
