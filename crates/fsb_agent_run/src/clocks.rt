//! Laws over the events of an agent at the clocks of a run: no code.

ghost use Rattle.std.specs.Prelude.{◌≡◌, ◌<◌, ℕ, ◌+◌, List, fold};
ghost use Rattle.fsb_timely.specs.Runs.{Run, past_of};
ghost use Rattle.fsb_timely.specs.Scripts.{items_of};
ghost use Rattle.fsb_run_laws.specs.Reaches.{Reaches};
ghost use Rattle.fsb_agent_view.specs.AgentEvents.{agent_after, first_view};
ghost use Rattle.fsb_agent_view.specs.AgentViews.{AgentView};
ghost use Rattle.fsb_agent_run.specs.AgentClocks.{events_of_agent, events_of_agent_below};
ghost use Rattle.fsb_agent_run.specs.Stages.{IsViewOf};

/// The events of an agent at a clock lead from its view as the clock finds it to its view as the
/// next clock finds it, whatever bytes come.
pub fn clocks_keep_views()
    ensures { (r : Run) (a c : ℕ) (bytes : ℕ → List ℕ) (v : AgentView) → Reaches r (c + 1) →
        0 < r.plan.cache → a < 4 → IsViewOf (past_of r) a c v →
        IsViewOf (past_of r) a (c + 1)
        (fold agent_after v (events_of_agent (past_of r) a c bytes)) }
{}

/// An agent after its events below a clock of a timely run is as the run says.
pub fn views_of_runs_are_their_events()
    ensures { (r : Run) (a n : ℕ) (bytes : ℕ → List ℕ) → Reaches r n → 0 < r.plan.cache → a < 4 →
        IsViewOf (past_of r) a n (fold agent_after
        (first_view a (items_of (past_of r) a) r.plan.cache r.plan.ahead r.plan.profile)
        (events_of_agent_below (past_of r) a n bytes)) }
{}
