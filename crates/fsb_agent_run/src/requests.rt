//! Laws over an agent's requests and completions in a run: no code.

ghost use Rattle.std.specs.Prelude.{◌≡◌, ◌<◌, ◌≤◌, ◌⊎◌, ℕ, ◌+◌, Some, length, true};
ghost use Rattle.fsb_line.specs.States.{kind_owns};
ghost use Rattle.fsb_timely.specs.Completions.{is_arrival};
ghost use Rattle.fsb_timely.specs.Hits.{is_hit};
ghost use Rattle.fsb_timely.specs.Past.{Grant, SnoopEnd};
ghost use Rattle.fsb_timely.specs.Runs.{Run, past_of};
ghost use Rattle.fsb_timely.specs.Wants.{owed};
ghost use Rattle.fsb_run_laws.specs.Reaches.{Reaches};
ghost use Rattle.fsb_agent_view.specs.AgentViews.{AgentView};
ghost use Rattle.fsb_agent_view.specs.declared.want.OwnRequest.{OwnRequest};
ghost use Rattle.fsb_agent_view.specs.OwnRequests.{request_numbered};
ghost use Rattle.fsb_agent_view.specs.Snooping.{kind_asks};
ghost use Rattle.fsb_agent_run.specs.Ending.{EndsFor};
ghost use Rattle.fsb_agent_run.specs.Owings.{are_owings_apart};
ghost use Rattle.fsb_agent_run.specs.RunViews.{IsComing, LogsItem};
ghost use Rattle.fsb_agent_run.specs.Stages.{IsViewAfterSnoop, owed_sent};

/// Each two outstanding requests of an agent of a timely run have different first clocks, different
/// IDs and lines of different sets, with the one that it begins at the clock too.
pub fn requests_are_apart()
    ensures owed { (r : Run) (a n : ℕ) → Reaches r n →
        are_owings_apart (past_of r) (owed (past_of r) a n) ≡ true }
    ensures sent { (r : Run) (a n : ℕ) → Reaches r (n + 1) →
        are_owings_apart (past_of r) (owed_sent (past_of r) a n) ≡ true }
{}

/// An agent of a timely run has no more requests outstanding than the plan says.
pub fn agents_owe_few()
    ensures { (r : Run) (a n : ℕ) → Reaches r n →
        length (owed (past_of r) a n) ≤ r.plan.ahead }
{}

/// An agent of a timely run that has a hit or an arrival at a clock completes its next item there,
/// and its entries of the clock are the accesses of that item.
pub fn completions_are_of_items()
    ensures { (r : Run) (a c : ℕ) → Reaches r (c + 1) → a < 4 →
        (is_hit (past_of r) a c ≡ true) ⊎ (is_arrival (past_of r) a c ≡ true) →
        LogsItem (past_of r) a c }
{}

/// Where a request of an agent ends at a clock of a timely run, and it was granted, its line comes
/// there, owned or not as the request asks.
pub fn ends_come_to_agents()
    ensures { (r : Run) (a c number : ℕ) (s : SnoopEnd) (grant : Grant) (out : OwnRequest)
        (v : AgentView) → Reaches r (c + 1) → EndsFor (past_of r) a c number s →
        s.grant ≡ Some grant → IsViewAfterSnoop (past_of r) a c v →
        request_numbered number v.outs ≡ Some out →
        IsComing (past_of r) a c out.request.line (kind_owns (kind_asks out.request.kind)) }
{}
