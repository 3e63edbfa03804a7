//! Laws over the agents of a bench within its next clock: no code.

ghost use Rattle.std.specs.Prelude.{Bool, None, Some, false, slice_get, ◌≡◌, ℕ};
ghost use Rattle.fsb_agent_run.specs.Ending.{EndsFor, NothingEndsFor};
ghost use Rattle.fsb_agent_run.specs.Stages.{IsViewAfterSnoop, IsViewBeforeSnoop};
ghost use Rattle.fsb_agent_view.specs.AgentViews.{AgentView};
ghost use Rattle.fsb_hazard.specs.declared.choice.Choice.{Choice};
ghost use Rattle.fsb_timely.specs.Past.{SnoopEnd};
ghost use Rattle.fsb_timely.specs.Runs.{past_of};
ghost use Rattle.fsb_trace.specs.Outcome.{is_deferral};
ghost use Rattle.fsb_trace.specs.declared.who.Who.TheVariants.{Symmetric};
ghost use Rattle.fsb_bench_view.specs.declared.beginning.Starting.{Starting};
ghost use Rattle.fsb_bench_view.specs.declared.decided.Ending.{Ending};
ghost use Rattle.fsb_bench_view.specs.declared.snoop.SnoopSettled.{SnoopSettled};
ghost use Rattle.fsb_bench_view.specs.BenchSteps.{step_answered, step_cancelled, step_decided};
ghost use Rattle.fsb_bench_view.specs.BenchSteps.{step_ending, step_performed, step_run};
ghost use Rattle.fsb_bench_view.specs.BusViews.{BenchView, next_clock_of};
ghost use Rattle.fsb_bench_view.specs.MaySteps.{MayStart};
ghost use Rattle.fsb_bench_run.specs.BenchOf.{IsBegunAt, IsBenchOf};

/// Each agent of the bench is as the run with one more clock says before the snoop end of the clock,
/// and after it; and what a request serves whose snoop end it is, began so.
pub fn agents_hear_snoop_ends()
    ensures before { (v : BenchView) (hold : Bool) (choice : Choice) (a : ℕ) (w : AgentView) →
        IsBenchOf v → slice_get (step_cancelled v hold).agents a ≡ Some w →
        IsViewBeforeSnoop (past_of (step_run v hold choice)) a (next_clock_of v) w }
    ensures after { (v : BenchView) (hold : Bool) (choice : Choice) (a : ℕ) (w : AgentView) →
        IsBenchOf v → slice_get (step_answered v hold).agents a ≡ Some w →
        IsViewAfterSnoop (past_of (step_run v hold choice)) a (next_clock_of v) w }
    ensures served { (v : BenchView) (hold : Bool) (choice : Choice) (snooped : SnoopSettled) →
        IsBenchOf v → (step_decided v hold).snooped ≡ Some snooped →
        IsBegunAt (step_run v hold choice) snooped.served.first (Symmetric snooped.served.agent)
        snooped.served.request }
{}

/// The end that a bench hears at the clock ends, with this outcome, the request of the agent that it
/// serves, unless it is put off; and where it hears none, nothing ends for any agent.
pub fn requests_of_benches_end()
    ensures ends { (v : BenchView) (hold : Bool) (choice : Choice) (ending : Ending) →
        IsBenchOf v → step_ending v hold ≡ Some ending →
        is_deferral ending.outcome ≡ false →
        (end : SnoopEnd) × (end.outcome ≡ ending.outcome) × EndsFor
        (past_of (step_run v hold choice)) ending.served.agent (next_clock_of v)
        ending.served.first end }
    ensures nothing { (v : BenchView) (hold : Bool) (choice : Choice) (a : ℕ) → IsBenchOf v →
        step_ending v hold ≡ None →
        NothingEndsFor (past_of (step_run v hold choice)) a (next_clock_of v) }
{}

/// What a bench begins at the clock may begin: it is a lawful request, and its agent may send it.
pub fn requests_of_benches_may_begin()
    ensures { (v : BenchView) (hold : Bool) (choice : Choice) (starting : Starting) →
        IsBenchOf v → (step_decided v hold).starting ≡ Some starting →
        MayStart (step_performed v) (next_clock_of v) starting }
{}
