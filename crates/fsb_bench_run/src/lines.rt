//! Laws over what the bench drives at a clock: no code.

ghost use Rattle.std.specs.Prelude.{Bool, IsTrue};
ghost use Rattle.fsb_hazard.specs.declared.choice.Choice.{Choice};
ghost use Rattle.fsb_timely.specs.BusLock.{drives_lock};
ghost use Rattle.fsb_timely.specs.ParityLines.{drives_parity};
ghost use Rattle.fsb_timely.specs.Runs.{past_of};
ghost use Rattle.fsb_timely.specs.Starts.{drives_pair, drives_request_lines, starts_requests};
ghost use Rattle.fsb_timely.specs.Timely.{holds_at};
ghost use Rattle.fsb_bench_view.specs.BenchSteps.{step_run};
ghost use Rattle.fsb_bench_view.specs.BusViews.{BenchView, next_clock_of};
ghost use Rattle.fsb_bench_run.specs.BenchOf.{IsBenchOf};

/// The address and REQ words of a bench's clock are those that are due in its run.
pub fn words_are_due()
    ensures { (v : BenchView) (hold : Bool) (choice : Choice) → IsBenchOf v → IsTrue
        (drives_pair (step_run v hold choice) (past_of (step_run v hold choice))
        (next_clock_of v)) }
{}

/// ADS# is at a bench's clock exactly where a request may begin in its run, and the words are those
/// that are due.
pub fn requests_start_in_runs()
    ensures { (v : BenchView) (hold : Bool) (choice : Choice) → IsBenchOf v →
        IsTrue (holds_at starts_requests (step_run v hold choice) (next_clock_of v)) }
{}

/// BREQ# of each agent and BPRI# are at a bench's clock as they must be in its run.
pub fn request_lines_are_driven()
    ensures { (v : BenchView) (hold : Bool) (choice : Choice) → IsBenchOf v →
        IsTrue (holds_at drives_request_lines (step_run v hold choice) (next_clock_of v)) }
{}

/// LOCK# and the parity lines of a bench's clock are as they must be in its run.
pub fn locks_and_parity_are_driven()
    ensures lock { (v : BenchView) (hold : Bool) (choice : Choice) → IsBenchOf v →
        IsTrue (holds_at drives_lock (step_run v hold choice) (next_clock_of v)) }
    ensures parity { (v : BenchView) (hold : Bool) (choice : Choice) → IsBenchOf v →
        IsTrue (holds_at drives_parity (step_run v hold choice) (next_clock_of v)) }
{}
