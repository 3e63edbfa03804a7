//! Laws over what the phases drive after a timely run: no code.

ghost use Rattle.std.specs.Prelude.{◌≡◌, List, is_some, length};
ghost use Rattle.fsb_count.specs.Clocks.{any_where};
ghost use Rattle.fsb_signal.specs.Samples.{response_of};
ghost use Rattle.fsb_trace.specs.Requests.{live_count};
ghost use Rattle.fsb_queue.specs.declared.entry.Entry.{Entry};
ghost use Rattle.fsb_phase.specs.Drive.{drive_of};
ghost use Rattle.fsb_timely.specs.Growth.{GrowsTo};
ghost use Rattle.fsb_timely.specs.Runs.{Run, past_of};
ghost use Rattle.fsb_timely.specs.Snoops.{is_stall_chosen};
ghost use Rattle.fsb_timely.specs.Transfers.{code_due, has_data_at, is_busy_at, is_ready_due};
ghost use Rattle.fsb_phase_run.specs.Holds.{HoldsRequests};

/// TRDY# is driven exactly where the next clock of the run is the ready clock of a live request.
pub fn targets_are_ready_when_due()
    ensures { (r s : Run) (queue : List Entry) → GrowsTo r s → HoldsRequests queue r →
        (drive_of r.trace queue).trdy
        ≡ any_where (is_ready_due s (length r.trace)) (live_count s.trace) }
{}

/// The code of RS# that is driven is the one that is due at the next clock of the run.
pub fn codes_are_those_due()
    ensures { (r s : Run) (queue : List Entry) → GrowsTo r s → HoldsRequests queue r →
        (drive_of r.trace queue).rs ≡ code_due s (past_of s) (length r.trace) }
{}

/// A snoop is stalled exactly where a live request of the run stalls at its next clock.
pub fn snoops_are_stalled_as_chosen()
    ensures { (r s : Run) (queue : List Entry) → GrowsTo r s → HoldsRequests queue r →
        (drive_of r.trace queue).stall
        ≡ any_where (is_stall_chosen s (length r.trace)) (live_count s.trace) }
{}

/// Where RS# of the next clock is what is driven, a chunk is driven exactly where a live request
/// has data at that clock, and DBSY# exactly where one keeps the data bus.
pub fn data_are_driven_when_due()
    ensures ready { (r s : Run) (queue : List Entry) (grows : GrowsTo r s) → HoldsRequests queue r →
        response_of grows.next.sample ≡ (drive_of r.trace queue).rs →
        is_some (drive_of r.trace queue).chunk
        ≡ any_where (has_data_at s (past_of s) (length r.trace)) (live_count s.trace) }
    ensures busy { (r s : Run) (queue : List Entry) (grows : GrowsTo r s) → HoldsRequests queue r →
        response_of grows.next.sample ≡ (drive_of r.trace queue).rs →
        (drive_of r.trace queue).dbsy
        ≡ any_where (is_busy_at s (past_of s) (length r.trace)) (live_count s.trace) }
{}
