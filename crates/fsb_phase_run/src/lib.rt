//! What the phases drive at the clock after a timely run, and what they tell of it, is what the
//! next clock of the run has to show, and what its moment has: laws over the definitions, and no
//! code.
//!
//! The phases are asked of the trace and of a queue that holds the requests in flight; a timely run
//! speaks of its live requests by their numbers. `HoldsRequests` says which queue stands for a run.
#![tactic(auto)]

pub use drives::{
    codes_are_those_due, data_are_driven_when_due, snoops_are_stalled_as_chosen,
    targets_are_ready_when_due,
};
pub use moments::{
    ends_are_told, queues_go_on, responses_are_told, snoop_ends_are_told, turns_are_taken,
};

mod drives;
mod moments;
