//! A bench and its run, clock by clock: laws over the definitions, and no code.
//!
//! `specs/BenchOf.antt` says which bench stands for its timely run: the first bench of a plan does
//! (`first_benches_stand_for_their_runs`), may take its next clock (`benches_may_go_on`), and after
//! it stands for the run with one more clock (`benches_go_on`), which is timely
//! (`clocks_keep_runs_timely`). The other laws say so part by part and field by field.
#![tactic(auto)]

pub use agents::{agents_hear_snoop_ends, requests_of_benches_end, requests_of_benches_may_begin};
pub use bridge::{deferrals_of_benches_go_on, served_requests_of_benches_go_on};
pub use flight::queues_of_benches_go_on;
pub use frame::{clocks_add_to_runs, clocks_keep_runs_timely, completions_are_logged};
pub use going_on::{benches_may_go_on, first_benches_stand_for_their_runs};
pub use hits::agents_have_their_hits;
pub use lines::{
    locks_and_parity_are_driven, request_lines_are_driven, requests_start_in_runs, words_are_due,
};
pub use responses::responses_are_driven;
pub use snoops::snoops_are_driven;
pub use standing::{
    agents_of_benches_go_on, beginnings_are_of_the_run, benches_go_on, locks_of_benches_go_on,
};

mod agents;
mod bridge;
mod flight;
mod frame;
mod going_on;
mod hits;
mod lines;
mod responses;
mod snoops;
mod standing;
