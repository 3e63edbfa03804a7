//! What a simulated run is: which agent has which line, what an agent wants and completes, and what the bus does in each
//! clock, as definitions over a whole run.
//!
//! A run is a plan with the choices, the holds, the trace and the log that came of it. What is said of a clock is said of
//! the run up to that clock, so it stays as it is however the run goes on. The definitions are in `specs/`;
//! docs/proof/agents.md tells what the agents do, and docs/proof/bus.md how the bus moves. There is no code but laws over them.
#![tactic(auto)]

pub use asked::{answers_are_kept, asked_in_steps};
pub use growth::{
    carried_data_stay, empty_runs_are_simulated, passed_clocks_stay, runs_end_at_their_clock,
    simulations_grow,
};
pub use laws::{
    each_part_stays, hazard_lines_go_by_number, held_lines_step, held_lines_were_granted,
    moments_have_the_beginnings, moments_have_the_snoop_ends, one_snoop_end_at_a_clock,
    outstanding_requests_step, parts_are_tested, pasts_go_on, runs_grow, scripts_step,
    wants_are_new, wants_go_on, whole_pasts_go_on,
};
pub use steps::{
    earlier_bytes_stay, entries_are_of_next_items, locks_step, logs_follow_scripts,
    ready_lines_step, requests_are_wanted, wants_stay,
};

mod asked;
mod growth;
mod laws;
mod steps;
