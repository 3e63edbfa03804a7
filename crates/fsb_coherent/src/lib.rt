//! A simulated run is coherent, line by line: laws over the definitions, and no code.
//!
//! `specs/` has the events of a line of memory in a run, clock by clock, and what the line of the pure machine has to do
//! with the run after them. docs/proof/coherence.md tells the argument from the bus to the line.
#![tactic(auto)]

pub use laws::{
    clock_facts_keep_ties, dirty_lines_step, events_stay, first_events_keep_ties,
    line_is_worked_out, lines_start_tied, links_and_deferrals_step, open_requests_step,
    quiet_clocks_keep_ties, snoop_ends_are_settled, snoop_ends_keep_ties, snoop_ends_make_links,
    tied_lines_have_one_owner, ties_go_on,
};

mod laws;
