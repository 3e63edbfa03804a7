//! A timely run is coherent, line by line, and breaks no phase rule: laws over the definitions, and
//! no code.
//!
//! `proofs/` shows that each clock of a timely run has the facts on which the tie between a line of
//! the pure machine and the run rests: the order of responses and ends, that accesses are served,
//! that what begins is the want, and how a request is settled. Where the log is served and follows
//! the scripts, the bytes of lines, copies and memory are told too. docs/proof/coherence.md tells the
//! argument.
#![tactic(auto)]

pub use laws::{
    events_of_runs_may_happen, lines_are_written_back_alone, lines_have_one_owner,
    sets_have_one_line, states_are_those_of_the_run, timely_runs_break_no_rule,
    timely_runs_keep_ties,
};
pub use values::{
    clocks_store_what_is_logged, lines_have_the_bytes_of_the_log, memory_has_what_was_put_last,
    responses_move_the_bytes_of_the_log,
};

mod laws;
mod values;
