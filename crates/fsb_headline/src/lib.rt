//! The sentences of the product, as contracts: what `bench` (fsb_top) says of a call, in words
//! that a reader knows.
//!
//! `run_as_promised` is `bench` with the headline as its contract, in the words of the README. Each
//! other function is a law and does nothing. `runs_are_as_promised` says the headline of every call.
//! `printed_text_determines_the_log` says that its "accesses printed" are known from
//! the text. The others say what a verdict is, what a refusal tells of a file, what the file and the
//! status decide, and what stands in the sinks. Their words stand in `specs/`, a line a part.
//!
//! Read fsb_top for the call itself, and p6bench next, whose contracts carry what `bench` says to
//! the end of the program.
#![tactic(auto)]

pub use laws::{
    commands_end_in_their_own_statuses, files_decide_the_status, limits_are_all_that_is_asked,
    looks_are_of_whole_dumps, objects_choose_the_hazards, printed_text_determines_the_log,
    refusals_name_the_first_fault, runs_are_as_promised, sinks_hold_what_the_status_tells,
    verdicts_are_first_and_least,
};
pub use promised::run_as_promised;

mod laws;
mod promised;
