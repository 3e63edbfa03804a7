//! What follows from how a call ends (`CallEnds` of fsb_top): each promise of a call, by what a reader
//! looks for.
//!
//! The laws say that each sentence about a call's status, its file, its log, its dump and what stays
//! follows from the relation, grouped by what a reader looks for. Their words stand in `specs/`; read
//! `CallEnds` (fsb_top) first.
//!
//! Read fsb_top for the call itself, and fsb_headline for what its promises mean to a reader.
#![tactic(auto)]

pub use laws::{
    files_are_read_as_told, looks_print_what_they_find, runs_leave_log_and_dump,
    statuses_have_causes, the_rest_stays_as_it_was,
};

mod laws;
