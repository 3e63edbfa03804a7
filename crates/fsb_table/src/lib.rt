//! The table of a trace: a row for each request, with the request as it is seen, its snoop end, its
//! response, its end and its outcome.
//!
//! `rows_of` says the table by the definitions of a trace, each number by itself and from the whole
//! trace. By its code, though by no contract, [`table`] goes through the trace once: what it looks
//! for next it looks for from where it found the last.
#![tactic(auto)]

pub use one_pass::table;
pub use row::Row;

mod going;
mod one_pass;
mod row;
mod search;
mod told;
