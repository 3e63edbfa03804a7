//! The requests of a trace that are not over: what the trace shows of each, up to its last sample.
//!
//! A [`Row`] is kept of a request from its second clock on, until it has been closed for two clocks. [`Rows`] are told what
//! happens to requests with a sample, and stand for the trace with one sample more: `Happens` says what is to be told.
#![tactic(auto)]

pub use happened::{Happened, cancelled_by};
pub use row::{Row, Snooped, begun_row};
pub use rows::Rows;

mod happened;
mod row;
mod rows;
