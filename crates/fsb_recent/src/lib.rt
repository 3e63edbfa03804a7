//! Which requests of a trace are in flight at its end, and the last ten that were over.
//!
//! A [`Recent`] is shown the table of fsb_owner_feed after each sample that the table took. It keeps the rows of the last ten
//! requests that were over, in the order in which they were; [`rows_in_flight`] are those of all that are not.
//! `specs/Over.antt` says of a trace which these are. Memory does not grow with the trace.
//!
//! Next: scope_explain, which shows both at the first broken clock of a dump.
#![tactic(auto)]

pub use recent::{Around, Recent, is_newly_over, rows_in_flight};

mod first;
mod recent;
