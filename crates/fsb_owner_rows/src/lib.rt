//! What the rows of a table of requests show of a line: who asks for it, whose bytes are under way, who may drop a copy.
//!
//! Each call takes the rows that are kept of a trace, and answers what fsb_owners says of the whole trace at one of its last
//! three clocks. So one pass over a trace needs no more than the rows. `AreKeptAt` says for which rows and clocks.
#![tactic(auto)]

pub use asked::{is_held_back, is_still_asking};
pub use coming::{is_coming, is_upgrading, may_drop, origin_of};
pub use found::{answered_at, begun_at, snooped_at};
pub use lines::{is_named, named_line, unnamed_lines_are_quiet};
pub use row::{asks, is_turned, is_write_back, names, purpose};
pub use waits::{droppable_of, ready_of};

mod asked;
mod coming;
mod found;
mod lines;
mod row;
mod waits;
