//! What the rows of a table of requests show, as a judge of ownership is told it.
//!
//! [`asking_at`] is the request that begins at a clock, [`line_end_at`] the snoop end there, and [`waits_of`] are the lines on
//! which somebody waits. Each is what the trace shows for which the rows are kept. Read fsb_owner_rows and fsb_owner_judge before.
#![tactic(auto)]

pub use asking::asking_at;
pub use ended::line_end_at;
pub use waits::waits_of;

mod asking;
mod ended;
mod waits;
