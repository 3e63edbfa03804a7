//! Which line a hard failure spoils.
//!
//! [`failed_at`] is the line of the request that fails hard at a clock, by the rows that are kept; [`spoils_go_on`] says that it
//! is all that one sample more spoils. Read fsb_owner_rows before.
#![tactic(auto)]

pub use failed::failed_at;
pub use laws::spoils_go_on;

mod failed;
mod laws;
