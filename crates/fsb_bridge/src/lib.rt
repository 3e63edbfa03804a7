//! The bridge: the requests that were deferred and wait for their replies, and the window of addresses that it may defer.
//!
//! A [`Waiting`] deferral comes to the list at the snoop end of its request and leaves it at the snoop end of the reply, so
//! its line is pending as long as it is there. Contracts see the bridge as its window and a list, in the order in which the
//! deferrals came (`specs/Deferrals.antt`); laws say what the list tells of a trace for whose deferrals it stands
//! (`specs/DeferralList.antt`). No call takes memory.
#![tactic(auto)]

pub use bridge::Bridge;
pub use deferral::{Deferral, Waiting};
pub use laws::{
    accepted_traces_respond_in_order, list_has_the_due_deferral, list_has_the_pending_lines,
    reply_takes_its_deferral,
};

mod bridge;
mod deferral;
mod laws;
