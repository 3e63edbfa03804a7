//! The in-order queue: the requests in flight, oldest first, at most eight of them.
//!
//! Contracts see a `Queue` as the list of its entries. Only `new` takes memory.
#![tactic(auto)]

pub use entry::Entry;
pub use queue::Queue;

mod entry;
mod queue;
