//! How many accesses a plan has: what a log of its run needs room for, and what its last line counts
//! against.
#![tactic(auto)]

pub use count::access_count;

mod count;
