//! Lines without wires are silent: in the samples of picked wires none of them is asserted or unknown.
//!
//! `unwired_lines_are_silent` says so of any text in the way of the wires. So a dump that declares the wired lines alone
//! says all of such a sample (scope_write).
//!
//! Next: scope_way, whose way this is, and scope_copy, which writes the samples.
#![tactic(auto)]

pub use laws::unwired_lines_are_silent;

mod laws;
