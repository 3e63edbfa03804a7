//! General words over a test of a clock: the first clock that passes, the last, the k-th, how many pass, and what has
//! held since a clock. The definitions of a trace and the proofs above it are written in them; those that plain code needs
//! are calls too, over a test that is a closure.
#![tactic(auto)]

pub use clocks::{any_where, count_where, first_where, nth_where};

mod clocks;
