//! A simulated run is clean: laws over the definitions, and no code.
//!
//! `proofs/` shows why. What D# has at a data clock is a chunk of a line as the one byte memory has
//! it at the response; the memory of a run has of each line what was last put there; and where
//! nothing of a line moves between two transfers of it, both have the same bytes.
#![tactic(auto)]

pub use laws::simulated_runs_are_clean;

mod laws;
