//! The check of a dump: its samples are judged as they come, while its source is read in pieces.
//!
//! By the code, though no contract says it, no trace is kept.
#![tactic(auto)]

pub use check::{Judgement, check_dump};

mod check;
