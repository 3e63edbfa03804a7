//! Worked runs, and runs with some clocks changed, judged in one pass by the rules of ownership.
//!
//! The verdicts are those that rows_owners computes from the definitions; of traces that begin in traffic they were worked out
//! by hand. Nothing is promised. Read fsb_cohere next.
#![tactic(auto)]

#[cfg(test)]
mod short;
#[cfg(test)]
mod verdicts;
