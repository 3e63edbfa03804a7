//! The memory controller: the lines of memory, as the bus reads and writes them.
//!
//! A [`Controller`] is a map from a line's number to its 32 bytes. It is made with the lines that a run may name and the
//! settings of its memory; from then on it takes no memory.
#![tactic(auto)]

pub use controller::Controller;

mod controller;
