//! The lines of the bus around a clock, drawn as text.
//!
//! `drawing` shows the last fourteen clocks that a ring keeps: a ruler of clock numbers, and below it a row for each of
//! the named lines. Where none are named, there is one for ADS# and for each line that is asserted or unknown in them. The
//! words of requests and of data stand under their clocks. `named_rows` answers exactly which rows show the named lines;
//! nothing is promised of the text.
//!
//! Next: scope_ring, which keeps the samples.
#![tactic(auto)]

pub use rows::{Row, drawing, named_rows};

mod level;
mod rows;
mod ruler;
mod span;
mod text;
mod words;
