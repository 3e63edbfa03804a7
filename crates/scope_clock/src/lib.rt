//! The time of a clock of any tool's dump.
//!
//! `clock_time` reads a dump and answers the time of the edge of the clock of one number, by the wires that a user chooses:
//! the view of a dump is as wide as its clocks. It is what vcd_way defines of the whole text, or nothing.
//!
//! Next: scope_watch, which reads.
#![tactic(auto)]

pub use time::clock_time;

mod time;
mod timer;
