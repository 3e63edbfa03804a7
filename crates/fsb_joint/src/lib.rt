//! What is known of a line, as a set of the 24 joint states that its agents may have: a number of 24 bits.
//!
//! A [`JointSet`] has a call for each step of the rules of ownership: what a request leaves, what a snoop end leaves and
//! turns it into, and the stores and drops that nobody sees. Each answers exactly the set of the definitions of fsb_owners.
//! `joints_of` says which joint states a set has; `LineClock` says what the wires show of a line at a clock. A
//! [`LineSets`] has the set of each line, and takes memory for those alone that were touched.
#![tactic(auto)]

pub use line_clock::{Begun, SnoopEnd};
pub use line_sets::LineSets;
pub use set::JointSet;

mod line_clock;
mod line_sets;
mod set;
mod states;
mod steps;
