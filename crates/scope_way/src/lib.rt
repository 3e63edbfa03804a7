//! Between a reader of headers and scope_wiring: a declaration as a variable, and picked wires as a way to read a dump.
//!
//! `variable_of` in `src/variable.rt` parts a declaration's path and name. `wired_way` in `specs/` is the way of picked
//! wires. It is lawful where the wires fit the signal table.
#![tactic(auto)]

pub use laws::{picked_wires_are_lawful, strict_is_lawful, wired_ways_are_lawful};
pub use variable::variable_of;

mod laws;
mod variable;
