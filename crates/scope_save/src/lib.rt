//! The text of a save file for GTKWave: the wires of the bus as a viewer is to show them.
//!
//! `save_text` answers the whole text, which `specs/SaveText.antt` defines: the name of the dump, where the view begins, how
//! wide a clock is, the marker on the judged sample, and a row for each line of the bus that has wires. Words read as the
//! report has them: asserted lines count as 1, and the address is that of the byte.
//!
//! Next: scope_wiring, whose wires these are.
#![tactic(auto)]

pub use mark::Mark;
pub use save::save_text;

mod bit;
mod mark;
mod name;
mod row;
mod save;
mod text;
