//! The lines of the bus: control lines, words and samples, and the table of their names.
#![tactic(auto)]

pub use control_lines::{control_line, line_named};
pub use lines::Lines;
pub use marks::Marks;
pub use query::{idle_sample, line_at};
pub use sample::{Sample, Word};
pub use signal::Signal;
pub use table::{SIGNALS, signal_at, signal_named};

mod control_lines;
mod lines;
mod marks;
mod parity;
mod query;
mod sample;
mod signal;
mod table;
