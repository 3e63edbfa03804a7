//! The top call of p6scope: an order, done over sources and sinks.
//!
//! `perform` does what an order asks for, writes its text, and answers how it ended, or which of the objects failed. How
//! it ends is one relation, `Ends` in `specs/Performing.antt`, with a row for each form of an order: a check ends clean
//! exactly where at least one clock was judged and no rule is broken. Where a rule is broken, the files that the order names
//! show it, as `Shows` in `specs/Viewing.antt` says. `ending_at` is the end of the program.
//!
//! Next: scope_watch, which reads and judges, scope_tries, which reads a rejected dump in other ways, scope_explain,
//! which finds its reasons, scope_table, which writes the requests, scope_copy, which writes what was picked, and
//! scope_report, whose texts these are.
#![tactic(auto)]

pub use broken::BrokenAt;
pub use check::ending_found;
pub use coherence::ending_cohered;
pub use named::{LineFault, read_options};
pub use orders::perform;
pub use pick::ending_copied;
pub use stop::{Ended, Stop, ViewStop, ending_at};
pub use table::ending_tabled;

mod answer;
mod broken;
mod check;
mod coherence;
mod formed;
mod lines;
mod listed;
mod named;
mod orders;
mod pick;
mod reasons;
mod settled;
mod stop;
mod stopped;
mod table;
mod viewed;
mod views;
