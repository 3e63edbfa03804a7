//! The printed lines: log lines, the end line, the first and the last line of a summary and the line of a verdict, each
//! with its line feed; and a broken rule without one. The counts that a summary tells are taken from a trace in one pass.
#![tactic(auto)]

pub use counts::{RequestCounts, request_counts};
pub use log::{end_line, log_line};
pub use summary::{bus_line, gen_line};
pub use verdict::{rejected_line, verdict_line};

mod counts;
mod log;
mod summary;
mod verdict;
