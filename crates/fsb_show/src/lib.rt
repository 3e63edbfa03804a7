//! The table of a dump: its requests, and the totals of the probes that are shown its samples.
//!
//! A dump of at most 200,000 samples is read whole and judged. Where it breaks no rule, each probe
//! is cleared and shown every sample in order, and there is a row for each request.
#![tactic(auto)]

pub use laws::addresses_are_those_of_lines;
pub use show::{Shown, show_dump};
pub use stop::ShowStop;
pub use text::put_show;

mod laws;
mod lines;
mod show;
mod stop;
mod text;
