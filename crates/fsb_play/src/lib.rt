//! The playing of a bench: all clocks of its plan, and then the writing of what came of them.
//!
//! [`play`] takes the clocks, and writes the log to one sink and, where it has a name, the dump to another, or the summary
//! of a generated run in place of the log. What it writes is of one run, that of the bench: `IsRunOf`
//! (`specs/RunOf.antt`) says of which plan, for which objects, and that it is a simulation that breaks no phase rule and
//! whose dump reads back to its trace. It takes no memory: all that a run needs, the bench has.
#![tactic(auto)]

pub use fsb_core::Bench;
pub use playing::{Played, play};
pub use print::Print;

mod clocks;
mod output;
mod playing;
mod print;
mod text;
