//! The words of a command line, and the command that they are. The words are read by `clap`, by the
//! one definition of the forms that a command line has.
#![tactic(auto)]

pub use command::{Command, Task, read_words};
pub use words::Words;

mod command;
mod number;
mod range;
mod usage;
mod words;
