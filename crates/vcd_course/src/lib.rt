//! What the lines of the bus have while a dump is read, and the samples and holes that it tells.
//!
//! A `Course` takes what happens in a dump, one after another: a change of some taps, a greater
//! time, the begin or the end of a hole. It keeps the digits of the lines before the open block and
//! in it, and tells each event once its block is over, exactly as `vcd_way` defines it.
#![tactic(auto)]

pub use course::{Course, CourseRules};
pub use event::{CourseEvent, Stamp, Told};
pub use laws::told_step_by_step;

mod block;
mod course;
mod digits;
mod event;
mod laws;
mod level;
mod lines;
mod rows;
mod sample;
mod settle;
mod tapped;
