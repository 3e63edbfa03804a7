//! Triggers: a list of steps that a trace is searched for.
//!
//! A [`Trigger`] is read from a word. A [`Hunt`] is fed the samples of a trace one after another and finds the least match
//! of all the steps, with the clock of each step; it keeps no history, but the latest chain of clocks for each step. The
//! decimal numbers of a word are read by [`decimal_digits`].
#![tactic(auto)]

pub use clocks::{Clocks, Found};
pub use decimal::decimal_digits;
pub use hunt::Hunt;
pub use test::Test;
pub use trigger::{Trigger, TriggerStep};

mod clocks;
mod decimal;
mod hunt;
mod read;
mod test;
mod trigger;
