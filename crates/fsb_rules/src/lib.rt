//! The judge of a waveform: it looks at each sample once, keeps no history and takes no memory, and tells after each
//! sample whether a phase rule is broken so far: the first clock with a broken rule and, there, the least rule. It is made
//! with the marks of the dump, which say whether the two parity rules are judged.
//!
//! `Stands` says which samples a checker was fed; its answer is the verdict on them. It tells of a sample, before it is fed, which
//! request's data come with it.
#![tactic(auto)]

pub use broken::Broken;
pub use checker::Checker;
pub use coming::Coming;

mod broken;
mod checker;
mod coming;
mod in_flight;
mod live;
mod outstanding;
mod recent;
