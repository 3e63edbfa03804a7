//! The arbiter: which agent may begin a request at the next clock.
//!
//! It keeps no history: the control lines of the last two clocks, and which agents began requests last. `Stands` says
//! which histories it stands for, and `winner` is the definition's winner after each of them.
#![tactic(auto)]

pub use arbiter::Arbiter;

mod arbiter;
mod order;
