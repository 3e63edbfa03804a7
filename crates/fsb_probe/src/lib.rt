//! Probes: objects that are shown the samples of a trace one after another, and add up what they
//! weigh.
//!
//! A probe that is handed in may weigh a sample as it likes, up to 64. What is known of it is its
//! total: once it was cleared and shown a trace, that is the sum of its weights over the samples.
#![tactic(auto)]

pub use kinds::{DataProbe, LineProbe};
pub use probe::Probe;
pub use watching::{total_of, watch_all};

mod kinds;
mod probe;
mod watching;
