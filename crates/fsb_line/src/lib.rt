//! One line of memory on a snooping bus, by itself: its copies at the agents, the requests on it,
//! the data on their way, and what may happen to it.
//!
//! The line is a record of specs/, its events are a type, and coherence is a theorem over every
//! list of events that may happen (`laws`). `witness` has runs that meet the conditions of the
//! events, `needed` runs that go wrong where a condition is left out. The functions of `Mesi` and
//! `Purpose` are words of the events that the agents call; what else agents and bus decide,
//! fsb_coherent ties to the events of a line, clock by clock. `Link`, `Ruling` and `Settled` are
//! types that the definitions speak of. No clock, queue, cache set or address stands here.
//! docs/proof/coherence.md tells the argument.
#![tactic(auto)]

pub use link::Link;
pub use purpose::{Purpose, Ruling, Settled};
pub use state::{Answer, Mesi};

pub mod laws;
mod link;
pub mod needed;
mod purpose;
mod state;
pub mod witness;
