//! The bus as a program: the agents, the requests in flight, the bridge, memory and the lock, and
//! the steps by which a clock moves them on.
//!
//! Contracts see a [`Bus`] as a record (`BusView`, crate fsb_bench_view): each step is one equation
//! on it, and what the steps decide are functions of it. The arbiter and the phases keep nothing
//! that the trace does not have; what they answer is said of the trace that they stand for. Only
//! [`Bus::new`] takes memory.
#![tactic(auto)]

pub use bus::{Bus, Lock};
pub use locking::Released;

mod bus;
mod deciding;
mod ending;
mod events;
mod fetching;
mod hearing;
mod lines;
mod locking;
mod made;
mod sampling;
mod snooping;
mod starting;
mod telling;
