//! The values of a bench, clock by clock: laws over the definitions, and no code.
//!
//! `specs/BytesOf.antt` says that the bytes of a bench are those of the one byte memory, after the
//! log of its run is served. The laws say that each clock keeps it so, and carries the data that
//! are due; so the run of a bench is a simulation, and caches and memory are as the run keeps them.
#![tactic(auto)]

pub use bytes::clocks_keep_bytes;
pub use carried::clocks_carry_data;
pub use first::first_benches_have_their_bytes;
pub use kept::{benches_are_simulated, benches_keep_their_lines};

mod bytes;
mod carried;
mod first;
mod kept;
