//! A sink over a sink, which hands on what it is given in large pieces.
//!
//! A [`Gather`] keeps pieces in room that is reserved when it is made, and calls the sink below only when that room is
//! full, when it is begun, and when it is finished. It holds what the sink below holds, followed by what it has gathered.
#![tactic(auto)]

pub use gather::Gather;

mod gather;
