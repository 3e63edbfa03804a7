//! An agent's line buffers: the lines whose bytes are on their way to it, and the bytes that it owes
//! to other transactions.
//!
//! A [`Fill`] stands for a request of the agent whose line has not come. It may be promised: then
//! the bytes go on, as soon as they are there, to the transaction of that number. A [`Push`] is what
//! the agent owes to a transaction: its number and the bytes of the line.
//!
//! Contracts see a [`LineBuffers`] as two lists, in the order in which their entries came
//! (`specs/Buffers.antt`). There are at most four fills, no two of them on one line, and at most
//! eight pushes: [`LineBuffers::fills`] and [`LineBuffers::pushes`] promise it of every value.
//! No call takes memory.
#![tactic(auto)]

pub use buffers::LineBuffers;
pub use entry::{Fill, Push};

mod buffers;
mod entry;
