//! A simulated run breaks no rule of ownership: laws over the definitions, and no code.
//!
//! `proofs/` shows that the joint state of a line in a run is one of those that the wires leave,
//! clock by clock. Each agent asks what suits its state, and HIT# and HITM# say what the others have.
//! What happens unseen is
//! what an agent may do unseen.
#![tactic(auto)]

pub use laws::{runs_are_coherent, runs_ask_once, runs_could_be_made, runs_keep_ownership};

mod laws;
