//! What the strict grammar reads, wires read alike: a dump without a fault in the strict way has none by wires that take
//! of it the same variables, and tells the same samples with the same stamps, though such a way lets more pass.
//!
//! So where the first clock is known, the finding of scope_check is the verdict on the whole strict trace.
//! The functions are laws and do nothing. Their words stand in `specs/`: `TakesTheSame` is what is asked of the wires, and
//! `usual_rules` is what is let pass by default, whether or not a text may end early. The proof goes token by token:
//! `proofs/Heads.antt` in the header, `proofs/Steps.antt` behind it.
#![tactic(auto)]

pub use laws::{both_find_the_same, strict_dumps_are_read_alike};

mod laws;
