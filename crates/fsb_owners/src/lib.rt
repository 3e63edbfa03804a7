//! The rules of ownership, 21 to 31: could a coherent system have made these wires?
//!
//! For each line the definitions keep the joint states that it may have, clock by clock. A rule is broken where an event
//! leaves none. Rules 21, 30 and 31, and half of rule 22, look at the wires alone. Stores into a copy and drops of clean
//! copies are not seen. The trace is one that breaks no phase rule.
//!
//! The definitions are in `specs/`; read `Joint`, `Shown`, `Possible`, `Least` and `Rules` in this order.
#![tactic(auto)]

pub use laws::{ownership_rests_on_the_past, ownership_verdict_is_least};

mod laws;
