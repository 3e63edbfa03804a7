//! The verdict of coherence: which of all rules, 1 to 31, is broken first.
//!
//! The rules of ownership mean something of a trace alone that breaks no phase rule. So the verdict names the first broken
//! rule of both kinds, and a phase rule before a rule of ownership of the same clock. `coherence_verdict` is the definition;
//! [`coherence_verdict_is_earlier`] says how it comes from a verdict of each kind. Read fsb_owners before.
#![tactic(auto)]

pub use laws::{
    coherence_rests_on_the_past, coherence_verdict_is_earlier, coherence_verdict_is_least,
    ownership_is_judged_after_phases,
};

mod laws;
