//! Coherence in one pass: which of the rules of ownership, 21 to 31, a trace breaks first.
//!
//! [`Coherence`] is fed sample by sample, and answers after each one the `ownership_verdict` of all of them. It keeps the
//! requests that are not over and, of each line that somebody asked for, which joint states it may have: no samples. The
//! trace is one that breaks no phase rule ([`sound_samples_keep_order`]). It puts the table of fsb_owner_feed and the judge of
//! fsb_owner_judge together; read them before.
#![tactic(auto)]

pub use cohere::Coherence;
pub use laws::sound_samples_keep_order;

mod cohere;
mod laws;
mod shown;
