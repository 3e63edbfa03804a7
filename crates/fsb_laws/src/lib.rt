//! One-step laws of a trace: how its numbers go on when one sample is added.
//!
//! `specs/` says what an orderly trace is and names what one more sample does; `proofs/` has the laws, for machines that
//! look at each sample once and keep no history. The functions have no code: each one's contract is a law. The
//! must-fail edits turn definitions that the laws rest on.
#![tactic(auto)]

pub use laws::{
    flight_goes_on, outstanding_requests_go_on, requests_go_on, responses_go_on, snoops_go_on,
    transfers_go_on,
};

mod laws;
