//! A simulated run breaks no phase rule: laws over the definitions, and no code.
//!
//! `specs/` says what it is that a trace keeps a rule; `proofs/` has for each rule why a timely run keeps it: rule 12
//! where who writes a line back has it alone (`WritesBackAlone`), which fsb_tied proves of each run. A rule is
//! judged over the samples up to its clock alone, and so is each part of what a timely run is; docs/proof/kept-rules.md tells
//! beside each rule on which of these parts it rests.
#![tactic(auto)]

pub use laws::{
    address_errors_cancel_requests, answers_come_in_order, codes_are_lawful, data_follow_responses,
    grants_are_owed, locks_begin_with_requests, outstanding_requests_are_few, parity_is_even,
    request_lines_are_held, requests_are_identified, requests_begin_lawfully, response_codes_fit,
    snoop_lines_have_snoop_clocks, snoop_results_fit, timely_runs_are_accepted, wants_are_lawful,
    wants_last, words_are_known,
};

mod laws;
