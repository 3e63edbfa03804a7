//! What a trace says: requests and their winners, snoop ends, responses, data and outcomes, what is in flight,
//! outstanding, due and pending, and the twenty phase rules with their verdict.
//!
//! A trace is judged as a whole, and numbers are picked out of it by position. The definitions are in `specs/`; the
//! calls here are their plain, slow form, for tests and for comparison with machines that look at each sample once.
#![tactic(auto)]

pub use at::{known_pair, request_at, responds_at, response_code_at};
pub use judge::verdict;
pub use laws::{
    numbers_stay, one_snoop_at_a_clock, requests_rise, rules_rest_on_the_past, snoop_ends_rise,
    verdict_is_least,
};
pub use numbers::{end_of, outcome_of, response, snoop_end};
pub use outcome::{Outcome, code_of, moves};
pub use request::{requests, seen_at};
pub use seen::Seen;
pub use snoop::{ends_snoop, is_every_second_from};
pub use told::{outcome_by_kind, told_with};
pub use who::Who;
pub use winner::{
    agent_in_order, bus_request_of, first_in_order, request_line_of, symmetric_after,
};

mod at;
mod ending;
mod flight;
mod judge;
mod laws;
mod numbers;
mod outcome;
mod request;
mod rules;
mod seen;
mod snoop;
mod told;
mod who;
mod winner;
