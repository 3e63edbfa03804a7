//! A reason for machines: a stable name of its kind, and the clocks and numbers that it rests on, by names.
//!
//! `kind_of` names the kind, and `facts_value` makes the JSON object of the numbers. Both answer exactly what the tables in
//! `specs/` say, with a row for each reason. docs/reference/report-json.md lists them for users.
//!
//! Next: fsb_reasons, which says what each reason claims, and scope_json, which puts these objects into a report.
#![tactic(auto)]

pub use facts::facts_value;
pub use kind::kind_of;
pub use value::{maybe, put_count, put_flag, put_maybe_agent, put_word};

mod answers;
mod begins;
mod facts;
mod kind;
mod snoops;
mod unknown;
mod value;
