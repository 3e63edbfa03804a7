//! Requests for machines: the rows of a table of requests as objects of JSON.
//!
//! [`put_requests`] puts the requests around a clock into an object: those that were over last, and those in flight. Their
//! members are exactly those of the tables in `specs/`. docs/reference/report-json.md lists them for users.
//!
//! Next: fsb_recent, which says which requests these are, and scope_json, which puts them into a report.
#![tactic(auto)]

pub use requests::put_requests;

mod members;
mod requests;
