//! The audit of a dump: a source is read in pieces, each parsed as it comes, and its samples are audited one after another.
#![tactic(auto)]

pub use audit::{Audited, audit_dump};
pub use text::{audit_line, foul_line};

mod audit;
mod text;
