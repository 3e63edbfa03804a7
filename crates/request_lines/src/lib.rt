//! The lines of the requests of a trace, as it grows, up to its first broken phase rule.
//!
//! A [`RequestLines`] is fed samples. With each one it hands out the lines of those requests that are over with it, and at the
//! end those of the requests in flight. Both come to the `table_text` of the samples before the first one with which a phase
//! rule is broken (`specs/Tables.antt`), whatever comes behind it. It keeps the requests that are not over, and no samples.
//!
//! Next: row_texts, whose lines these are, fsb_recent, which says when a request is over, and scope_table, which reads a dump.
#![tactic(auto)]

pub use lines::{RequestLines, head_line};

mod lines;
