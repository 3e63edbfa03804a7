//! The requests of a dump as a table, up to its first broken phase rule.
//!
//! `table_of` reads a dump once, picks the wires of the bus in its header, and writes to a sink a line for each request of one
//! part of it, as soon as the request is over, and at the end those that are in flight. What is written is the `table_text` of
//! the samples of the part, as `IsTabled` in `specs/Tabled.antt` says.
//!
//! Memory does not grow with the clocks: the requests that are not over are kept, and no samples. That is not proved.
//!
//! Next: request_lines, whose lines these are, scope_watch, which reads, and scope_check, which says what a part is.
#![tactic(auto)]

pub use answer::{TableFinding, Tabled, TabledPart, table_of};

mod answer;
mod start;
mod tabler;
