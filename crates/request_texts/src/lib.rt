//! Rows of requests as a table that people read: a line for each request, in columns.
//!
//! [`put_around`] appends the table of the requests around a clock: those that were over last, and those in flight.
//! docs/scope.md has one, and says what each column is; rows_program tests whole tables. Nothing is promised.
//!
//! Next: fsb_recent, which says which requests these are, and row_texts, which has what stands in each column.
#![tactic(auto)]

pub use table::put_around;

mod cells;
mod table;
