//! Files of rows, which the programs of trials go through: what they are to do, and what is wanted of it.
//!
//! A row is a line, or a line and its text: the lines below it that begin with `|`. A line with `#` is a note, and an empty one
//! is nothing. What a row asks for, each program says itself. `read_file` reads a file whole, and `rows_of` has its rows.
//! Nothing is promised of either: what the programs print is stored beside them.
#![tactic(auto)]

pub use file::read_file;
pub use rows::{Row, halves, rows_of};

mod file;
mod rows;
