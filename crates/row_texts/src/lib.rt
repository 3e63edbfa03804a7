//! Rows of requests as text: what stands in each column, and whole lines, aligned or with commas.
//!
//! `specs/Cells.antt` says what a row has in each [`Column`], and `specs/Lines.antt` what its line is in a [`Form`]. These
//! texts compute. [`put_head`] and [`put_lines`] append exactly them; the `put_` calls of single cells are for tables with
//! other columns.
//!
//! Next: request_lines, which appends the lines of a trace as it grows, and request_texts, which has the table of a report.
#![tactic(auto)]

pub use cells::{put_agent, put_clock, put_kind, put_outcome, put_signs, put_target};
pub use column::{Column, put_column};
pub use line::{Form, put_head, put_lines};

mod cells;
mod column;
mod line;
mod text;
