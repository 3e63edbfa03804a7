//! The lines of the bus that a reason speaks of: those that its sentence names, and those that show the clocks that it
//! rests on, as HIT# and HITM# show a snoop end.
//!
//! [`lines_of`] answers exactly what the table in `specs/LinesOf.antt` says, with a row for each reason. ADS# stands in
//! each row. [`NamedLines`] is a set of lines and words; docs/reference/reasons.md shows the table to users.
//!
//! Next: scope_draw, which draws such a set around a clock.
#![tactic(auto)]

pub use lines::lines_of;
pub use named::NamedLines;

mod lines;
mod named;
