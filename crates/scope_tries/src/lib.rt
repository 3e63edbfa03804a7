//! Other ways to read a dump that is rejected.
//!
//! A rejected dump may only be sampled at the wrong moment. `hints_of` reads it once more for each other way to sample it,
//! and answers those in which it gets further: a hint for each try in which that is so, in their order, and none else, as
//! `AreHints` in `specs/Tries.antt` says. `hints_text` is what a report says of them; it is tested, in rows_program.
//!
//! Next: scope_watch, which reads and judges.
#![tactic(auto)]

pub use hint::{Further, Hint, Try, further_in, hints_text};
pub use tries::{TryStop, broken_found, hints_of, tries_of};

mod hint;
mod tries;
