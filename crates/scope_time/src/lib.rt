//! Times in place of the numbers of clocks.
//!
//! A user names a clock by its number or by a time with its unit; a dump counts time in steps, and its `$timescale` says how
//! long one is. `scale_of` reads it from the sections of a header, and `part_in` gives the part that a user's words name,
//! in steps of the dump: it begins with the first step at or above a time, and ends with the last at or below one.
//!
//! Next: scope_words, whose moments these are, and scope_check, which judges the part.
#![tactic(auto)]

pub use laws::steps_are_nearest;
pub use part::{NoScale, part_in};
pub use scale::{Factor, Scale, factor_of, femtoseconds, scale_of};

mod laws;
mod part;
mod scale;
