//! The judge of a dump part by part: behind holes, behind broken rules, and before replies to requests of before.
//!
//! A dump is a run of segments, one after another, and of each segment one part is judged, as scope_check judges the part of
//! a dump. `PartsJudge` takes the events of a dump, and ends a segment where the dump stops, where a rule is broken, or
//! where a reply answers a request that may have been deferred before the part. What it has found is told with the clock
//! numbers of the dump; `specs/Findings.antt` defines it.
//!
//! Next: scope_check, which judges one part, and `specs/Endings.antt`, which says when a segment ends.
#![tactic(auto)]

pub use finding::{End, PartFound, PartsFound};
pub use judge::PartsJudge;
pub use plan::Plan;
pub use scope_check::TooMany;

mod counts;
mod ending;
mod finding;
mod judge;
mod kept;
mod latest;
mod plan;
mod tally;
