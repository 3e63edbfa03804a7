//! The judge of the events of a dump.
//!
//! `Judging` takes the events that vcd_scan tells of a dump, and judges the samples of one part of it, which `Part` says:
//! where it begins, and its last clock. What it has found is the verdict on that part, which `specs/Parts.antt` defines.
//!
//! `Parting` says of the same events which are the clocks of the part, and judges nothing.
//!
//! Next: scope_later, which judges the samples of a part, and vcd_course, whose events these are.
#![tactic(auto)]

pub use finding::{Judged, Verdict};
pub use judging::{Judging, TooMany};
pub use part::{Begin, Bound, Part};
pub use parting::Parting;

mod finding;
mod judging;
mod part;
mod parting;
mod replies;
