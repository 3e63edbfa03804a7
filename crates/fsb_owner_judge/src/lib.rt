//! A judge of ownership: which of the rules 21 to 31 is broken first, clock by clock.
//!
//! What the wires show at a clock is told by an [`Asking`], a [`LineEnd`] and a list of [`Waiting`]; `Sights` says what
//! they are of a trace. [`OwnerLines`] keeps of each line the joint states that are possible, and says which rule a
//! request or a snoop end breaks. [`OwnerJudge`] answers after each sample the least clock and rule. Read `fsb_owners` before, whose definitions are the contracts.
#![tactic(auto)]

pub use answered::Answered;
pub use judge::{OwnerBroken, OwnerJudge, Shown};
pub use lines::OwnerLines;
pub use sights::{Asking, LineEnd, Waiting};

mod answered;
mod judge;
mod lines;
mod sights;
