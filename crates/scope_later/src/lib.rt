//! The judge of a part of a waveform that may begin later: of what came before it nothing is known.
//!
//! A part that begins at the first clock is judged as fsb_rules judges. One that begins later is judged behind four short
//! waveforms side by side, in each of which another agent was the last one that had the bus; what is found of the part is
//! the latest that is found behind one of them, and nothing where one of them finds nothing.
//!
//! Next: fsb_rules, whose checkers these are.
#![tactic(auto)]

pub use history::history_of;
pub use later::LaterChecker;
pub use part::PartChecker;

mod history;
mod later;
mod part;
