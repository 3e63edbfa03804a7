//! The phases: which snoop, TRDY#, response and data are due at a clock, and which snoop and which request end with it.
//!
//! They keep no history and take no memory: a few clocks of the request that responds next and of the data on their way.
//! `Stands` says which histories they stand for; `drive` and `absorb` answer as the definitions of a trace do after each
//! of them, for a queue that holds the requests in flight.
#![tactic(auto)]

pub use drive::{Drive, Phased};
pub use fsb_encode::chunk_order;
pub use phases::Phases;

mod drive;
mod phases;
mod places;
mod timing;
