//! How the queue goes on: what it has to hold after a clock, so that it holds the requests in flight again.
//!
//! `goes_on` says what a clock makes of a queue's entries, and `queue_goes_on` that this is what the next call of the
//! phases asks for. `take_clock` does it to a queue.
#![tactic(auto)]

pub use clock::take_clock;
pub use laws::{numbers_go_on, queue_goes_on};

mod clock;
mod laws;
