//! Dumps as they are written: the header, and then the text of each clock, without memory.
#![tactic(auto)]

pub use clock::put_clock;
pub use dump::put_dump;
pub use header::put_header;

mod clock;
mod dump;
mod header;
mod value;
