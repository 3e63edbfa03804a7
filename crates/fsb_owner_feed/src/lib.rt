//! The table of the requests of a trace, fed sample by sample.
//!
//! A [`Table`] finds what happens to requests with the next sample: which one it cancels, which one has its snoop end, its
//! response or its end, and which one is decoded. It keeps the rows of the requests that are not over, and what the next
//! winner, the next snoop, the next response and the data on the way rest on. `Stands` says for which traces it stands.
#![tactic(auto)]

pub use begins::FirstClock;
pub use table::Table;

mod begins;
mod found;
mod table;
