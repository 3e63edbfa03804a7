//! Reading the values of a dump, in any way and in pieces of any size.
//!
//! A `ValueReader` goes on behind a header that `vcd_header` has read. It is made of the wires that
//! were chosen: which taps each code stands for, and which lines there are. It appends each sample,
//! and each begin and end of a hole, once its block is over, and answers the first fault, exactly as
//! `vcd_way` defines them.
#![tactic(auto)]

pub use early::EarlyEnd;
pub use heard::has_part;
pub use laws::first_events_stay;
pub use machine::ScanRules;
pub use reader::ValueReader;
pub use stop::ScanStop;
pub use table::Wires;

mod at_once;
mod digits;
mod early;
mod heard;
mod laws;
mod machine;
mod numbers;
mod places;
mod reader;
mod stop;
mod table;
mod wire;
mod wires;
mod words;
