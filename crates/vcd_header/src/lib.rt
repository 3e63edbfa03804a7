//! The header of a dump: its declarations, each with the scopes that it stands in, and the sections
//! beside them, read in pieces of any size.
//!
//! A `HeaderReader` reads up to the end of the header and tells what it has gathered, or the first
//! fault. What that is, is said by the definitions of `vcd_way` for the way that only gathers
//! (`specs/Gathering.antt`). The values after the header are read on with the cutter that it leaves.
#![tactic(auto)]

pub use copies::copy_of;
pub use declared::{Declared, Section};
pub use number::number_up_to;
pub use reader::HeaderReader;
pub use rules::HeaderRules;
pub use stop::HeaderStop;
pub use vcd_grammar::{VcdCause, VcdFault};
pub use words::{is_dollar, is_end, is_long};

mod copies;
mod declared;
mod gathered;
mod number;
mod reader;
mod rules;
mod stop;
mod words;
