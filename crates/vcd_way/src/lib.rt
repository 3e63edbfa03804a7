//! What a value change dump says in a way to read it: who is a line of the bus, of which bits,
//! which bytes are digits, when there is a sample, and what a hole and an early end are. The
//! definitions are in `specs/`; `Way` is the parameter.
//!
//! The strict way, `strict`, is the grammar of `vcd_grammar`.
#![tactic(auto)]

pub use laws::{
    first_bytes_stay, header_comes_first, lines_keep_their_widths, one_answer,
    strict_is_the_grammar,
};
pub use tap::{BitRun, Edge, Part, Tap};

mod laws;
mod tap;
