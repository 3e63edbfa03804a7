//! Writes samples of picked lines as a dump, unknown values included, clock by clock and without memory.
//!
//! `DumpWriter` writes a header that declares the lines that are there, and then the text of each sample. By the strict
//! grammar, the one that p6bench reads by, the text says exactly these samples (`shown_dumps_read_back`).
//!
//! Next: vcd_write, which writes what p6bench simulates, of known samples alone.
#![tactic(auto)]

pub use laws::{sample_has_64_lines, shown_dumps_read_back};
pub use writer::DumpWriter;

mod clock;
mod header;
mod laws;
mod value;
mod writer;
