//! The picked lines of any tool's dump, written as a dump that the strict grammar reads.
//!
//! `copy_dump` reads a dump, picks the wires of the bus in its header, and writes the samples of one part of it to a sink as
//! they come, in constant memory. What is written reads back, by the strict grammar, to exactly these samples, unknown values
//! included (`copied_dumps_read_back`).
//!
//! Next: scope_watch, which reads, scope_check, which says what a part is, and scope_write, which writes.
#![tactic(auto)]

pub use copy::{Copied, CopiedText, CopyFinding, copy_dump};
pub use laws::copied_dumps_read_back;

mod copier;
mod copy;
mod laws;
mod there;
