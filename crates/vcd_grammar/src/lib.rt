//! What a value change dump says: its tokens, the lines that its header declares, its blocks of changes, the trace that
//! they sample, and the first fault of a text that is no dump. The definitions are in `specs/`.
//!
//! A text is cut into tokens; each token is judged in the place where it stands, and is read past, is the first fault, or
//! changes lines or ends a block; and each block in which the clock rises gives one sample, the values before it. The
//! marks of a text say which of the two parity lines its header declares.
#![tactic(auto)]

pub use fault::{VcdCause, VcdFault};
pub use laws::{marks_come_first, one_answer};
pub use level::Level;

mod fault;
mod laws;
mod level;
