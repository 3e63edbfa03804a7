//! The sentence of a reason: one or two short sentences with the clocks and numbers that it rests on.
//!
//! [`Sentence`] is the reason and the clock at which it holds, and prints itself. docs/reference/reasons.md shows one of each;
//! rows_reasons tests their texts, and that each comes from a trace.
//! [`counted_behind`] counts its clocks as a dump does in which the trace begins later.
//!
//! Next: fsb_reasons, which says what each reason claims.
#![tactic(auto)]

pub use counted::counted_behind;
pub use sentence::Sentence;

mod answer;
mod begin;
mod counted;
mod lines;
mod sentence;
mod words;
