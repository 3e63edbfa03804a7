//! The tokens of a dump, cut off its bytes piece by piece, each with its place and its text line.
//!
//! A `Cutter` keeps one token at most, so its memory does not grow. The tokens are those of
//! `vcd_grammar`, and how the text was cut into pieces shows in none of them. A reader of headers
//! stands on it in `vcd_header`.
#![tactic(auto)]

pub use cut::{Cut, CutToken, Source};
pub use cutter::Cutter;
pub use white::{short_word, whole_word};

mod cut;
mod cutter;
mod lanes;
mod run;
mod white;
