//! A part of a trace as text: the control lines drawn over a range of clocks, and the words of its requests and data.
//!
//! A [`Wave`] is fed the samples of a trace one after another and keeps no history: the samples of at most 64 clocks,
//! and the one before them. `Stands` says which histories it stands for; the lines that it gives are those that the
//! definition of the text gives of the whole history (`specs/WaveText.antt`).
#![tactic(auto)]

pub use laws::equal_waves_show_equal_lines;
pub use range::ClockRange;
pub use wave::Wave;

mod laws;
mod range;
mod text;
mod wave;
