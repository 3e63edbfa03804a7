//! Looking into a dump: the search for a trigger in it, and the wave of a range of its clocks.
//!
//! Each reads the dump of a source in pieces, as its check does, and keeps next to nothing of it.
#![tactic(auto)]

pub use find::{Search, find_in_dump};
pub use text::search_line;
pub use wave::{put_wave, wave_of_dump};

mod find;
mod text;
mod wave;
