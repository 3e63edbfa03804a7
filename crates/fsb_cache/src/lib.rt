//! An agent's cache: the lines that it has, each with its state and its 32 bytes, at most one line a
//! set.
//!
//! A line's set is its number modulo the number of sets, which is a power of two, so the code finds
//! it by one index (no contract says so). Contracts see a [`Cache`] as the list of its sets, each with the line that it
//! has, if it has one, and speak of the map that the sets make: `states` and `copies` give the state
//! and the bytes of each line (`specs/Sets.antt`). A call that writes says what both are of every
//! line afterwards. Numbers in a line have the lowest byte first (`specs/LineValues.antt`); they are
//! those of the one byte memory, [`lines_serve_as_memory`]. Only [`Cache::new`] takes memory.
//!
//! A line whose bytes have not come yet is here too: a cache has a state and some bytes for each
//! line that it has, and doesn't know whether they are the right ones. Who is granted a line fills
//! it with its state and any bytes, and fills it again, in the state that it has then, when the
//! bytes come. Until then the owner has to know that the line is not ready, so that it doesn't load
//! from it: the line still has a fill in its line buffers.
#![tactic(auto)]

pub use cache::Cache;
pub use fsb_line::Mesi;
pub use held::Held;
pub use laws::{lines_serve_as_memory, set_has_one_line, sizes_are_powers_of_two};

mod cache;
mod held;
mod laws;
mod value;
