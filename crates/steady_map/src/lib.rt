//! A map with numbers as keys, whose look-ups stay fast whatever the keys are.
//!
//! A [`SteadyMap`] keeps its entries in the order of their first insertions, and answers as `indexmap` does. The kit's hash is
//! known to all, so whoever writes a file can choose keys that fall together in a table; here only so many of them get into
//! the table, and the others are kept in a tree. What is answered never depends on which of the two has a key.
//!
//! Read `map` first, then `places`, which chooses between table and tree.
#![tactic(auto)]

pub use map::SteadyMap;

mod map;
mod places;
