//! The last clocks of a dump.
//!
//! A [`Ring`] is fed the samples of a dump one after another, and keeps the last sixteen of them in the memory that it took
//! when it was made. `Stands` says which samples it was fed; `sample_at` answers by the number of a clock what was sampled
//! there, as long as it is kept.
//!
//! Next: scope_draw, which draws what a ring keeps.
#![tactic(auto)]

pub use ring::Ring;

mod ring;
