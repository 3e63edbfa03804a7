//! The bench as a record: who is on the bus and what moves on it, and how a clock moves it on.
//!
//! `BenchView` (`specs/BusViews.antt`) is all that a bench goes by: the run so far, the agents'
//! records, the requests in flight, the deferrals, the bytes that move and memory. A clock is a
//! few steps, one definition each, in the words of the crates below: what is fetched and
//! performed, what is decided before the sample (`specs/BusDecisions.antt`), the sample
//! (`specs/BusSample.antt`), and what it brings (`specs/BusEvents.antt`). `bench_stepped`
//! (`specs/BenchSteps.antt`) puts them together. All of it computes.
#![tactic(auto)]

pub use beginning::{Latest, Started, Starting};
pub use decided::{AskedFor, BytesFrom, Decided, Ending};
pub use snoop::{Served, SnoopSettled};

mod beginning;
mod decided;
mod snoop;
