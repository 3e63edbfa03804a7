//! The audit of a trace: what comes from memory is what was last moved of it. A transfer from memory whose data differ
//! from those of the latest earlier transfer of the same eight bytes is foul, whichever way that one went, since both
//! show what memory then holds.
//!
//! An [`Audit`] is fed the samples one by one, keeps the data of each chunk that was moved, and answers after each
//! sample what was found first: the first foul clock, or the first broken phase rule if that comes before it or at it.
//! `Stands` says which samples an audit was fed; its answer is the `finding_of` the whole trace of them.
#![tactic(auto)]

pub use audit::Audit;
pub use finding::{Finding, FoulAt};

mod audit;
mod chunks;
mod finding;
