//! One agent of the bus: what it wants, completes, answers, hands over and takes in, clock by
//! clock, over its cache and its line buffers.
//!
//! Contracts see an [`Agent`] as a record of what it keeps (`AgentView`, crate fsb_agent_view):
//! each call that changes it is one equation on that record, and each answer is a function of it.
//! An agent keeps no history, and its place in its script is a number, so that by the code a step
//! costs the same at the end of a script as at its beginning. What it looks ahead to is kept from clock to clock, and
//! found anew where something of it may have changed. It never has more than four fills, and it owes
//! bytes to at most eight transactions, as pushes and promises together.
//!
//! A call that may only come at some times has a test beside it that tells whether it may, as
//! [`Agent::may_commit`]. The calls that complete an item add its entries to a log, which has room
//! for eight. Only [`Agent::new`] takes memory.
#![tactic(auto)]

pub use agent::Agent;
pub use fsb_agent_view::{Finished, OwnRequest, Want};
pub use fsb_line::Answer as SnoopAnswer;

mod agent;
mod arriving;
mod completing;
mod hand;
mod idling;
mod need;
mod outlook;
mod outs;
mod parts;
mod snooping;
mod wanting;
