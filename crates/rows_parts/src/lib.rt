//! The machines of the bus and the parts of an agent, each by itself: tests of the plain calls of `fsb_arbiter`, `fsb_queue`,
//! `fsb_phase`, `fsb_flight`, `fsb_cache`, `fsb_linebuf`, `fsb_agent`, `fsb_memory`, `fsb_bridge` and `fsb_plan_size`.
//!
//! A module tries one crate, and mostly by a table of rows: a row's steps are made one after the other, and where one is not as
//! expected, the message has the row's name and the step's place. `lone` has a bus of three of the machines, which makes traces.
//!
//! Nothing is promised. Read `queue` first, which is short; rows_judged has the arbiter over whole runs.
#![tactic(auto)]

#[cfg(test)]
mod agents;
#[cfg(test)]
mod arbiter;
#[cfg(test)]
mod bridge;
#[cfg(test)]
mod buffers;
#[cfg(test)]
mod cache;
#[cfg(test)]
mod flight;
#[cfg(test)]
mod lone;
#[cfg(test)]
mod memory;
#[cfg(test)]
mod phases;
#[cfg(test)]
mod plan_size;
#[cfg(test)]
mod queue;
#[cfg(test)]
mod rows;
#[cfg(test)]
mod scripts;
