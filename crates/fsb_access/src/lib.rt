//! What the agents are asked to do, and what they did.
//!
//! An agent has a [`Script`]: a list of [`Item`]s, each a single [`Access`], a locked [`Group`] of accesses, or clocks
//! spent idle. Each completed access becomes one [`Done`] entry of the [`Log`].
//!
//! Two definitions say what a log is worth, and they stand in `specs/`, for every crate to cite:
//!
//! - `Served settings log` (`specs/Replay.antt`): the entries, served one after the other on one byte memory that
//!   begins with the settings, give exactly the values that the log has.
//! - `InOrder scripts log` (`specs/ScriptOrder.antt`): each agent's entries are its script's accesses in order, up to
//!   the end of an item, and the entries of one item are neighbours.
//!
//! [`Flat`] is that byte memory as a program: its `serve` is one step of the replay, and [`number_put`] is what a store puts.
//! What these definitions say of loads
//! and stores, and how a log goes on by an entry or by an item, are laws: [`stores_are_loaded`], [`served_logs_go_on`] and
//! [`orderly_logs_go_on`].
#![tactic(auto)]

pub use access::{
    ADDRESS_LIMIT, Access, CHUNK_BYTES, LINE_BYTES, LINE_CHUNKS, Operand, Setting, fits,
};
pub use flat::{Flat, value_of};
pub use item::{Group, Item, Script};
pub use laws::{orderly_logs_go_on, served_logs_go_on, stores_are_loaded};
pub use log::{Done, Log};
pub use put::{cut, number_put};

mod access;
mod flat;
mod item;
mod laws;
mod log;
mod put;
