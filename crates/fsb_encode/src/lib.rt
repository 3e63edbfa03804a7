//! Request codes: the two clocks in which a request stands on the bus.
#![tactic(auto)]

pub use burst::chunk_order;
pub use decoding::{DecodeFault, clocks_hold_request, decode};
pub use request::{Kind, Pair, Request, codes_differ, encode};

mod burst;
mod decoding;
mod request;
