//! The heads of a bus: what the snoop that is next, the response that is next and the data that are on the way rest on, sample
//! by sample.
//!
//! At most one request is being snooped, one is the next to respond, and the data of one move. Over a trace `snooped_count`
//! is the number of the first, `response_count` that of the second, and `transfer_of` says how many chunks came of the
//! third. `Stands` says which histories heads stand for; who knows the requests tells `Heads` what they make of a sample,
//! and gets the heads after it.
#![tactic(auto)]

pub use heads::{Heads, Next, responds, stalls};

mod heads;
