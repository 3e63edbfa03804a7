//! Why a phase rule of the requests that are not over is broken at the next clock of a trace: rule 4,
//! queue depth, and rule 18, deferred IDs and outstanding requests.
//!
//! [`queue_depth`] and [`outstanding`] are asked with a [`Table`](fsb_owner_feed::Table) and the next
//! sample, before the table takes it. What they say is exact where requests keep their distance and
//! responses their time in the samples before; of the next sample nothing is asked.
//!
//! Next: fsb_why_queue, whose `Queue` asks both.
#![tactic(auto)]

pub use depth::queue_depth;
pub use ids::outstanding;

mod depth;
mod ids;
mod words;
