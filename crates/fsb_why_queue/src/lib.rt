//! Why a phase rule of the queue is broken at the next clock of a trace: a machine beside `Why` of
//! fsb_why, for the rules that rest on requests and not on the lines of a few clocks.
//!
//! [`Queue`] keeps the rows of the requests that are not over, and is asked with the next sample
//! before it takes it. It stands for traces in which requests keep their distance and responses
//! their time, as they do where no rule was broken; of the next sample nothing is asked. The
//! answers are exact for the rules of which `is_queue_rule` holds: 4, 11 to 16 and 18. With those of
//! `is_line_rule` in fsb_why these are all twenty.
//!
//! Next: fsb_reasons, whose `specs/Holds.antt` says what each reason claims.
#![tactic(auto)]

pub use data::Transfer;
pub use laws::{kept_rules_keep_order, unbroken_traces_are_orderly};
pub use next::Next;
pub use queue::{Queue, is_queue_rule};
pub use snoops::Snooping;

mod code;
mod data;
mod kinds;
mod laws;
mod next;
mod queue;
mod ready;
mod snoops;
