//! Why a phase rule is broken at a clock: a reason for each case of each of the twenty rules, with the numbers that it
//! rests on, as request numbers, snoop ends, winners and the earliest clock that would have been right.
//!
//! `Holds` in `specs/` says what a reason says of a trace. A reason that holds names a rule that is broken at that clock,
//! and a broken rule has a reason that holds: these are the laws in `laws.rt`, of any trace and any clock.
//!
//! Next: fsb_trace, whose `specs/Rules.antt` has the rules.
#![tactic(auto)]

pub use laws::{
    answers_begin_at_the_earliest, broken_rules_have_reasons, reasons_name_broken_rules,
    verdicts_have_reasons,
};
pub use reason::{Concerned, Reason, SnoopLines, Wait};

mod laws;
mod reason;
