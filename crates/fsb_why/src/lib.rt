//! Why a phase rule is broken at the last clock of a trace: a machine beside the checker, which takes the same samples and
//! answers for a rule with a reason that holds there.
//!
//! [`Why`] keeps what the last clock and the three before it show, who won, and when the last request began: no history,
//! and no memory. It follows any trace, also past a broken rule. `Explains` says what an answer is worth: a reason is of the
//! rule and holds, and none says that the rule is kept. The answers are exact for the rules that `is_line_rule` names:
//! those that rest on the lines of a few clocks and on arbitration. For the others it has none.
//!
//! Next: fsb_reasons, whose `specs/Holds.antt` says what each reason claims.
#![tactic(auto)]

pub use look::Look;
pub use why::{Why, is_line_rule};

mod begins;
mod codes;
mod lines;
mod look;
mod parity;
mod why;
