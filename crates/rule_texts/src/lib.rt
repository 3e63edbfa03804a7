//! The text of each rule of the bus: 1 to 20 the phase rules, 21 to 31 the rules of ownership.
//!
//! `text` says what a rule asks, why the bus needs it, and what is mostly wrong where it is broken; `title` names it. Both
//! have an answer exactly for 1 to 31. docs/phase-rules.md and docs/ownership-rules.md are the source of the texts:
//! lab/rule_texts.py writes them from these pages, and says whether they are still the same.
//!
//! Next: fsb_rules and fsb_owners, which say when a rule is broken.
#![tactic(auto)]

pub use rule::{text, title};

mod ownership;
mod phase;
mod rule;
