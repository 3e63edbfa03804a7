//! Whether a deferred line is given again, which is rule 31.
//!
//! [`is_given_again`] looks at pairs of the rows that are kept. A pair of which one row is gone broke the rule before, so it
//! answers for a trace that broke none before its last clock. Read fsb_owner_judge and fsb_owner_rows before.
#![tactic(auto)]

pub use again::is_given_again;

mod again;
