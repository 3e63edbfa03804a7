//! Reasons that are found in worked traces, and the sentence of each.
//!
//! `queued` asks for those of the queue; `found` feeds traces that break a rule at their last
//! clock, and compares what is said of it; `texts` has the sentence of each reason once. Nothing is
//! promised.
#![tactic(auto)]

#[cfg(test)]
mod found;
#[cfg(test)]
mod queued;
#[cfg(test)]
mod texts;
