//! Waveforms whose numbers, winners and verdicts were worked out by hand: tests of the plain calls of `fsb_trace`, of the arbiter,
//! and of the two judges, the plain one of whole traces and the checker of `fsb_rules`.
//!
//! `numbers`, `winners` and `judged` go over the worked waveforms of rows_store, `outcomes` over the codes of outcomes; `requests`,
//! `replies`, `upgrades` and `parity` over waveforms that are laid out of pieces (`laid`), several for each phase rule, at both
//! sides of each of its bounds.
//!
//! `checked` is the checker over a whole trace, for the other crates that try it. Nothing is promised. rows_trials has the two
//! judges over random waveforms and over dumps.
#![tactic(auto)]

pub use checker::checked;

#[cfg(test)]
mod changed;
mod checker;
#[cfg(test)]
mod judged;
#[cfg(test)]
mod laid;
#[cfg(test)]
mod numbers;
#[cfg(test)]
mod outcomes;
#[cfg(test)]
mod parity;
#[cfg(test)]
mod replies;
#[cfg(test)]
mod requests;
#[cfg(test)]
mod upgrades;
#[cfg(test)]
mod winners;
