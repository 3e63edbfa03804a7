//! Benches that are run and played from outside, by the public calls of `fsb_core` and `fsb_play`: what lies in caches and in
//! memory between clocks, what objects that come and go leave, and the log and the dump of a whole run.
//!
//! `benches` makes benches and takes clocks; `lent` goes over the caches and memory of worked and of `mixed` runs; `plugged` compares
//! whole runs, entry by entry, under objects that are plugged and unplugged; `played` is the one play. Nothing is promised.
//!
//! `Stubborn` is an object that other trials use too. Read rows_calls next, which goes through the top call.
#![tactic(auto)]

pub use stubborn::Stubborn;

#[cfg(test)]
mod benches;
#[cfg(test)]
mod lent;
#[cfg(test)]
mod mixed;
#[cfg(test)]
mod played;
#[cfg(test)]
mod plugged;
mod stubborn;
