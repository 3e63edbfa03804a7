//! Tests of scope_watch: small dumps, and what is found of each, read whole and byte by byte.
//!
//! `dumps` has the texts. `checked` says what is found of them, `parts` where parts begin and end, `watched` which events are
//! shown, and what a source or
//! a watcher that stops makes of it.
//!
//! Nothing is promised. Read scope_watch next.
#![tactic(auto)]

#[cfg(test)]
mod checked;
#[cfg(test)]
mod dumps;
#[cfg(test)]
mod histories;
#[cfg(test)]
mod parts;
#[cfg(test)]
mod watched;
