//! Tests of scope_copy: a small dump of lower-case names, what is written of its parts, and what the strict readers say of
//! that.
//!
//! `dumps` has the texts, the dump's and those that are to be written, and `copied` compares.
//!
//! Nothing is promised. Read scope_copy next.
#![tactic(auto)]

#[cfg(test)]
mod copied;
#[cfg(test)]
mod dumps;
