//! Tests of what p6scope says of what was found, over values that are made by hand.
//!
//! `parts` has the parts of a dump, `times` the scales and the parts that words with times name.
//!
//! Nothing is promised. Read scope_report next.
#![tactic(auto)]

#[cfg(test)]
mod parts;
#[cfg(test)]
mod times;
