//! The table of requests, fed with worked runs whose numbers were worked out by hand.
//!
//! Nothing is promised. Read fsb_owner_feed next.
#![tactic(auto)]

#[cfg(test)]
mod found;
