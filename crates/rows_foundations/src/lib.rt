//! Tests of the foundations through their public calls: sources and sinks, words over clocks, the lines of the bus, codes, hazards,
//! accesses, the states of one line of memory, and dumps as they are written.
//!
//! A module tries one crate: `sources`, `sinks` and `files` go over fsb_io, `gathered` over fsb_gather, `counted` over fsb_count,
//! `signals` over fsb_signal, `codes` over fsb_encode, `hazards` over fsb_hazard, `accesses` over fsb_access, `states` over fsb_line,
//! `dumps` over vcd_write. `fakes` has the outsides that are handed to files.
//!
//! Nothing is promised. Read rows_judged next, which has what is worked out by hand of whole traces.
#![tactic(auto)]

#[cfg(test)]
mod accesses;
#[cfg(test)]
mod codes;
#[cfg(test)]
mod counted;
#[cfg(test)]
mod dumps;
#[cfg(test)]
mod fakes;
#[cfg(test)]
mod files;
#[cfg(test)]
mod gathered;
#[cfg(test)]
mod hazards;
#[cfg(test)]
mod signals;
#[cfg(test)]
mod sinks;
#[cfg(test)]
mod sources;
#[cfg(test)]
mod states;
