//! Tests of `vcd_cut` and `vcd_header`: small headers of several tools' forms, with the declarations,
//! the sections or the first fault that each has, worked out by hand from docs/reference/dump-format.md.
//!
//! `headers` has the texts. `tokens` says where tokens stand, `declared` what a header declares, `faults`
//! what is none. Each text is read whole, and in pieces of each size.
//!
//! Nothing is promised. Read vcd_header next.
#![tactic(auto)]

#[cfg(test)]
mod declared;
#[cfg(test)]
mod faults;
#[cfg(test)]
mod headers;
#[cfg(test)]
mod tokens;
