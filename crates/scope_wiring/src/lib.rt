//! Which wires of a dump are the bus, as a user chooses them: the one call over the declarations of a header and all
//! options.
//!
//! `pick` answers the wires, each with what is taken of it, or the one cause against them with what may have been meant.
//! The wires are those of `wires_with`, and the causes those of `cause_with`, both ways.
//!
//! Next: scope_pick, which finds lines and scopes.
#![tactic(auto)]

pub use candidates::{found_count, heads};
pub use cause::Cause;
pub use home::{Home, scope_at, scope_named};
pub use meaning::Meaning;
pub use options::settled_lines;
pub use taps::{tap_named, tap_of};
pub use text::{LineOption, line_option, range_inside};
pub use wire::{Wire, absent_lines, is_wired};
pub use wiring::{Choice, Picking, Refusal, Wiring, pick};

mod candidates;
mod cause;
mod home;
mod meaning;
mod named_words;
mod options;
mod taps;
mod text;
mod wire;
mod wiring;
