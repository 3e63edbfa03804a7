//! The command line of p6scope.
//!
//! `read_order` reads the words, by the kit's `clap`, into an order with parsed parts, or into a text to print: help, the
//! version, or an error of one or two lines. The small grammars have their definitions in `specs/`, and the calls that
//! read them answer exactly these: `read_moment`, `read_unit`, `read_count`, `read_rule`, `read_line_names`.
//!
//! Next: scope_wiring, which takes the wires of an order.
#![tactic(auto)]

pub use moment::{Moment, Unit, read_moment, read_unit};
pub use names::read_line_names;
pub use number::{read_count, read_rule};
pub use order::{Edge, Format, Order, Part, TableForm, Views, Wires};
pub use orders::{Reading, read_order};
pub use told::Told;

mod moment;
mod names;
mod number;
mod order;
mod orders;
mod part;
mod told;
mod usage;
mod views;
mod wires;
