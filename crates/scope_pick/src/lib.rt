//! Which declared variables of a dump are the lines of the bus.
//!
//! `names` says which line a name stands for, `place` which bits of a variable are the line, `split` which bits of a
//! word a dump declares one by one. `wires` lists the lines by the variables that are named like them. `scopes` finds
//! the one scope that has every needed line. `told` says what else is there.
//!
//! Each call answers exactly what `specs/` defines over the whole list of declarations. Nothing is read here: a reader
//! of headers makes the declarations. What a user names, and the one call over it all, is in scope_wiring.
#![tactic(auto)]

pub use groups::{Names, group_at, groups_of};
pub use header::Header;
pub use index::{after_last, before_last, index_in, index_of, indexed};
pub use names::{is_exact_name, line_named, without_escape};
pub use numbering::{is_same_wire, is_wire_kind};
pub use place::{
    Place, is_line_needed, is_multi_bit, is_range_of, known_range, line_width, lowest_index,
    place_of,
};
pub use scopes::{
    ScopeFault, buses, first_in, found_in, fullest, is_ambiguous, is_head, is_listed,
    is_scope_needed, is_settled, is_whole, picked, qualified,
};
pub use split::{
    Bit, BitName, base_of, bit_at, bit_in, bit_name, bits, has_bits_from, is_first_bit, is_joined,
};
pub use told::{ambiguous_lines, other_names, unfound_lines};
pub use variable::{Range, Variable, Written};
pub use wires::{Named, named_lines, unfit_lines};
pub use words::Words;

mod groups;
mod header;
mod index;
mod names;
mod numbering;
mod place;
mod scopes;
mod split;
mod told;
mod variable;
mod wires;
mod words;
