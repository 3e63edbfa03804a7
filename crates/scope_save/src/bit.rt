//! The bits of variables that stand for the bits of a line.

ghost use Rattle.std.specs.Prelude.{◌≡◌, ◌++◌, OnOk, option_map};
ghost use Rattle.std.specs.List.{flat_map};
ghost use Rattle.scope_save.specs.Bits.{bit_text, piece_text, pieces_text, place_in, place_of, spaced_text, wire_text};

use crate::name::put_path;
use crate::text::{put, put_number};
use scope_pick::Variable;
use scope_wiring::Wire;
use std::alloc::AllocError;
use vcd_way::{BitRun, Part};

/// The bit of a variable, from its last one up, that stands for this bit of the line, if it has one.
#[tactic(auto, unfolding(crate::specs::Bits::place_in))]
pub(crate) fn place_in(part: Part, bit: u8) -> Option<u64>
    ensures { result ≡ place_in part bit }
{
    match part {
        Part::Whole => Some(u64::from(bit)),
        Part::Bits(run) => place_of(run, bit),
    }
}

#[tactic(auto, unfolding(crate::specs::Bits::place_of))]
fn place_of(run: BitRun, bit: u8) -> Option<u64>
    ensures { result ≡ place_of run bit }
{
    if bit < run.lowest || run.count <= bit - run.lowest {
        return None;
    }
    let place = bit - run.lowest;
    if run.is_turned {
        Some(u64::from(run.low) + u64::from(run.count - 1 - place))
    } else {
        Some(u64::from(run.low) + u64::from(place))
    }
}

/// Appends a bit of a variable: its name, and before it which one, counted from the first, where it has several.
#[tactic(auto, unfolding(crate::specs::Bits::bit_text))]
pub(crate) fn put_bit(text: &mut Vec<u8>, variable: &Variable, place: u64) -> Result<(), AllocError>
    ensures { OnOk result (text.new.items ≡ text.old.items ++ bit_text variable.now place) }
{
    if 1 < variable.width {
        put(text, "(")?;
        put_number(text, u64::from(variable.width - 1).saturating_sub(place))?;
        put(text, ")")?;
    }
    put_path(text, variable)
}

/// Appends the bits that stand for this bit of the line, each behind a space.
pub(crate) fn put_pieces(
    text: &mut Vec<u8>,
    variables: &[Variable],
    wires: &[Wire],
    bit: u8,
) -> Result<(), AllocError>
    ensures { OnOk result
        (text.new.items ≡ text.old.items ++ pieces_text variables.now wires.now bit) }
{
    for wire in wires {
        put_wire(text, variables, wire, bit)?;
    }
    Ok(())
}

#[tactic(auto, unfolding(crate::specs::Bits::wire_text))]
fn put_wire(
    text: &mut Vec<u8>,
    variables: &[Variable],
    wire: &Wire,
    bit: u8,
) -> Result<(), AllocError>
    ensures { OnOk result
        (text.new.items ≡ text.old.items ++ wire_text variables.now bit wire.now) }
{
    put_piece(text, variables.get(wire.index), wire.tap.part, bit)
}

#[tactic(auto, unfolding(crate::specs::Bits::piece_text))]
fn put_piece(
    text: &mut Vec<u8>,
    variable: Option<&Variable>,
    part: Part,
    bit: u8,
) -> Result<(), AllocError>
    ensures { OnOk result (text.new.items
        ≡ text.old.items ++ piece_text (option_map (λ v. v.now) variable.entry) part bit) }
{
    match variable {
        None => Ok(()),
        Some(variable) => put_spaced(text, variable, place_in(part, bit)),
    }
}

#[tactic(auto, unfolding(crate::specs::Bits::spaced_text))]
fn put_spaced(text: &mut Vec<u8>, variable: &Variable, place: Option<u64>) -> Result<(), AllocError>
    ensures { OnOk result (text.new.items ≡ text.old.items ++ spaced_text variable.now place) }
{
    match place {
        None => Ok(()),
        Some(place) => {
            put(text, " ")?;
            put_bit(text, variable, place)
        }
    }
}
