//! The row of a line.

ghost use Rattle.std.specs.Prelude.{◌≡◌, ◌<◌, ◌≤◌, ◌++◌, nat_eq, IfOk, OnOk, option_map, slice_get};
ghost use Rattle.std.specs.List.{filter};
ghost use Rattle.fsb_signal.specs.DumpText.{lowest_of, width_of};
ghost use Rattle.scope_save.specs.Bits.{word_text};
ghost use Rattle.scope_save.specs.SaveText.{first_text, headed_text, is_address_range, is_shown_whole, joined_text, named_text, radix_text, row_text, shown_text, single_text, wires_at};

use crate::bit::{place_in, put_bit, put_pieces};
use crate::name::put_path;
use crate::text::{put, put_number};
use fsb_signal::signal_at;
use scope_pick::{Variable, Written};
use scope_wiring::Wire;
use std::alloc::{AllocError, Global};
use vcd_way::Part;

/// The number of A_n.
const ADDRESS: u8 = 10;

/// Appends the row of a line; nothing where it has no wire.
#[tactic(auto, unfolding(crate::specs::SaveText::row_text))]
pub(crate) fn put_row(
    text: &mut Vec<u8>,
    alloc: Global,
    variables: &[Variable],
    wires: &[Wire],
    line: u8,
) -> Result<(), AllocError>
    requires { line < 22 }
    ensures { OnOk result
        (text.new.items ≡ text.old.items ++ row_text variables.now wires.now line) }
{
    let here = wires_at(alloc, wires, line)?;
    put_headed(text, variables, &here, line, here.first())
}

fn wires_at(alloc: Global, wires: &[Wire], line: u8) -> Result<Vec<Wire>, AllocError>
    ensures { IfOk result (λ v. v.items ≡ wires_at wires.now line) }
{
    wires
        .iter()
        .copied()
        .filter(|wire| wire.tap.line == line)
        .collect(alloc)
}

// The row of a line with these wires, of which this is the first, if there is one.
#[tactic(auto, unfolding(crate::specs::SaveText::headed_text))]
fn put_headed(
    text: &mut Vec<u8>,
    variables: &[Variable],
    here: &[Wire],
    line: u8,
    wire: Option<&Wire>,
) -> Result<(), AllocError>
    requires { line < 22 }
    ensures { OnOk result (text.new.items ≡ text.old.items
        ++ headed_text variables.now here.now line (option_map (λ w. w.now) wire.entry)) }
{
    match wire {
        None => Ok(()),
        Some(wire) => put_first(text, variables, here, line, wire),
    }
}

#[tactic(auto, unfolding(crate::specs::SaveText::first_text))]
fn put_first(
    text: &mut Vec<u8>,
    variables: &[Variable],
    here: &[Wire],
    line: u8,
    wire: &Wire,
) -> Result<(), AllocError>
    requires { line < 22 }
    ensures { OnOk result
        (text.new.items ≡ text.old.items ++ first_text variables.now here.now line wire.now) }
{
    put(text, "@")?;
    put(text, radix_of(line, wire.tap.inverted))?;
    put(text, "\n")?;
    put_by(text, variables, here, line, wire)?;
    put(text, "\n")
}

// What a line is shown by, whose first wire is this one.
fn put_by(
    text: &mut Vec<u8>,
    variables: &[Variable],
    here: &[Wire],
    line: u8,
    wire: &Wire,
) -> Result<(), AllocError>
    requires { line < 22 }
    ensures { OnOk result (text.new.items ≡ text.old.items ++ named_text variables.now here.now line
        wire.now.tap.part (slice_get variables.now wire.now.index)) }
{
    put_named(
        text,
        variables,
        here,
        line,
        wire.tap.part,
        variables.get(wire.index),
    )
}

// How GTKWave writes the value of a line, whose wires are high when asserted or not.
#[tactic(auto, unfolding(crate::specs::SaveText::radix_text))]
fn radix_of(line: u8, is_high: bool) -> &'static str
    requires { line < 22 }
    ensures { result.now ≡ radix_text line is_high }
{
    let width = signal_at(line).width;
    if width <= 1 {
        "28"
    } else if width <= 3 {
        if is_high { "28" } else { "68" }
    } else if line == ADDRESS {
        if is_high { "100022" } else { "200062" }
    } else if is_high {
        "22"
    } else {
        "62"
    }
}

// What a line is shown by, whose first wire has this part of a variable.
#[tactic(auto, unfolding(crate::specs::SaveText::named_text))]
fn put_named(
    text: &mut Vec<u8>,
    variables: &[Variable],
    here: &[Wire],
    line: u8,
    part: Part,
    variable: Option<&Variable>,
) -> Result<(), AllocError>
    requires { line < 22 }
    ensures { OnOk result (text.new.items ≡ text.old.items
        ++ named_text variables.now here.now line part (option_map (λ v. v.now) variable.entry)) }
{
    match variable {
        None => Ok(()),
        Some(variable) => put_shown(text, variables, here, line, part, variable),
    }
}

#[tactic(auto, unfolding(crate::specs::SaveText::shown_text))]
fn put_shown(
    text: &mut Vec<u8>,
    variables: &[Variable],
    here: &[Wire],
    line: u8,
    part: Part,
    variable: &Variable,
) -> Result<(), AllocError>
    requires { line < 22 }
    ensures { OnOk result (text.new.items
        ≡ text.old.items ++ shown_text variables.now here.now line part variable.now) }
{
    if is_shown_whole(line, part, variable) {
        put_path(text, variable)
    } else if signal_at(line).width <= 1 {
        put_single(text, variable, place_in(part, 0))
    } else {
        put_joined(text, variables, here, line)
    }
}

// Whether the variable is shown as it is declared.
#[tactic(auto, unfolding(crate::specs::SaveText::is_shown_whole))]
fn is_shown_whole(line: u8, part: Part, variable: &Variable) -> bool
    ensures { result ≡ is_shown_whole line part variable.now }
{
    match part {
        Part::Whole => line != ADDRESS || is_address_range(variable.range),
        Part::Bits(_) => false,
    }
}

fn is_address_range(written: Written) -> bool
    ensures { result ≡ is_address_range written }
{
    match written {
        Written::Numbers(range) => range.left == 35 && range.right == 3,
        Written::Absent | Written::Unreadable => false,
    }
}

#[tactic(auto, unfolding(crate::specs::SaveText::single_text))]
fn put_single(text: &mut Vec<u8>, variable: &Variable, place: Option<u64>) -> Result<(), AllocError>
    ensures { OnOk result (text.new.items ≡ text.old.items ++ single_text variable.now place) }
{
    match place {
        None => Ok(()),
        Some(place) => put_bit(text, variable, place),
    }
}

// A word that is put together of bits.
#[tactic(auto, unfolding(crate::specs::SaveText::joined_text))]
fn put_joined(
    text: &mut Vec<u8>,
    variables: &[Variable],
    here: &[Wire],
    line: u8,
) -> Result<(), AllocError>
    requires { line < 22 }
    ensures { OnOk result
        (text.new.items ≡ text.old.items ++ joined_text variables.now here.now line) }
{
    let signal = signal_at(line);
    let lowest = u64::from(lowest_bit(line));
    put(text, "#{")?;
    put(text, signal.name)?;
    put(text, "[")?;
    put_number(text, (lowest + u64::from(signal.width)).saturating_sub(1))?;
    put(text, ":")?;
    put_number(text, lowest)?;
    put(text, "]}")?;
    put_word(text, variables, here, signal.width)
}

// The number of the lowest bit of a line.
fn lowest_bit(line: u8) -> u8
    ensures { result ≡ lowest_of line }
{
    if line == ADDRESS { 3 } else { 0 }
}

// The bits of a line of this width, from the highest to the lowest.
fn put_word(
    text: &mut Vec<u8>,
    variables: &[Variable],
    here: &[Wire],
    width: u8,
) -> Result<(), AllocError>
    ensures { OnOk result
        (text.new.items ≡ text.old.items ++ word_text variables.now here.now width) }
{
    let mut bit = width;
    while bit > 0 {
        bit -= 1;
        put_pieces(text, variables, here, bit)?;
    }
    Ok(())
}
