//! The one call over all options.

ghost use Rattle.std.specs.Prelude.{◌≡◌, IfOk};
ghost use Rattle.scope_wiring.specs.Pickings.{settled_in, IsPicking, IsPickingWith, IsPickingAt};

use crate::candidates::candidates;
use crate::cause::Cause;
use crate::home::{Home, home_of};
use crate::options::{cause_with, settled_lines};
use crate::text::LineOption;
use crate::wire::{Wire, absent_lines, wires_with};
use scope_pick::{Named, Variable, named_lines};
use std::alloc::{AllocError, Global};

/// What the user asks for.
#[derive(Debug, Drop)]
pub struct Choice {
    /// The path of the scope that is judged; a dot is the root.
    pub scope: Option<Vec<u8>>,
    /// The variables that the user names as lines.
    pub lines: Vec<LineOption>,
    /// The lines that the user leaves out.
    pub without: Vec<u8>,
}

/// The wires of the bus.
#[derive(Debug, Drop)]
pub struct Wiring {
    pub home: Home,
    /// In the order of the options, and then of the header.
    pub wires: Vec<Wire>,
    /// The lines that are not there: they read as never asserted.
    pub absent: Vec<u8>,
}

/// Why they are not picked.
#[derive(Debug, Drop)]
pub struct Refusal {
    pub cause: Cause,
    /// By the indices of declarations: scopes by their first ones, or variables.
    pub candidates: Vec<usize>,
}

#[derive(Debug, Drop)]
pub enum Picking {
    Wired(Wiring),
    Refused(Refusal),
}

/// The wires of the bus among the variables of a header, as the user chooses them, or why they are not to be told.
#[tactic(auto, unfolding(crate::specs::Pickings::settled_in))]
pub fn pick(alloc: Global, variables: &[Variable], choice: &Choice) -> Result<Picking, AllocError>
    ensures { IfOk result (IsPicking variables.now choice.now) }
{
    let names = named_lines(alloc, variables)?;
    let settled = settled_lines(alloc, &choice.lines, &choice.without)?;
    pick_with(alloc, variables, choice, &names, &settled)
}

fn pick_with(
    alloc: Global,
    variables: &[Variable],
    choice: &Choice,
    names: &[Named],
    settled: &[u8],
) -> Result<Picking, AllocError>
    ensures { IfOk result (IsPickingWith variables.now choice.now names.now settled.now) }
{
    let home = home_of(alloc, variables, names, settled, &choice.scope)?;
    pick_at(alloc, variables, choice, names, settled, home)
}

fn pick_at(
    alloc: Global,
    variables: &[Variable],
    choice: &Choice,
    names: &[Named],
    settled: &[u8],
    home: Home,
) -> Result<Picking, AllocError>
    ensures { IfOk result (IsPickingAt variables.now choice.now names.now settled.now home) }
{
    match cause_with(
        alloc,
        variables,
        &choice.lines,
        &choice.without,
        settled,
        home,
    )? {
        Some(cause) => {
            let candidates = candidates(
                alloc,
                variables,
                &choice.lines,
                names,
                settled,
                home,
                cause,
            )?;
            Ok(Picking::Refused(Refusal { cause, candidates }))
        }
        None => {
            let wires = wires_with(alloc, variables, &choice.lines, names, settled, home)?;
            let absent = absent_lines(alloc, &wires)?;
            Ok(Picking::Wired(Wiring {
                home,
                wires,
                absent,
            }))
        }
    }
}
