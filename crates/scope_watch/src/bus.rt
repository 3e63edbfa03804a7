//! The wires that are picked of a header, as a reader of values takes them.
ghost use Rattle.std.specs.Prelude.{◌≡◌, map, option_map, List, IfOk};
ghost use Rattle.vcd_scan.specs.Wired.{wires_told};
ghost use Rattle.fsb_signal.specs.declared.marks.Marks.{Marks};
ghost use Rattle.vcd_grammar.specs.Judging.{marks_of_lines};
ghost use Rattle.scope_way.specs.Wired.{AreLawfulWires, wired_lines};
ghost use Rattle.scope_watch.specs.Buses.{codes_of, coded, taps_at, tap_at, tap_if, IsPicked};

use fsb_signal::Marks;
use scope_pick::Variable;
use scope_way::picked_wires_are_lawful;
use scope_wiring::{Choice, Picking, Refusal, Wire, Wiring, is_wired, pick};
use std::alloc::{AllocError, Global};
use vcd_scan::Wires;
use vcd_way::Tap;

/// The wires of the bus.
#[derive(Drop)]
pub struct Bus {
    /// As they were picked, for who tells of them.
    pub wiring: Wiring,
    /// As a reader of values takes them.
    pub wires: Wires,
}

/// The wires of the bus, or why they are not picked.
#[derive(Drop)]
pub enum Picked {
    Wired(Bus),
    Refused(Refusal),
}

/// Picks the wires of the bus among the variables of a header, as the user chooses them.
pub fn pick_bus(
    alloc: Global,
    variables: &[Variable],
    choice: &Choice,
) -> Result<Picked, AllocError>
    ensures { IfOk result (IsPicked variables.now choice.now) }
{
    picked_wires_are_lawful();
    match pick(alloc, variables, choice)? {
        Picking::Refused(refusal) => Ok(Picked::Refused(refusal)),
        Picking::Wired(wiring) => {
            let wires = wires_of(alloc, variables, &wiring.wires)?;
            Ok(Picked::Wired(Bus { wiring, wires }))
        }
    }
}

/// The codes of these variables, each with the taps that it stands for.
fn wires_of(alloc: Global, variables: &[Variable], picked: &[Wire]) -> Result<Wires, AllocError>
    requires { AreLawfulWires picked.now }
    ensures lines { IfOk result (λ w. (wires_told w).lines ≡ wired_lines picked.now) }
    ensures codes { IfOk result (λ w.
        (wires_told w).codes ≡ map (coded picked.now variables.now) (codes_of variables.now)) }
{
    let lines = lines_of(alloc, picked)?;
    let mut wires = Wires::new(alloc, lines);
    let mut rest = variables;
    while let Some((variable, more)) = rest.split_first() {
        let taps = taps_of(alloc, variables, picked, &variable.code)?;
        wires.add(alloc, &variable.code, taps)?;
        rest = more;
    }
    Ok(wires)
}

/// The lines that have wires.
#[tactic(auto, unfolding(scope_way::specs::Wired::wired_lines))]
fn lines_of(alloc: Global, picked: &[Wire]) -> Result<Vec<u8>, AllocError>
    ensures { IfOk result (λ lines. lines.items ≡ wired_lines picked.now) }
{
    picked.iter().map(|wire| wire.tap.line).collect(alloc)
}

/// The taps of the wires whose variables have the code.
fn taps_of(
    alloc: Global,
    variables: &[Variable],
    picked: &[Wire],
    code: &[u8],
) -> Result<Vec<Tap>, AllocError>
    ensures { IfOk result (λ taps. taps.items ≡ taps_at variables.now code.now picked.now) }
{
    picked
        .iter()
        .filter_map(|wire| tap_of(variables, code, wire))
        .collect(alloc)
}

/// The tap of a wire, if its variable has the code.
#[tactic(auto, unfolding(crate::specs::Buses::tap_at))]
fn tap_of(variables: &[Variable], code: &[u8], wire: &Wire) -> Option<Tap>
    ensures { result ≡ tap_at variables.now code.now wire.now }
{
    tap_if(code, wire.tap, variables.get(wire.index))
}

/// The tap, if the variable has the code.
#[tactic(auto, unfolding(crate::specs::Buses::tap_if))]
fn tap_if(code: &[u8], tap: Tap, variable: Option<&Variable>) -> Option<Tap>
    ensures { result ≡ tap_if code.now tap (option_map (λ v. v.now) variable.entry) }
{
    match variable {
        None => None,
        Some(variable) => {
            if code == variable.code.as_slice() {
                Some(tap)
            } else {
                None
            }
        }
    }
}

/// Which of the two parity lines these wires have.
pub fn marks_of(wires: &[Wire]) -> Marks
    ensures { result ≡ marks_of_lines (wired_lines wires.now) }
{
    Marks {
        ap: is_wired(wires, 20),
        rp: is_wired(wires, 21),
    }
}
