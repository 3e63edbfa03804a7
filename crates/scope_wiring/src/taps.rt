//! What is taken of a variable as a line of the bus.

ghost use Rattle.std.specs.Prelude.{◌≡◌, ◌<◌, IfSome, true};
ghost use Rattle.scope_wiring.specs.Taps.{part_at, tap_at, bit_tap, tap_if, tap_of, bit_at_index, place_between, place_named, place_if, tap_named};

use scope_pick::{
    Place, Range, Variable, is_range_of, is_wire_kind, known_range, line_width, place_of,
};
use vcd_way::{BitRun, Part, Tap};

#[tactic(auto, unfolding(crate::specs::Taps::part_at))]
fn part_at(line: u8, width: u32, place: Place) -> Part
    requires { line < 22 }
    ensures { result ≡ part_at line width place }
{
    let bits = line_width(line);
    if width == bits && !place.turned {
        return Part::Whole;
    }
    Part::Bits(BitRun {
        count: bits as u8,
        low: place.low,
        lowest: 0,
        is_turned: place.turned,
    })
}

#[tactic(auto, unfolding(crate::specs::Taps::tap_at))]
fn tap_at(line: u8, width: u32, inverted: bool, place: Place) -> Tap
    requires { line < 22 }
    ensures { result ≡ tap_at line width inverted place }
{
    Tap {
        line,
        width,
        part: part_at(line, width, place),
        inverted,
    }
}

/// One bit of a word, from its lowest on.
#[tactic(auto, unfolding(crate::specs::Taps::bit_tap))]
pub(crate) fn bit_tap(line: u8, number: u8, inverted: bool) -> Tap
    ensures { result ≡ bit_tap line number inverted }
{
    Tap {
        line,
        width: 1,
        part: Part::Bits(BitRun {
            count: 1,
            low: 0,
            lowest: number,
            is_turned: false,
        }),
        inverted,
    }
}

#[tactic(auto, unfolding(crate::specs::Taps::tap_if))]
fn tap_if(line: u8, variable: &Variable, inverted: bool, place: Option<Place>) -> Option<Tap>
    requires { line < 22 }
    ensures { result ≡ tap_if line variable.now inverted place }
{
    match place {
        None => None,
        Some(place) => {
            if is_wire_kind(&variable.kind) {
                Some(tap_at(line, variable.width, inverted, place))
            } else {
                None
            }
        }
    }
}

/// What is taken of a variable as the line, or `None` where it cannot be the line.
#[tactic(auto, unfolding(crate::specs::Taps::tap_of))]
pub fn tap_of(line: u8, variable: &Variable, inverted: bool) -> Option<Tap>
    ensures { result ≡ tap_of line variable.now inverted }
{
    if line < 22 {
        tap_if(
            line,
            variable,
            inverted,
            place_of(line, variable.width, variable.range),
        )
    } else {
        None
    }
}

/// What is taken of a variable at bits that the user names, or `None` where it lacks them or they are not as many as
/// the line's.
#[tactic(auto, unfolding(crate::specs::Taps::tap_named))]
pub fn tap_named(line: u8, variable: &Variable, inverted: bool, bits: Range) -> Option<Tap>
    ensures { result ≡ tap_named line variable.now inverted bits }
{
    if line < 22 {
        let place = place_if(
            line,
            variable.width,
            known_range(variable.width, variable.range),
            bits,
        );
        tap_if(line, variable, inverted, place)
    } else {
        None
    }
}

#[tactic(auto, unfolding(crate::specs::Taps::place_if))]
fn place_if(line: u8, width: u32, range: Option<Range>, bits: Range) -> Option<Place>
    requires { line < 22 }
    ensures { result ≡ place_if line width range bits }
{
    match range {
        None => None,
        Some(range) => place_named(line, width, range, bits),
    }
}

#[tactic(auto, unfolding(crate::specs::Taps::place_named))]
fn place_named(line: u8, width: u32, range: Range, bits: Range) -> Option<Place>
    requires { line < 22 }
    ensures { result ≡ place_named line width range bits }
{
    if is_range_of(line_width(line), bits) && is_range_of(width, range) {
        place_between(
            bit_at_index(range, bits.left),
            bit_at_index(range, bits.right),
        )
    } else {
        None
    }
}

#[tactic(auto, unfolding(crate::specs::Taps::place_between))]
fn place_between(high: Option<u32>, low: Option<u32>) -> Option<Place>
    ensures { result ≡ place_between high low }
{
    match high {
        None => None,
        Some(high) => match low {
            None => None,
            Some(low) => {
                if low <= high {
                    Some(Place { low, turned: false })
                } else {
                    Some(Place {
                        low: high,
                        turned: true,
                    })
                }
            }
        },
    }
}

#[tactic(auto, unfolding(crate::specs::Taps::bit_at_index))]
fn bit_at_index(range: Range, index: u32) -> Option<u32>
    ensures { result ≡ bit_at_index range index }
{
    if range.right <= range.left {
        if range.right <= index && index <= range.left {
            return Some(index - range.right);
        }
        return None;
    }
    if range.left <= index && index <= range.right {
        return Some(range.right - index);
    }
    None
}
