ghost use Rattle.std.specs.Prelude.{◌≡◌, ◌<◌, ◌≤◌, IsTrue};
ghost use Rattle.scope_pick.specs.Places.{line_width, is_multi_bit, is_line_needed, lowest_index, highest_index, is_range_of, place_by_index, place_within, known_range, place_of};

use crate::variable::{Range, Written};
use fsb_signal::signal_at;

/// Which bits of a variable are a line: those from the low one on, in their order or turned.
#[derive(Clone, Copy, Debug)]
pub struct Place {
    pub low: u32,
    pub turned: bool,
}

const ADDRESS: u8 = 10;

/// How many bits the line has.
pub fn line_width(line: u8) -> u32
    requires { line < 22 }
    ensures width { result ≡ line_width line }
    ensures small { result < 256 }
{
    u32::from(signal_at(line).width)
}

/// Whether a dump must declare the line.
pub fn is_line_needed(line: u8) -> bool
    requires { line < 22 }
    ensures { result ≡ is_line_needed line }
{
    signal_at(line).needed
}

/// Whether the line has more than one bit.
#[tactic(auto, unfolding(crate::specs::Places::is_multi_bit))]
pub fn is_multi_bit(line: u8) -> bool
    ensures { result ≡ is_multi_bit line }
{
    line < 22 && 1 < line_width(line)
}

/// Which bits of a variable of this width and range are the line, or `None` where it cannot be the line.
#[tactic(auto, unfolding(crate::specs::Places::place_of))]
pub fn place_of(line: u8, width: u32, written: Written) -> Option<Place>
    requires { line < 22 }
    ensures { result ≡ place_of line width written }
{
    match known_range(width, written) {
        None => None,
        Some(range) => place_within(line, width, range),
    }
}

/// The range of a variable of this width, or `None` where it cannot be read.
#[tactic(auto, unfolding(crate::specs::Places::known_range))]
pub fn known_range(width: u32, written: Written) -> Option<Range>
    ensures { result ≡ known_range width written }
{
    match written {
        Written::Absent => Some(Range {
            left: width.saturating_sub(1),
            right: 0,
        }),
        Written::Numbers(range) => Some(range),
        Written::Unreadable => None,
    }
}

#[tactic(auto, unfolding(crate::specs::Places::place_within))]
fn place_within(line: u8, width: u32, range: Range) -> Option<Place>
    requires { line < 22 }
    ensures { result ≡ place_within line width range }
{
    let bits = line_width(line);
    if width == bits {
        return Some(Place {
            low: 0,
            turned: false,
        });
    }
    if bits > 1 && bits < width && is_range_of(width, range) {
        return place_by_index(line, range);
    }
    None
}

/// Whether a variable of this width can have the range.
#[tactic(auto, unfolding(crate::specs::Places::is_range_of))]
pub fn is_range_of(width: u32, range: Range) -> bool
    ensures { result ≡ is_range_of width range }
{
    if width == 0 {
        return false;
    }
    if range.right <= range.left {
        range.left - range.right == width - 1
    } else {
        range.right - range.left == width - 1
    }
}

#[tactic(auto, unfolding(crate::specs::Places::place_by_index))]
fn place_by_index(line: u8, range: Range) -> Option<Place>
    requires { line < 22 }
    ensures { result ≡ place_by_index line range }
{
    let lowest = lowest_index(line);
    let highest = highest_index(line);
    if range.right <= range.left {
        if range.right <= lowest && highest <= range.left {
            return Some(Place {
                low: lowest - range.right,
                turned: false,
            });
        }
        return None;
    }
    if range.left <= lowest && highest <= range.right {
        return Some(Place {
            low: range.right - highest,
            turned: true,
        });
    }
    None
}

/// The index of the line's lowest bit.
#[tactic(auto, unfolding(crate::specs::Places::lowest_index))]
pub fn lowest_index(line: u8) -> u32
    ensures index { result ≡ lowest_index line }
    ensures small { result ≤ 3 }
{
    if line == ADDRESS { 3 } else { 0 }
}

#[tactic(auto, unfolding(crate::specs::Places::highest_index))]
fn highest_index(line: u8) -> u32
    requires { line < 22 }
    ensures { result ≡ highest_index line }
{
    (lowest_index(line) + line_width(line)).saturating_sub(1)
}
