//! The control lines by their names.

ghost use Rattle.std.specs.Prelude.{◌≡◌, ◌<◌, ◌≤◌, Some, length, slice_get};
ghost use Rattle.fsb_signal.specs.ControlLines.{line_named, line_names};

use crate::lines::Lines;
use bitflags::Flags;

/// The name of the control line of this number, and the line; the lines are numbered in the order of their bits.
pub fn control_line(number: usize) -> (&'static str, Lines)
    requires { number < 21 }
    ensures entry { slice_get line_names number ≡ Some (result.0.now, result.1.0) }
    ensures short { length result.0.now ≤ 6 }
{
    let flag = &Lines::FLAGS[number];
    (flag.name, flag.value)
}

/// The control line of this name.
#[tactic(auto, unfolding(crate::specs::ControlLines::line_named))]
pub fn line_named(name: &str) -> Option<Lines>
    ensures { result ≡ line_named name.now }
{
    Lines::from_name(name)
}
