//! Which lines of the signal table have wires.

ghost use Rattle.std.specs.Prelude.{◌≡◌};
ghost use Rattle.vcd_grammar.specs.Judging.{is_declared};
ghost use Rattle.scope_way.specs.Wired.{wired_lines};
ghost use Rattle.scope_silent.specs.Lines.{there_in};

use scope_wiring::{Wire, is_wired};

/// Whether the line has a wire.
fn is_there(wires: &[Wire], line: u8) -> bool
    ensures { result ≡ is_declared (wired_lines wires.now) line }
{
    is_wired(wires, line)
}

/// The lines that have wires, by the numbers of the signal table.
pub(crate) fn there_of(wires: &[Wire]) -> [bool; 22]
    ensures { result ≡ there_in (wired_lines wires.now) }
{
    [
        is_there(wires, 0),
        is_there(wires, 1),
        is_there(wires, 2),
        is_there(wires, 3),
        is_there(wires, 4),
        is_there(wires, 5),
        is_there(wires, 6),
        is_there(wires, 7),
        is_there(wires, 8),
        is_there(wires, 9),
        is_there(wires, 10),
        is_there(wires, 11),
        is_there(wires, 12),
        is_there(wires, 13),
        is_there(wires, 14),
        is_there(wires, 15),
        is_there(wires, 16),
        is_there(wires, 17),
        is_there(wires, 18),
        is_there(wires, 19),
        is_there(wires, 20),
        is_there(wires, 21),
    ]
}
