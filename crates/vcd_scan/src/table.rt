ghost use Rattle.std.specs.Prelude.{◌≡◌, true};
ghost use Rattle.std.specs.List.{list_all};
ghost use Rattle.std.proofs.Props.{props};
ghost use Rattle.vcd_way.specs.Lawful.{is_line};
ghost use Rattle.vcd_scan.specs.Placed.{FirstPlaces};

use crate::places::CodePlaces;
use crate::wire::Wire;

/// The codes of a dump with their taps, and the lines that there are.
#[derive(Drop)]
pub struct Wires {
    pub(crate) wires: Vec<Wire>,
    /// Where the first wire of each code stands.
    pub(crate) places: CodePlaces,
    pub(crate) lines: Vec<u8>,
    ghost of_table: { list_all is_line lines.items ≡ true },
    ghost placed: { FirstPlaces places wires.items } by { Prim.hlevel props },
}
