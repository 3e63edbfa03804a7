//! What the agents wait for on a line.

ghost use Rattle.std.specs.Prelude.{◌≡◌, ◌+◌, map, not};
ghost use Rattle.fsb_trace.specs.At.{Trace};
ghost use Rattle.fsb_owners.specs.Joint.{agents};
ghost use Rattle.fsb_owners.specs.Shown.{is_coming, may_drop_at};
ghost use Rattle.fsb_owner_rows.specs.Kept.{AreKeptAt};

use crate::coming::{is_coming, may_drop};
use fsb_owner_table::Row;

/// For each agent whether no bytes of the line are under way to it at the clock.
pub fn ready_of(rows: &[Row], line: u64, clock: u32) -> [bool; 4]
    ensures { (v : Trace) → AreKeptAt rows.now v clock →
        result ≡ map (λ a. not (is_coming v line a clock)) agents }
{
    [
        !is_coming(rows, line, 0, clock),
        !is_coming(rows, line, 1, clock),
        !is_coming(rows, line, 2, clock),
        !is_coming(rows, line, 3, clock),
    ]
}

/// For each agent whether it may drop a clean copy of the line at the clock, which the other one follows.
pub fn droppable_of(rows: &[Row], line: u64, clock: u32, next: u32) -> [bool; 4]
    ensures { (v : Trace) → AreKeptAt rows.now v clock → AreKeptAt rows.now v next →
        next ≡ clock + 1 → result ≡ map (may_drop_at v line clock) agents }
{
    [
        may_drop(rows, line, 0, clock, next),
        may_drop(rows, line, 1, clock, next),
        may_drop(rows, line, 2, clock, next),
        may_drop(rows, line, 3, clock, next),
    ]
}
