//! Who asks for a line.

ghost use Rattle.std.specs.Prelude.{◌≡◌, ◌&&◌};
ghost use Rattle.std.specs.List.{list_any};
ghost use Rattle.fsb_trace.specs.At.{Trace};
ghost use Rattle.fsb_owners.specs.Shown.{is_held_back, is_still_asking};
ghost use Rattle.fsb_owner_rows.specs.Kept.{AreKeptAt};
ghost use Rattle.fsb_owner_rows.specs.OfRow.{is_row_open, is_row_outstanding, row_asks, row_asks_other};

use crate::row::{asks, is_open, is_others, is_outstanding};
use fsb_owner_table::Row;

/// Whether a row is of a request of the agent for the line that is outstanding at the clock.
fn some_outstanding(rows: &[Row], line: u64, agent: u8, clock: u32) -> bool
    ensures { result
        ≡ list_any (λ row. row_asks line agent row && is_row_outstanding clock row) rows.now }
{
    rows.iter()
        .any(|row| asks(row, line, agent) && is_outstanding(row, clock))
}

/// Whether a row is of a request of another agent for the line that is open at the clock.
fn some_open(rows: &[Row], line: u64, agent: u8, clock: u32) -> bool
    ensures { result ≡ list_any (λ row. row_asks_other line agent row && is_row_open clock row) rows.now }
{
    rows.iter()
        .any(|row| is_others(row, line, agent) && is_open(row, clock))
}

/// Whether an earlier request of the agent for the line is outstanding at the clock.
pub fn is_still_asking(rows: &[Row], line: u64, agent: u8, clock: u32) -> bool
    ensures { (v : Trace) → AreKeptAt rows.now v clock → result ≡ is_still_asking v line agent clock }
{
    some_outstanding(rows, line, agent, clock)
}

/// Whether a request of another agent for the line is open at the clock: it is in flight, and has no snoop end before.
pub fn is_held_back(rows: &[Row], line: u64, agent: u8, clock: u32) -> bool
    ensures { (v : Trace) → AreKeptAt rows.now v clock → result ≡ is_held_back v line agent clock }
{
    some_open(rows, line, agent, clock)
}
