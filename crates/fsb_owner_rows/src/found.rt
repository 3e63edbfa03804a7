//! The rows of the requests to which a clock belongs.

ghost use Rattle.std.specs.Prelude.{◌≡◌, ◌+◌, ◌<◌, length, if◌then◌else◌, Some, None, nat_eq};
ghost use Rattle.std.specs.List.{find};
ghost use Rattle.std.specs.Option.{option_and_then, option_map};
ghost use Rattle.fsb_count.specs.Options.{is_at, is_some_and};
ghost use Rattle.fsb_signal.specs.declared.lines.TheConstants.Lines.{ADS};
ghost use Rattle.fsb_signal.specs.Samples.{line_at};
ghost use Rattle.fsb_trace.specs.At.{Trace};
ghost use Rattle.fsb_trace.specs.Requests.{live_clock_of};
ghost use Rattle.fsb_owners.specs.Shown.{snooped_at};
ghost use Rattle.fsb_owner_table.specs.Rows.{row_at};
ghost use Rattle.fsb_owner_rows.specs.Kept.{AreKeptAt, answered_at};

use crate::row::{is_at, is_snooped_at};
use fsb_owner_table::Row;

/// The first row of a request that begins at the clock.
fn first_begun(rows: &[Row], clock: u32) -> Option<Row>
    ensures { result ≡ find (λ row. nat_eq row.seen.clock clock) rows.now }
{
    rows.iter().copied().find(|row| row.seen.clock == clock)
}

/// The first row with its snoop end at the clock.
fn first_snooped(rows: &[Row], clock: u32) -> Option<Row>
    ensures { result ≡ find (λ row. is_some_and row.snoop (λ s. nat_eq s.clock clock)) rows.now }
{
    rows.iter().copied().find(|row| is_snooped_at(row, clock))
}

/// The first row with its response at the clock.
fn first_answered(rows: &[Row], clock: u32) -> Option<Row>
    ensures { result ≡ find (λ row. is_at row.response clock) rows.now }
{
    rows.iter().copied().find(|row| is_at(row.response, clock))
}

/// The row of the request that begins at the clock, which is not the last one; none where none begins.
pub fn begun_at(rows: &[Row], clock: u32) -> Option<Row>
    ensures { (v : Trace) → AreKeptAt rows.now v clock → clock + 1 < length v →
        result ≡ (if line_at ADS v clock then Some (row_at v clock) else None) }
{
    first_begun(rows, clock)
}

/// The row of the live request whose snoop ends at the clock, if there is one.
pub fn snooped_at(rows: &[Row], clock: u32) -> Option<Row>
    ensures { (v : Trace) → AreKeptAt rows.now v clock →
        result ≡ option_map (row_at v) (option_and_then (live_clock_of v) (snooped_at v clock)) }
{
    first_snooped(rows, clock)
}

/// The row of the live request that responds at the clock, if there is one.
pub fn answered_at(rows: &[Row], clock: u32) -> Option<Row>
    ensures { (v : Trace) → AreKeptAt rows.now v clock →
        result ≡ option_map (row_at v) (option_and_then (live_clock_of v) (answered_at v clock)) }
{
    first_answered(rows, clock)
}
