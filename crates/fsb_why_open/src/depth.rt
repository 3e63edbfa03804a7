//! Rule 4, queue depth.

ghost use Rattle.std.specs.Prelude.{◌≡◌, ◌<◌, ◌+◌, ◌^◌, true, if◌then◌else◌, [], ◌∷◌, ◌++◌};
ghost use Rattle.std.specs.List.{count_by, find};
ghost use Rattle.fsb_signal.specs.declared.marks.Marks.{Marks};
ghost use Rattle.fsb_signal.specs.declared.lines.TheConstants.Lines.{ADS};
ghost use Rattle.fsb_signal.specs.declared.sample.Sample.{Sample};
ghost use Rattle.fsb_signal.specs.Samples.{has_line};
ghost use Rattle.fsb_trace.specs.At.{Trace};
ghost use Rattle.fsb_why.specs.Explains.{Explains};
ghost use Rattle.fsb_why_open.specs.Open.{IsAfter, is_row_in_flight};

use crate::words::number;
use fsb_owner_feed::Table;
use fsb_owner_table::Row;
use fsb_reasons::Reason;
use fsb_signal::{Lines, Sample};

/// How many of the rows are of requests in flight at the clock.
fn count_in_flight(rows: &[Row], clock: u32) -> usize
    ensures { result ≡ count_by (is_row_in_flight clock) rows.now }
{
    rows.iter().filter(|row| !row.has_left(clock)).count()
}

/// The first row of a request in flight at the clock.
fn first_in_flight(rows: &[Row], clock: u32) -> Option<Row>
    ensures { result ≡ find (is_row_in_flight clock) rows.now }
{
    rows.iter().copied().find(|row| !row.has_left(clock))
}

/// So many, and one more where there is one.
fn with_one(found: u32, more: bool) -> u32
    ensures { found + 1 < 2 ^ 32 → result ≡ found + (if more then 1 else 0) }
{
    if more { found.saturating_add(1) } else { found }
}

/// Why a request that begins at this clock finds the queue full.
fn full(table: &Table, clock: u32) -> Option<Reason>
    ensures { (m : Marks) (h : Trace) (x : Sample) → IsAfter table.now clock h →
        has_line x ADS ≡ true → Explains m (h ++ x ∷ []) clock 4 result }
{
    let rows = table.rows();
    let in_flight = with_one(
        number(count_in_flight(rows, clock)),
        table.begun_last().is_some(),
    );
    if in_flight >= 8 {
        match first_in_flight(rows, clock) {
            Some(row) => Some(Reason::QueueFull {
                in_flight,
                oldest: row.seen.clock,
            }),
            None => None,
        }
    } else {
        None
    }
}

/// Rule 4, queue depth, of the sample of this clock, which comes after those of the table.
pub fn queue_depth(table: &Table, clock: u32, sample: &Sample) -> Option<Reason>
    ensures { (m : Marks) (h : Trace) → IsAfter table.now clock h →
        Explains m (h ++ sample.now ∷ []) clock 4 result }
{
    if sample.has(Lines::ADS) {
        full(table, clock)
    } else {
        None
    }
}
