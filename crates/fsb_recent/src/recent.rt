//! The last requests that were over, beside a table.

ghost use Rattle.std.specs.Prelude.{◌≡◌, ◌<◌, ◌^◌, ◌-◌, ℕ, [], ◌∷◌, ◌++◌, List, length, not, filter, if◌then◌else◌, IfOk};
ghost use Rattle.circular_buffer.specs.Buffer.{buffer, keep_last};
ghost use Rattle.fsb_signal.specs.declared.sample.Sample.{Sample};
ghost use Rattle.fsb_laws.specs.Orderly.{Orderly};
ghost use Rattle.fsb_trace.specs.At.{Trace};
ghost use Rattle.fsb_owner_table.specs.Kept.{is_row_closed};
ghost use Rattle.fsb_owner_feed.specs.Table.{Stands as TableStands, fed};
ghost use Rattle.fsb_recent.specs.Over.{flight_of, is_newly_over, past_of};
ghost use Rattle.fsb_recent.specs.Recent.{AreAround, Stands};

use crate::first::last_begun;
use circular_buffer::HeapCircularBuffer;
use fsb_owner_feed::Table;
use fsb_owner_table::Row;
use std::alloc::{AllocError, Global};

/// The requests around the end of a trace.
#[derive(Debug, Drop)]
pub struct Around {
    /// The rows of the last ten requests that were over, in the order in which they were.
    pub past: Vec<Row>,
    /// The rows of the requests in flight, in order of their first clocks.
    pub flight: Vec<Row>,
}

impl Around {
    /// No request. It takes no memory.
    pub fn none(alloc: Global) -> Around
        ensures past { result.past.items ≡ [] }
        ensures flight { result.flight.items ≡ [] }
    {
        Around {
            past: Vec::new(alloc),
            flight: Vec::new(alloc),
        }
    }
}

/// How many rows are kept.
const KEPT: usize = 10;

/// The rows of the last ten requests that were over, in the order in which they were.
#[derive(Debug, Drop)]
pub struct Recent {
    past: HeapCircularBuffer<Row>,
}

/// Whether the request of the row is over in so many clocks, and was not in one less.
pub fn is_newly_over(row: &Row, clocks: u32) -> bool
    ensures { result ≡ is_newly_over row.now clocks }
{
    row.is_closed(clocks) && !row.is_closed(clocks.saturating_sub(1))
}

/// Those of the rows whose requests are not over in so many clocks.
fn left_of(alloc: Global, rows: &[Row], clocks: u32) -> Result<Vec<Row>, AllocError>
    ensures { IfOk result (λ left.
        left.items ≡ filter (λ row. not (is_row_closed row clocks)) rows.now) }
{
    rows.iter()
        .copied()
        .filter(|row| !row.is_closed(clocks))
        .collect(alloc)
}

/// The rows of the requests in flight at the end of the trace that the table was fed.
pub fn rows_in_flight(alloc: Global, table: &Table) -> Result<Vec<Row>, AllocError>
    requires { fed table.now < 2 ^ 32 }
    ensures { (h : Trace) → TableStands table.now h → Orderly h →
        IfOk result (λ flight. flight.items ≡ flight_of h) }
{
    let clocks = table.clock() as u32;
    let mut flight = left_of(alloc, table.rows(), clocks)?;
    if let Some(row) = last_begun(table.begun_last(), clocks) {
        flight.push(row)?;
    }
    Ok(flight)
}

// Keeps the row, if its request is newly over in so many clocks.
fn keep(past: &mut HeapCircularBuffer<Row>, row: &Row, clocks: u32)
    ensures { (xs : List Row) → past.old ≡ buffer (keep_last 10 xs) 10 → past.new
        ≡ buffer (keep_last 10 (xs ++ (if is_newly_over row.now clocks then row.now ∷ [] else []))) 10 }
{
    if is_newly_over(row, clocks) {
        past.push_back(*row);
    }
}

// Keeps those of the rows whose requests are newly over in so many clocks.
fn keep_over(past: &mut HeapCircularBuffer<Row>, rows: &[Row], clocks: u32)
    ensures { (xs : List Row) → past.old ≡ buffer (keep_last 10 xs) 10 → past.new
        ≡ buffer (keep_last 10 (xs ++ filter (λ row. is_newly_over row clocks) rows.now)) 10 }
{
    for row in rows {
        keep(past, row, clocks);
    }
}

impl Recent {
    /// Before the first sample.
    pub fn new(alloc: Global) -> Result<Recent, AllocError>
        ensures { IfOk result (λ recent. Stands recent []) }
    {
        let past = HeapCircularBuffer::with_capacity(alloc, KEPT)?;
        Ok(Recent { past })
    }

    /// Goes on after a sample that the table has taken. It takes no memory.
    pub fn take(&mut self, table: &Table)
        requires { fed table.now < 2 ^ 32 }
        ensures { (h : Trace) (x : Sample) → Stands self.old h →
            TableStands table.now (h ++ x ∷ []) → Stands self.new (h ++ x ∷ []) }
    {
        let clocks = table.clock() as u32;
        keep_over(&mut self.past, table.rows(), clocks);
    }

    /// The rows of the last ten requests that were over, in the order in which they were.
    pub fn past(&self, alloc: Global) -> Result<Vec<Row>, AllocError>
        ensures { (h : Trace) → Stands self.now h → IfOk result (λ past. past.items ≡ past_of h) }
    {
        self.past.to_vec(alloc)
    }

    /// The requests around the end of the trace that the table was fed.
    pub fn around(&self, alloc: Global, table: &Table) -> Result<Around, AllocError>
        requires { fed table.now < 2 ^ 32 }
        ensures { (h : Trace) → Stands self.now h → TableStands table.now h → Orderly h →
            IfOk result (λ around. AreAround around h) }
    {
        let past = self.past(alloc)?;
        let flight = rows_in_flight(alloc, table)?;
        Ok(Around { past, flight })
    }
}
