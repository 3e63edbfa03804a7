//! Tables of worked waveforms.

use fsb_encode::{Kind, Request};
use fsb_io::Memory;
use fsb_table::{Row, table};
use fsb_trace::{Outcome, Seen, Who, verdict};
use rows_store::{
    CANCELLED_BY_ADDRESS_ERROR, Clock, DEFERRED_AND_REPLIED, LOAD_THEN_STORE_HIT, UNMARKED,
    UPGRADE_OF_A_SHARED_LINE, trace,
};
use std::alloc::Global;

/// The numbers of a row: the first clock, the snoop end, the response, the end, and the outcome.
type Numbers = (u32, Option<u32>, Option<u32>, Option<u32>, Option<Outcome>);

/// The rows of these clocks, which are fewer than 100 and break no rule.
fn rows_of(alloc: Global, clocks: &[Clock]) -> Result<Vec<Row>, Memory> {
    let w = trace(alloc, clocks)?;
    if w.len() < 100 && verdict(UNMARKED, &w).is_none() {
        table(alloc, UNMARKED, &w)
    } else {
        Ok(Vec::new(alloc))
    }
}

/// A read of line 2, chunk 0, with ID 0.
const READ: Request = Request {
    kind: Kind::Read,
    line: 2,
    chunk: 0,
    did: 0,
    den: true,
};

/// Whether the row has these numbers.
fn has_numbers(row: &Row, numbers: &Numbers) -> bool {
    let &(clock, snoop, response, end, outcome) = numbers;
    row.seen.clock == clock
        && row.snoop == snoop
        && row.response == response
        && row.end == end
        && row.outcome == outcome
}

/// Whether the rows have these numbers.
fn have_numbers(rows: &[Row], wanted: &[Numbers]) -> bool {
    if rows.len() != wanted.len() {
        return false;
    }
    for (row, numbers) in rows.iter().zip(wanted) {
        if !has_numbers(row, numbers) {
            return false;
        }
    }
    true
}

/// The clocks of a waveform, and the numbers of its rows.
type Table<'a> = (&'a [Clock], &'a [Numbers]);

/// Whether the rows of the clocks have those numbers.
fn is_so(alloc: Global, table: &Table<'_>) -> Result<bool, Memory> {
    let &(clocks, wanted) = table;
    Ok(have_numbers(&rows_of(alloc, clocks)?, wanted))
}

#[test]
fn rows_show_requests_and_their_numbers(rt: HostRuntime) {
    let done = Some(Outcome::Granted);
    let tables: [Table<'_>; 6] = [
        (
            &LOAD_THEN_STORE_HIT,
            &[(2, Some(6), Some(8), Some(11), done)],
        ),
        (
            &CANCELLED_BY_ADDRESS_ERROR,
            &[
                (2, None, None, None, None),
                (8, Some(12), Some(14), Some(17), done),
            ],
        ),
        (
            &UPGRADE_OF_A_SHARED_LINE,
            &[
                (2, Some(6), Some(8), Some(11), done),
                (5, Some(9), Some(12), Some(15), done),
                (14, Some(18), Some(20), Some(20), Some(Outcome::Upgraded)),
            ],
        ),
        (
            &DEFERRED_AND_REPLIED,
            &[
                (2, Some(6), Some(8), Some(8), Some(Outcome::Deferred)),
                (5, Some(9), Some(11), Some(11), Some(Outcome::Retried)),
                (14, Some(18), Some(20), Some(20), Some(Outcome::Retried)),
                (21, Some(25), Some(27), Some(30), Some(Outcome::Replied)),
                (24, Some(28), Some(31), Some(34), done),
            ],
        ),
        // A trace that ends behind the first clock of its request, and one that ends behind the response.
        (&LOAD_THEN_STORE_HIT[..3], &[(2, None, None, None, None)]),
        (
            &LOAD_THEN_STORE_HIT[..10],
            &[(2, Some(6), Some(8), None, done)],
        ),
    ];
    for (at, table) in tables.iter().enumerate() {
        assert!(rt; matches!(is_so(rt.alloc(), table), Ok(true)), "table {at}");
    }
}

/// The first row of a read that is cancelled.
const FIRST: Row = Row {
    seen: Seen {
        clock: 2,
        who: Some(Who::Symmetric(0)),
        request: Some(READ),
        cancelled: true,
    },
    snoop: None,
    response: None,
    end: None,
    outcome: None,
};

/// Whether the first row of the clocks is that of the cancelled read.
fn begins_with_first(alloc: Global, clocks: &[Clock]) -> Result<bool, Memory> {
    Ok(rows_of(alloc, clocks)?.first() == Some(&FIRST))
}

#[test]
fn rows_show_who_asks_for_what(rt: HostRuntime) {
    let begins = begins_with_first(rt.alloc(), &CANCELLED_BY_ADDRESS_ERROR);
    assert!(rt; matches!(begins, Ok(true)));
}
