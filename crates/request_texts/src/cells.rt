//! What a row has in each column.

use fsb_owner_table::Row;
use row_texts::{Column, put_column, put_signs};
use std::alloc::{AllocError, Global};

/// The names of the columns.
pub(crate) const COLUMNS: [&str; 9] = [
    "first", "agent", "kind", "address", "snoop", "response", "outcome", "end", "reply",
];

/// The columns of a row. Behind the clock of a snoop end stand the lines that are asserted there.
const SHOWN: [Column; 9] = [
    Column::First,
    Column::Agent,
    Column::Kind,
    Column::Address,
    Column::Snoop,
    Column::Response,
    Column::Outcome,
    Column::End,
    Column::Reply,
];

/// The cells of a row, whose clocks come behind so many.
pub(crate) fn cells_of(alloc: Global, row: &Row, before: u32) -> Result<Vec<Vec<u8>>, AllocError> {
    let mut cells = Vec::new(alloc);
    for column in SHOWN.iter() {
        cells.push(cell_of(alloc, *column, row, before)?)?;
    }
    Ok(cells)
}

// A cell of a row, with a dash where it has none.
fn cell_of(alloc: Global, column: Column, row: &Row, before: u32) -> Result<Vec<u8>, AllocError> {
    let mut cell = Vec::new(alloc);
    put_column(&mut cell, column, row, before)?;
    if column == Column::Snoop {
        put_signs(&mut cell, true, row.snoop)?;
    }
    if cell.is_empty() {
        cell.push(b'-')?;
    }
    Ok(cell)
}
