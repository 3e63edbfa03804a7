//! Lines of cells in columns.

use crate::cells::{COLUMNS, cells_of};
use fsb_owner_table::Row;
use fsb_recent::Around;
use std::alloc::{AllocError, Global};

/// Appends the requests around a clock, if there are any: the last that were over before it, and those in flight. Their clocks
/// come behind so many.
pub fn put_around(
    text: &mut Vec<u8>,
    alloc: Global,
    around: &Around,
    before: u32,
) -> Result<(), AllocError> {
    let past = lines_of(alloc, &around.past, before)?;
    let flight = lines_of(alloc, &around.flight, before)?;
    let mut widths = [0; 9];
    widen(&mut widths, &past);
    widen(&mut widths, &flight);
    put_lines(
        text,
        "  the last requests that were over before:\n",
        &widths,
        &past,
    )?;
    put_lines(text, "  the requests in flight:\n", &widths, &flight)
}

// The names of the columns, and the cells of each row; nothing where there is none.
fn lines_of(alloc: Global, rows: &[Row], before: u32) -> Result<Vec<Vec<Vec<u8>>>, AllocError> {
    let mut lines = Vec::new(alloc);
    if rows.is_empty() {
        return Ok(lines);
    }
    lines.push(head(alloc)?)?;
    for row in rows {
        lines.push(cells_of(alloc, row, before)?)?;
    }
    Ok(lines)
}

fn head(alloc: Global) -> Result<Vec<Vec<u8>>, AllocError> {
    let mut names = Vec::new(alloc);
    for name in COLUMNS.iter() {
        names.push(Vec::from_slice(alloc, name.as_bytes())?)?;
    }
    Ok(names)
}

// Makes each column as wide as its widest cell.
fn widen(widths: &mut [usize; 9], lines: &[Vec<Vec<u8>>]) {
    for line in lines {
        widen_by(widths, line);
    }
}

fn widen_by(widths: &mut [usize; 9], line: &[Vec<u8>]) {
    for (width, cell) in widths.iter_mut().zip(line) {
        *width = (*width).max(cell.len());
    }
}

fn put_lines(
    text: &mut Vec<u8>,
    title: &str,
    widths: &[usize; 9],
    lines: &[Vec<Vec<u8>>],
) -> Result<(), AllocError> {
    if lines.is_empty() {
        return Ok(());
    }
    text.extend_from_slice(title.as_bytes())?;
    for line in lines {
        put_line(text, widths, line)?;
    }
    Ok(())
}

// Appends cells with two spaces between their columns, and none behind the last one.
fn put_line(text: &mut Vec<u8>, widths: &[usize; 9], line: &[Vec<u8>]) -> Result<(), AllocError> {
    let mut gap = 4;
    for (width, cell) in widths.iter().zip(line) {
        put_spaces(text, gap)?;
        text.extend_from_slice(cell)?;
        gap = width.saturating_sub(cell.len()).saturating_add(2);
    }
    text.push(b'\n')?;
    Ok(())
}

fn put_spaces(text: &mut Vec<u8>, count: usize) -> Result<(), AllocError> {
    for _ in 0..count {
        text.push(b' ')?;
    }
    Ok(())
}
