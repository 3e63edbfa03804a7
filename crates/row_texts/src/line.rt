//! Lines of cells.

ghost use Rattle.std.specs.Prelude.{◌≡◌, ◌++◌, OnOk, codes};
ghost use Rattle.std.specs.List.{flat_map};
ghost use Rattle.row_texts.specs.Cells.{column_text};
ghost use Rattle.row_texts.specs.Lines.{aligned_text, cell_text, head_text, lead_text, line_text, lines_text, name_of, padded_text, place_text};

use crate::column::{Column, all_columns, is_first, name_of, put_column, width_of};
use crate::text::{put, put_spaces};
use fsb_owner_table::Row;
use std::alloc::{AllocError, Global};

/// How lines are written.
#[derive(Clone, Copy, Debug, PartialEq, Eq)]
pub enum Form {
    /// With columns that are aligned for reading; a dash stands for an empty cell.
    Text,
    /// With commas between the cells. No cell has a comma, a quote or a line feed.
    Csv,
}

// What stands before a cell, the first one or another.
#[tactic(auto, unfolding(crate::specs::Lines::lead_text))]
fn lead_of(form: Form, is_first: bool) -> &'static str
    ensures { result.now ≡ lead_text form is_first }
{
    if is_first {
        return "";
    }
    match form {
        Form::Text => "  ",
        Form::Csv => ",",
    }
}

#[tactic(auto, unfolding(crate::specs::Lines::padded_text))]
fn put_padded(text: &mut Vec<u8>, width: usize, cell: &[u8]) -> Result<(), AllocError>
    ensures { OnOk result (text.new.items ≡ text.old.items ++ padded_text width cell.now) }
{
    text.extend_from_slice(cell)?;
    put_spaces(text, width.saturating_sub(cell.len()))
}

#[tactic(auto, unfolding(crate::specs::Lines::aligned_text))]
fn put_aligned(text: &mut Vec<u8>, width: usize, cell: &[u8]) -> Result<(), AllocError>
    ensures { OnOk result (text.new.items ≡ text.old.items ++ aligned_text width cell.now) }
{
    match cell {
        [] => put_padded(text, width, b"-"),
        _ => put_padded(text, width, cell),
    }
}

#[tactic(auto, unfolding(crate::specs::Lines::cell_text))]
fn put_cell(text: &mut Vec<u8>, form: Form, column: Column, cell: &[u8]) -> Result<(), AllocError>
    ensures { OnOk result (text.new.items ≡ text.old.items ++ cell_text form column cell.now) }
{
    match form {
        Form::Csv => text.extend_from_slice(cell),
        Form::Text => put_aligned(text, width_of(column), cell),
    }
}

// Appends a cell with what stands before it.
fn put_place(text: &mut Vec<u8>, form: Form, column: Column, cell: &[u8]) -> Result<(), AllocError>
    ensures { OnOk result (text.new.items ≡ text.old.items ++ place_text form column cell.now) }
{
    put(text, lead_of(form, is_first(column)))?;
    put_cell(text, form, column, cell)
}

// Appends the names of these columns.
fn put_names(text: &mut Vec<u8>, form: Form, columns: &[Column]) -> Result<(), AllocError>
    ensures { OnOk result (text.new.items ≡ text.old.items
        ++ flat_map (λ column. place_text form column (name_of column)) columns.now) }
{
    for column in columns {
        put_place(text, form, *column, name_of(*column).as_bytes())?;
    }
    Ok(())
}

/// Appends the line of the names.
pub fn put_head(text: &mut Vec<u8>, form: Form) -> Result<(), AllocError>
    ensures { OnOk result (text.new.items ≡ text.old.items ++ head_text form) }
{
    put_names(text, form, &all_columns())?;
    put(text, "\n")
}

// Appends what a row has in a column.
fn put_one(
    text: &mut Vec<u8>,
    alloc: Global,
    form: Form,
    column: Column,
    row: &Row,
    before: u32,
) -> Result<(), AllocError>
    ensures { OnOk result (text.new.items ≡ text.old.items
        ++ place_text form column (column_text before row.now column)) }
{
    let mut cell = Vec::new(alloc);
    put_column(&mut cell, column, row, before)?;
    put_place(text, form, column, &cell)
}

// Appends what a row has in these columns.
fn put_cells(
    text: &mut Vec<u8>,
    alloc: Global,
    form: Form,
    columns: &[Column],
    row: &Row,
    before: u32,
) -> Result<(), AllocError>
    ensures { OnOk result (text.new.items ≡ text.old.items
        ++ flat_map (λ column. place_text form column (column_text before row.now column)) columns.now) }
{
    for column in columns {
        put_one(text, alloc, form, *column, row, before)?;
    }
    Ok(())
}

// Appends the line of a row.
fn put_line(
    text: &mut Vec<u8>,
    alloc: Global,
    form: Form,
    row: &Row,
    before: u32,
) -> Result<(), AllocError>
    ensures { OnOk result (text.new.items ≡ text.old.items ++ line_text form before row.now) }
{
    put_cells(text, alloc, form, &all_columns(), row, before)?;
    put(text, "\n")
}

/// Appends the lines of rows, whose clocks come behind so many.
pub fn put_lines(
    text: &mut Vec<u8>,
    alloc: Global,
    form: Form,
    rows: &[Row],
    before: u32,
) -> Result<(), AllocError>
    ensures { OnOk result (text.new.items ≡ text.old.items ++ lines_text form before rows.now) }
{
    for row in rows {
        put_line(text, alloc, form, row, before)?;
    }
    Ok(())
}
