//! The rows of a drawing.

ghost use Rattle.std.specs.Prelude.{◌≡◌, IfOk, filter};
ghost use Rattle.scope_draw.specs.Rows.{all_rows, has_one, is_named};

use crate::level::{is_line_seen, is_response_seen, put_line, put_response};
use crate::ruler::put_ruler;
use crate::span::Span;
use crate::words::{Words, put_words};
use fsb_signal::Lines;
use reason_lines::NamedLines;
use scope_ring::Ring;
use std::alloc::{AllocError, Global};

/// A row of a drawing.
#[derive(Clone, Copy, Debug, PartialEq, Eq)]
pub enum Row {
    /// A control line.
    Line(Lines),
    /// REQ#.
    Request,
    /// A#.
    Address,
    /// RS#.
    Response,
    /// D#.
    Data,
}

/// All rows, from the top.
const ROWS: [Row; 22] = [
    Row::Line(Lines::BREQ0),
    Row::Line(Lines::BREQ1),
    Row::Line(Lines::BREQ2),
    Row::Line(Lines::BREQ3),
    Row::Line(Lines::BPRI),
    Row::Line(Lines::LOCK),
    Row::Line(Lines::BNR),
    Row::Line(Lines::ADS),
    Row::Request,
    Row::Address,
    Row::Line(Lines::AERR),
    Row::Line(Lines::HIT),
    Row::Line(Lines::HITM),
    Row::Line(Lines::DEFER),
    Row::Response,
    Row::Line(Lines::TRDY),
    Row::Line(Lines::DBSY),
    Row::Line(Lines::DRDY),
    Row::Data,
    Row::Line(Lines::AP0),
    Row::Line(Lines::AP1),
    Row::Line(Lines::RP),
];

// Whether one of these lines is among the others.
fn has_one(lines: Lines, others: Lines) -> bool
    ensures { result ≡ has_one lines others }
{
    lines.0 & others.0 != 0
}

/// Whether the row shows one of the named lines.
#[tactic(auto, unfolding(crate::specs::Rows::is_named))]
fn is_named(named: &NamedLines, row: Row) -> bool
    ensures { result ≡ is_named named.now row }
{
    match row {
        Row::Line(line) => has_one(line, named.lines),
        Row::Request => named.has_request,
        Row::Address => named.has_address,
        Row::Response => has_one(Lines(28_672), named.lines),
        Row::Data => named.has_data,
    }
}

/// The rows of a drawing that shows these lines: those that show one of them, and no others, from the top.
pub fn named_rows(alloc: Global, named: &NamedLines) -> Result<Vec<Row>, AllocError>
    ensures { IfOk result (λ rows. rows.items ≡ filter (is_named named.now) all_rows) }
{
    ROWS.iter()
        .copied()
        .filter(|row| is_named(named, *row))
        .collect(alloc)
}

// Those with a line that is asserted or unknown at a drawn clock, that of ADS#, and all words.
fn seen_rows(alloc: Global, ring: &Ring, span: Span) -> Result<Vec<Row>, AllocError> {
    let mut rows = Vec::new(alloc);
    for row in ROWS.iter() {
        if is_seen(ring, span, *row) {
            rows.push(*row)?;
        }
    }
    Ok(rows)
}

fn is_seen(ring: &Ring, span: Span, row: Row) -> bool {
    match row {
        Row::Line(line) => line == Lines::ADS || is_line_seen(ring, span, line),
        Row::Response => is_response_seen(ring, span),
        Row::Request | Row::Address | Row::Data => true,
    }
}

/// The last fourteen clocks that the ring keeps, with a star behind the number of the marked one. There are the rows of the
/// named lines; where none are named, those of the lines that are asserted or unknown there, and of ADS#. A word has a row
/// only where it has a value. Each row is indented by two spaces, and none has more than 80 columns.
pub fn drawing(
    alloc: Global,
    ring: &Ring,
    marked: u64,
    named: Option<&NamedLines>,
) -> Result<Vec<u8>, AllocError> {
    let span = Span::of(ring);
    let rows = match named {
        None => seen_rows(alloc, ring, span)?,
        Some(named) => named_rows(alloc, named)?,
    };
    let mut text = Vec::new(alloc);
    put_ruler(&mut text, alloc, span, marked)?;
    for row in &rows {
        put_row(&mut text, alloc, ring, span, *row)?;
    }
    Ok(text)
}

fn put_row(
    text: &mut Vec<u8>,
    alloc: Global,
    ring: &Ring,
    span: Span,
    row: Row,
) -> Result<(), AllocError> {
    match row {
        Row::Line(line) => put_line(text, alloc, ring, span, line),
        Row::Request => put_words(text, alloc, ring, span, Words::Request),
        Row::Address => put_words(text, alloc, ring, span, Words::Address),
        Row::Response => put_response(text, alloc, ring, span),
        Row::Data => put_words(text, alloc, ring, span, Words::Data),
    }
}
