//! Waveforms, laid out of pieces.

ghost use Rattle.std.specs.Prelude.{◌≤◌, length, IfOk};

use crate::checked;
use fsb_signal::{Marks, Sample};
use fsb_trace::verdict;
use rows_store::{
    ADS, BPRI, BREQ0, BREQ1, BREQ2, BREQ3, Blur, CLEAR, Clock, DBSY, DRDY, RS0, UNMARKED, blurred,
};
use std::alloc::{AllocError, Global};
use std::process::Abort;

/// The BREQ# lines of the four agents.
pub const BREQ: [u32; 4] = [BREQ0, BREQ1, BREQ2, BREQ3];

/// What stands on a waveform, at these clocks.
#[derive(Clone, Copy)]
pub enum Piece {
    /// The lines, from a clock to another.
    Lines(u32, usize, usize),
    /// A request of agent 0 to 3, or 4 for the priority agent: its request line from a clock to the first clock, and the words.
    Request(usize, usize, usize, RequestWords),
    /// A response with this code, without data.
    Code(usize, u32),
    /// A response with this code, and four chunks of data one after the other.
    Data(usize, u32),
    /// The line of this number is unknown, and no other is asserted.
    UnknownLine(usize, u32),
    /// A bit of REQ is unknown, and no other is asserted.
    UnknownReq(usize),
    /// A bit of the address word is unknown, and no other is asserted.
    UnknownAddr(usize),
    /// These data bits are unknown.
    UnknownData(usize, u64),
}

/// The words of a request: REQ and address of its first clock, and of its second.
pub type RequestWords = (u64, u64, u64, u64);

/// A read of line 0 with DEN#, and with this ID.
pub fn read(id: u64) -> RequestWords {
    (6, 0, 2, (id % 256) * 8192 + 2)
}

/// A read of line 0 without DEN#, and with this ID.
pub fn kept_read(id: u64) -> RequestWords {
    (6, 0, 2, (id % 256) * 8192)
}

/// A write-back of line 0 with this ID.
pub fn write_back(id: u64) -> RequestWords {
    (5, 0, 2, (id % 256) * 8192)
}

/// An upgrade of line 0 with this ID.
pub fn upgrade(id: u64) -> RequestWords {
    (2, 0, 0, (id % 256) * 8192)
}

/// A reply with this ID.
pub fn reply(id: u64) -> RequestWords {
    (0, (id % 256) * 8192, 0, 0)
}

/// A request of agent 0 that asks in clock 0 already, and begins in clock 2.
pub fn first(words: RequestWords) -> Piece {
    Piece::Request(0, 0, 2, words)
}

/// What is laid out of a clock: what it asserts, and what of it is unknown.
#[derive(Clone, Copy)]
struct Cell {
    clock: Clock,
    blur: Blur,
}

/// The clocks of a waveform, the last of them 39.
type Cells = [Cell; 40];

/// Nothing is asserted.
const IDLE: Cell = Cell {
    clock: (0, 0, 0),
    blur: CLEAR,
};

/// Asserts the lines from a clock to another.
fn assert_lines(cells: &mut Cells, lines: u32, from: usize, to: usize) {
    for (c, cell) in cells.iter_mut().enumerate() {
        if from <= c && c <= to {
            cell.clock.0 |= lines;
        }
    }
}

/// Puts words on a clock.
fn put_words(cells: &mut Cells, c: usize, req: u64, addr: u64) {
    if let Some(cell) = cells.get_mut(c) {
        cell.clock = (cell.clock.0, req, addr);
    }
}

/// Makes something of a clock unknown.
fn make_unknown(cells: &mut Cells, piece: &Piece) {
    let c = match *piece {
        Piece::UnknownLine(c, _) | Piece::UnknownReq(c) | Piece::UnknownAddr(c) => c,
        Piece::UnknownData(c, _) => c,
        _ => return,
    };
    if let Some(cell) = cells.get_mut(c) {
        match *piece {
            Piece::UnknownLine(_, line) => cell.blur.lines = 1 << (line % 21),
            Piece::UnknownReq(_) => cell.blur.req = 1,
            Piece::UnknownAddr(_) => cell.blur.addr = 1,
            Piece::UnknownData(_, bits) => cell.blur.data = bits,
            _ => {}
        }
    }
}

/// Puts a piece on the clocks.
fn put(cells: &mut Cells, piece: &Piece) {
    match *piece {
        Piece::Lines(lines, from, to) => assert_lines(cells, lines, from, to),
        Piece::Request(agent, from, q, words) => {
            let line = BREQ.get(agent).copied().unwrap_or(BPRI);
            assert_lines(cells, line, from, q);
            assert_lines(cells, ADS, q, q);
            put_words(cells, q, words.0, words.1);
            put_words(cells, q.saturating_add(1), words.2, words.3);
        }
        Piece::Code(c, code) => assert_lines(cells, (code % 8) * RS0, c, c),
        Piece::Data(c, code) => {
            assert_lines(cells, (code % 8) * RS0, c, c);
            assert_lines(cells, DBSY, c, c.saturating_add(2));
            assert_lines(cells, DRDY, c, c.saturating_add(3));
        }
        _ => make_unknown(cells, piece),
    }
}

/// The waveform of these pieces, of so many clocks.
fn laid_out(alloc: Global, pieces: &[Piece], clocks: usize) -> Result<Vec<Sample>, AllocError>
    ensures { IfOk result (λ w. length w.items ≤ 40) }
{
    let mut cells = [IDLE; 40];
    for piece in pieces {
        put(&mut cells, piece);
    }
    let mut w = Vec::new(alloc);
    for cell in &cells[..clocks.min(40)] {
        w.push(blurred(cell.clock, cell.blur))?;
    }
    Ok(w)
}

/// Asserts that both judges say this of the waveform of so many clocks with these pieces, of a dump with these marks.
pub fn expect(
    rt: &impl Abort,
    alloc: Global,
    marks: Marks,
    pieces: &[Piece],
    clocks: usize,
    found: Option<(u32, u8)>,
) {
    let w = laid_out(alloc, pieces, clocks).expect(rt, "out of memory");
    assert!(rt; verdict(marks, &w) == found);
    assert!(rt; checked(marks, &w) == found);
}

/// Asserts that both judges accept the waveform of so many clocks with these pieces.
pub fn expect_fair(rt: &impl Abort, alloc: Global, clocks: usize, pieces: &[Piece]) {
    expect(rt, alloc, UNMARKED, pieces, clocks, None);
}

/// Asserts that both judges name this clock and this rule for the waveform with these pieces, which goes on to its fortieth clock.
pub fn expect_foul(rt: &impl Abort, alloc: Global, clock: u32, rule: u8, pieces: &[Piece]) {
    expect(rt, alloc, UNMARKED, pieces, 40, Some((clock, rule)));
}
