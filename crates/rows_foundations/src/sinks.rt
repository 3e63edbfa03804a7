//! Sinks in memory, pieces that are put whole, and numbers as text.

ghost use Rattle.std.specs.Prelude.{[], None, false};

use arrayvec::ArrayVec;
use fsb_io::{Failed, Line, MemSink, Sink, put_all, put_decimal, put_hex, put_text};
use std::test::Fail;

/// A call of a sink: under a name, or with a piece.
#[derive(Clone, Copy)]
enum Call {
    Begin(&'static str),
    Write(&'static [u8]),
}

/// The call, how many bytes it takes, what the sink then holds, and the name that it has.
type Row = (
    Call,
    Result<usize, Failed>,
    &'static [u8],
    Option<&'static [u8]>,
);

/// The calls of a sink with room for eight bytes whose call 3 fails.
const CALLS: [Row; 5] = [
    (Call::Write(b"abcde"), Ok(5), b"abcde", None),
    // Past the room.
    (Call::Write(b"wxyz"), Err(Failed), b"abcde", None),
    (Call::Write(b"fgh"), Ok(3), b"abcdefgh", None),
    (Call::Begin("first"), Err(Failed), b"abcdefgh", None),
    (Call::Begin("second"), Ok(0), b"", Some(b"second")),
];

/// Makes the call: how many bytes the sink takes.
fn called(sink: &mut MemSink, call: Call) -> Result<usize, Failed> {
    match call {
        Call::Begin(name) if name.len() <= 4_096 => {
            sink.begin(name)?;
            Ok(0)
        }
        Call::Begin(_) => Err(Failed),
        Call::Write(piece) => sink.write(piece),
    }
}

/// Whether the call does what the row says.
fn is_so(sink: &mut MemSink, row: &Row) -> bool {
    let &(call, answer, holds, begun_as) = row;
    called(sink, call) == answer && sink.holds() == holds && sink.begun_as() == begun_as
}

#[test]
fn sink_takes_whole_pieces_up_to_its_room(rt: HostRuntime) -> Result<(), Fail> {
    let mut sink = MemSink::new(rt.alloc(), 8, &[3])?;
    for (at, row) in CALLS.iter().enumerate() {
        assert!(rt; is_so(&mut sink, row), "call {at}");
    }
    assert!(rt; sink.calls() == 5 && sink.faults() == 2);
    Ok(())
}

/// Takes three bytes at a time, and fails from its third write on.
#[derive(Drop)]
struct Slow {
    held: ArrayVec<u8, 6>,
    faults: u64,
}

impl Sink for Slow {
    ghost tells = { false };

    ghost holds = { λ _. [] };

    ghost begun_as = { λ _. None };

    ghost faults = { λ s. s.faults };

    fn begin(&mut self, _name: &str) -> Result<(), Failed> {
        self.held.clear();
        Ok(())
    }

    fn write(&mut self, piece: &[u8]) -> Result<usize, Failed> {
        let count = piece.len().min(3);
        if self.held.try_extend_from_slice(&piece[..count]).is_err() {
            self.faults = self.faults.saturating_add(1);
            return Err(Failed);
        }
        Ok(count)
    }
}

#[test]
fn a_piece_is_put_whole_or_in_part(rt: HostRuntime) {
    let mut sink = Slow {
        held: ArrayVec::new(),
        faults: 0,
    };
    assert!(rt; put_all(&mut sink, b"abcd") == Ok(()));
    assert!(rt; sink.held.as_slice() == b"abcd".as_slice());
    assert!(rt; sink.begin("again") == Ok(()));
    assert!(rt; put_all(&mut sink, b"abcdefgh") == Err(Failed));
    assert!(rt; sink.held.as_slice() == b"abcdef".as_slice());
}

/// A number, and its text in base ten and in base sixteen.
type Digits = (u64, &'static str, &'static str);

const DIGITS: [Digits; 7] = [
    (0, "0", "0"),
    (9, "9", "9"),
    (10, "10", "a"),
    (255, "255", "ff"),
    (4_096, "4096", "1000"),
    (305_441_741, "305441741", "1234abcd"),
    (u64::MAX, "18446744073709551615", "ffffffffffffffff"),
];

/// Whether the number is put so behind a text in base ten.
fn is_decimal(row: &Digits) -> bool {
    let &(number, decimal, _) = row;
    let mut line = Line::new();
    put_text(&mut line, "n=");
    put_decimal(&mut line, number);
    line.as_slice().strip_prefix(b"n=".as_slice()) == Some(decimal.as_bytes())
}

/// Whether the number is put so in base sixteen.
fn is_hexadecimal(row: &Digits) -> bool {
    let &(number, _, hexadecimal) = row;
    let mut line = Line::new();
    put_hex(&mut line, number);
    line.as_slice() == hexadecimal.as_bytes()
}

#[test]
fn numbers_are_put_without_leading_zeros(rt: HostRuntime) {
    for (at, row) in DIGITS.iter().enumerate() {
        assert!(rt; is_decimal(row), "row {at}");
        assert!(rt; is_hexadecimal(row), "row {at}");
    }
}
