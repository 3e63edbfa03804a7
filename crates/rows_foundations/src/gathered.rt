//! A sink that gathers what it is given, and hands it on in large pieces.

use fsb_gather::Gather;
use fsb_io::{Failed, MemSink, Memory, Sink, put_all};
use std::alloc::Global;
use std::test::Fail;

/// How many bytes are gathered at most.
const ROOM: usize = 65_536;

/// A call of a gathering sink.
#[derive(Clone, Copy)]
enum Call {
    Begin(&'static str),
    Write(&'static [u8]),
    Finish,
}

/// Makes the call: how many bytes the sink takes.
fn called(sink: &mut Gather<MemSink>, call: Call) -> Result<usize, Failed> {
    match call {
        Call::Begin(name) if name.len() <= 4_096 => {
            sink.begin(name)?;
            Ok(0)
        }
        Call::Begin(_) => Err(Failed),
        Call::Write(piece) => sink.write(piece),
        Call::Finish => {
            sink.finish()?;
            Ok(0)
        }
    }
}

/// A gathering sink over one with so much room whose calls fail as said.
fn gathering(alloc: Global, room: usize, fails: &[u32]) -> Result<Gather<MemSink>, Memory> {
    Gather::new(alloc, MemSink::new(alloc, room, fails)?)
}

/// The call, how many bytes it takes, how many are then gathered, the last of them, and how many calls the sink below has had.
type Row = (Call, Result<usize, Failed>, usize, &'static [u8], u64);

/// The calls of a sink over one whose call 1 fails.
const BEGUN_AGAIN: [Row; 6] = [
    (Call::Begin("old"), Ok(0), 0, b"", 1),
    (Call::Write(b"old text"), Ok(8), 8, b"old text", 1),
    (Call::Begin("new"), Err(Failed), 8, b"old text", 2),
    (Call::Begin("new"), Ok(0), 0, b"", 3),
    (Call::Write(b"new"), Ok(3), 3, b"new", 3),
    (Call::Finish, Ok(0), 0, b"", 4),
];

/// The calls of a sink in which there is room for one byte behind others.
const FULL: [Row; 3] = [
    (Call::Write(b"bcd"), Ok(1), ROOM, b"ab", 1),
    (Call::Write(b"cd"), Ok(2), 2, b"cd", 2),
    // A begin and two writes.
    (Call::Finish, Ok(0), 0, b"", 3),
];

/// Whether the call does what the row says.
fn is_so(sink: &mut Gather<MemSink>, row: &Row) -> bool {
    let &(call, answer, count, last, calls) = row;
    called(sink, call) == answer
        && sink.gathered().len() == count
        && sink.gathered().ends_with(last)
        && sink.sink().calls() == calls
}

#[test]
fn begin_drops_what_was_gathered(rt: HostRuntime) -> Result<(), Fail> {
    let mut sink = gathering(rt.alloc(), 100, &[1])?;
    for (at, row) in BEGUN_AGAIN.iter().enumerate() {
        assert!(rt; is_so(&mut sink, row), "call {at}");
    }
    assert!(rt; sink.sink().holds() == b"new".as_slice());
    Ok(())
}

#[test]
fn pieces_are_handed_on_when_the_room_is_full(rt: HostRuntime) -> Result<(), Fail> {
    let long = vec![in rt.alloc(); b'a'; ROOM - 1]?;
    let mut sink = gathering(rt.alloc(), 200_000, &[])?;
    assert!(rt; called(&mut sink, Call::Begin("dump")) == Ok(0));
    assert!(rt; sink.sink().begun_as() == Some(b"dump".as_slice()));
    assert!(rt; put_all(&mut sink, &long) == Ok(()));
    for (at, row) in FULL.iter().enumerate() {
        assert!(rt; is_so(&mut sink, row), "call {at}");
    }
    let below = sink.into_sink();
    assert!(rt; below.begun_as() == Some(b"dump".as_slice()));
    let holds = below.holds();
    assert!(rt; holds.len() == ROOM + 2 && holds.ends_with(b"aabcd"));
    Ok(())
}

/// The calls of the sink below that fail; what a full room, a byte more and two finishes answer; how many bytes are left
/// gathered.
type Failing = (&'static [u32], [Result<(), Failed>; 4], usize);

const FAILING: [Failing; 5] = [
    (&[], [Ok(()), Ok(()), Ok(()), Ok(())], 0),
    (&[0], [Ok(()), Err(Failed), Ok(()), Ok(())], 0),
    (&[1], [Ok(()), Ok(()), Err(Failed), Ok(())], 0),
    (&[1, 2], [Ok(()), Ok(()), Err(Failed), Err(Failed)], 1),
    (
        &[0, 1, 2],
        [Ok(()), Err(Failed), Err(Failed), Err(Failed)],
        ROOM,
    ),
];

/// What they answer over a sink whose calls fail as said.
fn filled(sink: &mut Gather<MemSink>, full: &[u8]) -> [Result<(), Failed>; 4] {
    let room = put_all(sink, full);
    let more = put_all(sink, b"b");
    [room, more, sink.finish(), sink.finish()]
}

/// Whether so many bytes are left gathered, and none of them that the sink took is lost.
fn is_kept(sink: &Gather<MemSink>, answers: &[Result<(), Failed>; 4], left: usize) -> bool {
    let held = sink.sink().holds().len();
    let kept = if answers[1].is_ok() { ROOM + 1 } else { ROOM };
    sink.gathered().len() == left && held <= kept && kept - held == left
}

/// Whether a sink whose calls fail as said answers so, and loses nothing.
fn loses_nothing(alloc: Global, full: &[u8], row: &Failing) -> Result<bool, Memory> {
    let &(fails, answers, left) = row;
    let mut sink = gathering(alloc, 200_000, fails)?;
    Ok(filled(&mut sink, full) == answers && is_kept(&sink, &answers, left))
}

#[test]
fn nothing_gathered_is_lost_where_the_sink_fails(rt: HostRuntime) -> Result<(), Fail> {
    let full = vec![in rt.alloc(); b'a'; ROOM]?;
    for (at, row) in FAILING.iter().enumerate() {
        assert!(rt; loses_nothing(rt.alloc(), &full, row)?, "row {at}");
    }
    Ok(())
}
