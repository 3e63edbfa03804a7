//! Sources in memory, and reading to the end.

use fsb_io::{Failed, MemSource, Memory, ReadStop, Source, read_all};
use std::alloc::Global;
use std::test::Fail;

/// The name of a `begin`, or None for a read of at most four bytes; the bytes that come; what is then left, and the name that
/// the source has.
type Call = (
    Option<&'static str>,
    Result<&'static [u8], Failed>,
    &'static [u8],
    Option<&'static [u8]>,
);

/// The calls of a source of six bytes whose calls 1 and 3 fail.
const CALLS: [Call; 7] = [
    // Nothing is left before it is begun.
    (None, Ok(b""), b"", None),
    (Some("first"), Err(Failed), b"", None),
    (Some("second"), Ok(b""), b"abcdef", Some(b"second")),
    (None, Err(Failed), b"abcdef", Some(b"second")),
    (None, Ok(b"abcd"), b"ef", Some(b"second")),
    (None, Ok(b"ef"), b"", Some(b"second")),
    (None, Ok(b""), b"", Some(b"second")),
];

/// Begins the source under a name, or reads some of it: how many bytes came.
fn called(source: &mut MemSource, name: Option<&str>, buf: &mut [u8]) -> Result<usize, Failed> {
    match name {
        Some(name) if name.len() <= 4_096 => {
            source.begin(name)?;
            Ok(0)
        }
        Some(_) => Err(Failed),
        None => source.read(buf),
    }
}

/// Whether the call gives what the row says, and leaves it.
fn is_so(source: &mut MemSource, row: &Call) -> bool {
    let &(name, bytes, left, begun_as) = row;
    let mut buf = [0; 4];
    let is_answered = match (called(source, name, &mut buf), bytes) {
        (Ok(count), Ok(bytes)) => count == bytes.len() && buf.starts_with(bytes),
        (Err(_), Err(_)) => true,
        (Ok(_), Err(_)) | (Err(_), Ok(_)) => false,
    };
    is_answered && source.left() == left && source.begun_as() == begun_as
}

#[test]
fn source_fails_at_the_listed_calls_and_loses_nothing(rt: HostRuntime) -> Result<(), Fail> {
    let mut source = MemSource::new(rt.alloc(), b"abcdef", &[1, 3])?;
    for (at, row) in CALLS.iter().enumerate() {
        assert!(rt; is_so(&mut source, row), "call {at}");
    }
    assert!(rt; source.calls() == 7 && source.faults() == 2);
    Ok(())
}

/// At most so many bytes, and how many are left where there are more.
type Limit = (usize, Option<usize>);

const LIMITS: [Limit; 3] = [(150_000, None), (149_999, Some(0)), (99_999, Some(50_000))];

/// Whether so many of the bytes are read as the row says.
fn is_read(alloc: Global, long: &[u8], row: &Limit) -> Result<bool, Memory> {
    let &(limit, left) = row;
    let mut source = MemSource::new(alloc, long, &[])?;
    let is_begun = source.begin("long") == Ok(());
    Ok(match (read_all(alloc, &mut source, limit), left) {
        (Ok(bytes), None) => is_begun && bytes.as_slice() == long,
        (Err(ReadStop::TooLong), Some(left)) => is_begun && source.left().len() == left,
        _ => false,
    })
}

#[test]
fn reads_to_the_end_or_one_byte_past_the_limit(rt: HostRuntime) -> Result<(), Fail> {
    let long = vec![in rt.alloc(); 7u8; 150_000]?;
    for (at, row) in LIMITS.iter().enumerate() {
        assert!(rt; is_read(rt.alloc(), &long, row)?, "row {at}");
    }
    Ok(())
}

/// Whether reading stops at a call that fails, and one fault is counted.
fn stops_at(alloc: Global, call: u32) -> Result<bool, Memory> {
    let mut source = MemSource::new(alloc, b"text", &[call])?;
    let is_begun = source.begin("text") == Ok(());
    let stops = matches!(read_all(alloc, &mut source, 100), Err(ReadStop::ReadFault));
    Ok(is_begun && stops && source.faults() == 1)
}

#[test]
fn reading_stops_where_the_source_fails(rt: HostRuntime) -> Result<(), Fail> {
    assert!(rt; stops_at(rt.alloc(), 1)?, "call 1");
    assert!(rt; stops_at(rt.alloc(), 2)?, "call 2");
    Ok(())
}
