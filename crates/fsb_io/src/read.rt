//! Reads a source to its end.
ghost use Rattle.std.specs.Prelude.{◌≡◌, ◌≢◌, ◌≤◌, ◌<◌, ◌+◌, ◌++◌, [], Err, IsTrue, IfOk, OnOk, length, drop, vec_len};
ghost use Rattle.fsb_io.specs.declared.read.ReadStop.{ReadStop};
ghost use Rattle.fsb_io.specs.Faults.{Rose};
ghost use Rattle.fsb_io.specs.Takes.{TakesAtMost};

use crate::{Failed, Source};
use std::alloc::{AllocError, Global};
use std::error::Error;
use std::fmt;

/// Why a source was not read to its end.
#[derive(Clone, Copy, Debug, PartialEq, Eq)]
pub enum ReadStop {
    /// The source failed in this call.
    ReadFault,
    /// More bytes came than the limit allows.
    TooLong,
    /// No memory was found for the bytes.
    Memory,
}

impl fmt::Display for ReadStop {
    ghost use Rattle.std.specs.Prelude.{Some};
    ghost use Rattle.fsb_io.specs.StopText.{stop_text};

    ghost output = { λ stop. Some (stop_text stop) };

    fn fmt<W: fmt::Write>(&self, f: &mut fmt::Formatter<W>) -> fmt::Result {
        f.write_str(match self {
            ReadStop::ReadFault => "a source failed",
            ReadStop::TooLong => "too many bytes came",
            ReadStop::Memory => "out of memory",
        })
    }
}

impl Error for ReadStop {}

impl From<AllocError> for ReadStop {
    ghost use Rattle.fsb_io.specs.declared.read.ReadStop.TheVariants.{Memory};

    ghost from_gives = { λ _ stop. stop ≡ Memory };

    fn from(_error: AllocError) -> ReadStop {
        ReadStop::Memory
    }
}

impl From<Failed> for ReadStop {
    ghost use Rattle.fsb_io.specs.declared.read.ReadStop.TheVariants.{ReadFault};

    ghost from_gives = { λ _ stop. stop ≡ ReadFault };

    fn from(_failed: Failed) -> ReadStop {
        ReadStop::ReadFault
    }
}

/// How many bytes are asked of a source at a time, at most.
const PIECE: usize = 65_536;

/// Takes all that is left of `src`, in pieces, and at most one byte past `limit`.
///
/// Each turn takes a byte at least. `TooLong` means that more than `limit` bytes came; one byte past
/// the limit was taken. After `Memory` the bytes that were taken are lost; after `ReadFault` it is
/// not said what is left.
pub fn read_all<S: Source>(alloc: Global, src: &mut S, limit: usize) -> Result<Vec<u8>, ReadStop>
    ensures whole { IsTrue S.tells → IfOk result (λ bytes. bytes.items ≡ S.left src.old) }
    ensures end { IsTrue S.tells → OnOk result (S.left src.new ≡ []) }
    ensures short { IfOk result (λ bytes. vec_len bytes ≤ limit) }

    ensures too_long { IsTrue S.tells → result ≡ Err ReadStop.TooLong →
        limit < length (S.left src.old) }
    ensures one_past { IsTrue S.tells → result ≡ Err ReadStop.TooLong →
        S.left src.new ≡ drop (limit + 1) (S.left src.old) }
    ensures memory { IsTrue S.tells → result ≡ Err ReadStop.Memory →
        TakesAtMost limit (S.left src.old) (S.left src.new) }
    ensures read_fault { result ≡ Err ReadStop.ReadFault →
        Rose (S.faults src.old) (S.faults src.new) }
    ensures later { S.faults src.old ≤ S.faults src.new }

    ensures name_stays { IsTrue S.tells → S.begun_as src.new ≡ S.begun_as src.old }
    ensures holds_stays { IsTrue S.tells → S.holds src.new ≡ S.holds src.old }
{
    let mut bytes = Vec::new(alloc);
    while bytes.len() <= limit {
        let room = (limit - bytes.len()).min(PIECE - 1) + 1;
        if read_some(src, &mut bytes, room)? == 0 {
            return Ok(bytes);
        }
    }
    Err(ReadStop::TooLong)
}

/// One read of at most `room` bytes, which are put after those in `bytes`.
fn read_some<S: Source>(src: &mut S, bytes: &mut Vec<u8>, room: usize) -> Result<usize, ReadStop>
    requires some { 0 < room }
    requires few { room ≤ 65536 }
    ensures within { IfOk result (λ n. n ≤ room) }
    ensures grows { IfOk result (λ n. vec_len bytes.new ≡ vec_len bytes.old + n) }
    ensures taken { IsTrue S.tells →
        OnOk result (bytes.new.items ++ S.left src.new ≡ bytes.old.items ++ S.left src.old) }
    ensures end { IsTrue S.tells → IfOk result (λ n. n ≡ 0 → S.left src.new ≡ []) }

    ensures stop { result ≢ Err ReadStop.TooLong }
    ensures memory { IsTrue S.tells → result ≡ Err ReadStop.Memory →
        S.left src.new ≡ S.left src.old }
    ensures read_fault { result ≡ Err ReadStop.ReadFault →
        Rose (S.faults src.old) (S.faults src.new) }
    ensures later { S.faults src.old ≤ S.faults src.new }
    ensures name_stays { IsTrue S.tells → S.begun_as src.new ≡ S.begun_as src.old }
    ensures holds_stays { IsTrue S.tells → S.holds src.new ≡ S.holds src.old }
{
    let start = bytes.len();
    bytes.resize(start + room, 0)?;
    match src.read(&mut bytes[start..]) {
        Ok(count) => {
            bytes.truncate(start + count);
            Ok(count)
        }
        Err(Failed) => Err(ReadStop::ReadFault),
    }
}
