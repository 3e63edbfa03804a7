//! The reading of a dump in pieces.
ghost use Rattle.std.specs.Prelude.{◌≡◌, ◌≤◌, ◌<◌, ◌+◌, ◌^◌, ℕ, List, [], Err, IsTrue, IfOk, Some, length};
ghost use Rattle.fsb_io.specs.Faults.{Rose};
ghost use Rattle.fsb_io.specs.Takes.{TakesAtMost};
ghost use Rattle.fsb_watch.specs.Watching.{Stood, HasTaken, IsStopOfReading};
ghost use Rattle.fsb_watch.specs.Watched.{IsReadAs, IsSeen, HasBegun, IsBegunOrStays};

use crate::pieces::Pieces;
use crate::stop::DumpStop;
use crate::watcher::Watcher;
use fsb_io::{Failed, Source};
use std::alloc::Global;

/// The longest dump, in bytes.
const DUMP_LIMIT: u64 = 1 << 40;

/// How many bytes are asked of the source at a time, at most.
const PIECE: u64 = 65_536;

/// Begins the source under the name, reads it to its end in pieces of at most 65,536 bytes, or to one byte past 2^40,
/// parses each piece as it comes and shows the watcher its samples. Answers how many the dump has.
///
/// Each turn takes a byte at least. No trace is kept: the memory that is taken here does not grow with the dump. Where the
/// answer is not Ok, nothing is said of the watcher.
pub fn watch_dump<S: Source, W: Watcher>(
    alloc: Global,
    name: &str,
    source: &mut S,
    watcher: &mut W,
) -> Result<u32, DumpStop>
    requires named { length name.now ≤ 4096 }
    requires ready { W.is_ready watcher.old }
    ensures read { IsTrue S.tells →
        IsReadAs (IsSeen (W.has_seen watcher.old watcher.new)) result (S.holds source.old)
        (S.left source.new) }
    ensures named { IsTrue S.tells → HasBegun result → S.begun_as source.new ≡ Some name.now }
    ensures not_read { IsTrue S.tells → result ≡ Err DumpStop.ReadFault →
        IsBegunOrStays name.now (S.begun_as source.old) (S.begun_as source.new)
        (S.left source.old) (S.left source.new) }
    ensures read_fault { result ≡ Err DumpStop.ReadFault →
        Rose (S.faults source.old) (S.faults source.new) }
    ensures later { S.faults source.old ≤ S.faults source.new }
    ensures holds_stays { IsTrue S.tells → S.holds source.new ≡ S.holds source.old }
{
    match source.begin(name) {
        Ok(()) => watch_left(alloc, source, watcher),
        Err(Failed) => Err(DumpStop::ReadFault),
    }
}

// Reads all that is left, piece by piece, and shows its samples.
fn watch_left<S: Source, W: Watcher>(
    alloc: Global,
    source: &mut S,
    watcher: &mut W,
) -> Result<u32, DumpStop>
    requires { W.is_ready watcher.old }
    ensures read { IsTrue S.tells →
        IsReadAs (IsSeen (W.has_seen watcher.old watcher.new)) result (S.left source.old)
        (S.left source.new) }
    ensures read_fault { result ≡ Err DumpStop.ReadFault →
        Rose (S.faults source.old) (S.faults source.new) }
    ensures later { S.faults source.old ≤ S.faults source.new }
    ensures name_stays { IsTrue S.tells → S.begun_as source.new ≡ S.begun_as source.old }
    ensures holds_stays { IsTrue S.tells → S.holds source.new ≡ S.holds source.old }
{
    let mut pieces = Pieces::new(alloc)?;
    let mut piece = vec![in alloc; 0; PIECE as usize]?;
    let mut taken: u64 = 0;
    while taken <= DUMP_LIMIT {
        let room = ((DUMP_LIMIT - taken).min(PIECE - 1) + 1) as usize;
        let count = take_piece(source, &mut pieces, watcher, &mut piece[..room])?;
        if count == 0 {
            return pieces.end(watcher);
        }
        taken += count as u64;
    }
    Err(DumpStop::TooLong)
}

// Reads once into the piece of at most 65,536 bytes, and lets the bytes that came be parsed; answers how many.
fn take_piece<S: Source, W: Watcher>(
    source: &mut S,
    pieces: &mut Pieces,
    watcher: &mut W,
    piece: &mut [u8],
) -> Result<usize, DumpStop>
    requires few { length piece.old ≤ 65536 }
    requires room { (first : W) × (fed : List ℕ) × W.is_ready first
        × Stood W.has_seen first watcher.old pieces.old fed
        × (length fed + length piece.old < 2 ^ 64) }
    ensures within { IfOk result (λ count. count ≤ length piece.old) }
    ensures len { length piece.new ≡ length piece.old }
    ensures taken { IfOk result (λ count. (first : W) (fed : List ℕ) → W.is_ready first →
        Stood W.has_seen first watcher.old pieces.old fed →
        HasTaken (Stood W.has_seen first watcher.new pieces.new) fed (S.left source.old)
        (S.left source.new) count S.tells) }
    ensures end { IsTrue S.tells → 0 < length piece.old →
        IfOk result (λ count. count ≡ 0 → S.left source.new ≡ []) }
    ensures stop { (stop : DumpStop) → result ≡ Err stop → IsStopOfReading stop }
    ensures memory { IsTrue S.tells → result ≡ Err DumpStop.Memory →
        TakesAtMost (length piece.old) (S.left source.old) (S.left source.new) }
    ensures read_fault { result ≡ Err DumpStop.ReadFault →
        Rose (S.faults source.old) (S.faults source.new) }
    ensures later { S.faults source.old ≤ S.faults source.new }
    ensures name_stays { IsTrue S.tells → S.begun_as source.new ≡ S.begun_as source.old }
    ensures holds_stays { IsTrue S.tells → S.holds source.new ≡ S.holds source.old }
{
    let Ok(count) = source.read(piece) else {
        return Err(DumpStop::ReadFault);
    };
    pieces.take(&piece[..count], watcher)?;
    Ok(count)
}
