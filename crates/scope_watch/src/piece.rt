//! The pieces of a source.
ghost use Rattle.std.specs.Prelude.{◌≡◌, ◌≤◌, ◌<◌, ◌+◌, ◌^◌, ◌++◌, [], Err, IsTrue, IfOk, length, take};
ghost use Rattle.fsb_io.specs.Faults.{Rose};
ghost use Rattle.scope_watch.specs.Stops.{IsStopOfReading};

use crate::stop::ScopeStop;
use fsb_io::Source;

/// The longest dump, in bytes.
const DUMP_LIMIT: u64 = 1 << 40;

/// The most bytes that are read at once.
const PIECE_LIMIT: u64 = 1 << 20;

/// Reads once into the front of the room, where so many bytes were taken before. Answers how many came; 0 is the end.
/// It takes one byte past the limit at most.
pub(crate) fn read_piece<S: Source>(
    source: &mut S,
    taken: u64,
    room: &mut [u8],
) -> Result<usize, ScopeStop>
    requires some { 0 < length room.old }
    requires few { taken ≤ 2 ^ 40 }
    ensures len { length room.new ≡ length room.old }
    ensures late { result ≡ Err ScopeStop.TooLong → 2 ^ 40 < taken + 2 ^ 20 }
    ensures within { IfOk result (λ count. count ≤ length room.old) }
    ensures few { IfOk result (λ count. taken + count ≤ 2 ^ 40) }
    ensures bytes { IsTrue S.tells →
        IfOk result (λ count. S.left source.old ≡ take count room.new ++ S.left source.new) }
    ensures end { IsTrue S.tells → IfOk result (λ count. count ≡ 0 → S.left source.new ≡ []) }
    ensures stop { (stop : ScopeStop) → result ≡ Err stop → IsStopOfReading stop }
    ensures too_long { IsTrue S.tells → result ≡ Err ScopeStop.TooLong →
        2 ^ 40 < taken + length (S.left source.old) }
    ensures read_fault { result ≡ Err ScopeStop.ReadFault →
        Rose (S.faults source.old) (S.faults source.new) }
    ensures later { S.faults source.old ≤ S.faults source.new }
    ensures name_stays { IsTrue S.tells → S.begun_as source.new ≡ S.begun_as source.old }
    ensures holds_stays { IsTrue S.tells → S.holds source.new ≡ S.holds source.old }
{
    let room_len = PIECE_LIMIT.min(room.len() as u64);
    let most = ((DUMP_LIMIT - taken).min(room_len - 1) + 1) as usize;
    let Ok(count) = source.read(&mut room[..most]) else {
        return Err(ScopeStop::ReadFault);
    };
    if DUMP_LIMIT - taken < count as u64 {
        return Err(ScopeStop::TooLong);
    }
    Ok(count)
}

/// Reads the rest of a source, where so many bytes were taken before.
pub(crate) fn read_rest<S: Source>(
    source: &mut S,
    taken: u64,
    room: &mut [u8],
) -> Result<(), ScopeStop>
    requires some { 0 < length room.old }
    requires few { taken ≤ 2 ^ 40 }
    ensures stop { (stop : ScopeStop) → result ≡ Err stop → IsStopOfReading stop }
    ensures too_long { IsTrue S.tells → result ≡ Err ScopeStop.TooLong →
        2 ^ 40 < taken + length (S.left source.old) }
    ensures read_fault { result ≡ Err ScopeStop.ReadFault →
        Rose (S.faults source.old) (S.faults source.new) }
    ensures later { S.faults source.old ≤ S.faults source.new }
    ensures name_stays { IsTrue S.tells → S.begun_as source.new ≡ S.begun_as source.old }
    ensures holds_stays { IsTrue S.tells → S.holds source.new ≡ S.holds source.old }
{
    let mut all = taken;
    'pieces: loop {
        let count = read_piece(source, all, room)?;
        if count == 0 {
            return Ok(());
        }
        all += count as u64;
    }
}
