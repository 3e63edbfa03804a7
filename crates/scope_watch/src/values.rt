//! The reading of values.
ghost use Rattle.std.specs.Prelude.{◌≡◌, ◌≤◌, ◌<◌, ◌+◌, ◌-◌, ◌^◌, ◌++◌, ℕ, List, [], Err, Some, IsTrue, OnOk, length, map};
ghost use Rattle.fsb_io.specs.Faults.{Rose};
ghost use Rattle.vcd_cut.specs.Standing.{Stands as CutterStands};
ghost use Rattle.vcd_way.specs.Ways.{ValueRules};
ghost use Rattle.vcd_way.specs.Events.{DumpEvent};
ghost use Rattle.vcd_grammar.specs.Tokens.{Token};
ghost use Rattle.vcd_course.specs.Told.{event_told};
ghost use Rattle.vcd_scan.specs.Wired.{Wiring, wires_told};
ghost use Rattle.vcd_scan.specs.Standing.{Stands, Keeps, refusal_of, events_of, tokens_after, told_after};
ghost use Rattle.vcd_joined.specs.Choosing.{Choice, choosing, IsTaken};
ghost use Rattle.vcd_joined.specs.Behind.{gathered_in};
ghost use Rattle.scope_watch.specs.Heading.{IsReady, StandsBehind};
ghost use Rattle.scope_watch.specs.Watching.{IsWatched, Seen, Finishes, IsStopOfWatching, IsStopOfEnd, rules_for};

use crate::header::Behind;
use crate::laws::faults_stay;
use crate::piece::read_piece;
use crate::stop::{ScopeStop, WatchStop};
use crate::watcher::EventWatcher;
use fsb_io::Source;
use std::alloc::Global;
use vcd_course::{Course, CourseEvent, CourseRules};
use vcd_joined::{
    a_header_is_gathered, a_value_reader_goes_on, headers_may_be_all, texts_end_as_the_readers_say,
};
use vcd_scan::{EarlyEnd, ScanRules, ScanStop, ValueReader, Wires, first_events_stay};
use vcd_way::Edge;

/// What is let pass among the values of any tool's dump.
const VALUE_RULES: ScanRules = ScanRules {
    has_wide_digits: true,
    takes_any: true,
    tells_holes: true,
    ends_early: true,
};

/// When the lines are sampled.
#[derive(Debug, Drop)]
pub struct Sampling {
    /// The edge of the clock that samples.
    pub edge: Edge,
    /// A clock whose first known digit is the one after an edge has an edge there.
    pub takes_first: bool,
    /// The lines that are sampled after the changes of the edge's own time.
    pub late: Vec<u8>,
}

/// What the end of a dump tells.
#[derive(Clone, Copy, Debug, PartialEq, Eq)]
pub struct Ended {
    /// The end of a dump that ends early.
    pub early_end: Option<EarlyEnd>,
    /// Where the first section behind the header begins that says that a limit is exceeded.
    pub limit: Option<u64>,
}

/// Reads on behind a header to the end of the source, in pieces that fit the room, and shows the watcher each event
/// once, in its order. A fault is told once the source was read to its end. Of a dump that ends early this is told, and where it says
/// that a limit is exceeded.
///
/// Of a watcher that stops, or behind a fault, the events that were shown are the first ones.
pub fn watch_values<S: Source, W: EventWatcher>(
    alloc: Global,
    source: &mut S,
    room: &mut [u8],
    behind: Behind,
    wires: Wires,
    sampling: Sampling,
    watcher: &mut W,
) -> Result<Ended, ScopeStop>
    requires some { 0 < length room.old }
    requires begun { IsReady behind }
    requires ready { (first : W) × (h : List DumpEvent) × W.has_seen first watcher.old h }
    ensures len { length room.new ≡ length room.old }
    ensures read { IsTrue S.tells → (first : W) (h : List DumpEvent) (c : Choice) (ts : List Token)
        (text : List ℕ) → W.has_seen first watcher.old h →
        StandsBehind (rules_for sampling) behind ts text (S.left source.old) →
        IsTaken c (gathered_in (rules_for sampling) ts).header (wires_told wires) →
        IsWatched result (λ es. W.has_seen first watcher.new (h ++ es)) (W.most - length h)
        (choosing c (rules_for sampling)) text }
    ensures write_fault { result ≡ Err ScopeStop.WriteFault → (first : W) (h : List DumpEvent) →
        W.has_seen first watcher.old h → W.has_failed first watcher.new }
    ensures read_fault { result ≡ Err ScopeStop.ReadFault →
        Rose (S.faults source.old) (S.faults source.new) }
    ensures later { S.faults source.old ≤ S.faults source.new }
    ensures name_stays { IsTrue S.tells → S.begun_as source.new ≡ S.begun_as source.old }
    ensures holds_stays { IsTrue S.tells → S.holds source.new ≡ S.holds source.old }
{
    a_header_is_gathered();
    a_value_reader_goes_on();
    texts_end_as_the_readers_say();
    headers_may_be_all();
    faults_stay();
    first_events_stay();
    let rules = CourseRules {
        edge: sampling.edge,
        takes_first: sampling.takes_first,
    };
    let course = Course::new(rules, sampling.late);
    let mut reader = ValueReader::new(alloc, VALUE_RULES, wires, behind.cutter, course);
    take(&mut reader, &behind.rest, watcher)?;
    watch_left(source, room, &mut reader, behind.taken, watcher)
}

/// Reads what is left of the source, of which so many bytes were taken before.
fn watch_left<S: Source, W: EventWatcher>(
    source: &mut S,
    room: &mut [u8],
    reader: &mut ValueReader,
    taken: u64,
    watcher: &mut W,
) -> Result<Ended, ScopeStop>
    requires some { 0 < length room.old }
    requires at { (first : W) × (h : List DumpEvent) × (m : ValueRules) × (w : Wiring)
        × (head fed : List ℕ)
        × Seen (λ es. W.has_seen first watcher.old (h ++ es)) m w reader.old head fed
        × (length (head ++ fed) ≤ taken) × (taken ≤ 2 ^ 40) }
    ensures len { length room.new ≡ length room.old }
    ensures read { IsTrue S.tells → (first : W) (h : List DumpEvent) (m : ValueRules) (w : Wiring)
        (head fed : List ℕ) →
        Seen (λ es. W.has_seen first watcher.old (h ++ es)) m w reader.old head fed →
        Finishes result (λ es. W.has_seen first watcher.new (h ++ es)) (W.most - length h) m w
        head (fed ++ S.left source.old) }
    ensures write_fault { result ≡ Err ScopeStop.WriteFault → (first : W) (h : List DumpEvent) (m : ValueRules)
        (w : Wiring) (head fed : List ℕ) →
        Seen (λ es. W.has_seen first watcher.old (h ++ es)) m w reader.old head fed →
        W.has_failed first watcher.new }
    ensures too_long { IsTrue S.tells → result ≡ Err ScopeStop.TooLong →
        2 ^ 40 < taken + length (S.left source.old) }
    ensures read_fault { result ≡ Err ScopeStop.ReadFault →
        Rose (S.faults source.old) (S.faults source.new) }
    ensures later { S.faults source.old ≤ S.faults source.new }
    ensures name_stays { IsTrue S.tells → S.begun_as source.new ≡ S.begun_as source.old }
    ensures holds_stays { IsTrue S.tells → S.holds source.new ≡ S.holds source.old }
{
    first_events_stay();
    let mut all = taken;
    'pieces: loop {
        let count = read_piece(source, all, room)?;
        if count == 0 {
            return end(reader, watcher);
        }
        all += count as u64;
        take(reader, &room[..count], watcher)?;
    }
}

/// Reads the next piece, and shows its events. Behind a fault nothing is shown; the end tells it.
fn take<W: EventWatcher>(
    reader: &mut ValueReader,
    piece: &[u8],
    watcher: &mut W,
) -> Result<(), ScopeStop>
    requires { (first : W) × (h : List DumpEvent) × (m : ValueRules) × (w : Wiring)
        × (head fed : List ℕ)
        × Seen (λ es. W.has_seen first watcher.old (h ++ es)) m w reader.old head fed
        × (length (head ++ fed) + length piece.now + 1 < 2 ^ 64) }
    ensures seen { OnOk result ((first : W) (h : List DumpEvent) (m : ValueRules) (w : Wiring)
        (head fed : List ℕ) →
        Seen (λ es. W.has_seen first watcher.old (h ++ es)) m w reader.old head fed →
        Seen (λ es. W.has_seen first watcher.new (h ++ es)) m w reader.new head
        (fed ++ piece.now)) }
    ensures write_fault { result ≡ Err ScopeStop.WriteFault → (first : W) (h : List DumpEvent) (m : ValueRules)
        (w : Wiring) (head fed : List ℕ) →
        Seen (λ es. W.has_seen first watcher.old (h ++ es)) m w reader.old head fed →
        W.has_failed first watcher.new }
    ensures many { result ≡ Err ScopeStop.TooMany → (first : W) (h : List DumpEvent)
        (m : ValueRules) (w : Wiring) (head fed : List ℕ) →
        Seen (λ es. W.has_seen first watcher.old (h ++ es)) m w reader.old head fed →
        W.most ≤ length (h ++ told_after m w (tokens_after head (fed ++ piece.now))) }
    ensures stop { (stop : ScopeStop) → result ≡ Err stop → IsStopOfWatching stop }
{
    match reader.feed(piece) {
        Ok(()) => Ok(show(reader, watcher)?),
        Err(ScanStop::Memory) => Err(ScopeStop::Memory),
        Err(ScanStop::Bad(_)) => Ok(()),
    }
}

/// Reads the end, and shows the last events.
fn end<W: EventWatcher>(reader: &mut ValueReader, watcher: &mut W) -> Result<Ended, ScopeStop>
    requires { (first : W) × (h : List DumpEvent) × (m : ValueRules) × (w : Wiring)
        × (head fed : List ℕ)
        × Seen (λ es. W.has_seen first watcher.old (h ++ es)) m w reader.old head fed
        × (length (head ++ fed) + 1 < 2 ^ 64) }
    ensures finishes { (first : W) (h : List DumpEvent) (m : ValueRules) (w : Wiring)
        (head fed : List ℕ) →
        Seen (λ es. W.has_seen first watcher.old (h ++ es)) m w reader.old head fed →
        Finishes result (λ es. W.has_seen first watcher.new (h ++ es)) (W.most - length h) m w
        head fed }
    ensures write_fault { result ≡ Err ScopeStop.WriteFault → (first : W) (h : List DumpEvent) (m : ValueRules)
        (w : Wiring) (head fed : List ℕ) →
        Seen (λ es. W.has_seen first watcher.old (h ++ es)) m w reader.old head fed →
        W.has_failed first watcher.new }
    ensures stop { (stop : ScopeStop) → result ≡ Err stop → IsStopOfEnd stop }
{
    match reader.finish() {
        Ok(early_end) => {
            let limit = reader.limit();
            show(reader, watcher)?;
            Ok(Ended { early_end, limit })
        }
        Err(ScanStop::Memory) => Err(ScopeStop::Memory),
        Err(ScanStop::Bad(fault)) => Err(ScopeStop::Bad(fault)),
    }
}

/// Shows what the reader told, and takes it away.
fn show<W: EventWatcher>(reader: &mut ValueReader, watcher: &mut W) -> Result<(), WatchStop>
    requires { (first : W) × (h : List DumpEvent) × W.has_seen first watcher.old h }
    ensures shown { OnOk result ((first : W) (h : List DumpEvent) → W.has_seen first watcher.old h →
        W.has_seen first watcher.new (h ++ events_of reader.old)) }
    ensures many { result ≡ Err WatchStop.TooMany → (first : W) (h : List DumpEvent) →
        W.has_seen first watcher.old h → W.most ≤ length (h ++ events_of reader.old) }
    ensures failed { result ≡ Err WatchStop.WriteFault → (first : W) (h : List DumpEvent) →
        W.has_seen first watcher.old h → W.has_failed first watcher.new }
    ensures events { OnOk result (events_of reader.new ≡ []) }
    ensures stands { (head fed : List ℕ) → Stands reader.old head fed → Stands reader.new head fed }
    ensures refusal { refusal_of reader.new ≡ refusal_of reader.old }
    ensures keeps { Keeps reader.old reader.new }
{
    show_each(reader.events(), watcher)?;
    reader.take_events();
    Ok(())
}

/// Shows these events.
fn show_each<W: EventWatcher>(events: &[CourseEvent], watcher: &mut W) -> Result<(), WatchStop>
    requires { (first : W) × (h : List DumpEvent) × W.has_seen first watcher.old h }
    ensures seen { OnOk result ((first : W) (h : List DumpEvent) → W.has_seen first watcher.old h →
        W.has_seen first watcher.new (h ++ map event_told events.now)) }
    ensures many { result ≡ Err WatchStop.TooMany → (first : W) (h : List DumpEvent) →
        W.has_seen first watcher.old h → W.most ≤ length (h ++ map event_told events.now) }
    ensures failed { result ≡ Err WatchStop.WriteFault → (first : W) (h : List DumpEvent) →
        W.has_seen first watcher.old h → W.has_failed first watcher.new }
{
    for event in events {
        watcher.see(event)?;
    }
    Ok(())
}
