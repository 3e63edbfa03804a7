//! What the entries of a queue say of themselves, and of their steps where the clocks are known that these rest on.

ghost use Rattle.std.specs.Prelude.{◌≡◌, ◌+◌, ◌&&◌, is_some, is_none, if◌then◌else◌, Some, None};
ghost use Rattle.std.specs.List.{find};
ghost use Rattle.std.specs.Option.{option_map, option_and_then};
ghost use Rattle.fsb_count.specs.Options.{is_some_and};
ghost use Rattle.fsb_trace.specs.Outcome.{does_take};
ghost use Rattle.fsb_trace.specs.Timing.{chunk_from, is_busy_from};
ghost use Rattle.fsb_phase.specs.Due.{is_moving};
ghost use Rattle.fsb_phase.specs.Drive.{settled_code};

use crate::timing::{chunk_from, is_busy_from};
use fsb_queue::{Entry, Queue};
use fsb_trace::{Outcome, code_of};

/// The number of the entry, if there is one.
pub fn number_of(e: &Option<Entry>) -> Option<u32>
    ensures { result ≡ option_map (λ y. y.number) e.now }
{
    match e {
        Some(e) => Some(e.number),
        None => None,
    }
}

/// Whether memory takes data with the entry's outcome.
#[tactic(auto, unfolding(fsb_trace::specs::Outcome::does_take, fsb_count::specs::Options::is_some_and))]
pub fn is_taking(e: &Entry) -> bool
    ensures { result ≡ is_some_and e.now.outcome does_take }
{
    matches!(e.outcome, Some(Outcome::Handed | Outcome::Written))
}

/// Whether data move with the entry's outcome.
#[tactic(auto, unfolding(fsb_count::specs::Options::is_some_and))]
fn is_moving(e: &Entry) -> bool
    ensures { result ≡ is_moving e.now }
{
    match e.outcome {
        Some(outcome) => fsb_trace::moves(outcome),
        None => false,
    }
}

/// The response code of the entry's outcome; 0 where it has none.
#[tactic(auto, unfolding(crate::specs::Drive::settled_code))]
fn settled_code(e: &Entry) -> u8
    ensures { result ≡ settled_code e.now }
{
    match e.outcome {
        Some(outcome) => code_of(outcome),
        None => 0,
    }
}

/// The response code of the entry where it responds, and 0 where it does not.
pub fn code_if(responds: bool, e: &Entry) -> u8
    ensures { result ≡ (if responds then settled_code e.now else 0) }
{
    if responds { settled_code(e) } else { 0 }
}

/// The first entry without an outcome.
pub fn open_entry(queue: &Queue) -> Option<Entry>
    ensures { result ≡ find (λ e. is_none e.outcome) queue.now }
{
    queue.iter().find(|e| e.outcome.is_none()).copied()
}

/// Whether the data of an entry that is answered at this clock keep the bus busy at `c`.
#[tactic(auto, unfolding(fsb_count::specs::Options::is_some_and))]
pub fn is_busy(e: &Entry, c: u32, answered: Option<u32>) -> bool
    ensures { result
        ≡ (is_moving e.now && is_some_and answered (is_busy_from e.now.choice.gap c)) }
{
    match answered {
        Some(r) => is_moving(e) && is_busy_from(e.choice.gap, c, r),
        None => false,
    }
}

/// The chunk that is due at `c` of an entry that is answered at this clock.
fn due_chunk(e: &Entry, c: u32, answered: Option<u32>) -> Option<u8>
    ensures { result ≡ (if is_moving e.now
        then option_and_then (chunk_from e.now.choice.gap c) answered else None) }
{
    match answered {
        Some(r) if is_moving(e) => chunk_from(e.choice.gap, c, r),
        _ => None,
    }
}

/// That chunk, with the entry's number.
pub fn chunk_due(e: &Entry, c: u32, answered: Option<u32>) -> Option<(u32, u8)>
    ensures { result ≡ option_map (λ n. (e.now.number, n)) (if is_moving e.now
        then option_and_then (chunk_from e.now.choice.gap c) answered else None) }
{
    match due_chunk(e, c, answered) {
        Some(n) => Some((e.number, n)),
        None => None,
    }
}

/// Whether there is an entry, and data move with its outcome.
#[tactic(auto, unfolding(fsb_count::specs::Options::is_some_and))]
pub fn has_data(entry: Option<Entry>) -> bool
    ensures { result ≡ is_some_and entry is_moving }
{
    match entry {
        Some(e) => is_moving(&e),
        None => false,
    }
}

/// The clock from which an entry is answered, after the sample of `now`: `settled` where it has its outcome, and two
/// clocks later where its snoop ends now.
pub fn answer_after(settled: Option<u64>, now: u32, ends: bool, entry: Option<Entry>) -> Option<u64>
    ensures { result ≡ option_and_then
        (λ e. if is_some e.outcome then settled else (if ends then Some (now + 2) else None))
        entry }
{
    match entry {
        Some(e) if e.outcome.is_some() => settled,
        Some(_) if ends => Some(u64::from(now) + 2),
        _ => None,
    }
}
