//! The reasons of a rejected dump and the requests around its broken clock, for which it is read once more.

ghost use Rattle.std.specs.Prelude.{◌≡◌, ◌≤◌, IsTrue, length};

use crate::stopped::PIECE;
use fsb_io::Source;
use reason_texts::{Sentence, counted_behind};
use scope_check::{Part, Verdict};
use scope_explain::{Explained, Explanation, explained_of};
use scope_parts::PartFound;
use scope_report::Grounds;
use scope_watch::{Finding, Sampling};
use scope_wiring::Choice;
use std::alloc::{AllocError, Global};

/// How a dump is sampled once more, where it can be read again; without memory it is not.
pub(crate) fn sampling_again(is_again: bool, sampling: &Sampling) -> Option<Sampling> {
    if !is_again {
        return None;
    }
    match sampling.late.clone() {
        Ok(late) => Some(Sampling {
            edge: sampling.edge,
            takes_first: sampling.takes_first,
            late,
        }),
        Err(_) => None,
    }
}

/// The reasons of the first broken clock of a dump in which this was found, and the requests around it. There are none where
/// nothing is broken, the broken part begins later, so that it isn't known who had the bus last, or reading once more fails.
pub(crate) fn reasons_of<S: Source>(
    alloc: Global,
    name: &str,
    choice: &Choice,
    part: Part,
    sampling: Option<Sampling>,
    finding: &Finding,
    dump: &mut S,
) -> Grounds
    requires { length name.now ≤ 4096 }
    ensures later { S.faults dump.old ≤ S.faults dump.new }
    ensures holds_stays { IsTrue S.tells → S.holds dump.new ≡ S.holds dump.old }
{
    match (sampling, first_fault(finding)) {
        (Some(sampling), Some(fault)) => {
            read_again(alloc, name, choice, part, sampling, &fault, dump).unwrap_or(Grounds::none(
                alloc,
            ))
        }
        _ => Grounds::none(alloc),
    }
}

// The first broken part, unless it begins later: then it is the part that was asked for.
fn first_fault(finding: &Finding) -> Option<PartFound> {
    match finding {
        Finding::Refused(_) => None,
        Finding::Judged(_, told) => match told.judged.faults.as_slice().first() {
            Some(fault) => { if fault.is_later { None } else { Some(*fault) } }
            None => None,
        },
    }
}

// The reasons of this broken part, where it is found again.
fn read_again<S: Source>(
    alloc: Global,
    name: &str,
    choice: &Choice,
    part: Part,
    sampling: Sampling,
    fault: &PartFound,
    dump: &mut S,
) -> Result<Grounds, AllocError>
    requires { length name.now ≤ 4096 }
    ensures later { S.faults dump.old ≤ S.faults dump.new }
    ensures holds_stays { IsTrue S.tells → S.holds dump.new ≡ S.holds dump.old }
{
    let mut room = vec![in alloc; 0; PIECE]?;
    match explained_of(alloc, name, dump, &mut room, choice, part, sampling) {
        Ok(Explanation::Broken(explained)) => grounds_of(alloc, explained, fault),
        _ => Ok(Grounds::none(alloc)),
    }
}

// What was explained, if that is of this broken clock.
fn grounds_of(
    alloc: Global,
    explained: Explained,
    fault: &PartFound,
) -> Result<Grounds, AllocError> {
    match clocks_before(&explained, fault) {
        None => Ok(Grounds::none(alloc)),
        Some(before) => {
            let sentences = sentences_behind(alloc, &explained, before)?;
            let around = explained.around;
            Ok(Grounds {
                sentences,
                around,
                before,
            })
        }
    }
}

// How many clocks come before those of the part, if this clock and rule were explained: a file may have changed since. Where
// a clock is not counted in 32 bits, none was.
fn clocks_before(explained: &Explained, fault: &PartFound) -> Option<u32> {
    match fault.verdict {
        Verdict::Nothing | Verdict::Accepted => None,
        Verdict::Broken { clock, rule, .. } => {
            let before = clock.checked_sub(u64::from(explained.clock))?;
            if clock < 4_294_967_296 && before == fault.start && rule == explained.rule {
                Some(before as u32)
            } else {
                None
            }
        }
    }
}

// The sentences of what was explained, behind so many clocks.
fn sentences_behind(
    alloc: Global,
    explained: &Explained,
    before: u32,
) -> Result<Vec<Sentence>, AllocError> {
    let clock = explained.clock;
    let mut sentences = Vec::new(alloc);
    for reason in &explained.reasons {
        let reason = *reason;
        sentences.push(counted_behind(before, Sentence { clock, reason }))?;
    }
    Ok(sentences)
}
