//! `coherence`: whether a coherent system could have made a dump.

ghost use Rattle.std.specs.Prelude.{◌≡◌, ◌≢◌, ◌≤◌, Err, IsTrue, IfOk, length};
ghost use Rattle.fsb_io.specs.Faults.{Rose};
ghost use Rattle.scope_words.specs.Orders.{KeepsWires};
ghost use Rattle.scope_top.specs.Ends.{ending_cohered, ending_with};
ghost use Rattle.scope_top.specs.Performing.{EndsCoherence, EndsCoherent, EndsCohered, EndsCoheredAs};

use crate::answer::{Answer, Stream};
use crate::check::edge_of;
use crate::listed::{Listed, listed_choice};
use crate::settled::{Settled, settled_part};
use crate::stop::Stop;
use crate::stopped::{PIECE, stop_answer};
use fsb_io::Source;
use scope_check::Verdict;
use scope_coherence::{Cohered, CoheredPart, CoherenceFinding, Incoherent, coherence_of};
use scope_report::{CoherenceTold, Ending, coherence_text, refusal_text};
use scope_watch::{Sampling, ScopeStop};
use scope_wiring::Choice;
use scope_words::{Part, Wires};
use std::alloc::{AllocError, Global};
use vcd_course::Stamp;

/// The least number of a rule of ownership.
const OWNERSHIP: u8 = 21;

/// Judges the coherence of the part of a dump that the words name, and tells what was found.
pub(crate) fn coherence_answer<L: Source, S: Source>(
    alloc: Global,
    name: &str,
    wires: Wires<'_>,
    words: &Part,
    named: &mut L,
    dump: &mut S,
) -> Result<Answer, Stop>
    requires named { length name.now ≤ 4096 }
    requires wires { KeepsWires wires }
    ensures ends { IsTrue L.tells → IsTrue S.tells → IfOk result (λ answer.
        EndsCoherence wires.entry words.now (L.holds named.old) (S.holds dump.old) answer.ending) }
    ensures lines_fault { result ≡ Err Stop.Lines →
        Rose (L.faults named.old) (L.faults named.new) }
    ensures dump_fault { result ≡ Err Stop.Dump → Rose (S.faults dump.old) (S.faults dump.new) }
    ensures not_out { result ≢ Err Stop.Out }
{
    let sampling = Sampling {
        edge: edge_of(wires.edge),
        takes_first: wires.is_first,
        late: wires.after,
    };
    match listed_choice(alloc, wires.choice, wires.file, named)? {
        Listed::Unlisted(answer) => Ok(answer),
        Listed::Chosen(choice) => parted_answer(alloc, name, &choice, words, sampling, dump),
    }
}

// Judges the part that the words name, of a dump whose wires are chosen so.
fn parted_answer<S: Source>(
    alloc: Global,
    name: &str,
    choice: &Choice,
    words: &Part,
    sampling: Sampling,
    dump: &mut S,
) -> Result<Answer, Stop>
    requires { length name.now ≤ 4096 }
    ensures ends { IsTrue S.tells → IfOk result (λ answer.
        EndsCoherent words.now sampling (S.holds dump.old) choice.now answer.ending) }
    ensures not_lines { result ≢ Err Stop.Lines }
    ensures dump_fault { result ≡ Err Stop.Dump → Rose (S.faults dump.old) (S.faults dump.new) }
    ensures not_out { result ≢ Err Stop.Out }
{
    match settled_part(alloc, name, words, dump)? {
        Settled::Unsettled(answer) => Ok(answer),
        Settled::Part(part) => cohered_answer(alloc, name, choice, part, sampling, dump),
    }
}

// Judges this part of a dump whose wires are chosen so.
fn cohered_answer<S: Source>(
    alloc: Global,
    name: &str,
    choice: &Choice,
    part: scope_check::Part,
    sampling: Sampling,
    dump: &mut S,
) -> Result<Answer, Stop>
    requires { length name.now ≤ 4096 }
    ensures ends { IsTrue S.tells → IfOk result (λ answer.
        EndsCohered choice.now sampling (S.holds dump.old) part answer.ending) }
    ensures not_lines { result ≢ Err Stop.Lines }
    ensures dump_fault { result ≡ Err Stop.Dump → Rose (S.faults dump.old) (S.faults dump.new) }
    ensures not_out { result ≢ Err Stop.Out }
{
    let mut room = vec![in alloc; 0; PIECE]?;
    let end = coherence_of(alloc, name, dump, &mut room, choice, part, sampling);
    end_answer(alloc, name, choice, end)
}

// Tells how the judging ended.
fn end_answer(
    alloc: Global,
    name: &str,
    choice: &Choice,
    end: Result<Cohered, ScopeStop>,
) -> Result<Answer, Stop>
    ensures ends { IfOk result (λ answer. EndsCoheredAs end answer.ending) }
    ensures not_lines { result ≢ Err Stop.Lines }
    ensures dump_fault { result ≡ Err Stop.Dump → end ≡ Err ScopeStop.ReadFault }
    ensures not_out { result ≢ Err Stop.Out }
{
    match end {
        Ok(cohered) => Ok(told_answer(alloc, name, choice, &cohered)?),
        Err(stop) => stop_answer(alloc, name, stop),
    }
}

// Tells what was found.
fn told_answer(
    alloc: Global,
    name: &str,
    choice: &Choice,
    cohered: &Cohered,
) -> Result<Answer, AllocError>
    ensures { IfOk result (λ answer. answer.ending ≡ ending_cohered cohered.now.finding) }
{
    let ending = ending_cohered(&cohered.finding);
    let (stream, text) = told_text(alloc, name, choice, cohered)?;
    Ok(Answer {
        ending,
        stream,
        text,
    })
}

// The text of what was found, and where it goes.
fn told_text(
    alloc: Global,
    name: &str,
    choice: &Choice,
    cohered: &Cohered,
) -> Result<(Stream, Vec<u8>), AllocError> {
    let header = &cohered.header;
    match &cohered.finding {
        CoherenceFinding::Refused(refusal) => {
            let text = refusal_text(alloc, name, &header.variables, choice, refusal)?;
            Ok((Stream::Err, text))
        }
        CoherenceFinding::Judged(wiring, told) => {
            let text = coherence_text(
                alloc,
                name,
                &header.variables,
                &header.remarks,
                choice,
                wiring,
                &told_of(told),
            )?;
            Ok((Stream::Out, text))
        }
    }
}

// What was judged, as it is told.
fn told_of(part: &CoheredPart) -> CoherenceTold {
    CoherenceTold {
        start: part.start,
        judged: part.judged,
        is_later: part.is_later,
        verdict: verdict_of(part.start, part.judged, part.found, part.stamp),
        early_end: part.early_end,
    }
}

// The verdict on a part of so many clocks from this one on; its clock is counted as those of the dump.
fn verdict_of(start: u64, judged: u64, found: Option<Incoherent>, stamp: Option<Stamp>) -> Verdict {
    match found {
        None => {
            if judged == 0 {
                Verdict::Nothing
            } else {
                Verdict::Accepted
            }
        }
        Some(broken) => Verdict::Broken {
            clock: start.saturating_add(u64::from(broken.clock)),
            rule: broken.rule,
            stamp,
        },
    }
}

/// How the judging of coherence ends that found this.
pub fn ending_cohered(finding: &CoherenceFinding) -> Ending
    ensures { result ≡ ending_cohered finding.now }
{
    match finding {
        CoherenceFinding::Refused(_) => Ending::Unjudged,
        CoherenceFinding::Judged(_, told) => ending_with(told.judged, told.is_later, told.found),
    }
}

// How a part of so many clocks ends, in which this rule is broken first, if one is.
fn ending_with(judged: u64, is_later: bool, found: Option<Incoherent>) -> Ending
    ensures { result ≡ ending_with judged is_later found }
{
    match found {
        None => {
            if judged == 0 {
                Ending::Unjudged
            } else {
                Ending::Clean
            }
        }
        Some(broken) => {
            if is_later && broken.rule < OWNERSHIP {
                Ending::Unjudged
            } else {
                Ending::Broken
            }
        }
    }
}
