//! `pick`: the lines of the bus, written as a dump of their own.

ghost use Rattle.std.specs.Prelude.{◌≡◌, ◌≢◌, ◌≤◌, Err, IsTrue, IfOk, length};
ghost use Rattle.fsb_io.specs.Faults.{Rose};
ghost use Rattle.scope_words.specs.Orders.{KeepsWires};
ghost use Rattle.scope_top.specs.Ends.{ending_copied};
ghost use Rattle.scope_top.specs.Performing.{EndsCopied, EndsCopiedAs, EndsPick, EndsPut};

use crate::answer::{Answer, Stream};
use crate::check::edge_of;
use crate::listed::{Listed, listed_choice};
use crate::settled::{Settled, settled_part};
use crate::stop::Stop;
use crate::stopped::{PIECE, stop_answer};
use fsb_io::{Sink, Source};
use scope_copy::{Copied, CopyFinding, copy_dump};
use scope_report::{Ending, refusal_text, unread_text};
use scope_watch::{Sampling, ScopeStop};
use scope_wiring::Choice;
use scope_words::{Part, Wires};
use std::alloc::{AllocError, Global};
use vcd_scan::EarlyEnd;

/// Writes the part of a dump that the words name to the sink, and tells what was not written.
pub(crate) fn pick_answer<L: Source, S: Source, O: Sink>(
    alloc: Global,
    name: &str,
    wires: Wires<'_>,
    words: &Part,
    named: &mut L,
    dump: &mut S,
    out: &mut O,
) -> Result<Answer, Stop>
    requires named { length name.now ≤ 4096 }
    requires wires { KeepsWires wires }
    ensures ends { IsTrue L.tells → IsTrue S.tells → IsTrue O.tells → IfOk result (λ answer.
        EndsPick wires.entry words.now (L.holds named.old) (S.holds dump.old)
        (O.holds out.old) (O.holds out.new) answer.ending) }
    ensures lines_fault { result ≡ Err Stop.Lines →
        Rose (L.faults named.old) (L.faults named.new) }
    ensures dump_fault { result ≡ Err Stop.Dump → Rose (S.faults dump.old) (S.faults dump.new) }
    ensures out_fault { IsTrue S.tells → result ≡ Err Stop.Out →
        Rose (O.faults out.old) (O.faults out.new) }
{
    let sampling = Sampling {
        edge: edge_of(wires.edge),
        takes_first: wires.is_first,
        late: wires.after,
    };
    match listed_choice(alloc, wires.choice, wires.file, named)? {
        Listed::Unlisted(answer) => Ok(answer),
        Listed::Chosen(choice) => put_answer(alloc, name, &choice, words, sampling, dump, out),
    }
}

// Writes the part that the words name, of a dump whose wires are chosen so.
fn put_answer<S: Source, O: Sink>(
    alloc: Global,
    name: &str,
    choice: &Choice,
    words: &Part,
    sampling: Sampling,
    dump: &mut S,
    out: &mut O,
) -> Result<Answer, Stop>
    requires { length name.now ≤ 4096 }
    ensures ends { IsTrue S.tells → IsTrue O.tells → IfOk result (λ answer.
        EndsPut words.now sampling (S.holds dump.old) (O.holds out.old) (O.holds out.new)
        choice.now answer.ending) }
    ensures not_lines { result ≢ Err Stop.Lines }
    ensures dump_fault { result ≡ Err Stop.Dump → Rose (S.faults dump.old) (S.faults dump.new) }
    ensures out_fault { IsTrue S.tells → result ≡ Err Stop.Out →
        Rose (O.faults out.old) (O.faults out.new) }
{
    match settled_part(alloc, name, words, dump)? {
        Settled::Unsettled(answer) => Ok(answer),
        Settled::Part(part) => copied_answer(alloc, name, choice, part, sampling, dump, out),
    }
}

// Writes this part of a dump whose wires are chosen so.
fn copied_answer<S: Source, O: Sink>(
    alloc: Global,
    name: &str,
    choice: &Choice,
    part: scope_check::Part,
    sampling: Sampling,
    dump: &mut S,
    out: &mut O,
) -> Result<Answer, Stop>
    requires { length name.now ≤ 4096 }
    ensures ends { IsTrue S.tells → IsTrue O.tells → IfOk result (λ answer.
        EndsCopied choice.now sampling (S.holds dump.old) (O.holds out.old) (O.holds out.new)
        part answer.ending) }
    ensures not_lines { result ≢ Err Stop.Lines }
    ensures dump_fault { result ≡ Err Stop.Dump → Rose (S.faults dump.old) (S.faults dump.new) }
    ensures out_fault { IsTrue S.tells → result ≡ Err Stop.Out →
        Rose (O.faults out.old) (O.faults out.new) }
{
    let mut room = vec![in alloc; 0; PIECE]?;
    let end = copy_dump(alloc, name, dump, &mut room, choice, part, sampling, out);
    end_answer(alloc, name, choice, end)
}

// Tells how a copy ended.
fn end_answer(
    alloc: Global,
    name: &str,
    choice: &Choice,
    end: Result<Copied, ScopeStop>,
) -> Result<Answer, Stop>
    ensures ends { IfOk result (λ answer. EndsCopiedAs end answer.ending) }
    ensures not_lines { result ≢ Err Stop.Lines }
    ensures dump_fault { result ≡ Err Stop.Dump → end ≡ Err ScopeStop.ReadFault }
    ensures out_fault { result ≡ Err Stop.Out → end ≡ Err ScopeStop.WriteFault }
{
    match end {
        Ok(copied) => Ok(told_answer(alloc, name, choice, &copied)?),
        Err(ScopeStop::WriteFault) => Err(Stop::Out),
        Err(stop) => stop_answer(alloc, name, stop),
    }
}

// Tells what was not written.
fn told_answer(
    alloc: Global,
    name: &str,
    choice: &Choice,
    copied: &Copied,
) -> Result<Answer, AllocError>
    ensures { IfOk result (λ answer. answer.ending ≡ ending_copied copied.now.finding) }
{
    let ending = ending_copied(&copied.finding);
    let text = told_text(alloc, name, choice, copied)?;
    Ok(Answer {
        ending,
        stream: Stream::Err,
        text,
    })
}

// The text of what was not written.
fn told_text(
    alloc: Global,
    name: &str,
    choice: &Choice,
    copied: &Copied,
) -> Result<Vec<u8>, AllocError> {
    match &copied.finding {
        CopyFinding::Refused(refusal) => {
            refusal_text(alloc, name, &copied.header.variables, choice, refusal)
        }
        CopyFinding::Copied(_, told) => copied_text(alloc, name, told.clocks, told.early_end),
    }
}

// The text of what was not written, of a dump of which so many clocks were.
fn copied_text(
    alloc: Global,
    name: &str,
    clocks: u64,
    early_end: Option<EarlyEnd>,
) -> Result<Vec<u8>, AllocError> {
    if clocks == 0 {
        return unread_text(
            alloc,
            name,
            "no clock of the part is there, so none was written: p6scope check tells why",
        );
    }
    match early_end {
        None => Ok(Vec::new(alloc)),
        Some(end) => cut_text(alloc, name, end.open_from.unwrap_or(end.fault.place)),
    }
}

/// The text of a dump that ends early: what begins at this byte is cut.
pub(crate) fn cut_text(alloc: Global, name: &str, place: u64) -> Result<Vec<u8>, AllocError> {
    let reason = format!(in alloc; "the file ends early: what begins at byte {place} is cut")?;
    unread_text(alloc, name, reason.as_str())
}

/// How a copy ends that found this.
pub fn ending_copied(finding: &CopyFinding) -> Ending
    ensures { result ≡ ending_copied finding.now }
{
    match finding {
        CopyFinding::Refused(_) => Ending::Unjudged,
        CopyFinding::Copied(_, told) => {
            if told.clocks == 0 {
                Ending::Unjudged
            } else {
                Ending::Clean
            }
        }
    }
}
