//! `lines`: what a dump declares.

ghost use Rattle.std.specs.Prelude.{◌≡◌, ◌≢◌, ◌≤◌, Err, IsTrue, IfOk, length};
ghost use Rattle.fsb_io.specs.Faults.{Rose};
ghost use Rattle.scope_top.specs.Ends.{ending_picked};
ghost use Rattle.scope_top.specs.Performing.{EndsHeader, EndsLines, IsPlain};

use crate::answer::{Answer, Stream};
use crate::stop::Stop;
use crate::stopped::{PIECE, stop_answer};
use fsb_io::Source;
use scope_report::{Ending, lines_text};
use scope_watch::{Header, read_header};
use scope_wiring::{Choice, Picking, pick};
use std::alloc::{AllocError, Global};

/// Tells what a dump declares.
pub(crate) fn lines_answer<S: Source>(
    alloc: Global,
    name: &str,
    dump: &mut S,
) -> Result<Answer, Stop>
    requires { length name.now ≤ 4096 }
    ensures ends { IsTrue S.tells →
        IfOk result (λ answer. EndsLines (S.holds dump.old) answer.ending) }
    ensures not_lines { result ≢ Err Stop.Lines }
    ensures dump_fault { result ≡ Err Stop.Dump → Rose (S.faults dump.old) (S.faults dump.new) }
    ensures not_out { result ≢ Err Stop.Out }
{
    let mut room = vec![in alloc; 0; PIECE]?;
    match read_header(alloc, name, dump, &mut room) {
        Err(stop) => stop_answer(alloc, name, stop),
        Ok(begun) => Ok(header_answer(alloc, name, &begun.header)?),
    }
}

// Tells what a header declares. It ends clean where a check without an option finds its lines.
fn header_answer(alloc: Global, name: &str, header: &Header) -> Result<Answer, AllocError>
    ensures { IfOk result (λ answer. EndsHeader header.now answer.ending) }
{
    let choice = plain_choice(alloc);
    let picking = pick(alloc, &header.variables, &choice)?;
    let text = lines_text(
        alloc,
        name,
        &header.variables,
        &header.remarks,
        &choice,
        &picking,
    )?;
    Ok(Answer {
        ending: ending_picked(&picking),
        stream: Stream::Out,
        text,
    })
}

// The choice of a user who gives no option.
fn plain_choice(alloc: Global) -> Choice
    ensures { IsPlain result }
{
    Choice {
        scope: None,
        lines: Vec::new(alloc),
        without: Vec::new(alloc),
    }
}

fn ending_picked(picking: &Picking) -> Ending
    ensures { result ≡ ending_picked picking.now }
{
    match picking {
        Picking::Wired(_) => Ending::Clean,
        Picking::Refused(_) => Ending::Unjudged,
    }
}
