//! The part of a dump that an order names.

ghost use Rattle.std.specs.Prelude.{◌≡◌, ◌≢◌, ◌≤◌, Err, IsTrue, IfOk, length};
ghost use Rattle.fsb_io.specs.Faults.{Rose};
ghost use Rattle.scope_top.specs.Parts.{plan_of};
ghost use Rattle.scope_top.specs.Performing.{EndsNamed, EndsScaled};

use crate::answer::{Answer, Stream};
use crate::stop::Stop;
use crate::stopped::{PIECE, stop_answer};
use fsb_io::Source;
use scope_check::Part;
use scope_parts::Plan;
use scope_report::{Ending, unscaled_text};
use scope_time::{NoScale, part_in, scale_of};
use scope_watch::{Header, read_header};
use std::alloc::{AllocError, Global};

/// What comes of the words that name a part.
#[derive(Debug, Drop)]
pub(crate) enum Settled {
    /// They name this one.
    Part(Part),
    /// They name none, and this is answered.
    Unsettled(Answer),
}

/// The part that the words name. Only where they name a time the header of the dump is read, for its `$timescale`.
pub(crate) fn settled_part<S: Source>(
    alloc: Global,
    name: &str,
    words: &scope_words::Part,
    dump: &mut S,
) -> Result<Settled, Stop>
    requires { length name.now ≤ 4096 }
    ensures named { IsTrue S.tells → IfOk result (EndsNamed words.now (S.holds dump.old)) }
    ensures not_lines { result ≢ Err Stop.Lines }
    ensures dump_fault { result ≡ Err Stop.Dump → Rose (S.faults dump.old) (S.faults dump.new) }
    ensures not_out { result ≢ Err Stop.Out }
    ensures later { S.faults dump.old ≤ S.faults dump.new }
    ensures holds_stays { IsTrue S.tells → S.holds dump.new ≡ S.holds dump.old }
{
    match part_in(None, words) {
        Ok(part) => Ok(Settled::Part(part)),
        Err(NoScale) => scaled_part(alloc, name, words, dump),
    }
}

// The part that words with a time name.
fn scaled_part<S: Source>(
    alloc: Global,
    name: &str,
    words: &scope_words::Part,
    dump: &mut S,
) -> Result<Settled, Stop>
    requires { length name.now ≤ 4096 }
    ensures named { IsTrue S.tells → IfOk result (EndsNamed words.now (S.holds dump.old)) }
    ensures not_lines { result ≢ Err Stop.Lines }
    ensures dump_fault { result ≡ Err Stop.Dump → Rose (S.faults dump.old) (S.faults dump.new) }
    ensures not_out { result ≢ Err Stop.Out }
    ensures later { S.faults dump.old ≤ S.faults dump.new }
    ensures holds_stays { IsTrue S.tells → S.holds dump.new ≡ S.holds dump.old }
{
    let mut room = vec![in alloc; 0; PIECE]?;
    match read_header(alloc, name, dump, &mut room) {
        Err(stop) => Ok(Settled::Unsettled(stop_answer(alloc, name, stop)?)),
        Ok(begun) => Ok(part_by(alloc, name, words, &begun.header)?),
    }
}

// The part that the words name in steps of a dump with this header.
fn part_by(
    alloc: Global,
    name: &str,
    words: &scope_words::Part,
    header: &Header,
) -> Result<Settled, AllocError>
    ensures { IfOk result (EndsScaled words.now header.now) }
{
    let scale = scale_of(alloc, &header.remarks)?;
    match part_in(scale, words) {
        Ok(part) => Ok(Settled::Part(part)),
        Err(NoScale) => Ok(Settled::Unsettled(unscaled_answer(alloc, name)?)),
    }
}

// Tells that a time is named, and the dump has no scale for it.
fn unscaled_answer(alloc: Global, name: &str) -> Result<Answer, AllocError>
    ensures { IfOk result (λ answer. answer.ending ≡ Ending.Unjudged) }
{
    Ok(Answer {
        ending: Ending::Unjudged,
        stream: Stream::Err,
        text: unscaled_text(alloc, name)?,
    })
}

/// The parts that are judged: the first, and those that begin again behind so many quiet clocks.
pub(crate) fn plan_of(words: &scope_words::Part, first: Part) -> Plan
    ensures { result ≡ plan_of words.now first }
{
    Plan {
        first,
        quiet: words.quiet,
        most: words.most,
    }
}
