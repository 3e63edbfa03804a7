//! A dump that was not read to its end.

ghost use Rattle.std.specs.Prelude.{◌≡◌, ◌≢◌, Err, IfOk};
ghost use Rattle.scope_top.specs.Performing.{EndsStopped};

use crate::answer::{Answer, Stream};
use crate::stop::Stop;
use scope_report::{Ending, fault_text, limit_text, unread_text};
use scope_watch::ScopeStop;
use std::alloc::Global;

/// How many bytes are asked of a dump at a time, at most.
pub(crate) const PIECE: usize = 65_536;

/// What is said of a file that is seen early to be no dump.
const NO_HEADER: &str = "no dump: no word of its first 1,048,576 bytes begins with $";

/// Tells why a dump was not read, where this is said of its text. `WriteFault` never comes: a command that writes while it
/// reads has told of it.
pub(crate) fn stop_answer(alloc: Global, name: &str, stop: ScopeStop) -> Result<Answer, Stop>
    ensures ends { IfOk result (λ answer. EndsStopped stop answer.ending) }
    ensures not_lines { result ≢ Err Stop.Lines }
    ensures dump_fault { result ≡ Err Stop.Dump → stop ≡ ScopeStop.ReadFault }
    ensures not_out { result ≢ Err Stop.Out }
{
    let text = match stop {
        ScopeStop::Bad(fault) => fault_text(alloc, name, &fault)?,
        ScopeStop::NoHeader => unread_text(alloc, name, NO_HEADER)?,
        ScopeStop::TooLong => limit_text(alloc, name, "2^40 bytes")?,
        ScopeStop::TooMany => limit_text(alloc, name, "4,294,967,280 clocks and stops")?,
        ScopeStop::ReadFault => return Err(Stop::Dump),
        ScopeStop::WriteFault | ScopeStop::Memory => return Err(Stop::Memory),
    };
    Ok(Answer {
        ending: Ending::Unjudged,
        stream: Stream::Err,
        text,
    })
}
