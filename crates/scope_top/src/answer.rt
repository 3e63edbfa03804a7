//! What a command answers.

ghost use Rattle.std.specs.Prelude.{◌≡◌, ◌⊎◌, IfOk, Ok, Err, OnErr, OnOk};
ghost use Rattle.fsb_io.specs.Faults.{Rose};

use crate::stop::Stop;
use fsb_io::{Failed, Sink, put_all};
use scope_report::Ending;

/// Where a text goes.
#[derive(Clone, Copy, Debug, PartialEq, Eq)]
pub(crate) enum Stream {
    /// To where an answer goes.
    Out,
    /// To where a refusal goes.
    Err,
}

/// What a command answers: its text, and how it ends.
#[derive(Debug, Drop)]
pub(crate) struct Answer {
    pub(crate) ending: Ending,
    pub(crate) stream: Stream,
    pub(crate) text: Vec<u8>,
}

/// Writes the text of an answer.
pub(crate) fn hand_out<O: Sink, E: Sink>(
    answer: &Answer,
    out: &mut O,
    err: &mut E,
) -> Result<Ending, Stop>
    ensures ending { IfOk result (λ ending. ending ≡ answer.now.ending) }
    ensures stop { (stop : Stop) → result ≡ Err stop → stop ≡ Stop.Out }
    ensures out_fault { OnErr result
        (Rose (O.faults out.old) (O.faults out.new) ⊎ Rose (E.faults err.old) (E.faults err.new)) }
{
    match answer.stream {
        Stream::Out => written(put_all(out, &answer.text), answer.ending),
        Stream::Err => written(put_all(err, &answer.text), answer.ending),
    }
}

/// Writes the text of an answer to where a refusal goes, if there is one.
pub(crate) fn hand_err<E: Sink>(answer: &Answer, err: &mut E) -> Result<Ending, Stop>
    ensures ending { IfOk result (λ ending. ending ≡ answer.now.ending) }
    ensures stop { (stop : Stop) → result ≡ Err stop → stop ≡ Stop.Out }
    ensures err_fault { OnErr result (Rose (E.faults err.old) (E.faults err.new)) }
{
    if answer.text.is_empty() {
        Ok(answer.ending)
    } else {
        written(put_all(err, &answer.text), answer.ending)
    }
}

// How a command ends whose text was written, or was not.
fn written(told: Result<(), Failed>, ending: Ending) -> Result<Ending, Stop>
    ensures ending { OnOk told (result ≡ Ok ending) }
    ensures failed { OnErr told (result ≡ Err Stop.Out) }
{
    match told {
        Ok(()) => Ok(ending),
        Err(Failed) => Err(Stop::Out),
    }
}
