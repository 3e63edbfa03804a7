//! A call of `bench` that carries the headline.

ghost use Rattle.std.specs.Prelude.{◌≡◌, ℕ, IsTrue, List, Some};
ghost use Rattle.fsb_command.specs.Form.{form_of, run};
ghost use Rattle.fsb_headline.specs.Headline.{KeepsHeadline};

use crate::laws::runs_are_as_promised;
use fsb_hazard::Hazard;
use fsb_io::{Sink, Source};
use fsb_probe::Probe;
use fsb_top::{Status, Words, bench};
use std::alloc::Global;

/// `bench` (fsb_top), with the headline as its promise. Where the words ask for a run of a bench file
/// with a dump, and the call is done: the accesses printed are, for each agent, a prefix of its
/// script; one byte memory that serves them singly in printed order gives exactly the printed values;
/// each locked sequence stands together; and the dump written reads back to a trace that breaks no
/// phase rule.
///
/// That holds for whatever hazard objects are handed in, and for a source and sinks that tell what
/// they hold.
pub fn run_as_promised<S: Source, O: Sink, D: Sink>(
    alloc: Global,
    words: &Words,
    source: &mut S,
    out: &mut O,
    dump: &mut D,
    hazards: Vec<Box<dyn Hazard>>,
    probes: Vec<Box<dyn Probe>>,
) -> Status
    ensures { IsTrue S.tells → IsTrue O.tells → IsTrue D.tells → (file name : List ℕ) →
        form_of words.now ≡ Some (run file (Some name)) → result ≡ Status.Done →
        KeepsHeadline (S.holds source.old) (O.holds out.old) (O.holds out.new)
        (D.holds dump.new) }
{
    runs_are_as_promised::<S, O, D>();
    bench(alloc, words, source, out, dump, hazards, probes)
}
