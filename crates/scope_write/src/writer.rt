//! A dump as it is written, sample by sample.

ghost use Rattle.std.specs.Prelude.{◌≡◌, ℕ, ◌<◌, ◌^◌, ◌++◌, ◌∷◌, [], List, Bool, nat_le, length, IsTrue, IfOk, OnOk};
ghost use Rattle.fsb_signal.specs.declared.sample.Sample.{Sample as SampleIs};
ghost use Rattle.fsb_io.specs.Faults.{HasCause};
ghost use Rattle.scope_write.specs.Text.{shown_dump};
ghost use Rattle.scope_write.specs.Standing.{Stands};

use crate::clock::put_clock;
use crate::header::put_header;
use fsb_io::{Failed, Sink};
use fsb_signal::Sample;

/// How many samples a writer takes: the time of a later one might not fit 64 bits.
const MOST: u64 = 1_000_000_000_000_000_000;

/// Writes a dump, sample by sample, in constant memory.
#[derive(Clone, Copy, Debug)]
pub struct DumpWriter {
    there: [bool; 22],
    clock: u64,
    before: Option<Sample>,
}

impl DumpWriter {
    /// Writes the header of a dump of which these lines are there, by the numbers of the signal table. Those that every
    /// dump must declare are declared too; a line that is not there then reads as never asserted.
    ///
    /// After `Failed` a first part of the header was appended, maybe none of it.
    pub fn begin<D: Sink>(sink: &mut D, there: [bool; 22]) -> Result<DumpWriter, Failed>
        ensures whole { IsTrue D.tells
            → OnOk result (D.holds sink.new ≡ D.holds sink.old ++ shown_dump there []) }
        ensures stands { IfOk result (λ writer. Stands writer there []) }
        ensures name_stays { IsTrue D.tells → D.begun_as sink.new ≡ D.begun_as sink.old }
        ensures cause { HasCause (D.faults sink.old) (D.faults sink.new) result }
    {
        put_header(sink, &there)?;
        Ok(DumpWriter {
            there,
            clock: 0,
            before: None,
        })
    }

    /// Whether no more samples can be written: 10^18 were.
    pub fn is_full(&self) -> bool
        ensures { (there : List Bool) (w : List SampleIs) → Stands self.now there w →
            result ≡ nat_le (10 ^ 18) (length w) }
    {
        self.clock >= MOST
    }

    /// Writes the next sample, unless the writer is full: what the sink held of the dump it holds with this sample.
    ///
    /// After `Failed` a first part of the sample's text was appended, maybe none of it, and the dump is of no more use.
    pub fn put<D: Sink>(&mut self, sink: &mut D, sample: &Sample) -> Result<(), Failed>
        requires { (there : List Bool) × (w : List SampleIs) × Stands self.old there w
            × (length w < 10 ^ 18) }
        ensures whole { IsTrue D.tells → OnOk result (
            (there : List Bool) (w : List SampleIs) (begun : List ℕ) → Stands self.old there w →
            D.holds sink.old ≡ begun ++ shown_dump there w →
            D.holds sink.new ≡ begun ++ shown_dump there (w ++ sample.now ∷ [])) }
        ensures stands { OnOk result (
            (there : List Bool) (w : List SampleIs) → Stands self.old there w →
            Stands self.new there (w ++ sample.now ∷ [])) }
        ensures name_stays { IsTrue D.tells → D.begun_as sink.new ≡ D.begun_as sink.old }
        ensures cause { HasCause (D.faults sink.old) (D.faults sink.new) result }
    {
        put_clock(sink, &self.there, self.clock, &self.before, sample)?;
        self.clock += 1;
        self.before = Some(*sample);
        Ok(())
    }
}
