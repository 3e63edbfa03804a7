//! The watcher that writes what it is shown.

ghost use Rattle.std.specs.Prelude.{◌≡◌, ◌<◌, ◌≤◌, ◌^◌, ◌++◌, ◌∷◌, ℕ, List, [], Bool, Err, IsTrue, OnOk, length};
ghost use Rattle.fsb_io.specs.Faults.{Rose};
ghost use Rattle.fsb_signal.specs.declared.sample.Sample.{Sample as SampleIs};
ghost use Rattle.scope_check.specs.Parting.{HasParted};
ghost use Rattle.scope_write.specs.Samples.{Has64Lines};
ghost use Rattle.scope_write.specs.Standing.{Stands};
ghost use Rattle.scope_write.specs.Text.{shown_dump};

use fsb_io::{Failed, Sink};
use fsb_signal::Sample;
use scope_check::{Part, Parting, TooMany};
use scope_watch::{EventWatcher, WatchStop};
use scope_write::{DumpWriter, sample_has_64_lines};
use vcd_course::CourseEvent;

/// Writes the clocks of a part of a dump.
pub(crate) struct Copier<'s, D> {
    pub(crate) sink: &'s mut D,
    pub(crate) writer: DumpWriter,
    pub(crate) parting: Parting,
    /// Which lines are written.
    pub(crate) there: [bool; 22],
    pub(crate) part: Part,
}

impl<'s, D> Drop for Copier<'s, D> {
    fn drop(self)
        ensures { self.exit.0.now ≡ self.entry.sink.now }
    {
        let Self {
            sink: _,
            writer: _,
            parting: _,
            there: _,
            part: _,
        } = self;
    }
}

impl<'s, D: Sink> Copier<'s, D> {
    /// Before the first event, behind the header that this writer wrote to the sink.
    pub(crate) fn new(
        sink: &'s mut D,
        writer: DumpWriter,
        there: [bool; 22],
        part: Part,
    ) -> Copier<'s, D>
        ensures same { result.sink.ghost_name ≡ sink.entry.ghost_name }
        ensures now { result.sink.now ≡ sink.old }
        ensures writer { result.writer ≡ writer }
        ensures there { result.there ≡ there }
        ensures part { result.part ≡ part }
        ensures parted { HasParted result.parting part [] [] }
    {
        Copier {
            sink,
            writer,
            parting: Parting::new(part),
            there,
            part,
        }
    }

    // Writes a clock of the part.
    fn put(&mut self, sample: &Sample) -> Result<(), WatchStop>
        requires { (there : List Bool) × (w : List SampleIs) × Stands self.old.writer there w }
        ensures same { self.new.sink.ghost_name ≡ self.old.sink.ghost_name }
        ensures parting { self.new.parting ≡ self.old.parting }
        ensures within { Has64Lines sample.now }
        ensures few { OnOk result ((there : List Bool) (w : List SampleIs) →
            Stands self.old.writer there w → length w < 10 ^ 18) }
        ensures stands { OnOk result ((there : List Bool) (w : List SampleIs) →
            Stands self.old.writer there w → Stands self.new.writer there (w ++ sample.now ∷ [])) }
        ensures text { IsTrue D.tells → OnOk result ((there : List Bool) (w : List SampleIs)
            (begun : List ℕ) → Stands self.old.writer there w →
            D.holds self.old.sink.now ≡ begun ++ shown_dump there w →
            D.holds self.new.sink.now ≡ begun ++ shown_dump there (w ++ sample.now ∷ [])) }
        ensures full { result ≡ Err WatchStop.TooMany → (there : List Bool) (w : List SampleIs) →
            Stands self.old.writer there w → 10 ^ 18 ≤ length w }
        ensures later { D.faults self.old.sink.now ≤ D.faults self.new.sink.now }
        ensures write_fault { result ≡ Err WatchStop.WriteFault →
            Rose (D.faults self.old.sink.now) (D.faults self.new.sink.now) }
    {
        sample_has_64_lines(sample);
        if self.writer.is_full() {
            return Err(WatchStop::TooMany);
        }
        match self.writer.put(self.sink, sample) {
            Ok(()) => Ok(()),
            Err(Failed) => Err(WatchStop::WriteFault),
        }
    }
}

impl<'s, D: Sink> EventWatcher for Copier<'s, D> {
    ghost use Rattle.std.specs.Prelude.{◌^◌};
    ghost use Rattle.scope_copy.specs.Standing.{HasCopied, HasFailed};

    ghost has_seen = { λ first now events. HasCopied D.tells D.holds D.faults first now events };

    ghost has_failed = { λ first now. HasFailed D.faults first now };

    ghost most = { 10 ^ 18 };

    fn see(&mut self, event: &CourseEvent) -> Result<(), WatchStop> {
        match self.parting.take(event) {
            Ok(None) => Ok(()),
            Ok(Some(sample)) => self.put(&sample),
            Err(TooMany) => Err(WatchStop::TooMany),
        }
    }
}
