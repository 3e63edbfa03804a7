//! The watcher that writes the lines of the requests that it is shown.

ghost use Rattle.std.specs.Prelude.{◌≡◌, ◌≤◌, ◌<◌, ◌++◌, ◌∷◌, ℕ, List, [], Err, IsTrue, OnOk, length};
ghost use Rattle.fsb_io.specs.Faults.{Rose};
ghost use Rattle.fsb_signal.specs.declared.marks.Marks.{Marks as MarksAre};
ghost use Rattle.fsb_trace.specs.At.{Trace};
ghost use Rattle.row_texts.specs.declared.line.Form.{Form as FormIs};
ghost use Rattle.request_lines.specs.Standing.{Stands};
ghost use Rattle.request_lines.specs.Tables.{over_text, table_text};
ghost use Rattle.scope_check.specs.Bounds.{most_counted};
ghost use Rattle.scope_check.specs.Parting.{HasParted};
ghost use Rattle.scope_table.specs.Standing.{IsStopOfWriting};

use crate::start::start_after;
use fsb_io::{Failed, Memory, Sink, put_all};
use fsb_rules::Broken;
use fsb_signal::{Marks, Sample};
use request_lines::RequestLines;
use row_texts::Form;
use scope_check::{Part, Parting, TooMany};
use scope_watch::{EventWatcher, ScopeStop, WatchStop};
use std::alloc::Global;
use vcd_course::{CourseEvent, Stamp};

/// Writes the lines of the requests of a part of a dump, which `lines` hands out.
pub(crate) struct Tabler<'s, D, L> {
    pub(crate) sink: &'s mut D,
    pub(crate) lines: L,
    pub(crate) parting: Parting,
    /// How many clocks came before the part.
    pub(crate) start: u32,
    /// The stamp of the broken clock, or of the last one.
    pub(crate) stamp: Option<Stamp>,
    pub(crate) part: Part,
    pub(crate) marks: Marks,
    pub(crate) form: Form,
}

impl<'s, D, L: Drop> Drop for Tabler<'s, D, L> {
    fn drop(self)
        ensures { self.exit.0.now ≡ self.entry.sink.now }
    {
        let Self {
            sink: _,
            lines: _,
            parting: _,
            start: _,
            stamp: _,
            part: _,
            marks: _,
            form: _,
        } = self;
    }
}

// The stamp that was kept, where a rule was broken before, and else the new one.
fn first_stamp(found: Option<Broken>, kept: Option<Stamp>, stamp: Option<Stamp>) -> Option<Stamp> {
    if found.is_some() { kept } else { stamp }
}

impl<'s, D: Sink> Tabler<'s, D, RequestLines> {
    /// Before the first event, behind the line of the names that was written to the sink.
    pub(crate) fn new(
        sink: &'s mut D,
        alloc: Global,
        part: Part,
        marks: Marks,
        form: Form,
    ) -> Tabler<'s, D, RequestLines>
        ensures same { result.sink.ghost_name ≡ sink.entry.ghost_name }
        ensures now { result.sink.now ≡ sink.old }
        ensures stands { Stands result.lines form marks [] }
        ensures start { result.start ≡ 0 }
        ensures part { result.part ≡ part }
        ensures marks { result.marks ≡ marks }
        ensures form { result.form ≡ form }
        ensures parted { HasParted result.parting part [] [] }
    {
        Tabler {
            sink,
            lines: RequestLines::new(alloc, form, marks),
            parting: Parting::new(part),
            start: 0,
            stamp: None,
            part,
            marks,
            form,
        }
    }

    // Writes the lines of the requests that are over with a clock of the part.
    fn put(&mut self, sample: &Sample) -> Result<(), WatchStop>
        requires { (form : FormIs) × (m : MarksAre) × (w : Trace)
            × Stands self.old.lines form m w }
        ensures same { self.new.sink.ghost_name ≡ self.old.sink.ghost_name }
        ensures parting { self.new.parting ≡ self.old.parting }
        ensures start { self.new.start ≡ self.old.start }
        ensures stands { OnOk result ((form : FormIs) (m : MarksAre) (w : Trace) →
            Stands self.old.lines form m w → Stands self.new.lines form m (w ++ sample.now ∷ [])) }
        ensures text { IsTrue D.tells → OnOk result ((form : FormIs) (m : MarksAre) (w : Trace)
            (begun : List ℕ) → Stands self.old.lines form m w →
            D.holds self.old.sink.now ≡ begun ++ over_text form self.old.start m w →
            D.holds self.new.sink.now
            ≡ begun ++ over_text form self.old.start m (w ++ sample.now ∷ [])) }
        ensures full { result ≡ Err WatchStop.TooMany → (form : FormIs) (m : MarksAre)
            (w : Trace) → Stands self.old.lines form m w → most_counted ≤ length w }
        ensures later { D.faults self.old.sink.now ≤ D.faults self.new.sink.now }
        ensures write_fault { result ≡ Err WatchStop.WriteFault →
            Rose (D.faults self.old.sink.now) (D.faults self.new.sink.now) }
    {
        if self.lines.is_full() {
            return Err(WatchStop::TooMany);
        }
        match self.lines.feed(sample, self.start) {
            Err(Memory) => Err(WatchStop::Memory),
            Ok(text) => match put_all(self.sink, &text) {
                Ok(()) => Ok(()),
                Err(Failed) => Err(WatchStop::WriteFault),
            },
        }
    }

    /// Writes the lines of the requests in flight.
    pub(crate) fn finish(&mut self) -> Result<(), ScopeStop>
        ensures same { self.new.sink.ghost_name ≡ self.old.sink.ghost_name }
        ensures lines { self.new.lines ≡ self.old.lines }
        ensures parting { self.new.parting ≡ self.old.parting }
        ensures start { self.new.start ≡ self.old.start }
        ensures text { IsTrue D.tells → OnOk result ((form : FormIs) (m : MarksAre) (w : Trace)
            (begun : List ℕ) → Stands self.old.lines form m w →
            D.holds self.old.sink.now ≡ begun ++ over_text form self.old.start m w →
            D.holds self.new.sink.now ≡ begun ++ table_text form self.old.start m w) }
        ensures stop { (stop : ScopeStop) → result ≡ Err stop → IsStopOfWriting stop }
        ensures later { D.faults self.old.sink.now ≤ D.faults self.new.sink.now }
        ensures write_fault { result ≡ Err ScopeStop.WriteFault →
            Rose (D.faults self.old.sink.now) (D.faults self.new.sink.now) }
    {
        match self.lines.rest(self.start) {
            Err(Memory) => Err(ScopeStop::Memory),
            Ok(text) => match put_all(self.sink, &text) {
                Ok(()) => Ok(()),
                Err(Failed) => Err(ScopeStop::WriteFault),
            },
        }
    }
}

impl<'s, D: Sink> EventWatcher for Tabler<'s, D, RequestLines> {
    ghost use Rattle.scope_check.specs.Bounds.{most_counted};
    ghost use Rattle.scope_table.specs.Standing.{HasTabled, HasFailed};

    ghost has_seen = { λ first now events. HasTabled D.tells D.holds D.faults first now events };

    ghost has_failed = { λ first now. HasFailed D.faults first now };

    ghost most = { most_counted };

    fn see(&mut self, event: &CourseEvent) -> Result<(), WatchStop> {
        match self.parting.take(event) {
            Ok(None) => {
                self.start = start_after(self.start, self.parting.count(), event)?;
                Ok(())
            }
            Ok(Some(sample)) => {
                self.stamp = first_stamp(self.lines.found(), self.stamp, event.stamp);
                self.put(&sample)
            }
            Err(TooMany) => Err(WatchStop::TooMany),
        }
    }
}
