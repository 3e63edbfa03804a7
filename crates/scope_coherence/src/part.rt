//! The part of a dump, judged: what came before it says how its lines may begin.

ghost use Rattle.std.specs.Prelude.{◌≡◌, ◌≢◌, ◌≤◌, ◌<◌, ◌++◌, ◌∷◌, [], Bool, List, Err, OnOk, length, if◌then◌else◌, is_some};
ghost use Rattle.fsb_signal.specs.declared.marks.Marks.{Marks};
ghost use Rattle.fsb_trace.specs.At.{Trace};
ghost use Rattle.vcd_way.specs.Events.{DumpEvent};
ghost use Rattle.vcd_course.specs.Told.{event_told};
ghost use Rattle.scope_check.specs.declared.part.Part.{Part};
ghost use Rattle.scope_check.specs.Bounds.{begins_later, most_counted};
ghost use Rattle.scope_coherence.specs.Parting.{IsNext, IsReady, PartStands, TellsPart};

use crate::cohering::{Cohering, Incoherent};
use fsb_signal::{Marks, Sample};
use scope_check::Begin;
use scope_watch::WatchStop;
use std::alloc::Global;
use vcd_course::{CourseEvent, Stamp, Told};

/// How many clocks before a part are counted, at most.
const MOST: u32 = 4_294_967_280;

/// Judges the samples of a part that begins so.
#[derive(Drop)]
pub(crate) struct PartJudge {
    alloc: Global,
    begin: Begin,
    marks: Marks,
    cohering: Cohering,
    has_begun: bool,
    /// How many clocks came before the part.
    start: u32,
    /// Whether the dump stopped or went on before it.
    has_stopped: bool,
    /// The stamp of the broken clock, or of the last one.
    stamp: Option<Stamp>,
}

/// What is told of a part.
#[derive(Clone, Copy, Debug)]
pub(crate) struct PartTold {
    pub(crate) start: u32,
    pub(crate) is_later: bool,
    pub(crate) found: Option<Incoherent>,
    pub(crate) stamp: Option<Stamp>,
}

// Whether a part that begins so begins later, behind so many clocks, among which the dump stopped or did not.
fn begins_later(begin: Begin, start: u32, has_stopped: bool) -> bool
    ensures { result ≡ begins_later begin start has_stopped }
{
    match begin {
        Begin::Known => has_stopped,
        Begin::At(_) | Begin::Quiet(_, _) => has_stopped || 0 < start,
    }
}

// The stamp that was kept, where a rule was broken before, and else the new one.
fn first_stamp(
    found: Option<Incoherent>,
    kept: Option<Stamp>,
    stamp: Option<Stamp>,
) -> Option<Stamp>
    ensures { result ≡ (if is_some found then kept else stamp) }
{
    if found.is_some() { kept } else { stamp }
}

impl PartJudge {
    /// Before the first event of a dump with these marks.
    pub(crate) fn new(alloc: Global, begin: Begin, marks: Marks) -> PartJudge
        ensures { (p : Part) → p.begin ≡ begin → PartStands result p marks [] [] [] }
    {
        PartJudge {
            alloc,
            begin,
            marks,
            cohering: Cohering::new(alloc, marks, false),
            has_begun: false,
            start: 0,
            has_stopped: false,
            stamp: None,
        }
    }

    /// Takes the next event, which is no clock of the part.
    pub(crate) fn pass(&mut self, event: &CourseEvent) -> Result<(), WatchStop>
        ensures stands { (p : Part) (m : Marks) (es before after : List DumpEvent) (w : Trace) →
            PartStands self.old p m es before w → (0 < length w → after ≡ before) →
            OnOk result (PartStands self.new p m (es ++ event_told event.now ∷ []) after w) }
        ensures many { result ≡ Err WatchStop.TooMany → (p : Part) (m : Marks)
            (es before : List DumpEvent) (w : Trace) → PartStands self.old p m es before w →
            most_counted ≤ length es }
        ensures writes_nothing { result ≢ Err WatchStop.WriteFault }
    {
        if self.has_begun {
            return Ok(());
        }
        match event.told {
            Told::Sampled(_) => {
                if MOST <= self.start {
                    return Err(WatchStop::TooMany);
                }
                self.start += 1;
            }
            Told::Hole => self.has_stopped = true,
            Told::Resumed => self.has_stopped = true,
        }
        Ok(())
    }

    // Begins, if it has not, with the next clock.
    fn begin(&mut self)
        ensures { (p : Part) (m : Marks) (es before after : List DumpEvent) (w : Trace) →
            PartStands self.old p m es before w → IsNext w es before after →
            IsReady self.new p m after w }
    {
        if !self.has_begun {
            let is_later = begins_later(self.begin, self.start, self.has_stopped);
            self.cohering = Cohering::new(self.alloc, self.marks, is_later);
            self.has_begun = true;
        }
    }

    /// Takes the next clock of the part.
    pub(crate) fn judge(&mut self, sample: &Sample, stamp: Option<Stamp>) -> Result<(), WatchStop>
        requires { (p : Part) × (m : Marks) × (es : List DumpEvent) × (before : List DumpEvent)
            × (after : List DumpEvent) × (w : Trace) × PartStands self.old p m es before w
            × IsNext w es before after }
        ensures stands { (p : Part) (m : Marks) (es before after : List DumpEvent) (e : DumpEvent)
            (w : Trace) → PartStands self.old p m es before w → IsNext w es before after →
            OnOk result (PartStands self.new p m (es ++ e ∷ []) after (w ++ sample.now ∷ [])) }
        ensures many { result ≡ Err WatchStop.TooMany → (p : Part) (m : Marks)
            (es before after : List DumpEvent) (w : Trace) → PartStands self.old p m es before w →
            IsNext w es before after → most_counted ≤ length w }
        ensures writes_nothing { result ≢ Err WatchStop.WriteFault }
    {
        self.begin();
        self.stamp = first_stamp(self.cohering.found(), self.stamp, stamp);
        self.cohering.feed(sample)
    }

    /// What is told of the part.
    pub(crate) fn told(&self) -> PartTold
        ensures { (p : Part) (m : Marks) (es before : List DumpEvent) (w : Trace) →
            PartStands self.now p m es before w → TellsPart result p m es before w }
    {
        let is_later = begins_later(self.begin, self.start, self.has_stopped);
        if !self.has_begun {
            return PartTold {
                start: self.start,
                is_later,
                found: None,
                stamp: None,
            };
        }
        PartTold {
            start: self.start,
            is_later,
            found: self.cohering.found(),
            stamp: self.stamp,
        }
    }
}
