//! The part of a dump alone, for who judges nothing.

ghost use Rattle.std.specs.Prelude.{◌≡◌, ℕ, ◌≤◌, ◌+◌, ◌++◌, ◌∷◌, [], List, IfOk, IfErr, Option, length};
ghost use Rattle.fsb_signal.specs.declared.sample.Sample.{Sample as SampleIs};
ghost use Rattle.vcd_way.specs.Events.{DumpEvent, Sampled, Hole, Resumed};
ghost use Rattle.vcd_way.specs.Pieces.{Stamp as TimeStamp, time_at};
ghost use Rattle.vcd_course.specs.Told.{event_told, last_told};
ghost use Rattle.scope_check.specs.declared.part.Part.{Part};
ghost use Rattle.scope_check.specs.declared.judging.Phase.TheVariants as phases;
ghost use Rattle.scope_check.specs.Bounds.{passes, most_parted};
ghost use Rattle.scope_check.specs.Parts.{may_begin, opens_at, quiet_more};
ghost use Rattle.scope_check.specs.Standing.{rested};
ghost use Rattle.scope_check.specs.Parting.{HasParted, taken, taken_if};

use crate::judging::{Phase, TooMany};
use crate::part::{Begin, Part, is_quiet, passes, reaches};
use fsb_signal::Sample;
use vcd_course::{CourseEvent, Stamp, Told};

/// Says of the events of a dump which are the clocks of one part of it.
#[derive(Clone, Copy, Debug)]
pub struct Parting {
    pub(crate) part: Part,
    pub(crate) phase: Phase,
    /// How many of the last clocks are quiet, one after another, while the part has not begun.
    pub(crate) quiet: u64,
    /// How many clocks came before the part.
    pub(crate) start: u64,
    /// How many are the part's.
    pub(crate) inside: u64,
}

/// One more, where that is counted.
fn one_more(count: u64) -> Result<u64, TooMany>
    ensures more { IfOk result (λ more. more ≡ count + 1) }
    ensures full { IfErr result (λ _. most_parted ≤ count) }
{
    match count.checked_add(1) {
        Some(more) => Ok(more),
        None => Err(TooMany),
    }
}

/// How many of the last clocks are quiet with one more.
fn quiet_with(run: u64, sample: &Sample) -> Result<u64, TooMany>
    ensures more { (t : Option TimeStamp) →
        IfOk result (λ more. more ≡ quiet_more run (Sampled sample.now t)) }
    ensures full { IfErr result (λ _. most_parted ≤ run) }
{
    if is_quiet(sample) {
        one_more(run)
    } else {
        Ok(0)
    }
}

/// Where the part stands when the dump stops or goes on.
fn rested(phase: Phase) -> Phase
    ensures { result ≡ rested phase }
{
    match phase {
        Phase::Before => Phase::Before,
        Phase::Inside | Phase::After => Phase::After,
    }
}

impl Parting {
    /// Before the first event of a dump.
    pub fn new(part: Part) -> Parting
        ensures { HasParted result part [] [] }
    {
        Parting {
            part,
            phase: Phase::Before,
            quiet: 0,
            start: 0,
            inside: 0,
        }
    }

    /// How many clocks the part has so far.
    pub fn count(&self) -> u64
        ensures { (p : Part) (es : List DumpEvent) (w : List SampleIs) → HasParted self.now p es w →
            result ≡ length w }
    {
        self.inside
    }

    /// Takes the next event, and answers its sample where it is a clock of the part. After an Err nothing is said of what
    /// is taken then; it comes where there are 2^64 - 1 events.
    pub fn take(&mut self, event: &CourseEvent) -> Result<Option<Sample>, TooMany>
        ensures parted { (p : Part) (es : List DumpEvent) (w : List SampleIs) → HasParted self.old p es w →
            IfOk result (λ sample.
            HasParted self.new p (es ++ event_told event.now ∷ []) (w ++ taken sample)) }
        ensures many { (p : Part) (es : List DumpEvent) (w : List SampleIs) → HasParted self.old p es w →
            IfErr result (λ _. most_parted ≤ length es) }
    {
        match event.told {
            Told::Sampled(sample) => {
                if self.see(&sample, event.stamp)? {
                    Ok(Some(sample))
                } else {
                    Ok(None)
                }
            }
            Told::Hole => {
                self.rest();
                Ok(None)
            }
            Told::Resumed => {
                self.rest();
                Ok(None)
            }
        }
    }

    // The lines at the next edge of the clock; whether the clock is one of the part.
    fn see(&mut self, sample: &Sample, stamp: Option<Stamp>) -> Result<bool, TooMany>
        ensures parted { (p : Part) (es : List DumpEvent) (w : List SampleIs) → HasParted self.old p es w →
            IfOk result (λ is_inside. HasParted self.new p
            (es ++ Sampled sample.now (last_told stamp) ∷ []) (w ++ taken_if is_inside sample.now)) }
        ensures many { (p : Part) (es : List DumpEvent) (w : List SampleIs) → HasParted self.old p es w →
            IfErr result (λ _. most_parted ≤ length es) }
    {
        match self.phase {
            Phase::Before => self.wait(sample, stamp),
            Phase::Inside => self.go_on(sample, stamp),
            Phase::After => Ok(false),
        }
    }

    // A clock before the part, or its first.
    fn wait(&mut self, sample: &Sample, stamp: Option<Stamp>) -> Result<bool, TooMany>
        ensures parted { (p : Part) (es : List DumpEvent) (w : List SampleIs) → HasParted self.old p es w →
            self.old.phase ≡ phases.Before →
            IfOk result (λ is_inside. HasParted self.new p
            (es ++ Sampled sample.now (last_told stamp) ∷ []) (w ++ taken_if is_inside sample.now)) }
        ensures many { (p : Part) (es : List DumpEvent) (w : List SampleIs) → HasParted self.old p es w →
            self.old.phase ≡ phases.Before → IfErr result (λ _. most_parted ≤ length es) }
    {
        let quiet = quiet_with(self.quiet, sample)?;
        if self.opens(quiet, sample, stamp) {
            self.inside = 1;
            self.phase = Phase::Inside;
            Ok(true)
        } else {
            self.start = one_more(self.start)?;
            self.quiet = quiet;
            Ok(false)
        }
    }

    // A clock behind one of the part.
    fn go_on(&mut self, sample: &Sample, stamp: Option<Stamp>) -> Result<bool, TooMany>
        ensures parted { (p : Part) (es : List DumpEvent) (w : List SampleIs) → HasParted self.old p es w →
            self.old.phase ≡ phases.Inside →
            IfOk result (λ is_inside. HasParted self.new p
            (es ++ Sampled sample.now (last_told stamp) ∷ []) (w ++ taken_if is_inside sample.now)) }
        ensures many { (p : Part) (es : List DumpEvent) (w : List SampleIs) → HasParted self.old p es w →
            self.old.phase ≡ phases.Inside → IfErr result (λ _. most_parted ≤ length es) }
    {
        let _lines = sample.lines;
        if self.is_past(stamp)? {
            self.phase = Phase::After;
            Ok(false)
        } else {
            self.inside = one_more(self.inside)?;
            Ok(true)
        }
    }

    // Whether a clock behind those of the part is above the last one that may be of it.
    fn is_past(&self, stamp: Option<Stamp>) -> Result<bool, TooMany>
        ensures past { IfOk result (λ is_past. is_past ≡ passes self.now.part.to
            (self.now.start + self.now.inside) (time_at (last_told stamp))) }
        ensures full { IfErr result (λ _. most_parted ≤ self.now.start + self.now.inside) }
    {
        match self.start.checked_add(self.inside) {
            Some(clock) => Ok(passes(self.part.to, clock, stamp)),
            None => Err(TooMany),
        }
    }

    // Whether the part begins with this clock, where so many of the last ones up to it are quiet.
    fn opens(&self, quiet: u64, sample: &Sample, stamp: Option<Stamp>) -> bool
        ensures { result ≡ opens_at self.now.part self.now.start quiet
            (Sampled sample.now (last_told stamp)) }
    {
        !passes(self.part.to, self.start, stamp) && self.may_begin(quiet, sample, stamp)
    }

    // Whether it may begin there.
    fn may_begin(&self, quiet: u64, sample: &Sample, stamp: Option<Stamp>) -> bool
        ensures { result ≡ may_begin self.now.part.begin self.now.start quiet
            (Sampled sample.now (last_told stamp)) }
    {
        match self.part.begin {
            Begin::Known => sample.has_known_lines(),
            Begin::At(bound) => reaches(bound, self.start, stamp),
            Begin::Quiet(bound, least) => {
                reaches(bound, self.start, stamp) && u64::from(least) <= quiet
            }
        }
    }

    // The dump stops for a time, or goes on: the part ends, where it has begun.
    fn rest(&mut self)
        ensures hole { (p : Part) (es : List DumpEvent) (w : List SampleIs) (t : Option TimeStamp) →
            HasParted self.old p es w → HasParted self.new p (es ++ Hole t ∷ []) w }
        ensures resumed { (p : Part) (es : List DumpEvent) (w : List SampleIs)
            (t : Option TimeStamp) →
            HasParted self.old p es w → HasParted self.new p (es ++ Resumed t ∷ []) w }
    {
        self.quiet = 0;
        self.phase = rested(self.phase);
    }
}
