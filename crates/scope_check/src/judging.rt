//! The judge of the events of a dump.

ghost use Rattle.std.specs.Prelude.{◌≡◌, if◌then◌else◌, ℕ, Bool, ◌+◌, ◌<◌, ◌≤◌, ◌^◌, ◌++◌, ◌∷◌, [], List, IfOk, IfErr, OnOk, Option, length};
ghost use Rattle.fsb_signal.specs.declared.marks.Marks.{Marks};
ghost use Rattle.vcd_way.specs.Events.{DumpEvent, Sampled, Hole, Resumed};
ghost use Rattle.vcd_way.specs.Pieces.{Stamp as TimeStamp, time_at};
ghost use Rattle.vcd_course.specs.Told.{event_told, last_told};
ghost use Rattle.scope_check.specs.declared.part.Part.{Part};
ghost use Rattle.scope_check.specs.declared.judging.Phase.TheVariants as phases;
ghost use Rattle.scope_check.specs.Bounds.{begins_later, most_counted, passes};
ghost use Rattle.scope_check.specs.Parts.{may_begin, opens_at, quiet_more};
ghost use Rattle.scope_check.specs.Standing.{Fed, HasJudged, IsStampOf, Stands, rested, stopped};
ghost use Rattle.scope_check.specs.Findings.{HasStamp, IsFoundIn, Says};

use crate::finding::{Judged, Verdict};
use crate::part::{Begin, Part, begins_later, is_quiet, passes, reaches};
use crate::replies::Replies;
use fsb_rules::Broken;
use fsb_signal::{Marks, Sample};
use scope_later::PartChecker;
use vcd_course::{CourseEvent, Stamp, Told};

/// There are more clocks than are counted.
#[derive(Clone, Copy, Debug, PartialEq, Eq)]
pub struct TooMany;

/// Where the part that is judged stands.
#[derive(Clone, Copy, Debug, PartialEq, Eq)]
pub(crate) enum Phase {
    /// It has not begun.
    Before,
    Inside,
    /// It is over.
    After,
}

/// How many clocks of a part are judged, at most.
const MOST: u32 = 4_294_967_280;

/// Judges the clocks of one part of a dump.
#[derive(Drop)]
pub struct Judging {
    pub(crate) part: Part,
    pub(crate) marks: Marks,
    pub(crate) checker: PartChecker,
    /// Of the part that is judged.
    pub(crate) replies: Replies,
    pub(crate) phase: Phase,
    /// How many of the last clocks are quiet, one after another, while the part has not begun.
    pub(crate) quiet: u32,
    /// How many clocks came before the part that is judged.
    pub(crate) start: u32,
    /// Whether the dump stopped or went on before it.
    pub(crate) has_stopped: bool,
    pub(crate) judged: u32,
    /// How many came after it.
    pub(crate) after: u32,
    pub(crate) broken: Option<Broken>,
    /// The stamp of the broken clock.
    pub(crate) stamp: Option<Stamp>,
}

/// One more, where that is counted.
fn one_more(count: u32) -> Result<u32, TooMany>
    ensures more { IfOk result (λ more. more ≡ count + 1) }
    ensures full { IfErr result (λ _. most_counted ≤ count) }
{
    match count.checked_add(1) {
        Some(more) => Ok(more),
        None => Err(TooMany),
    }
}

/// One more judged clock, where that is counted.
fn one_judged(count: u32) -> Result<u32, TooMany>
    ensures more { IfOk result (λ more. more ≡ count + 1) }
    ensures room { OnOk result (count + 8 < 2 ^ 32) }
    ensures full { IfErr result (λ _. most_counted ≤ count) }
{
    if count < MOST {
        Ok(count + 1)
    } else {
        Err(TooMany)
    }
}

/// The stamp that was kept, where a rule was broken before, and else the new one.
fn first_stamp(was_broken: bool, kept: Option<Stamp>, stamp: Option<Stamp>) -> Option<Stamp>
    ensures { result ≡ (if was_broken then kept else stamp) }
{
    if was_broken { kept } else { stamp }
}

/// How many of the last clocks are quiet with one more.
fn quiet_with(run: u32, sample: &Sample) -> Result<u32, TooMany>
    ensures more { (t : Option TimeStamp) →
        IfOk result (λ more. more ≡ quiet_more run (Sampled sample.now t)) }
    ensures full { IfErr result (λ _. most_counted ≤ run) }
{
    if is_quiet(sample) {
        one_more(run)
    } else {
        Ok(0)
    }
}

/// Where the part stands when the dump stops or goes on.
fn rested(phase: Phase) -> Phase
    ensures { result ≡ rested phase }
{
    match phase {
        Phase::Before => Phase::Before,
        Phase::Inside | Phase::After => Phase::After,
    }
}

/// Whether the dump has stopped before the part, once it stops or goes on again.
fn stopped(phase: Phase, has_stopped: bool) -> bool
    ensures { result ≡ stopped phase has_stopped }
{
    match phase {
        Phase::Before => true,
        Phase::Inside | Phase::After => has_stopped,
    }
}

impl Judging {
    /// Before the first event of a dump with these marks, of which this part is judged.
    pub fn new(marks: Marks, part: Part) -> Judging
        ensures { Stands result part marks [] }
    {
        Judging {
            part,
            marks,
            checker: PartChecker::new(false, marks),
            replies: Replies::new(),
            phase: Phase::Before,
            quiet: 0,
            start: 0,
            has_stopped: false,
            judged: 0,
            after: 0,
            broken: None,
            stamp: None,
        }
    }

    /// Takes the next event. An Err comes where there were 4,294,967,280 events or more before it; after it nothing is said
    /// of the judge.
    pub fn take(&mut self, event: &CourseEvent) -> Result<(), TooMany>
        requires { (p : Part) × (m : Marks) × (es : List DumpEvent) × Stands self.old p m es }
        ensures stands { (p : Part) (m : Marks) (es : List DumpEvent) → Stands self.old p m es →
            OnOk result (Stands self.new p m (es ++ event_told event.now ∷ [])) }
        ensures many { (p : Part) (m : Marks) (es : List DumpEvent) → Stands self.old p m es →
            IfErr result (λ _. most_counted ≤ length es) }
    {
        match event.told {
            Told::Sampled(sample) => self.see(&sample, event.stamp),
            Told::Hole => {
                self.rest();
                Ok(())
            }
            Told::Resumed => {
                self.rest();
                Ok(())
            }
        }
    }

    // The lines at the next edge of the clock.
    fn see(&mut self, sample: &Sample, stamp: Option<Stamp>) -> Result<(), TooMany>
        requires { (p : Part) × (m : Marks) × (es : List DumpEvent) × Stands self.old p m es }
        ensures stands { (p : Part) (m : Marks) (es : List DumpEvent) → Stands self.old p m es →
            OnOk result (Stands self.new p m (es ++ Sampled sample.now (last_told stamp) ∷ [])) }
        ensures many { (p : Part) (m : Marks) (es : List DumpEvent) → Stands self.old p m es →
            IfErr result (λ _. most_counted ≤ length es) }
    {
        match self.phase {
            Phase::Before => self.wait(sample, stamp),
            Phase::Inside => self.go_on(sample, stamp),
            Phase::After => self.pass(sample, stamp),
        }
    }

    // A clock before the part, or its first.
    fn wait(&mut self, sample: &Sample, stamp: Option<Stamp>) -> Result<(), TooMany>
        requires { (p : Part) × (m : Marks) × (es : List DumpEvent) × Stands self.old p m es
            × (self.old.phase ≡ phases.Before) }
        ensures stands { (p : Part) (m : Marks) (es : List DumpEvent) → Stands self.old p m es →
            self.old.phase ≡ phases.Before →
            OnOk result (Stands self.new p m (es ++ Sampled sample.now (last_told stamp) ∷ [])) }
        ensures many { (p : Part) (m : Marks) (es : List DumpEvent) → Stands self.old p m es →
            self.old.phase ≡ phases.Before → IfErr result (λ _. most_counted ≤ length es) }
    {
        let quiet = quiet_with(self.quiet, sample)?;
        if self.opens(quiet, sample, stamp) {
            self.checker = PartChecker::new(self.is_later(), self.marks);
            self.judged = 0;
            self.broken = None;
            self.judge(sample, stamp)?;
            self.phase = Phase::Inside;
        } else {
            self.start = one_more(self.start)?;
            self.quiet = quiet;
        }
        Ok(())
    }

    // A clock behind one of the part.
    fn go_on(&mut self, sample: &Sample, stamp: Option<Stamp>) -> Result<(), TooMany>
        requires { (p : Part) × (m : Marks) × (es : List DumpEvent) × Stands self.old p m es
            × (self.old.phase ≡ phases.Inside) }
        ensures stands { (p : Part) (m : Marks) (es : List DumpEvent) → Stands self.old p m es →
            self.old.phase ≡ phases.Inside →
            OnOk result (Stands self.new p m (es ++ Sampled sample.now (last_told stamp) ∷ [])) }
        ensures many { (p : Part) (m : Marks) (es : List DumpEvent) → Stands self.old p m es →
            self.old.phase ≡ phases.Inside → IfErr result (λ _. most_counted ≤ length es) }
    {
        if self.is_past(stamp) {
            self.after = one_more(self.after)?;
            self.phase = Phase::After;
        } else {
            self.judge(sample, stamp)?;
        }
        Ok(())
    }

    // A clock behind the part.
    fn pass(&mut self, sample: &Sample, stamp: Option<Stamp>) -> Result<(), TooMany>
        ensures stands { (p : Part) (m : Marks) (es : List DumpEvent) → Stands self.old p m es →
            self.old.phase ≡ phases.After →
            OnOk result (Stands self.new p m (es ++ Sampled sample.now (last_told stamp) ∷ [])) }
        ensures many { (p : Part) (m : Marks) (es : List DumpEvent) → Stands self.old p m es →
            self.old.phase ≡ phases.After → IfErr result (λ _. most_counted ≤ length es) }
    {
        let _lines = sample.lines;
        let _stamp = stamp;
        self.after = one_more(self.after)?;
        Ok(())
    }

    // Whether a clock behind those of the part is above the last one that may be judged.
    fn is_past(&self, stamp: Option<Stamp>) -> bool
        ensures { result ≡ passes self.now.part.to (self.now.start + self.now.judged)
            (time_at (last_told stamp)) }
    {
        let start = self.start;
        let judged = self.judged;
        passes(self.part.to, u64::from(start) + u64::from(judged), stamp)
    }

    // Whether the part begins with this clock, where so many of the last ones up to it are quiet.
    fn opens(&self, quiet: u32, sample: &Sample, stamp: Option<Stamp>) -> bool
        ensures { result ≡ opens_at self.now.part self.now.start quiet (Sampled sample.now (last_told stamp)) }
    {
        let clock = u64::from(self.start);
        !passes(self.part.to, clock, stamp) && self.may_begin(quiet, sample, stamp)
    }

    // Whether it may begin there.
    fn may_begin(&self, quiet: u32, sample: &Sample, stamp: Option<Stamp>) -> bool
        ensures { result ≡ may_begin self.now.part.begin self.now.start quiet
            (Sampled sample.now (last_told stamp)) }
    {
        let clock = u64::from(self.start);
        match self.part.begin {
            Begin::Known => sample.has_known_lines(),
            Begin::At(bound) => reaches(bound, clock, stamp),
            Begin::Quiet(bound, least) => reaches(bound, clock, stamp) && least <= quiet,
        }
    }

    // A clock of the part.
    fn judge(&mut self, sample: &Sample, stamp: Option<Stamp>) -> Result<(), TooMany>
        requires { (l : Bool) × (m : Marks) × (part : List DumpEvent) × Fed self.old l m part }
        ensures judged { (l : Bool) (m : Marks) (part : List DumpEvent) → Fed self.old l m part →
            OnOk result (HasJudged self.new l m (part ++ Sampled sample.now (last_told stamp) ∷ [])) }
        ensures full { IfErr result (λ _. most_counted ≤ self.old.judged) }
        ensures rest { self.new ≡ record self.old {
          checker = self.new.checker;
          replies = self.new.replies;
          judged = self.new.judged;
          broken = self.new.broken;
          stamp = self.new.stamp;
        } }
    {
        let judged = one_judged(self.judged)?;
        self.stamp = first_stamp(self.broken.is_some(), self.stamp, stamp);
        self.broken = self.checker.feed(sample);
        self.replies.feed(sample);
        self.judged = judged;
        Ok(())
    }

    // The dump stops for a time, or goes on: the part ends, where it has begun.
    fn rest(&mut self)
        ensures hole { (p : Part) (m : Marks) (es : List DumpEvent) (t : Option TimeStamp) →
            Stands self.old p m es → Stands self.new p m (es ++ Hole t ∷ []) }
        ensures resumed { (p : Part) (m : Marks) (es : List DumpEvent) (t : Option TimeStamp) →
            Stands self.old p m es → Stands self.new p m (es ++ Resumed t ∷ []) }
    {
        self.quiet = 0;
        self.has_stopped = stopped(self.phase, self.has_stopped);
        self.phase = rested(self.phase);
    }

    /// What was judged and found.
    pub fn judged(&self) -> Judged
        ensures { (p : Part) (m : Marks) (es : List DumpEvent) → Stands self.now p m es →
            IsFoundIn result p m es }
    {
        let clocks = self.clocks();
        Judged {
            part: self.part,
            clocks,
            start: self.start,
            judged: self.judged,
            is_later: self.is_later(),
            verdict: self.verdict(),
            answers_before: self.replies.answers_before,
        }
    }

    // Whether the part begins later, where it is to begin with the next clock, or has begun.
    fn is_later(&self) -> bool
        ensures { result ≡ begins_later self.now.part.begin self.now.start self.now.has_stopped }
    {
        begins_later(self.part.begin, self.start, self.has_stopped)
    }

    fn clocks(&self) -> u64
        ensures { result ≡ self.now.start + self.now.judged + self.now.after }
    {
        let start = self.start;
        let judged = self.judged;
        let after = self.after;
        u64::from(start) + u64::from(judged) + u64::from(after)
    }

    fn verdict(&self) -> Verdict
        ensures says { Says self.now.start self.now.judged self.now.broken result }
        ensures stamp { (part : List DumpEvent) → IsStampOf self.now.broken self.now.stamp part →
            HasStamp self.now.start part result }
    {
        let start = self.start;
        let found = self.broken;
        if self.judged == 0 {
            return Verdict::Nothing;
        }
        match found {
            Some(broken) => {
                let clock = broken.clock;
                Verdict::Broken {
                    clock: u64::from(start) + u64::from(clock),
                    rule: broken.rule,
                    stamp: self.stamp,
                }
            }
            None => Verdict::Accepted,
        }
    }
}
