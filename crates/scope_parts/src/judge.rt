//! The judge of a dump, part by part.

ghost use Rattle.std.specs.Prelude.{◌≡◌, ◌+◌, ◌<◌, ◌≤◌, ◌++◌, ◌∷◌, [], List, IfOk, IfErr, OnOk, length};
ghost use Rattle.fsb_signal.specs.declared.marks.Marks.{Marks};
ghost use Rattle.vcd_way.specs.Events.{DumpEvent};
ghost use Rattle.vcd_course.specs.Told.{event_told};
ghost use Rattle.scope_check.specs.Bounds.{most_counted};
ghost use Rattle.scope_check.specs.Parts.{clocks_of};
ghost use Rattle.scope_check.specs.Standing.{Stands as JudgingStands};
ghost use Rattle.scope_parts.specs.declared.plan.Plan.{Plan};
ghost use Rattle.scope_parts.specs.Plans.{later_part};
ghost use Rattle.scope_parts.specs.Segments.{Segment, all_of, clocks_in, judged_in};
ghost use Rattle.scope_parts.specs.Findings.{FaultGoes, IsFirstFault, IsJudgedInParts, first_clock};
ghost use Rattle.scope_parts.specs.Standing.{IsWithin, Remembers, Stands, Tallies, fault_of, kept_at};

use crate::counts::Counts;
use crate::ending::{broken_behind, broken_clock, ending, kept_at, last_end};
use crate::finding::{End, PartsFound};
use crate::latest::Latest;
use crate::plan::{Plan, later_part};
use crate::tally::Tally;
use fsb_signal::Marks;
use scope_check::{Judged, Judging, TooMany};
use vcd_course::CourseEvent;

/// Judges the clocks of a dump, part by part.
#[derive(Drop)]
pub struct PartsJudge {
    pub(crate) plan: Plan,
    pub(crate) marks: Marks,
    pub(crate) counts: Counts,
    /// Of the segments that are over.
    pub(crate) tally: Tally,
    /// Of the segment that is open.
    pub(crate) judging: Judging,
    pub(crate) latest: Latest,
}

impl PartsJudge {
    /// Before the first event of a dump with these marks that is parted so.
    pub fn new(marks: Marks, plan: Plan) -> PartsJudge
        ensures { Stands result plan marks [] }
    {
        let judging = Judging::new(marks, plan.first);
        let latest = Latest::first(judging.judged());
        PartsJudge {
            plan,
            marks,
            counts: Counts::new(),
            tally: Tally::new(),
            judging,
            latest,
        }
    }

    /// Takes the next event. An Err comes where there were 4,294,967,280 events or more before it; after it nothing is said
    /// of the judge.
    pub fn take(&mut self, event: &CourseEvent) -> Result<(), TooMany>
        requires { (p : Plan) × (m : Marks) × (es : List DumpEvent) × Stands self.old p m es }
        ensures stands { (p : Plan) (m : Marks) (es : List DumpEvent) → Stands self.old p m es →
            OnOk result (Stands self.new p m (es ++ event_told event.now ∷ [])) }
        ensures goes { (p : Plan) (m : Marks) (es : List DumpEvent) → Stands self.old p m es →
            OnOk result (FaultGoes (clocks_of (es ++ event_told event.now ∷ []))
            (fault_of self.old) (fault_of self.new)) }
        ensures many { (p : Plan) (m : Marks) (es : List DumpEvent) → Stands self.old p m es →
            IfErr result (λ _. most_counted ≤ length es) }
    {
        self.counts.count(event)?;
        self.judging.take(event)?;
        let found = self.judging.judged();
        match ending(&self.plan, self.tally.kept.broken, &found, event) {
            None => {
                self.latest.follow(found);
                Ok(())
            }
            Some(end) => self.close(end, found),
        }
    }

    // Ends the segment, of which this was found, and opens the next one.
    fn close(&mut self, end: End, found: Judged) -> Result<(), TooMany>
        ensures tallied { (ss : List Segment) (s : Segment) → Tallies self.old.tally ss →
            s.found ≡ kept_at end found self.old.latest.before →
            s.end ≡ end → found.clocks ≡ clocks_of (all_of s) →
            OnOk result (Tallies self.new.tally (ss ++ s ∷ [])) }
        ensures many { (ss : List Segment) → Tallies self.old.tally ss → judged_in ss ≤ clocks_in ss →
            IsWithin (kept_at end found self.old.latest.before) found.clocks →
            IfErr result (λ _. most_counted < clocks_in ss + found.clocks) }
        ensures judging { OnOk result (JudgingStands self.new.judging
            (later_part self.old.plan self.new.tally.clocks) self.old.marks []) }
        ensures latest { OnOk result (Remembers self.new.latest
            (later_part self.old.plan self.new.tally.clocks) self.old.marks []) }
        ensures rest { self.new ≡ record self.old {
          tally = self.new.tally;
          judging = self.new.judging;
          latest = self.new.latest;
        } }
    {
        let kept = kept_at(end, found, self.latest.before);
        self.tally.add(found.clocks, &kept, end)?;
        let part = later_part(&self.plan, self.tally.clocks);
        self.judging = Judging::new(self.marks, part);
        self.latest = Latest::first(self.judging.judged());
        Ok(())
    }

    /// How many clocks the dump has so far.
    pub fn clocks(&self) -> u64
        ensures { (p : Plan) (m : Marks) (es : List DumpEvent) → Stands self.now p m es →
            result ≡ clocks_of es }
    {
        self.counts.clocks
    }

    /// The first clock with a broken rule, if one was found: what is drawn of a dump lies around it.
    pub fn first_fault(&self) -> Option<u64>
        ensures first { (p : Plan) (m : Marks) (es : List DumpEvent) → Stands self.now p m es →
            IsFirstFault result p m es }
        ensures same { (p : Plan) (m : Marks) (es : List DumpEvent) → Stands self.now p m es →
            result ≡ fault_of self.now }
    {
        match self.tally.kept.faults.as_slice().first() {
            Some(part) => broken_clock(&part.verdict),
            None => {
                let found = &self.latest.found.verdict;
                broken_behind(self.tally.clocks, found, self.counts.clocks)
            }
        }
    }

    /// What was judged and found. An Err comes where there are more than 4,294,967,280 events.
    pub fn found(self) -> Result<PartsFound, TooMany>
        ensures judged { (p : Plan) (m : Marks) (es : List DumpEvent) → Stands self p m es →
            IfOk result (λ found. IsJudgedInParts found p m es) }
        ensures fault { (p : Plan) (m : Marks) (es : List DumpEvent) → Stands self p m es →
            IfOk result (λ found. first_clock found.faults.items ≡ fault_of self) }
        ensures many { (p : Plan) (m : Marks) (es : List DumpEvent) → Stands self p m es →
            IfErr result (λ _. most_counted < length es) }
    {
        let last = self.latest.found;
        let mut tally = self.tally;
        tally.add(last.clocks, &last, last_end(&last))?;
        let kept = tally.kept;
        Ok(PartsFound {
            plan: self.plan,
            clocks: self.counts.clocks,
            judged: tally.judged,
            parts: kept.parts,
            broken: kept.broken,
            first: kept.first,
            faults: kept.faults,
            holes: self.counts.holes,
            first_hole: self.counts.first_hole,
        })
    }
}
