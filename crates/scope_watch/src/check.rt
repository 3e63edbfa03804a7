//! The check of a dump: its events are judged as they come.
ghost use Rattle.std.specs.Prelude.{◌≡◌, ◌≤◌, ◌<◌, ◌++◌, ◌∷◌, ℕ, List, [], Option, Err, Some, IsTrue, IfOk, IfErr, OnOk, length};
ghost use Rattle.fsb_io.specs.Faults.{Rose};
ghost use Rattle.vcd_grammar.specs.Tokens.{Token};
ghost use Rattle.vcd_way.specs.Events.{DumpEvent, samples_among};
ghost use Rattle.vcd_course.specs.Told.{event_told};
ghost use Rattle.vcd_scan.specs.Wired.{wires_told};
ghost use Rattle.vcd_joined.specs.Behind.{gathered_in};
ghost use Rattle.vcd_joined.specs.Choosing.{Choice as Taking, choosing, IsTaken};
ghost use Rattle.scope_check.specs.Bounds.{most_counted};
ghost use Rattle.scope_parts.specs.declared.plan.Plan.{Plan};
ghost use Rattle.scope_check.specs.Parts.{clocks_of};
ghost use Rattle.scope_parts.specs.Findings.{FaultGoes, IsJudgedInParts, first_clock};
ghost use Rattle.scope_parts.specs.Standing.{Stands, fault_of};
ghost use Rattle.scope_ring.specs.Ring.{Stands as RingStands};
ghost use Rattle.fsb_signal.specs.declared.marks.Marks.{Marks};
ghost use Rattle.scope_watch.specs.Heading.{IsReady, StandsBehind};
ghost use Rattle.scope_watch.specs.Watching.{rules_for};
ghost use Rattle.scope_watch.specs.Checking.{IsJudgedAs, IsChecked, is_kept, kept_to};

use crate::begin::read_header;
use crate::bus::{Picked, marks_of, pick_bus};
use crate::header::{Behind, Header};
use crate::stop::{ScopeStop, WatchStop};
use crate::values::{Ended, Sampling, watch_values};
use crate::watcher::EventWatcher;
use fsb_io::Source;
use fsb_signal::Marks;
use scope_parts::{PartsFound, PartsJudge, Plan, TooMany};
use scope_ring::Ring;
use scope_wiring::{Choice, Refusal, Wiring};
use std::alloc::Global;
use vcd_course::{CourseEvent, Told};
use vcd_joined::picked_wires_choose;
use vcd_scan::{EarlyEnd, Wires};

/// What was judged of a dump.
#[derive(Debug, Drop)]
pub struct JudgedText {
    pub judged: PartsFound,
    /// The end of a dump that ends early: what is whole before it was judged.
    pub early_end: Option<EarlyEnd>,
    /// Where the first section behind the header begins that says that a limit is exceeded.
    pub limit: Option<u64>,
    /// The last samples up to two clocks behind the first broken one; without one, up to the end.
    pub last: Ring,
}

/// What is found of a dump.
#[derive(Debug, Drop)]
pub enum Finding {
    /// The wires of the bus are not picked.
    Refused(Refusal),
    /// They are these, and this was judged of them.
    Judged(Wiring, JudgedText),
}

/// A dump that was checked.
#[derive(Debug, Drop)]
pub struct Checked {
    pub header: Header,
    pub finding: Finding,
}

/// The judge of the events of a dump with these marks, parted so.
#[derive(Drop)]
struct Judge {
    judging: PartsJudge,
    plan: Plan,
    marks: Marks,
    last: Ring,
}

/// Whether the last of so many clocks is kept: it lies no more than two behind a broken one.
fn is_kept(fault: Option<u64>, clocks: u64) -> bool
    ensures { result ≡ is_kept fault clocks }
{
    match fault {
        Some(clock) => clocks.saturating_sub(3) <= clock,
        None => true,
    }
}

/// Shows the ring the next event of a dump, which has so many clocks up to it, and maybe a broken one.
fn keep(last: &mut Ring, event: &CourseEvent, clocks: u64, fault: Option<u64>)
    requires { (before : Option ℕ) × (es : List DumpEvent)
        × RingStands last.old (kept_to before (samples_among es)) × FaultGoes clocks before fault
        × (clocks ≡ clocks_of (es ++ event_told event.now ∷ [])) }
    ensures { (before : Option ℕ) (es : List DumpEvent) →
        RingStands last.old (kept_to before (samples_among es)) → FaultGoes clocks before fault →
        clocks ≡ clocks_of (es ++ event_told event.now ∷ []) →
        RingStands last.new (kept_to fault (samples_among (es ++ event_told event.now ∷ []))) }
{
    match event.told {
        Told::Sampled(sample) => {
            if is_kept(fault, clocks) {
                last.feed(&sample);
            }
        }
        Told::Hole => {}
        Told::Resumed => {}
    }
}

impl EventWatcher for Judge {
    ghost use Rattle.vcd_way.specs.Events.{samples_among};
    ghost use Rattle.scope_check.specs.Bounds.{most_counted};
    ghost use Rattle.scope_parts.specs.Standing.{Stands, fault_of};
    ghost use Rattle.scope_ring.specs.Ring.{Stands as RingStands};
    ghost use Rattle.scope_watch.specs.Checking.{kept_to};

    ghost has_seen = { λ first now events. Stands now.judging first.plan first.marks events
        × RingStands now.last (kept_to (fault_of now.judging) (samples_among events)) };

    ghost has_failed = { λ _ _. ⊥ };

    ghost most = { most_counted };

    fn see(&mut self, event: &CourseEvent) -> Result<(), WatchStop> {
        match self.judging.take(event) {
            Ok(()) => {
                let clocks = self.judging.clocks();
                let fault = self.judging.first_fault();
                keep(&mut self.last, event, clocks, fault);
                Ok(())
            }
            Err(TooMany) => Err(WatchStop::TooMany),
        }
    }
}

/// What was judged of a dump with this end.
fn told_of(judge: Judge, ended: Ended) -> Result<JudgedText, ScopeStop>
    ensures told { (p : Plan) (m : Marks) (es : List DumpEvent) → Stands judge.judging p m es →
        RingStands judge.last (kept_to (fault_of judge.judging) (samples_among es)) →
        IfOk result (λ told. IsJudgedInParts told.judged p m es
        × (told.early_end ≡ ended.early_end) × (told.limit ≡ ended.limit)
        × RingStands told.last (kept_to (first_clock told.judged.faults.items) (samples_among es))) }
    ensures stop { IfErr result (λ stop. stop ≡ ScopeStop.TooMany) }
    ensures many { (p : Plan) (m : Marks) (es : List DumpEvent) → Stands judge.judging p m es →
        IfErr result (λ _. most_counted ≤ length es) }
{
    let last = judge.last;
    match judge.judging.found() {
        Ok(judged) => Ok(JudgedText {
            judged,
            early_end: ended.early_end,
            limit: ended.limit,
            last,
        }),
        Err(TooMany) => Err(ScopeStop::TooMany),
    }
}

/// Reads on behind a header to the end of the source, and judges the values of the wires, which have these marks, part by
/// part.
pub fn judge_values<S: Source>(
    alloc: Global,
    source: &mut S,
    room: &mut [u8],
    behind: Behind,
    wires: Wires,
    marks: Marks,
    plan: Plan,
    sampling: Sampling,
) -> Result<JudgedText, ScopeStop>
    requires some { 0 < length room.old }
    requires begun { IsReady behind }
    ensures judged { IsTrue S.tells → (c : Taking) (ts : List Token) (text : List ℕ) →
        StandsBehind (rules_for sampling) behind ts text (S.left source.old) →
        IsTaken c (gathered_in (rules_for sampling) ts).header (wires_told wires) →
        IsJudgedAs result plan marks (choosing c (rules_for sampling)) text }
    ensures read_fault { result ≡ Err ScopeStop.ReadFault →
        Rose (S.faults source.old) (S.faults source.new) }
    ensures later { S.faults source.old ≤ S.faults source.new }
    ensures name_stays { IsTrue S.tells → S.begun_as source.new ≡ S.begun_as source.old }
    ensures holds_stays { IsTrue S.tells → S.holds source.new ≡ S.holds source.old }
{
    let last = Ring::new(alloc)?;
    let judging = PartsJudge::new(marks, plan);
    let mut judge = Judge {
        judging,
        plan,
        marks,
        last,
    };
    let ended = watch_values(alloc, source, room, behind, wires, sampling, &mut judge)?;
    told_of(judge, ended)
}

/// Begins the source under the name, picks the wires of the bus in its header, and judges their values part by part. Where
/// they are not picked, nothing is read behind the piece in which the header ends.
pub fn check_dump<S: Source>(
    alloc: Global,
    name: &str,
    source: &mut S,
    room: &mut [u8],
    choice: &Choice,
    plan: Plan,
    sampling: Sampling,
) -> Result<Checked, ScopeStop>
    requires named { length name.now ≤ 4096 }
    requires some { 0 < length room.old }
    ensures checked { IsTrue S.tells →
        IsChecked result choice.now plan sampling (S.holds source.old) }
    ensures named { IsTrue S.tells → OnOk result (S.begun_as source.new ≡ Some name.now) }
    ensures read_fault { result ≡ Err ScopeStop.ReadFault →
        Rose (S.faults source.old) (S.faults source.new) }
    ensures later { S.faults source.old ≤ S.faults source.new }
    ensures holds_stays { IsTrue S.tells → S.holds source.new ≡ S.holds source.old }
{
    picked_wires_choose();
    let begun = read_header(alloc, name, source, room)?;
    match pick_bus(alloc, &begun.header.variables, choice)? {
        Picked::Refused(refusal) => Ok(Checked {
            header: begun.header,
            finding: Finding::Refused(refusal),
        }),
        Picked::Wired(bus) => {
            let marks = marks_of(&bus.wiring.wires);
            let behind = begun.behind;
            let wires = bus.wires;
            let told = judge_values(alloc, source, room, behind, wires, marks, plan, sampling)?;
            Ok(Checked {
                header: begun.header,
                finding: Finding::Judged(bus.wiring, told),
            })
        }
    }
}
