//! What is kept of all lines, and what a clock makes of it.

ghost use Rattle.std.specs.Prelude.{◌≡◌, ◌<◌, ℕ, ◌+◌, ◌&&◌, ◌||◌, not, true, false, List, nat_eq, if◌then◌else◌, Some, None, OnOk, OnErr};
ghost use Rattle.fsb_count.specs.Options.{is_at};
ghost use Rattle.fsb_trace.specs.At.{Trace};
ghost use Rattle.fsb_owners.specs.Joint.{Joint};
ghost use Rattle.fsb_owners.specs.Possible.{after_begin, after_clock, asking};
ghost use Rattle.fsb_owners.specs.Rules.{is_hit_of_reply_wrong, is_none_left};
ghost use Rattle.fsb_owners.specs.Shown.{is_spoiled};
ghost use Rattle.fsb_joint.specs.LineClock.{BegunByOne, EndedByOne, begun_at, droppable_at, ended_at, ready_at};
ghost use Rattle.fsb_joint.specs.Sets.{joints_of};
ghost use Rattle.fsb_owner_judge.specs.Lines.{Follows, KnowsSpoiled, ShowsClock, is_kept_spoiled, is_waiting, kept_of, walked};
ghost use Rattle.fsb_owner_judge.specs.Sights.{AsksAsOne, EndsAsOne, asking_at, begun_for, ended_for, line_end_at};
ghost use Rattle.fsb_owner_judge.specs.Verdicts.{answered_at, asking_rule, begun_rule, unfit_by, unfit_rule};

use crate::answered::{Answered, nothing};
use crate::sights::{Asking, LineEnd, Waiting, begun_for, ended_for};
use fsb_joint::{Begun, JointSet, LineSets, SnoopEnd};
use fsb_line::Purpose;
use std::alloc::{AllocError, Global};
use steady_map::SteadyMap;

/// What is kept of each line: its joint states, and whether it is spoiled. Only lines that were walked or spoiled take
/// memory.
#[derive(Drop)]
pub struct OwnerLines {
    sets: LineSets,
    /// The lines that are spoiled.
    spoiled: SteadyMap<bool>,
}

/// What a clock at which this begins and that ends makes of a set of the line.
fn after_clock(
    set: JointSet,
    begun: Option<Begun>,
    ended: Option<SnoopEnd>,
    waits: &Waiting,
) -> JointSet
    requires begun { BegunByOne begun }
    requires ended { EndedByOne ended }
    ensures { (v : Trace) (line c : ℕ) → begun ≡ begun_at v line c → ended ≡ ended_at v line c →
        waits.now.ready ≡ ready_at v line c → waits.now.may_drop ≡ droppable_at v line c →
        joints_of result ≡ after_clock v line c (joints_of set) }
{
    set.after_begin(begun)
        .after_answer(ended)
        .after_snoop_end(ended)
        .after_unseen(waits.ready, waits.may_drop)
}

/// Which rule a snoop end breaks that fits none of these joint states.
#[tactic(auto, unfolding(crate::specs::Verdicts::unfit_by))]
fn unfit(end: &LineEnd, is_owned_elsewhere: bool) -> Answered
    ensures { result ≡ unfit_by end.now is_owned_elsewhere }
{
    let is_request = !end.is_of_write_back();
    let is_clean = is_request && !end.hitm;
    Answered {
        owner_lacking: is_request && end.hitm,
        owner_silent: is_clean && is_owned_elsewhere,
        holder_silent: is_clean && !end.hit && !is_owned_elsewhere,
        holder_lacking: is_clean && end.hit && !is_owned_elsewhere,
        written_when_lost: !is_request,
    }
}

/// Whether there were joint states, and none is left.
fn is_lost(before: JointSet, after: JointSet) -> bool
    ensures { result
        ≡ (not (is_none_left (joints_of before)) && is_none_left (joints_of after)) }
{
    !before.is_empty() && after.is_empty()
}

/// The rule, where it is broken.
fn rule_if(is_broken: bool, rule: u8) -> Option<u8>
    ensures { result ≡ (if is_broken then Some rule else None) }
{
    if is_broken { Some(rule) } else { None }
}

/// The rule of requests that one breaks which is unfit, or is held back.
#[tactic(auto, unfolding(crate::specs::Verdicts::unfit_rule))]
fn unfit_rule(kind: Option<Purpose>, is_unfit: bool, is_held: bool) -> Option<u8>
    ensures { result ≡ unfit_rule kind is_unfit is_held }
{
    match kind {
        Some(Purpose::WriteBack) => rule_if(is_unfit || is_held, 22),
        Some(Purpose::Upgrade) => rule_if(is_unfit, 23),
        Some(Purpose::Read) => rule_if(is_unfit, 24),
        Some(Purpose::Own) => rule_if(is_unfit, 24),
        None => None,
    }
}

/// The joint states in which the request may be asked.
#[tactic(auto, unfolding(fsb_owners::specs::Possible::asking))]
fn set_asking(set: JointSet, request: &Asking) -> JointSet
    requires { request.now.agent < 4 }
    ensures { joints_of result ≡ asking (Some request.now.agent) request.now.kind (joints_of set) }
{
    match request.kind {
        Some(kind) => set.asking(request.agent, kind),
        None => set,
    }
}

/// The least of the rules 21 to 24 that the request breaks, where this was possible before it.
#[tactic(auto, unfolding(crate::specs::Verdicts::asking_rule, crate::specs::Verdicts::is_unfit_asking))]
fn asking_rule(request: &Asking, set: JointSet) -> Option<u8>
    requires { request.now.agent < 4 }
    ensures { result ≡ asking_rule request.now (joints_of set) }
{
    if request.is_asked_twice {
        Some(21)
    } else {
        let is_unfit = is_lost(set, set_asking(set, request));
        unfit_rule(request.kind, is_unfit, request.is_held_back)
    }
}

/// Whether the snoop end of a line, spoiled or not, is one of a reply with the wrong HIT#.
fn has_wrong_hit(end: &LineEnd, is_spoiled: bool) -> bool
    ensures { result ≡ (not is_spoiled && (end.now.is_reply && end.now.is_hit_wrong)) }
{
    !is_spoiled && (end.is_reply && end.is_hit_wrong)
}

impl OwnerLines {
    /// Each line may have these joint states, and none is spoiled. It takes no memory.
    pub fn new(alloc: Global, first: JointSet) -> OwnerLines
        ensures kept { (line : ℕ) → kept_of result line ≡ joints_of first }
        ensures spoiled { (line : ℕ) → is_kept_spoiled result line ≡ false }
    {
        OwnerLines {
            sets: LineSets::new(alloc, first),
            spoiled: SteadyMap::new(alloc),
        }
    }

    /// Whether the line is spoiled.
    pub fn is_spoiled(&self, line: u64) -> bool
        ensures { result ≡ is_kept_spoiled self.now line }
    {
        self.spoiled.get(line).is_some()
    }

    /// The least of the rules 21 to 24 that is broken where this request is decoded, by what was possible when it began.
    pub fn begun_rule(&self, asking: Option<Asking>) -> Option<u8>
        requires { AsksAsOne asking }
        ensures { (first : List Joint) (v : Trace) (q : ℕ) → Follows self.now first v q →
            KnowsSpoiled self.now v → asking ≡ asking_at v q →
            result ≡ begun_rule first v (q + 1) }
    {
        match asking {
            Some(asking) => {
                if self.is_spoiled(asking.line) {
                    None
                } else {
                    asking_rule(&asking, self.sets.get(asking.line))
                }
            }
            None => None,
        }
    }

    /// Which of the rules 25 to 29 this snoop end breaks, by what was possible before it; `begun` is the request that
    /// begins at the same clock, where that is decoded.
    pub fn answered(&self, begun: Option<Asking>, ended: Option<LineEnd>) -> Answered
        requires begun { AsksAsOne begun }
        requires ended { EndsAsOne ended }
        ensures { (first : List Joint) (v : Trace) (s : ℕ) → Follows self.now first v s →
            KnowsSpoiled self.now v → ended ≡ line_end_at v s →
            ((line : ℕ) → begun_for line begun ≡ begun_at v line s) →
            result ≡ answered_at first v s }
    {
        match ended {
            Some(end) => {
                if self.is_spoiled(end.line) {
                    nothing()
                } else {
                    self.end_rules(begun, &end)
                }
            }
            None => nothing(),
        }
    }

    /// Which of the rules 25 to 29 the snoop end for a line breaks that is not spoiled.
    fn end_rules(&self, begun: Option<Asking>, end: &LineEnd) -> Answered
        requires begun { AsksAsOne begun }
        requires ended { end.now.asker < 4 }
        ensures { (first : List Joint) (v : Trace) (s : ℕ) → Follows self.now first v s →
            is_spoiled v end.now.line ≡ false → Some end.now ≡ line_end_at v s →
            begun_for end.now.line begun ≡ begun_at v end.now.line s →
            result ≡ answered_at first v s }
    {
        let set = self.begun_set(end.line, begun);
        if is_lost(set, set.after_answer(end.snoop_end())) {
            unfit(end, set.is_owned_elsewhere(end.asker))
        } else {
            nothing()
        }
    }

    /// What is left of the line where this request begins.
    fn begun_set(&self, line: u64, begun: Option<Asking>) -> JointSet
        requires { AsksAsOne begun }
        ensures { (v : Trace) (c : ℕ) → begun_for line begun ≡ begun_at v line c →
            joints_of result ≡ after_begin v line c (kept_of self.now line) }
    {
        self.sets.get(line).after_begin(begun_for(line, begun))
    }

    /// Whether this snoop end breaks rule 30.
    pub fn is_hit_wrong(&self, ended: Option<LineEnd>) -> bool
        ensures { (first : List Joint) (v : Trace) (c : ℕ) → KnowsSpoiled self.now v →
            ended ≡ line_end_at v c → result ≡ is_hit_of_reply_wrong first v c }
    {
        match ended {
            Some(end) => has_wrong_hit(&end, self.is_spoiled(end.line)),
            None => false,
        }
    }

    /// Takes a clock at which this begins and that ends, and walks the lines on which somebody waits. Where memory lacks, some
    /// of them are not walked.
    pub fn close(
        &mut self,
        begun: Option<Asking>,
        ended: Option<LineEnd>,
        waits: &[Waiting],
    ) -> Result<(), AllocError>
        requires begun { AsksAsOne begun }
        requires ended { EndsAsOne ended }
        ensures sets { OnOk result ((v : Trace) (c : ℕ) → ShowsClock v c begun ended waits.now →
            (line : ℕ) → kept_of self.new line
            ≡ walked v c line (is_waiting waits.now line) (kept_of self.old line)) }
        ensures spoiled { (line : ℕ) →
            is_kept_spoiled self.new line ≡ is_kept_spoiled self.old line }
    {
        for wait in waits {
            self.walk(begun, ended, wait)?;
        }
        Ok(())
    }

    /// Takes the clock for one line.
    fn walk(
        &mut self,
        begun: Option<Asking>,
        ended: Option<LineEnd>,
        wait: &Waiting,
    ) -> Result<(), AllocError>
        requires begun { AsksAsOne begun }
        requires ended { EndsAsOne ended }
        ensures sets { OnOk result ((v : Trace) (c : ℕ) → begun ≡ asking_at v c →
            ended ≡ line_end_at v c → wait.now.ready ≡ ready_at v wait.now.line c →
            wait.now.may_drop ≡ droppable_at v wait.now.line c →
            (line : ℕ) → kept_of self.new line
            ≡ walked v c line (nat_eq wait.now.line line) (kept_of self.old line)) }
        ensures spoiled { (line : ℕ) →
            is_kept_spoiled self.new line ≡ is_kept_spoiled self.old line }
    {
        let next = self.walked_set(begun, ended, wait);
        self.sets.insert(wait.line, next)?;
        Ok(())
    }

    /// What the clock makes of the joint states of one line.
    fn walked_set(&self, begun: Option<Asking>, ended: Option<LineEnd>, wait: &Waiting) -> JointSet
        requires begun { AsksAsOne begun }
        requires ended { EndsAsOne ended }
        ensures { (v : Trace) (c : ℕ) → begun ≡ asking_at v c → ended ≡ line_end_at v c →
            wait.now.ready ≡ ready_at v wait.now.line c →
            wait.now.may_drop ≡ droppable_at v wait.now.line c →
            joints_of result ≡ after_clock v wait.now.line c (kept_of self.now wait.now.line) }
    {
        after_clock(
            self.sets.get(wait.line),
            begun_for(wait.line, begun),
            ended_for(wait.line, ended),
            wait,
        )
    }

    /// Marks the line as spoiled. Where memory lacks nothing changes.
    fn spoil(&mut self, line: u64) -> Result<(), AllocError>
        ensures spoiled { OnOk result ((other : ℕ) → is_kept_spoiled self.new other
            ≡ (nat_eq line other || is_kept_spoiled self.old other)) }
        ensures unchanged { OnErr result (self.new ≡ self.old) }
        ensures kept { (other : ℕ) → kept_of self.new other ≡ kept_of self.old other }
    {
        self.spoiled.insert(line, true)?;
        Ok(())
    }

    /// Marks the line as spoiled, if there is one. Where memory lacks nothing changes.
    #[tactic(auto, unfolding(fsb_count::specs::Options::is_at, fsb_count::specs::Options::is_some_and))]
    pub fn spoil_failed(&mut self, failed: Option<u64>) -> Result<(), AllocError>
        ensures spoiled { OnOk result ((line : ℕ) → is_kept_spoiled self.new line
            ≡ (is_at failed line || is_kept_spoiled self.old line)) }
        ensures unchanged { OnErr result (self.new ≡ self.old) }
        ensures kept { (line : ℕ) → kept_of self.new line ≡ kept_of self.old line }
    {
        match failed {
            Some(line) => self.spoil(line),
            None => Ok(()),
        }
    }
}
