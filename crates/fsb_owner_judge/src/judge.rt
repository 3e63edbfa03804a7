//! The judge, sample by sample.

ghost use Rattle.std.specs.Prelude.{◌≡◌, ◌<◌, ◌≤◌, ◌+◌, ◌^◌, ◌∷◌, [], ℕ, true, false, length, List, None, IfOk, IsErr, OnOk, OnErr};
ghost use Rattle.std.specs.Option.{option_map};
ghost use Rattle.fsb_trace.specs.At.{Trace};
ghost use Rattle.fsb_owners.specs.Joint.{Joint, every_joint, unheld};
ghost use Rattle.fsb_owners.specs.Least.{least_at};
ghost use Rattle.fsb_owners.specs.Rules.{is_hit_of_reply_wrong, is_ownership_broken, ownership_verdict};
ghost use Rattle.fsb_owners.specs.Shown.{is_spoiled};
ghost use Rattle.fsb_signal.specs.declared.sample.Sample.{Sample};
ghost use Rattle.fsb_owner_judge.specs.Judge.{LinesStand, Shows, Stands, as_owner_broken, has_lacked_memory, is_spoiled_for, taken};
ghost use Rattle.fsb_owner_judge.specs.Lines.{Follows, KnowsSpoiled};
ghost use Rattle.fsb_owner_judge.specs.Sights.{AsksAsOne, EndsAsOne, line_end_at};
ghost use Rattle.fsb_owner_judge.specs.Verdicts.{answered_at, or_rule, rule_by};

use crate::answered::{Answered, nothing};
use crate::lines::OwnerLines;
use crate::sights::{Asking, LineEnd, Waiting};
use fsb_io::Memory;
use fsb_joint::JointSet;
use std::alloc::{AllocError, Global};

/// The first clock with a broken rule of ownership, and the least rule that is broken there.
#[derive(Clone, Copy, Debug, PartialEq, Eq)]
pub struct OwnerBroken {
    /// The clock, from 0.
    pub clock: u32,
    /// The number of the rule, from 21 to 31.
    pub rule: u8,
}

/// What the wires show with a sample.
#[derive(Clone, Copy, Debug, PartialEq, Eq)]
pub struct Shown {
    /// The request that began at the clock before, where it names a line.
    pub begun: Option<Asking>,
    /// The snoop end of the clock before, with what the sample adds to it.
    pub ended_before: Option<LineEnd>,
    /// The snoop end with the sample.
    pub ended: Option<LineEnd>,
    /// The line of which a request, or the reply to one, fails hard with the sample.
    pub failed: Option<u64>,
    /// Whether a deferred line was given again; it counts only as long as nothing was found.
    pub is_given_again: bool,
}

/// Tells after each sample whether a rule of ownership is broken by the samples so far.
#[derive(Drop)]
pub struct OwnerJudge {
    lines: OwnerLines,
    /// What was found; nothing is looked at any more once something was.
    found: Option<OwnerBroken>,
    /// Whether memory was lacking in a call.
    has_lacked_memory: bool,
    /// How many samples were taken.
    clock: u64,
}

/// The rule that was found, or else this one where it is broken.
fn or_rule(found: Option<u8>, is_broken: bool, rule: u8) -> Option<u8>
    ensures { result ≡ or_rule found is_broken rule }
{
    match found {
        Some(found) => Some(found),
        None => { if is_broken { Some(rule) } else { None } }
    }
}

/// The least rule of those of the request, of the snoop ends now and a clock ago, and of the rules 30 and 31.
#[tactic(auto, unfolding(crate::specs::Verdicts::rule_by))]
fn rule_by(
    begun: Option<u8>,
    now: &Answered,
    late: &Answered,
    is_hit_wrong: bool,
    is_given_again: bool,
) -> Option<u8>
    ensures { result ≡ rule_by begun now.now late.now is_hit_wrong is_given_again }
{
    let rule = or_rule(begun, now.owner_lacking || late.owner_lacking, 25);
    let rule = or_rule(rule, now.owner_silent || late.owner_silent, 26);
    let rule = or_rule(rule, now.holder_silent || late.holder_silent, 27);
    let rule = or_rule(rule, now.holder_lacking || late.holder_lacking, 28);
    let rule = or_rule(rule, now.written_when_lost || late.written_when_lost, 29);
    let rule = or_rule(rule, is_hit_wrong, 30);
    or_rule(rule, is_given_again, 31)
}

/// The rule at this clock, if there is one.
fn found_at(clock: u32, rule: Option<u8>) -> Option<OwnerBroken>
    ensures { result ≡ option_map {U = OwnerBroken} (λ j. record { clock = clock; rule = j }) rule }
{
    match rule {
        Some(rule) => Some(OwnerBroken { clock, rule }),
        None => None,
    }
}

impl OwnerLines {
    /// The least rule that is broken with a sample, where this is the rule of the request that is decoded, and these are
    /// the rules of the snoop end before it.
    fn rule_now(&self, begun: Option<u8>, late: &Answered, shown: &Shown) -> Option<u8>
        requires { EndsAsOne shown.now.ended }
        ensures { (first : List Joint) (v : Trace) (n : ℕ) → Follows self.now first v n →
            KnowsSpoiled self.now v → length v ≡ n + 1 → shown.now.ended ≡ line_end_at v n →
            result ≡ rule_by begun (answered_at first v n) late.now
            (is_hit_of_reply_wrong first v n) shown.now.is_given_again }
    {
        let now = self.answered(None, shown.ended);
        let is_hit_wrong = self.is_hit_wrong(shown.ended);
        rule_by(begun, &now, late, is_hit_wrong, shown.is_given_again)
    }

    /// Takes the second sample or a later one, and tells the least rule that is broken with it.
    fn advance(&mut self, shown: &Shown, waits: &[Waiting]) -> Result<Option<u8>, AllocError>
        requires begun { AsksAsOne shown.now.begun }
        requires before { EndsAsOne shown.now.ended_before }
        requires ended { EndsAsOne shown.now.ended }
        ensures rule { IfOk result (λ rule. (first : List Joint) (h : Trace) (x : Sample)
            (v : Trace) → LinesStand self.old first h → 0 < length h →
            ownership_verdict first h ≡ None → Shows first h x v shown.now waits.now →
            rule ≡ least_at (is_ownership_broken first v) 32 (length h)) }
        ensures stands { OnOk result ((first : List Joint) (h : Trace) (x : Sample) (v : Trace) →
            LinesStand self.old first h → 0 < length h →
            Shows first h x v shown.now waits.now → LinesStand self.new first v) }
    {
        self.spoil_failed(shown.failed)?;
        let begun = self.begun_rule(shown.begun);
        let late = self.answered(shown.begun, shown.ended_before);
        self.close(shown.begun, shown.ended_before, waits)?;
        Ok(self.rule_now(begun, &late, shown))
    }

    /// Takes the first sample, and tells the least rule that is broken with it.
    fn begin(&mut self, shown: &Shown) -> Result<Option<u8>, AllocError>
        requires { EndsAsOne shown.now.ended }
        ensures rule { IfOk result (λ rule. (first : List Joint) (h : Trace) (x : Sample)
            (v : Trace) (waits : List Waiting) → LinesStand self.old first h → length h ≡ 0 →
            ownership_verdict first h ≡ None → Shows first h x v shown.now waits →
            rule ≡ least_at (is_ownership_broken first v) 32 (length h)) }
        ensures stands { OnOk result ((first : List Joint) (h : Trace) (x : Sample) (v : Trace)
            (waits : List Waiting) → LinesStand self.old first h → length h ≡ 0 →
            Shows first h x v shown.now waits → LinesStand self.new first v) }
    {
        self.spoil_failed(shown.failed)?;
        Ok(self.rule_now(None, &nothing(), shown))
    }

    /// Takes a sample, and tells the least rule that is broken with it.
    fn take(
        &mut self,
        clock: u32,
        shown: &Shown,
        waits: &[Waiting],
    ) -> Result<Option<u8>, AllocError>
        requires begun { AsksAsOne shown.now.begun }
        requires before { EndsAsOne shown.now.ended_before }
        requires ended { EndsAsOne shown.now.ended }
        ensures rule { IfOk result (λ rule. (first : List Joint) (h : Trace) (x : Sample)
            (v : Trace) → LinesStand self.old first h → clock ≡ length h →
            ownership_verdict first h ≡ None → Shows first h x v shown.now waits.now →
            rule ≡ least_at (is_ownership_broken first v) 32 (length h)) }
        ensures stands { OnOk result ((first : List Joint) (h : Trace) (x : Sample) (v : Trace) →
            LinesStand self.old first h → clock ≡ length h →
            Shows first h x v shown.now waits.now → LinesStand self.new first v) }
    {
        if clock == 0 {
            self.begin(shown)
        } else {
            self.advance(shown, waits)
        }
    }
}

impl OwnerJudge {
    /// The judge before the first sample of a dump that begins with empty caches. It takes no memory.
    pub fn from_reset(alloc: Global) -> OwnerJudge
        ensures stands { Stands result (unheld ∷ []) [] }
        ensures room { has_lacked_memory result ≡ false }
        ensures taken { taken result ≡ 0 }
    {
        OwnerJudge {
            lines: OwnerLines::new(alloc, JointSet::unheld()),
            found: None,
            has_lacked_memory: false,
            clock: 0,
        }
    }

    /// The judge before the first sample of a dump that begins in traffic. It takes no memory.
    pub fn from_within(alloc: Global) -> OwnerJudge
        ensures stands { Stands result every_joint [] }
        ensures room { has_lacked_memory result ≡ false }
        ensures taken { taken result ≡ 0 }
    {
        OwnerJudge {
            lines: OwnerLines::new(alloc, JointSet::every()),
            found: None,
            has_lacked_memory: false,
            clock: 0,
        }
    }

    /// What was found in the samples so far.
    pub fn found(&self) -> Option<OwnerBroken>
        ensures { (first : List Joint) (h : Trace) → Stands self.now first h →
            has_lacked_memory self.now ≡ false →
            result ≡ as_owner_broken (ownership_verdict first h) }
    {
        self.found
    }

    /// Whether the line is spoiled in the samples so far. Once something was found lines are spoiled no more.
    pub fn is_spoiled(&self, line: u64) -> bool
        ensures kept { result ≡ is_spoiled_for self.now line }
        ensures traced { (first : List Joint) (h : Trace) → Stands self.now first h →
            has_lacked_memory self.now ≡ false → ownership_verdict first h ≡ None →
            result ≡ is_spoiled h line }
    {
        self.lines.is_spoiled(line)
    }

    /// Takes what the wires show with the next sample, and tells the least clock and rule that is broken in the samples so
    /// far. From the first finding on it is always that one, and once memory was lacking it always is.
    pub fn step(&mut self, shown: &Shown, waits: &[Waiting]) -> Result<Option<OwnerBroken>, Memory>
        requires begun { AsksAsOne shown.now.begun }
        requires before { EndsAsOne shown.now.ended_before }
        requires ended { EndsAsOne shown.now.ended }
        requires few { taken self.old < 2 ^ 32 }
        ensures found { IfOk result (λ found. (first : List Joint) (h : Trace) (x : Sample)
            (v : Trace) → Stands self.old first h → Shows first h x v shown.now waits.now →
            found ≡ as_owner_broken (ownership_verdict first v)) }
        ensures stands { (first : List Joint) (h : Trace) (x : Sample) (v : Trace) →
            Stands self.old first h → Shows first h x v shown.now waits.now →
            Stands self.new first v }
        ensures memory { has_lacked_memory self.old ≡ true → IsErr result }
        ensures full { OnErr result (has_lacked_memory self.new ≡ true) }
        ensures room { OnOk result (has_lacked_memory self.new ≡ false) }
        ensures taken { taken self.new ≤ taken self.old + 1 }
    {
        if self.has_lacked_memory {
            return Err(Memory);
        }
        if self.found.is_some() {
            return Ok(self.found);
        }
        let clock = self.clock as u32;
        let Ok(rule) = self.lines.take(clock, shown, waits) else {
            self.has_lacked_memory = true;
            return Err(Memory);
        };
        self.found = found_at(clock, rule);
        self.clock = u64::from(clock) + 1;
        Ok(self.found)
    }
}
