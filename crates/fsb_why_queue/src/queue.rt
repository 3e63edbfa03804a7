//! The machine that follows a trace.

ghost use Rattle.std.specs.Prelude.{◌≡◌, ◌<◌, ◌≤◌, ℕ, ◌+◌, ◌^◌, ◌&&◌, not, true, nat_eq, nat_le, is_some, [], ◌∷◌, ◌++◌, length, OnOk, if◌then◌else◌, Some, None};
ghost use Rattle.fsb_signal.specs.declared.marks.Marks.{Marks};
ghost use Rattle.fsb_signal.specs.declared.sample.Sample.{Sample};
ghost use Rattle.fsb_signal.specs.declared.lines.TheConstants.Lines.{ADS, DRDY};
ghost use Rattle.fsb_signal.specs.Samples.{has_line, response_of};
ghost use Rattle.fsb_trace.specs.At.{Trace};
ghost use Rattle.fsb_trace.specs.Requests.{live_clock_of, live_count};
ghost use Rattle.fsb_trace.specs.Rules.{breaks, next_response};
ghost use Rattle.fsb_trace.specs.Snoop.{snoop_end_of, snoop_start_of};
ghost use Rattle.fsb_trace.specs.Response.{end_of, ready_clock_of};
ghost use Rattle.fsb_trace.specs.Outcome.{response_code_of};
ghost use Rattle.fsb_trace.specs.declared.outcome.Outcome.TheVariants.{Failed};
ghost use Rattle.fsb_laws.specs.OneMore.{cancels, responds};
ghost use Rattle.fsb_laws.specs.Orderly.{Orderly};
ghost use Rattle.fsb_laws.specs.Progress.{response_count, transfer_of};
ghost use Rattle.fsb_heads.specs.Heads.{snooped_count, value_before};
ghost use Rattle.fsb_owner_feed.specs.Table.{IsRowOf, Stands as TableStands, fed as fed_to};
ghost use Rattle.fsb_why.specs.Explains.{Explains, Tells};
ghost use Rattle.fsb_why_queue.specs.Data.{SaysMover, SaysTransfer, SaysUnderWay};
ghost use Rattle.fsb_why_queue.specs.Next.{IsNext, SaysAsked, SaysNext};
ghost use Rattle.fsb_why_queue.specs.Snoops.{SaysSnooping};
ghost use Rattle.fsb_why_queue.specs.Queue.{HasNone, IsAt, Stands, fed, is_queue_rule};

use crate::data::{Transfer, unexpected};
use crate::next::Next;
use crate::snoops::{Snooping, is_any, snoop_lines};
use fsb_encode::Request;
use fsb_heads::responds;
use fsb_io::Memory;
use fsb_owner_feed::Table;
use fsb_owner_table::Row;
use fsb_reasons::{Concerned, Reason};
use fsb_signal::{Lines, Sample};
use fsb_trace::{Outcome, code_of};
use fsb_why_open::{outstanding, queue_depth};
use std::alloc::Global;

/// Follows a trace, and says why a rule of the queue is broken with the next sample.
#[derive(Drop)]
pub struct Queue {
    table: Table,
    /// How many responses came.
    responses: u32,
    /// How many snoops ended.
    snooped: u32,
    /// The last snoop end.
    last: Option<u32>,
    /// The end of the request that responded last.
    ended: Option<u32>,
    /// The clock of the last response.
    answered: Option<u32>,
}

/// Whether the answers for the rule of this number are exact.
#[tactic(auto, unfolding(crate::specs::Queue::is_queue_rule))]
pub fn is_queue_rule(rule: u8) -> bool
    ensures { result ≡ is_queue_rule rule }
{
    rule == 4
        || rule == 11
        || rule == 12
        || rule == 13
        || rule == 14
        || rule == 15
        || rule == 16
        || rule == 18
}

/// A request without its snoop end.
#[derive(Clone, Copy, Debug, PartialEq, Eq)]
struct Asked {
    /// Its first clock.
    clock: u32,
    /// The request as it is decoded, where it is.
    request: Option<Request>,
}

/// The request that begins at this clock with its sample.
fn asked_now(clock: u32, sample: &Sample) -> Option<Asked>
    ensures { result ≡ (if has_line sample.now ADS
        then Some (record { clock = clock; request = None }) else None) }
{
    if sample.has(Lines::ADS) {
        Some(Asked {
            clock,
            request: None,
        })
    } else {
        None
    }
}

/// Whether a request that began then has its second clock before this one.
fn is_decoded(begun: u32, clock: u32) -> bool
    ensures { result ≡ nat_le (begun + 2) clock }
{
    u64::from(begun) + 2 <= u64::from(clock)
}

/// Whether both hold.
fn both(one: bool, other: bool) -> bool
    ensures { result ≡ (one && other) }
{
    one && other
}

/// Whether a snoop ends with the sample, in which the line is asserted.
fn has_then(snoop: Option<u32>, sample: &Sample, line: Lines) -> bool
    ensures { result ≡ (is_some snoop && has_line sample.now line) }
{
    snoop.is_some() && sample.has(line)
}

/// Whether the sample has a response that is no hard failure.
fn is_sound(sample: &Sample) -> bool
    ensures { result ≡ (responds sample.now
        && not (nat_eq (response_of sample.now) (response_code_of Failed))) }
{
    responds(sample) && sample.response() != code_of(Outcome::Failed)
}

/// The request with this row, which is snooped next, unless the sample of this clock cancels it,
/// and else the one that begins with it.
fn asked_by(row: &Row, clock: u32, sample: &Sample) -> Option<Asked>
    ensures { (h : Trace) → Orderly h → clock ≡ length h → IsRowOf h (snooped_count h) row.now →
        row.now.seen.clock + 2 ≤ clock → SaysAsked (h ++ sample.now ∷ []) (snooped_count h) result }
{
    if cancels(row.seen.clock, clock, sample) {
        asked_now(clock, sample)
    } else {
        Some(Asked {
            clock: row.seen.clock,
            request: row.seen.request,
        })
    }
}

/// Whether the sample of this clock cancels the request that began then.
#[tactic(auto, unfolding(fsb_laws::specs::OneMore::cancels))]
fn cancels(begun: u32, clock: u32, sample: &Sample) -> bool
    ensures { result ≡ cancels sample.now clock begun }
{
    sample.has(Lines::AERR) && u64::from(begun) + 3 == u64::from(clock)
}

/// Whether the sample has the chunk after three that came.
fn is_last_chunk(came: u8, sample: &Sample) -> bool
    ensures { result ≡ (nat_eq came 3 && has_line sample.now DRDY) }
{
    came == 3 && sample.has(Lines::DRDY)
}

/// How many responses came, after this sample.
fn responses_after(responses: u32, sample: &Sample) -> u32
    ensures { responses + 1 < 2 ^ 32 → result ≡ responses + (if responds sample.now then 1 else 0) }
{
    if responds(sample) {
        responses.saturating_add(1)
    } else {
        responses
    }
}

/// How many snoops ended, after one more or none.
fn snooped_after(snooped: u32, end: Option<u32>) -> u32
    ensures { snooped + 1 < 2 ^ 32 → result ≡ snooped + (if is_some end then 1 else 0) }
{
    if end.is_some() {
        snooped.saturating_add(1)
    } else {
        snooped
    }
}

/// The last snoop end, after this one or none.
fn last_after(last: Option<u32>, end: Option<u32>) -> Option<u32>
    ensures { result ≡ (if is_some end then end else last) }
{
    if end.is_some() { end } else { last }
}

/// The clock of the last response, after the sample of this clock.
fn answered_after(before: Option<u32>, clock: u32, sample: &Sample) -> Option<u32>
    ensures { result ≡ (if responds sample.now then Some clock else before) }
{
    if responds(sample) {
        Some(clock)
    } else {
        before
    }
}

/// The end of the request that responded last, after the sample of this clock: the one before,
/// where it is no response, and else this clock or none, where data move after it.
fn ended_after(before: Option<u32>, clock: u32, sample: &Sample, moving: bool) -> Option<u32>
    ensures { result
        ≡ (if responds sample.now then (if moving then None else Some clock) else before) }
{
    if !responds(sample) {
        before
    } else if moving {
        None
    } else {
        Some(clock)
    }
}

impl Queue {
    /// Before the first sample. It takes no memory.
    pub fn new(alloc: Global) -> Queue
        ensures stands { Stands result [] }
        ensures fed { fed result ≡ 0 }
    {
        Queue {
            table: Table::new(alloc),
            responses: 0,
            snooped: 0,
            last: None,
            ended: None,
            answered: None,
        }
    }

    /// The table of the requests of the samples fed.
    pub fn table(&self) -> &Table
        ensures stands { (h : Trace) → Stands self.now h → TableStands result.now h }
        ensures fed { fed_to result.now ≡ fed self.now }
    {
        &self.table
    }

    /// The request that is snooped next, with the sample of this clock.
    fn asked(&self, clock: u32, sample: &Sample) -> Option<Asked>
        ensures { (h : Trace) → IsAt self.now clock h →
            SaysAsked (h ++ sample.now ∷ []) (snooped_count h) result }
    {
        match self.table.asking() {
            Some(row) => {
                if is_decoded(row.seen.clock, clock) {
                    asked_by(&row, clock, sample)
                } else {
                    self.asked_last(clock, sample)
                }
            }
            None => self.asked_last(clock, sample),
        }
    }

    /// The request that began at the last clock, or begins at this one.
    fn asked_last(&self, clock: u32, sample: &Sample) -> Option<Asked>
        ensures { (h : Trace) → IsAt self.now clock h → HasNone h →
            SaysAsked (h ++ sample.now ∷ []) (snooped_count h) result }
    {
        match self.table.begun_last() {
            Some(begun) => Some(Asked {
                clock: clock.saturating_sub(1),
                request: begun.request(sample),
            }),
            None => asked_now(clock, sample),
        }
    }

    /// The snoop end of that request.
    fn asking_snoop(&self, clock: u32, sample: &Sample) -> Option<u32>
        ensures { (h : Trace) → IsAt self.now clock h →
            result ≡ snoop_end_of (h ++ sample.now ∷ []) (snooped_count h) }
    {
        match self.table.asking() {
            Some(row) => {
                if self.table.ends_snoop(&row, clock, sample) {
                    Some(clock)
                } else {
                    None
                }
            }
            None => None,
        }
    }

    /// The end of the request that responded last before this clock, with its sample.
    fn ended_with(&self, clock: u32, sample: &Sample) -> Option<u32>
        ensures { (h : Trace) → IsAt self.now clock h →
            result ≡ value_before (end_of (h ++ sample.now ∷ [])) (response_count h) }
    {
        match self.table.chunks() {
            Some(came) => {
                if is_last_chunk(came, sample) {
                    Some(clock)
                } else {
                    None
                }
            }
            None => self.ended,
        }
    }

    /// The ready clock of the request that responds next, with the sample of this clock.
    fn ready_with(&self, clock: u32, sample: &Sample) -> Option<u32>
        ensures { (h : Trace) → IsAt self.now clock h →
            result ≡ ready_clock_of (h ++ sample.now ∷ []) (response_count h) }
    {
        match self.table.ready() {
            Some(ready) => Some(ready),
            None => {
                if both(sample.has(Lines::TRDY), self.table.may_answer(clock)) {
                    Some(clock)
                } else {
                    None
                }
            }
        }
    }

    /// The request that responds next, where none has its snoop end and waits for its response.
    fn next_asking(&self, clock: u32, sample: &Sample) -> Option<Next>
        ensures { (h : Trace) → IsAt self.now clock h → snoop_end_of h (response_count h) ≡ None →
            SaysNext (h ++ sample.now ∷ []) clock result }
    {
        match self.asked(clock, sample) {
            Some(asked) => Some(self.next_asked(&asked, clock, sample)),
            None => None,
        }
    }

    /// The request that responds next, which is this one, and is snooped next too.
    fn next_asked(&self, asked: &Asked, clock: u32, sample: &Sample) -> Next
        ensures { (h : Trace) → IsAt self.now clock h → snoop_end_of h (response_count h) ≡ None →
            SaysAsked (h ++ sample.now ∷ []) (snooped_count h) (Some asked.now) →
            IsNext result (h ++ sample.now ∷ []) clock }
    {
        let snoop = self.asking_snoop(clock, sample);
        Next {
            request: Concerned {
                number: self.responses,
                clock: asked.clock,
            },
            snoop,
            ended: self.ended_with(clock, sample),
            decoded: asked.request,
            handed: has_then(snoop, sample, Lines::HITM),
            defer: has_then(snoop, sample, Lines::DEFER),
            ready: self.ready_with(clock, sample),
        }
    }

    /// The request that responds next, which has this row.
    fn next_of(&self, row: &Row, clock: u32, sample: &Sample) -> Option<Next>
        ensures { (h : Trace) → IsAt self.now clock h → IsRowOf h (response_count h) row.now →
            SaysNext (h ++ sample.now ∷ []) clock result }
    {
        match row.snoop {
            Some(snoop) => Some(Next {
                request: Concerned {
                    number: self.responses,
                    clock: row.seen.clock,
                },
                snoop: Some(snoop.clock),
                ended: self.ended_with(clock, sample),
                decoded: row.seen.request,
                handed: snoop.hitm,
                defer: snoop.defer,
                ready: self.ready_with(clock, sample),
            }),
            None => self.next_asking(clock, sample),
        }
    }

    /// The request that responds next, with the sample of this clock.
    fn next(&self, clock: u32, sample: &Sample) -> Option<Next>
        ensures { (h : Trace) → IsAt self.now clock h →
            SaysNext (h ++ sample.now ∷ []) clock result }
    {
        match self.table.waiting() {
            Some(row) => self.next_of(&row, clock, sample),
            None => self.next_asking(clock, sample),
        }
    }

    /// The first snoop clock of the request that is snooped next, which began at this clock.
    fn start_of(&self, begun: u32) -> u64
        ensures { (h : Trace) (x : Sample) (n : ℕ) → IsAt self.now n h →
            live_clock_of (h ++ x ∷ []) (snooped_count h) ≡ Some begun →
            snoop_start_of (h ++ x ∷ []) (snooped_count h) ≡ Some result }
    {
        let earliest = u64::from(begun) + 4;
        match self.last {
            Some(end) => earliest.max(u64::from(end) + 3),
            None => earliest,
        }
    }

    /// The request that is snooped next, with what a trace shows of its snoop with the sample of
    /// this clock.
    fn snooping(&self, clock: u32, sample: &Sample) -> Option<Snooping>
        ensures { (h : Trace) → IsAt self.now clock h →
            SaysSnooping (h ++ sample.now ∷ []) clock result }
    {
        match self.asked(clock, sample) {
            Some(asked) => Some(Snooping {
                request: Concerned {
                    number: self.snooped,
                    clock: asked.clock,
                },
                start: self.start_of(asked.clock),
                ends: self.asking_snoop(clock, sample).is_some(),
                decoded: asked.request,
            }),
            None => None,
        }
    }

    /// Rule 11, snoop lines in snoop clocks.
    pub fn snoop_line(&self, clock: u32, sample: &Sample) -> Option<Reason>
        ensures { (m : Marks) (h : Trace) → IsAt self.now clock h →
            Explains m (h ++ sample.now ∷ []) clock 11 result }
    {
        let lines = snoop_lines(sample);
        if is_any(lines) {
            match self.snooping(clock, sample) {
                Some(snooping) => snooping.alone(lines, clock),
                None => Some(Reason::SnoopsOver { lines }),
            }
        } else {
            None
        }
    }

    /// Rule 12, snoop results of write-backs and replies.
    pub fn snoop_result(&self, clock: u32, sample: &Sample) -> Option<Reason>
        ensures { (m : Marks) (h : Trace) → IsAt self.now clock h →
            Explains m (h ++ sample.now ∷ []) clock 12 result }
    {
        match self.snooping(clock, sample) {
            Some(snooping) => snooping.unfit(snoop_lines(sample)),
            None => None,
        }
    }

    /// Rule 13, response timing.
    pub fn response_timing(&self, clock: u32, sample: &Sample) -> Option<Reason>
        ensures { (m : Marks) (h : Trace) → IsAt self.now clock h →
            Explains m (h ++ sample.now ∷ []) clock 13 result }
    {
        if responds(sample) {
            match self.next(clock, sample) {
                Some(next) => next.early(clock),
                None => Some(Reason::NothingToAnswer {
                    number: self.responses,
                }),
            }
        } else {
            None
        }
    }

    /// Rule 14, response code.
    pub fn response_code(&self, clock: u32, sample: &Sample) -> Option<Reason>
        ensures { (m : Marks) (h : Trace) → IsAt self.now clock h →
            Explains m (h ++ sample.now ∷ []) clock 14 result }
    {
        if is_sound(sample) {
            match self.next(clock, sample) {
                Some(next) => next.wrong_code(sample.response()),
                None => Some(Reason::CodeForNone {
                    number: self.responses,
                    code: sample.response(),
                }),
            }
        } else {
            None
        }
    }

    /// Rule 15, target ready.
    pub fn target_ready(&self, clock: u32, sample: &Sample) -> Option<Reason>
        ensures { (m : Marks) (h : Trace) → IsAt self.now clock h →
            Explains m (h ++ sample.now ∷ []) clock 15 result }
    {
        match self.next(clock, sample) {
            Some(next) => next.wrongly_ready(clock, sample.has(Lines::TRDY), is_sound(sample)),
            None => self.ready_for_none(sample),
        }
    }

    /// Why TRDY# is for no request, where there is none that responds next.
    fn ready_for_none(&self, sample: &Sample) -> Option<Reason>
        ensures { (m : Marks) (h : Trace) (c : ℕ) → IsAt self.now c h →
            live_count (h ++ sample.now ∷ []) ≤ next_response (h ++ sample.now ∷ []) c →
            Explains m (h ++ sample.now ∷ []) c 15 result }
    {
        if sample.has(Lines::TRDY) {
            Some(Reason::ReadyForNone {
                number: self.responses,
            })
        } else {
            None
        }
    }

    /// The request whose data are on the way after the samples fed.
    fn moving(&self) -> Option<Transfer>
        ensures { (h : Trace) → Stands self.now h → Orderly h → SaysUnderWay h result }
    {
        match self.table.chunks() {
            Some(chunks) => self.moving_with(chunks),
            None => None,
        }
    }

    /// The request that responded last, of whose data so many chunks came.
    fn moving_with(&self, chunks: u8) -> Option<Transfer>
        ensures { (h : Trace) → Stands self.now h → Orderly h → transfer_of h ≡ Some chunks →
            SaysUnderWay h result }
    {
        match self.table.moving() {
            Some(row) => match row.response {
                Some(response) => Some(Transfer {
                    request: Concerned {
                        number: self.responses.saturating_sub(1),
                        clock: row.seen.clock,
                    },
                    response,
                    chunks,
                }),
                None => None,
            },
            None => None,
        }
    }

    /// The request that responds with the sample of this clock, where its data move.
    fn answered_moving(&self, clock: u32, sample: &Sample) -> Option<Concerned>
        ensures { (h : Trace) → IsAt self.now clock h →
            SaysMover h sample.now (h ++ sample.now ∷ []) result }
    {
        if responds(sample) {
            match self.next(clock, sample) {
                Some(next) => next.moving(sample.response()),
                None => None,
            }
        } else {
            None
        }
    }

    /// The request whose data are on the way at this clock, with its sample.
    fn coming(&self, clock: u32, sample: &Sample) -> Option<Transfer>
        ensures { (h : Trace) → IsAt self.now clock h →
            SaysTransfer (h ++ sample.now ∷ []) clock result }
    {
        match self.answered_moving(clock, sample) {
            Some(request) => Some(Transfer {
                request,
                response: clock,
                chunks: 0,
            }),
            None => self.moving(),
        }
    }

    /// Rule 16, data transfer.
    pub fn data_transfer(&self, clock: u32, sample: &Sample) -> Option<Reason>
        ensures { (m : Marks) (h : Trace) → IsAt self.now clock h →
            Explains m (h ++ sample.now ∷ []) clock 16 result }
    {
        let last = answered_after(self.answered, clock, sample);
        match self.coming(clock, sample) {
            Some(coming) => coming.busy_wrongly(sample, last),
            None => unexpected(sample, last),
        }
    }

    /// Why the rule of this number, 1 to 20, is broken with the next sample: where `is_queue_rule`
    /// holds of it, a reason if it is broken, and none if it is kept. None for any other rule.
    pub fn why(&self, rule: u8, sample: &Sample) -> Option<Reason>
        requires { fed self.now < 2 ^ 32 }
        ensures { (m : Marks) (h : Trace) → Stands self.now h → Orderly h →
            Tells m (h ++ sample.now ∷ []) (length h) rule
            (is_queue_rule rule && breaks m (h ++ sample.now ∷ []) (length h) rule) result }
    {
        let clock = self.table.clock() as u32;
        if rule == 4 {
            queue_depth(&self.table, clock, sample)
        } else if rule == 11 {
            self.snoop_line(clock, sample)
        } else if rule == 12 {
            self.snoop_result(clock, sample)
        } else if rule == 13 {
            self.response_timing(clock, sample)
        } else if rule == 14 {
            self.response_code(clock, sample)
        } else if rule == 15 {
            self.target_ready(clock, sample)
        } else if rule == 16 {
            self.data_transfer(clock, sample)
        } else if rule == 18 {
            outstanding(&self.table, clock, sample)
        } else {
            None
        }
    }

    /// Takes the next sample. Where memory lacks the queue stands for nothing any more.
    pub fn feed(&mut self, sample: &Sample) -> Result<(), Memory>
        requires { fed self.old + 1 < 2 ^ 32 }
        ensures fed { fed self.new ≤ fed self.old + 1 }
        ensures stands { OnOk result ((h : Trace) → Stands self.old h → Orderly h →
            Orderly (h ++ sample.now ∷ []) → Stands self.new (h ++ sample.now ∷ [])) }
    {
        let clock = self.table.clock() as u32;
        let before = self.ended_with(clock, sample);
        let end = self.asking_snoop(clock, sample);
        self.table.feed(sample)?;
        let moving = self.table.chunks().is_some();
        self.ended = ended_after(before, clock, sample, moving);
        self.answered = answered_after(self.answered, clock, sample);
        self.responses = responses_after(self.responses, sample);
        self.snooped = snooped_after(self.snooped, end);
        self.last = last_after(self.last, end);
        Ok(())
    }
}
