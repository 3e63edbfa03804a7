//! What is kept of a request.

ghost use Rattle.std.specs.Prelude.{◌≡◌, ℕ, ◌+◌, ◌-◌, length, ◌<◌, nat_lt, ◌&&◌, ◌||◌, not, is_some, is_none, if◌then◌else◌, Some, None};
ghost use Rattle.fsb_count.specs.Options.{is_at, is_before, is_some_and};
ghost use Rattle.fsb_signal.specs.Samples.{response_of};
ghost use Rattle.fsb_trace.specs.At.{Trace};
ghost use Rattle.fsb_trace.specs.Requests.{have_same_id, is_reply, line_of, seen_at};
ghost use Rattle.fsb_trace.specs.Winner.{symmetric_after};
ghost use Rattle.fsb_signal.specs.declared.sample.Sample.{Sample};
ghost use Rattle.fsb_laws.specs.OneMore.{OneMore};
ghost use Rattle.fsb_laws.specs.Orderly.{Orderly};
ghost use Rattle.fsb_trace.specs.Outcome.{is_deferral};
ghost use Rattle.fsb_trace.specs.Flight.{has_ended, is_dropped, is_finished};
ghost use Rattle.fsb_owner_table.specs.Happened.{Goes};
ghost use Rattle.fsb_owner_table.specs.Rows.{row_at};
ghost use Rattle.fsb_owner_table.specs.Kept.{is_row_closed, is_row_dropped, kept_at, row_last_clock};
ghost use Rattle.fsb_owner_table.specs.RowAfter.{answer_of, clock_after, is_row_answered_by, is_row_deferred, is_row_handed, reply_after, reply_clock_after, row_after, row_told_by, seen_after, snooped_now};

use crate::happened::{Happened, is_at, is_before};
use fsb_encode::{Kind, Request};
use fsb_signal::{Lines, Sample};
use fsb_trace::{Outcome, Seen, Who, told_with};

/// The snoop end of a request.
#[derive(Clone, Copy, Debug, PartialEq, Eq)]
pub struct Snooped {
    /// Its clock.
    pub clock: u32,
    /// HIT# there.
    pub hit: bool,
    /// HITM# there.
    pub hitm: bool,
    /// DEFER# there.
    pub defer: bool,
}

/// A request, from its second clock on, with what is reached of it.
#[derive(Clone, Copy, Debug, PartialEq, Eq)]
pub struct Row {
    /// The request as the trace shows it.
    pub seen: Seen,
    /// The line that it names, where a symmetric agent began it.
    pub line: Option<u64>,
    /// Its snoop end.
    pub snoop: Option<Snooped>,
    /// The clock of its response.
    pub response: Option<u32>,
    /// The outcome that its response tells.
    pub outcome: Option<Outcome>,
    /// The clock of its end.
    pub end: Option<u32>,
    /// The first clock of the live reply to it, where it is Deferred.
    pub reply: Option<u32>,
    /// The snoop end of that reply.
    pub reply_snoop: Option<u32>,
    /// The end of that reply.
    pub reply_end: Option<u32>,
}

/// Whether the request is a reply.
#[tactic(auto, unfolding(fsb_trace::specs::Requests::is_reply, fsb_trace::specs::Requests::is_reply_kind, fsb_count::specs::Options::is_some_and))]
pub fn is_reply(request: Option<Request>) -> bool
    ensures { result ≡ is_reply request }
{
    match request {
        Some(request) => match request.kind {
            Kind::Reply => true,
            Kind::Read | Kind::Invalidate | Kind::WriteBack | Kind::Upgrade => false,
        },
        None => false,
    }
}

/// Whether both requests are there, and have the same ID.
#[tactic(auto, unfolding(fsb_trace::specs::Requests::have_same_id, fsb_count::specs::Options::is_some_and))]
fn have_same_id(one: Option<Request>, other: Option<Request>) -> bool
    ensures { result ≡ have_same_id one other }
{
    match (one, other) {
        (Some(one), Some(other)) => one.did == other.did,
        _ => false,
    }
}

/// The row of a request in its second clock, which is seen so and names this line.
pub fn begun_row(seen: Seen, line: Option<u64>) -> Row
    ensures { (h : Trace) (x : Sample) (v : Trace) → OneMore h x v → Orderly h → Orderly v →
        0 < length h → seen ≡ seen_at v (length h - 1) → line ≡ line_of v (length h - 1) →
        result ≡ row_at v (length h - 1) }
{
    Row {
        seen,
        line,
        snoop: None,
        response: None,
        outcome: None,
        end: None,
        reply: None,
        reply_snoop: None,
        reply_end: None,
    }
}

/// The sample of this clock, where a snoop ends with it.
fn snooped_now(clock: u32, sample: &Sample) -> Snooped
    ensures { result ≡ snooped_now clock sample.now }
{
    Snooped {
        clock,
        hit: sample.has(Lines::HIT),
        hitm: sample.has(Lines::HITM),
        defer: sample.has(Lines::DEFER),
    }
}

/// This clock where the event is the request's, and else the clock before.
fn clock_after(event: Option<u32>, own: u32, clock: u32, old: Option<u32>) -> Option<u32>
    ensures { result ≡ clock_after event own clock old }
{
    if is_at(event, own) { Some(clock) } else { old }
}

/// The same by the event of its reply, if it has one.
fn reply_clock_after(
    event: Option<u32>,
    reply: Option<u32>,
    clock: u32,
    old: Option<u32>,
) -> Option<u32>
    ensures { result ≡ reply_clock_after event reply clock old }
{
    match reply {
        Some(reply) => clock_after(event, reply, clock, old),
        None => old,
    }
}

impl Row {
    /// Its agent, where that is a symmetric one.
    #[tactic(auto, unfolding(fsb_trace::specs::Winner::symmetric_after))]
    pub fn agent(&self) -> Option<u8>
        ensures { result ≡ symmetric_after None self.now.seen.who }
    {
        match self.seen.who {
            Some(Who::Symmetric(agent)) => Some(agent),
            _ => None,
        }
    }

    /// Whether it is a reply.
    pub fn is_reply(&self) -> bool
        ensures { result ≡ is_reply self.now.seen.request }
    {
        is_reply(self.seen.request)
    }

    /// Whether it is Deferred.
    #[tactic(auto, unfolding(fsb_trace::specs::Outcome::is_deferral, fsb_count::specs::Options::is_some_and))]
    pub fn is_deferred(&self) -> bool
        ensures { result ≡ is_row_deferred self.now }
    {
        match self.outcome {
            Some(Outcome::Deferred) => true,
            _ => false,
        }
    }

    /// Whether HITM# is asserted at its snoop end.
    #[tactic(auto, unfolding(fsb_count::specs::Options::is_some_and))]
    pub fn is_handed(&self) -> bool
        ensures { result ≡ is_row_handed self.now }
    {
        match self.snoop {
            Some(snoop) => snoop.hitm,
            None => false,
        }
    }

    /// Whether it has its snoop end before this clock.
    #[tactic(auto, unfolding(fsb_count::specs::Options::is_some_and))]
    pub fn is_snooped_before(&self, clock: u32) -> bool
        ensures { result ≡ is_some_and self.now.snoop (λ s. nat_lt s.clock clock) }
    {
        match self.snoop {
            Some(snoop) => snoop.clock < clock,
            None => false,
        }
    }

    /// Whether it is cancelled, and was so before this clock.
    fn is_dropped(&self, clock: u32) -> bool
        ensures { result ≡ is_row_dropped self.now clock }
    {
        self.seen.cancelled && u64::from(self.seen.clock) + 3 < u64::from(clock)
    }

    /// Whether it was dropped or ended before this clock.
    #[tactic(auto, using(crate::proofs::Closed::left_is))]
    pub fn has_left(&self, clock: u32) -> bool
        ensures fields { result ≡ (is_row_dropped self.now clock || is_before self.now.end clock) }
        ensures traced { (v : Trace) (q : ℕ) → self.now ≡ row_at v q →
            result ≡ (is_dropped v clock q || has_ended v clock q) }
    {
        self.is_dropped(clock) || is_before(self.end, clock)
    }

    /// Its last clock as outstanding: its end, or, if it is Deferred, that of its reply.
    pub fn last_clock(&self) -> Option<u32>
        ensures { result ≡ row_last_clock self.now }
    {
        if self.is_deferred() {
            self.reply_end
        } else {
            self.end
        }
    }

    /// Whether it was dropped, or closed for good, before this clock.
    #[tactic(auto, using(crate::proofs::Closed::closed_is))]
    pub fn is_closed(&self, clock: u32) -> bool
        ensures fields { result ≡ is_row_closed self.now clock }
        ensures traced { (v : Trace) (q : ℕ) → self.now ≡ row_at v q →
            result ≡ (is_dropped v clock q || is_finished v clock q) }
    {
        self.is_dropped(clock) || is_before(self.last_clock(), clock)
    }

    /// Whether it waits for its snoop end.
    pub fn is_asking(&self) -> bool
        ensures { result ≡ (not self.now.seen.cancelled && is_none self.now.snoop) }
    {
        !self.seen.cancelled && self.snoop.is_none()
    }

    /// Whether it waits for its response.
    pub fn is_waiting(&self) -> bool
        ensures { result ≡ (is_some self.now.snoop && is_none self.now.response) }
    {
        self.snoop.is_some() && self.response.is_none()
    }

    /// Whether its data are on the way.
    pub fn is_moving(&self) -> bool
        ensures { result ≡ (is_some self.now.response && is_none self.now.end) }
    {
        self.response.is_some() && self.end.is_none()
    }

    /// What a response with this code tells of it.
    pub fn told_by(&self, code: u8) -> Outcome
        ensures { result ≡ row_told_by self.now code }
    {
        told_with(self.is_handed(), self.seen.request, code)
    }

    /// Whether the request that is begun is a reply to it.
    fn is_answered_by(&self, begun: &Row) -> bool
        ensures { result ≡ is_row_answered_by self.now begun.now }
    {
        self.is_deferred()
            && (begun.is_reply()
                && (have_same_id(begun.seen.request, self.seen.request)
                    && is_before(self.response, begun.seen.clock)))
    }

    /// The first clock of the request that is begun, where it is a reply to it.
    fn answer_of(&self, begun: Option<Row>) -> Option<u32>
        ensures { result ≡ answer_of self.now begun }
    {
        match begun {
            Some(begun) => {
                if self.is_answered_by(&begun) {
                    Some(begun.seen.clock)
                } else {
                    None
                }
            }
            None => None,
        }
    }

    /// The first clock of the reply to it, after what happens.
    fn reply_after(&self, happened: &Happened) -> Option<u32>
        ensures { result ≡ reply_after self.now happened.now self.now.reply }
    {
        match self.reply {
            Some(reply) => {
                if is_at(happened.cancelled, reply) {
                    None
                } else {
                    Some(reply)
                }
            }
            None => self.answer_of(happened.begun),
        }
    }

    /// Its snoop end, after what happens with the sample.
    fn snoop_after(&self, happened: &Happened, sample: &Sample) -> Option<Snooped>
        ensures { result ≡ (if is_at happened.now.snooped self.now.seen.clock
            then Some (snooped_now happened.now.clock sample.now) else self.now.snoop) }
    {
        if is_at(happened.snooped, self.seen.clock) {
            Some(snooped_now(happened.clock, sample))
        } else {
            self.snoop
        }
    }

    /// Its outcome, after what happens with the sample.
    fn outcome_after(&self, happened: &Happened, sample: &Sample) -> Option<Outcome>
        ensures { result ≡ (if is_at happened.now.answered self.now.seen.clock
            then Some (row_told_by self.now (response_of sample.now)) else self.now.outcome) }
    {
        if is_at(happened.answered, self.seen.clock) {
            Some(self.told_by(sample.response()))
        } else {
            self.outcome
        }
    }

    /// The request as it is seen after what happens.
    fn seen_after(&self, happened: &Happened) -> Seen
        ensures { result ≡ seen_after self.now happened.now }
    {
        Seen {
            clock: self.seen.clock,
            who: self.seen.who,
            request: self.seen.request,
            cancelled: self.seen.cancelled || is_at(happened.cancelled, self.seen.clock),
        }
    }

    /// What is left of it after what happens with the sample.
    #[tactic(auto, unfolding(crate::specs::RowAfter::row_after))]
    fn moved(&self, happened: &Happened, sample: &Sample) -> Row
        ensures { result ≡ row_after self.now happened.now sample.now }
    {
        let own = self.seen.clock;
        let clock = happened.clock;
        Row {
            seen: self.seen_after(happened),
            line: self.line,
            snoop: self.snoop_after(happened, sample),
            response: clock_after(happened.answered, own, clock, self.response),
            outcome: self.outcome_after(happened, sample),
            end: clock_after(happened.ended, own, clock, self.end),
            reply: self.reply_after(happened),
            reply_snoop: reply_clock_after(happened.snooped, self.reply, clock, self.reply_snoop),
            reply_end: reply_clock_after(happened.ended, self.reply, clock, self.reply_end),
        }
    }

    /// The row after what happens with the sample.
    #[tactic(auto, using(crate::proofs::RowGoes::row_goes))]
    pub fn after(&self, happened: &Happened, sample: &Sample) -> Row
        ensures { (h v : Trace) (q : ℕ) → Goes h sample.now v happened.now q self.now →
            result ≡ row_at v q }
    {
        self.moved(happened, sample)
    }

    /// Makes it what it is after what happens with the sample, and tells whether it is still kept: whether it is not closed
    /// below this clock.
    pub fn keep(&mut self, happened: &Happened, sample: &Sample, old: u32) -> bool
        ensures { (h v : Trace) (q : ℕ) → Goes h sample.now v happened.now q self.old →
            old ≡ length v - 3 → (if result then Some self.new else None) ≡ kept_at v q }
    {
        *self = self.after(happened, sample);
        !self.is_closed(old)
    }
}
