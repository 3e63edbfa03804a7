//! The live requests from their second clocks to their ends.

ghost use Rattle.std.specs.Prelude.{◌≡◌, ℕ, ◌+◌, ◌<◌, true, false, is_some, is_none, unwrap_or, nat_le, [], ◌∷◌, ◌++◌, length, if◌then◌else◌, Some, None, IfSome, ◌&&◌, not, ◌||◌, slice_get};
ghost use Rattle.fsb_signal.specs.declared.lines.TheConstants.Lines.{ADS, HIT, HITM, DEFER, TRDY, DRDY, AERR};
ghost use Rattle.fsb_signal.specs.Samples.{has_line};
ghost use Rattle.fsb_trace.specs.At.{Trace, line_back};
ghost use Rattle.fsb_trace.specs.Snoop.{snoop_end_of};
ghost use Rattle.fsb_trace.specs.Outcome.{does_move, is_deferral, told_by};
ghost use Rattle.fsb_trace.specs.Response.{takes};
ghost use Rattle.fsb_trace.specs.Flight.{in_flight};
ghost use Rattle.fsb_trace.specs.Rules.{is_snoop_line_alone, is_result_unfit_for, is_snoop_result_unfit, is_response_early, is_code_for, responds_soundly, is_code_wrong, is_ready_wrongly, is_ready_in_time, is_target_ready_wrong, is_transferring, is_data_wrong};
ghost use Rattle.fsb_laws.specs.OneMore.{responds};
ghost use Rattle.fsb_laws.specs.Orderly.{Orderly};
ghost use Rattle.fsb_laws.specs.Progress.{is_snoop_due, ends_snoop_of, response_count, may_answer_next, transfer_of};
ghost use Rattle.fsb_heads.specs.Heads.{snooped_count, MovesWith, Stands as HeadsStands};
ghost use Rattle.fsb_rules.specs.Live.{IsLive, IsSnooped};
ghost use Rattle.fsb_rules.specs.Still.{is_still, is_quiet};
ghost use Rattle.fsb_rules.specs.QueueLists.{asking_after, waiting_after};
ghost use Rattle.fsb_rules.specs.Endings.{SaysEnded};
ghost use Rattle.fsb_rules.specs.ComingChunks.{HasData};
ghost use Rattle.fsb_rules.specs.InFlight.{InFlightStands, KeepsLast, IsAt, InTime, Brings};

use crate::coming::Coming;
use crate::live::{Ended, LiveRequest, Snooped};
use arrayvec::ArrayVec;
use fsb_heads::{Heads, Next, responds, stalls};
use fsb_signal::{Lines, Sample};
use fsb_trace::{Outcome, code_of, moves};

/// The live requests that have not ended, in order: at most eight; and the one that responded last.
#[derive(Debug, Drop)]
pub struct InFlight {
    /// Those without their snoop end.
    asking: ArrayVec<LiveRequest, 8>,
    /// Those that wait for their response.
    waiting: ArrayVec<Snooped, 8>,
    /// What the next snoop, the next response and the data on the way rest on.
    heads: Heads,
    /// The one that responded last, whose data are on the way where some are.
    last: Option<LiveRequest>,
}

/// Whether the sample has a response that is no hard failure.
#[tactic(auto, using(crate::proofs::Samples::new_response), unfolding(fsb_trace::specs::Rules::responds_soundly))]
fn is_sound(sample: &Sample) -> bool
    ensures { (h : Trace) → result ≡ responds_soundly (h ++ sample.now ∷ []) (length h) }
{
    responds(sample) && sample.response() != code_of(Outcome::Failed)
}

/// Whether a line is asserted that tells of a snoop.
fn has_snoop_line(sample: &Sample) -> bool
    ensures { result
        ≡ (has_line sample.now HIT || has_line sample.now HITM || has_line sample.now DEFER) }
{
    sample.has(Lines::HIT) || sample.has(Lines::HITM) || sample.has(Lines::DEFER)
}

/// Whether no line is asserted that tells of a snoop, a response or data, or cancels.
#[tactic(auto, unfolding(crate::specs::Still::is_still))]
fn is_still(sample: &Sample) -> bool
    ensures { result ≡ is_still sample.now }
{
    !sample.has(Lines::HIT)
        && !sample.has(Lines::HITM)
        && !sample.has(Lines::DEFER)
        && !sample.has(Lines::RS0)
        && !sample.has(Lines::RS1)
        && !sample.has(Lines::RS2)
        && !sample.has(Lines::TRDY)
        && !sample.has(Lines::DBSY)
        && !sample.has(Lines::DRDY)
        && !sample.has(Lines::AERR)
}

/// Whether the earlier clock lies two clocks before this one at least.
fn is_two_before(earlier: u32, clock: u32) -> bool
    ensures { result ≡ nat_le (earlier + 2) clock }
{
    u64::from(earlier) + 2 <= u64::from(clock)
}

/// Whether the outcome is Deferred.
#[tactic(auto, unfolding(fsb_trace::specs::Outcome::is_deferral))]
fn is_deferral(outcome: Outcome) -> bool
    ensures { result ≡ is_deferral outcome }
{
    match outcome {
        Outcome::Deferred => true,
        _ => false,
    }
}

/// Whether the snoop result does not fit the request, whose snoop end is the sample.
#[tactic(auto, unfolding(crate::specs::Live::live_from, fsb_trace::specs::Requests::live_request_of, fsb_trace::specs::Rules::is_result_unfit_for, fsb_count::specs::Options::is_at, fsb_signal::specs::Samples::line_at, fsb_trace::specs::Requests::is_write_back, fsb_trace::specs::Requests::is_reply, fsb_count::specs::Options::is_some_and))]
fn is_unfit(request: &LiveRequest, sample: &Sample) -> bool
    ensures { (v : Trace) (c i : ℕ) → IsLive v i request.now → snoop_end_of v i ≡ Some c →
        slice_get v c ≡ Some sample.now → result ≡ is_result_unfit_for v c i }
{
    (request.is_write_back() || request.is_reply())
        && (sample.has(Lines::HITM) || sample.has(Lines::DEFER))
        || request.is_write_back() && sample.has(Lines::HIT)
}

/// How a request ends that responds with this code, if it ends at once.
fn ended_at_once(next: &Snooped, code: u8) -> Option<Ended>
    ensures { (h : Trace) (i : ℕ) → IsSnooped h i next.now →
        result ≡ (if does_move (told_by h i code) then None else Some
        (record { request = next.now.request; is_deferred = is_deferral (told_by h i code) })) }
{
    let outcome = next.told_by(code);
    if moves(outcome) {
        None
    } else {
        Some(Ended {
            request: next.request,
            is_deferred: is_deferral(outcome),
        })
    }
}

impl InFlight {
    /// No request yet: it stands for the empty history.
    pub fn new() -> InFlight
        ensures { InFlightStands result [] }
    {
        InFlight {
            asking: ArrayVec::new(),
            waiting: ArrayVec::new(),
            heads: Heads::new(),
            last: None,
        }
    }

    /// How many requests are in flight, where none began at the last clock.
    pub fn len(&self) -> usize
        ensures { (h : Trace) → InFlightStands self.now h → Orderly h →
            line_back ADS h (length h) 1 ≡ false → result ≡ length (in_flight h (length h)) }
    {
        self.asking.len() + self.waiting.len() + usize::from(self.heads.chunks().is_some())
    }

    /// Whether a request has a snoop clock at this clock.
    fn is_snoop_clock(&self, clock: u32) -> bool
        ensures { (h : Trace) → IsAt self.now clock h →
            result ≡ is_snoop_due h (snooped_count h) (length h) }
    {
        match self.asking.as_slice().first() {
            Some(request) => self.heads.is_due(request.clock, clock),
            None => false,
        }
    }

    /// Whether no data are on the way, and no request is begun, with a sample in which no line tells of one.
    #[tactic(auto, unfolding(crate::specs::Still::is_quiet))]
    pub fn is_quiet(&self, sample: &Sample, begun: &Option<LiveRequest>) -> bool
        ensures { (h : Trace) → InFlightStands self.now h →
            result ≡ is_quiet h sample.now begun.now }
    {
        begun.is_none() && (self.heads.chunks().is_none() && is_still(sample))
    }

    /// Whether the sample changes nothing.
    fn stays(&self, clock: u32, sample: &Sample, begun: &Option<LiveRequest>) -> bool
        ensures { (h : Trace) → IsAt self.now clock h →
            result ≡ (is_quiet h sample.now begun.now
            && not (is_snoop_due h (snooped_count h) (length h))) }
    {
        self.is_quiet(sample, begun) && !self.is_snoop_clock(clock)
    }

    /// Whether a snoop ends with this sample.
    #[tactic(auto, unfolding(fsb_laws::specs::Progress::ends_snoop_of))]
    fn ends_snoop(&self, clock: u32, sample: &Sample) -> bool
        ensures { (h : Trace) → IsAt self.now clock h →
            result ≡ ends_snoop_of h (snooped_count h) sample.now }
    {
        self.is_snoop_clock(clock) && !stalls(sample)
    }

    /// Rule 11, snoop lines in snoop clocks.
    #[tactic(auto, using(crate::proofs::QueueRules::rule_11))]
    pub fn is_snoop_line_alone(&self, clock: u32, sample: &Sample) -> bool
        ensures { (h : Trace) → IsAt self.now clock h →
            result ≡ is_snoop_line_alone (h ++ sample.now ∷ []) (length h) }
    {
        has_snoop_line(sample) && !self.is_snoop_clock(clock)
    }

    /// Rule 12, snoop results of write-backs and replies; it is kept where no snoop line is asserted.
    pub fn is_snoop_result_unfit(&self, clock: u32, sample: &Sample) -> bool
        ensures { (h : Trace) → IsAt self.now clock h →
            result ≡ is_snoop_result_unfit (h ++ sample.now ∷ []) (length h) }
    {
        if has_snoop_line(sample) {
            match self.asking.as_slice().first() {
                Some(request) => self.ends_snoop(clock, sample) && is_unfit(request, sample),
                None => false,
            }
        } else {
            false
        }
    }

    /// Whether a response may come at this clock.
    fn may_answer(&self, clock: u32) -> bool
        ensures { (h : Trace) → IsAt self.now clock h → result ≡ may_answer_next h }
    {
        match self.waiting.as_slice().first() {
            Some(snooped) => {
                is_two_before(snooped.clock, clock) && self.heads.chunks().is_none()
            }
            None => false,
        }
    }

    /// The request that may respond at this clock.
    fn next(&self, clock: u32) -> Option<Snooped>
        ensures there { (h : Trace) → IsAt self.now clock h → is_some result ≡ may_answer_next h }
        ensures snooped { (h : Trace) → IsAt self.now clock h →
            IfSome result (λ next. IsSnooped h (response_count h) next) }
    {
        match self.waiting.as_slice().first() {
            Some(snooped) => {
                if self.may_answer(clock) {
                    Some(*snooped)
                } else {
                    None
                }
            }
            None => None,
        }
    }

    /// Rule 13, response timing.
    #[tactic(auto, using(crate::proofs::QueueRules::rule_13))]
    pub fn is_response_early(&self, clock: u32, sample: &Sample) -> bool
        ensures { (h : Trace) → IsAt self.now clock h →
            result ≡ is_response_early (h ++ sample.now ∷ []) (length h) }
    {
        responds(sample) && !self.may_answer(clock)
    }

    /// Whether a request may respond at this clock, and the code, no hard failure, is the one for it.
    fn is_answered_by(&self, clock: u32, code: u8) -> bool
        ensures { (h : Trace) → IsAt self.now clock h →
            result ≡ (may_answer_next h && is_code_for h (response_count h) code) }
    {
        match self.next(clock) {
            Some(next) => next.is_code_for(code),
            None => false,
        }
    }

    /// Rule 14, response code.
    #[tactic(auto, using(crate::proofs::QueueRules::rule_14))]
    pub fn is_code_wrong(&self, clock: u32, sample: &Sample) -> bool
        ensures { (h : Trace) → InTime self.now clock sample.now h →
            result ≡ is_code_wrong (h ++ sample.now ∷ []) (length h) }
    {
        is_sound(sample) && !self.is_answered_by(clock, sample.response())
    }

    /// Whether a request may respond at this clock, and memory is to take its data.
    fn takes(&self, clock: u32) -> bool
        ensures { (h : Trace) → IsAt self.now clock h →
            result ≡ (may_answer_next h && takes h (response_count h)) }
    {
        match self.next(clock) {
            Some(next) => next.takes(),
            None => false,
        }
    }

    /// Whether TRDY# at this clock is not for the request that responds next.
    #[tactic(auto, using(crate::proofs::QueueRules::ready_wrongly))]
    fn is_ready_wrongly(&self, clock: u32) -> bool
        ensures { (h : Trace) (x : Sample) → IsAt self.now clock h →
            result ≡ is_ready_wrongly (h ++ x ∷ []) (length h) (response_count h) }
    {
        !self.takes(clock) || self.heads.ready().is_some()
    }

    /// Whether the target is ready two clocks before this one at least.
    #[tactic(auto, using(crate::proofs::QueueRules::ready_in_time), unfolding(fsb_count::specs::Options::is_some_and))]
    fn is_ready(&self, clock: u32) -> bool
        ensures { (h : Trace) (x : Sample) → IsAt self.now clock h →
            result ≡ is_ready_in_time (h ++ x ∷ []) (length h) (response_count h) }
    {
        match self.heads.ready() {
            Some(ready) => is_two_before(ready, clock),
            None => false,
        }
    }

    /// Rule 15, target ready.
    #[tactic(auto, using(crate::proofs::QueueRules::rule_15))]
    pub fn is_target_ready_wrong(&self, clock: u32, sample: &Sample) -> bool
        ensures { (h : Trace) → InTime self.now clock sample.now h →
            result ≡ is_target_ready_wrong (h ++ sample.now ∷ []) (length h) }
    {
        let is_wrong = sample.has(Lines::TRDY) && self.is_ready_wrongly(clock);
        let is_late = is_sound(sample) && self.takes(clock) && !self.is_ready(clock);
        is_wrong || is_late
    }

    /// Whether data move from this clock on with a response that is the sample.
    fn begins_data(&self, clock: u32, sample: &Sample) -> bool
        ensures { (h : Trace) → InTime self.now clock sample.now h → MovesWith sample.now result h }
    {
        if responds(sample) {
            match self.next(clock) {
                Some(next) => moves(next.told_by(sample.response())),
                None => false,
            }
        } else {
            false
        }
    }

    /// Whether data are on the way at this clock, with which data begin to move or do not.
    fn is_moving(&self, sample: &Sample, begins: bool) -> bool
        ensures { (h : Trace) (n : ℕ) → InTime self.now n sample.now h →
            MovesWith sample.now begins h →
            result ≡ is_transferring (h ++ sample.now ∷ []) (length h) }
    {
        if responds(sample) {
            begins
        } else {
            self.heads.chunks().is_some()
        }
    }

    /// Whether data are on the way after this clock.
    #[tactic(auto, using(crate::proofs::QueueRules::moving_after))]
    fn goes_on(&self, sample: &Sample, begins: bool) -> bool
        ensures { (h : Trace) (n : ℕ) → InTime self.now n sample.now h →
            MovesWith sample.now begins h →
            result ≡ is_transferring (h ++ sample.now ∷ []) (length h + 1) }
    {
        self.heads.chunks_with(sample, begins).is_some()
    }

    /// Whether a chunk comes with the sample, and no data are on the way.
    fn is_chunk_alone(&self, sample: &Sample, begins: bool) -> bool
        ensures { (h : Trace) (n : ℕ) → InTime self.now n sample.now h →
            MovesWith sample.now begins h →
            result ≡ (has_line sample.now DRDY
            && not (is_transferring (h ++ sample.now ∷ []) (length h))) }
    {
        sample.has(Lines::DRDY) && !self.is_moving(sample, begins)
    }

    /// Rule 16, data transfer.
    #[tactic(auto, using(crate::proofs::QueueRules::rule_16))]
    pub fn is_data_wrong(&self, clock: u32, sample: &Sample) -> bool
        ensures { (h : Trace) → InTime self.now clock sample.now h →
            result ≡ is_data_wrong (h ++ sample.now ∷ []) (length h) }
    {
        let begins = self.begins_data(clock, sample);
        self.is_chunk_alone(sample, begins)
            || sample.has(Lines::DBSY) != self.goes_on(sample, begins)
    }

    /// How many chunks came before this clock of the data that are on the way at it.
    fn place(&self, sample: &Sample) -> u8
        ensures { (h : Trace) → InFlightStands self.now h →
            result ≡ (if responds sample.now then 0 else unwrap_or (transfer_of h) 0) }
    {
        if responds(sample) {
            0
        } else {
            self.heads.chunks().unwrap_or(0)
        }
    }

    /// The chunk that comes with the sample, which has DRDY#.
    pub fn coming(&self, clock: u32, sample: &Sample) -> Option<Coming>
        ensures some { (h : Trace) → InTime self.now clock sample.now h →
            has_line sample.now DRDY ≡ true →
            IfSome result (λ coming. HasData (h ++ sample.now ∷ []) (length h) coming) }
        ensures none { (h : Trace) → InTime self.now clock sample.now h → result ≡ None →
            is_transferring (h ++ sample.now ∷ []) (length h) ≡ false }
    {
        if self.is_moving(sample, self.begins_data(clock, sample)) {
            match self.last_with(clock, sample) {
                Some(last) => Some(Coming {
                    did: last.did,
                    place: self.place(sample),
                }),
                None => None,
            }
        } else {
            None
        }
    }

    /// Whether data that are on the way end with this sample, which is no response.
    fn ends_data(&self, sample: &Sample) -> bool
        ensures { (h : Trace) → InFlightStands self.now h → Orderly h →
            responds sample.now ≡ false →
            result ≡ (is_some (transfer_of h) && is_none (transfer_of (h ++ sample.now ∷ []))) }
    {
        self.heads.chunks().is_some() && self.heads.chunks_with(sample, false).is_none()
    }

    /// The request that ends with this sample.
    pub fn ended(&self, clock: u32, sample: &Sample) -> Option<Ended>
        ensures { (h : Trace) → InTime self.now clock sample.now h →
            SaysEnded (h ++ sample.now ∷ []) (length h) result }
    {
        if responds(sample) {
            match self.next(clock) {
                Some(next) => ended_at_once(&next, sample.response()),
                None => None,
            }
        } else if self.ends_data(sample) {
            match self.last {
                Some(request) => Some(Ended {
                    request,
                    is_deferred: false,
                }),
                None => None,
            }
        } else {
            None
        }
    }

    /// The request that has its snoop end with this sample, and what came of it.
    fn snooped(&self, clock: u32, sample: &Sample) -> Option<Snooped>
        ensures there { (h : Trace) → IsAt self.now clock h →
            is_some result ≡ ends_snoop_of h (snooped_count h) sample.now }
        ensures snooped { (h : Trace) → IsAt self.now clock h →
            IfSome result (λ snooped. IsSnooped (h ++ sample.now ∷ []) (snooped_count h) snooped) }
    {
        match self.asking.as_slice().first() {
            Some(request) => {
                if self.ends_snoop(clock, sample) {
                    Some(Snooped {
                        request: *request,
                        clock,
                        hitm: sample.has(Lines::HITM),
                        defer: sample.has(Lines::DEFER),
                    })
                } else {
                    None
                }
            }
            None => None,
        }
    }

    /// Takes the sample of this clock, which breaks no rule, and the request whose second clock it is; at most clocks
    /// nothing changes.
    pub fn absorb(&mut self, clock: u32, sample: &Sample, begun: &Option<LiveRequest>)
        requires { (h : Trace) × Brings self.old clock sample.now begun.now h }
        ensures { (h : Trace) → Brings self.old clock sample.now begun.now h →
            InFlightStands self.new (h ++ sample.now ∷ []) }
    {
        if !self.stays(clock, sample, begun) {
            self.go_on(clock, sample, begun);
        }
    }

    /// Takes the sample of this clock, with which something may change.
    #[inline(never)]
    fn go_on(&mut self, clock: u32, sample: &Sample, begun: &Option<LiveRequest>)
        requires { (h : Trace) × Brings self.old clock sample.now begun.now h }
        ensures { (h : Trace) → Brings self.old clock sample.now begun.now h →
            InFlightStands self.new (h ++ sample.now ∷ []) }
    {
        let snooped = self.snooped(clock, sample);
        let heads = self.heads_with(clock, sample, snooped.is_some());
        self.take_last(clock, sample);
        self.heads = heads;
        take_request(
            &mut self.asking,
            sample.has(Lines::AERR),
            snooped.is_some(),
            begun,
        );
        take_snooped(&mut self.waiting, responds(sample), snooped);
    }

    /// Whether the target is ready with the sample for the request that responds next.
    fn readies(&self, clock: u32, sample: &Sample) -> bool
        ensures { (h : Trace) → IsAt self.now clock h →
            result ≡ (has_line sample.now TRDY && may_answer_next h) }
    {
        sample.has(Lines::TRDY) && self.may_answer(clock)
    }

    /// The heads after this sample, with which a snoop ends or does not.
    fn heads_with(&self, clock: u32, sample: &Sample, snoops: bool) -> Heads
        ensures { (h : Trace) → InTime self.now clock sample.now h →
            snoops ≡ ends_snoop_of h (snooped_count h) sample.now →
            HeadsStands result (h ++ sample.now ∷ []) }
    {
        let next = Next {
            snoops,
            readies: self.readies(clock, sample),
            moves: self.begins_data(clock, sample),
        };
        self.heads.after(clock, sample, &next)
    }

    /// The request that responded last after this sample.
    fn last_with(&self, clock: u32, sample: &Sample) -> Option<LiveRequest>
        ensures { (h : Trace) → InTime self.now clock sample.now h →
            KeepsLast result (h ++ sample.now ∷ []) }
    {
        if responds(sample) {
            match self.next(clock) {
                Some(next) => Some(next.request),
                None => None,
            }
        } else {
            self.last
        }
    }

    /// Keeps the request that responds with this sample, if one does.
    fn take_last(&mut self, clock: u32, sample: &Sample)
        ensures asking { self.new.asking ≡ self.old.asking }
        ensures waiting { self.new.waiting ≡ self.old.waiting }
        ensures last { (h : Trace) → InTime self.old clock sample.now h →
            KeepsLast self.new.last (h ++ sample.now ∷ []) }
    {
        if responds(sample) {
            self.last = self.last_with(clock, sample);
        }
    }
}

/// The requests without their snoop end: the last one is cancelled, the first has its snoop end, and one is begun.
#[tactic(auto, unfolding(crate::specs::QueueLists::asking_after, crate::specs::QueueLists::without_last))]
fn take_request(
    asking: &mut ArrayVec<LiveRequest, 8>,
    is_cancelled: bool,
    is_snooped: bool,
    begun: &Option<LiveRequest>,
)
    requires { is_some begun.now ≡ true → length asking.old.items < 8 }
    ensures { asking.new.items ≡ asking_after asking.old.items is_cancelled is_snooped begun.now }
{
    if is_cancelled {
        asking.pop();
    }
    if is_snooped {
        asking.pop_at(0);
    }
    if let Some(request) = begun {
        asking.push(*request);
    }
}

/// The requests that wait for their response: the first responds, and one has its snoop end.
#[tactic(auto, unfolding(crate::specs::QueueLists::waiting_after))]
fn take_snooped(waiting: &mut ArrayVec<Snooped, 8>, responds: bool, snooped: Option<Snooped>)
    requires { is_some snooped ≡ true → length waiting.old.items < 8 }
    ensures { waiting.new.items ≡ waiting_after waiting.old.items responds snooped }
{
    if responds {
        waiting.pop_at(0);
    }
    if let Some(snooped) = snooped {
        waiting.push(snooped);
    }
}
