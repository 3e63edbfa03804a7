ghost use Rattle.std.specs.Prelude.{◌≡◌, ℕ, ◌&&◌, ◌||◌, is_some, is_none, if◌then◌else◌, Some};
ghost use Rattle.std.specs.Prelude.{List, [], ◌∷◌, ◌++◌, length, slice_get};
ghost use Rattle.std.specs.List.{find};
ghost use Rattle.fsb_signal.specs.declared.lines.TheConstants.Lines.{TRDY};
ghost use Rattle.fsb_signal.specs.declared.sample.Sample.{Sample};
ghost use Rattle.fsb_signal.specs.Samples.{has_line};
ghost use Rattle.fsb_trace.specs.At.{Trace};
ghost use Rattle.fsb_trace.specs.Response.{answer_from};
ghost use Rattle.fsb_laws.specs.OneMore.{responds};
ghost use Rattle.fsb_laws.specs.Progress.{response_count, transfer_of, may_answer_next};
ghost use Rattle.fsb_heads.specs.Heads.{Stands as HeadsStands};
ghost use Rattle.fsb_queue.specs.declared.entry.Entry.{Entry};
ghost use Rattle.fsb_phase.specs.Due.{has_snoop, is_stalled, has_ready, has_response, response_to_now};
ghost use Rattle.fsb_phase.specs.Drive.{drive_of, phased_at, ends_snoop_at, has_end_at};
ghost use Rattle.fsb_phase.specs.FitQueue.{HoldsInFlight};
ghost use Rattle.fsb_phase.specs.Phases.{Stands, IsNext, MayTake};

use crate::drive::{Drive, Phased};
use crate::places::{
    answer_after, chunk_due, code_if, has_data, is_busy, is_taking, number_of, open_entry,
};
use crate::timing::{is_ready_from, is_response_from, is_stall_from};
use fsb_heads::{Heads, Next, responds, stalls};
use fsb_queue::{Entry, Queue};
use fsb_signal::{Lines, Sample};

/// Tells what is due at a clock, from the samples and the queues that it was given so far.
#[derive(Clone, Copy, Debug, PartialEq, Eq)]
pub struct Phases {
    /// What the next snoop, the next response and the data on the way rest on.
    heads: Heads,
    /// The clock from which the next request to respond is answered; none while its snoop end or the end before it is to
    /// come.
    from: Option<u64>,
    /// The last response clock.
    response: Option<u32>,
}

impl Phases {
    /// The phases before the first clock: they stand for the empty history.
    pub fn new() -> Phases
        ensures { Stands result [] }
    {
        Phases {
            heads: Heads::new(),
            from: None,
            response: None,
        }
    }

    /// What is driven at the next clock. The clock is the number of samples taken so far, and the queue holds the requests
    /// in flight.
    pub fn drive(&self, clock: u32, queue: &Queue) -> Drive
        ensures { (h : Trace) (turns : List ℕ) → Stands self.now h → clock ≡ length h →
            HoldsInFlight queue.now turns h → result ≡ drive_of h queue.now }
    {
        let snooping = self.snooping(clock, queue);
        let snoop = number_of(&snooping);
        let stall = self.is_stalled(clock, &snooping);
        match queue.at(0).copied() {
            Some(oldest) => {
                let responds = self.has_response(clock, &oldest);
                let answered = self.answered(clock, responds);
                Drive {
                    snoop,
                    stall,
                    trdy: self.has_ready(clock, &oldest),
                    rs: code_if(responds, &oldest),
                    dbsy: is_busy(&oldest, clock, answered),
                    chunk: chunk_due(&oldest, clock, answered),
                }
            }
            None => Drive {
                snoop,
                stall,
                trdy: false,
                rs: 0,
                dbsy: false,
                chunk: None,
            },
        }
    }

    /// Takes the sample of the next clock, and tells which snoop and which request end there. The clock is the number of
    /// samples taken before, the queue holds the requests in flight, RS# is what is driven, and a request begins no sooner
    /// than three clocks after the one before it. All other lines are free.
    pub fn absorb(&mut self, clock: u32, sample: &Sample, queue: &Queue) -> Phased
        ensures result { (h : Trace) (turns : List ℕ) → Stands self.old h →
            MayTake clock sample.now queue.now turns h →
            result ≡ phased_at (h ++ sample.now ∷ []) clock queue.now }
        ensures stands { (h : Trace) (turns : List ℕ) → Stands self.old h →
            MayTake clock sample.now queue.now turns h → Stands self.new (h ++ sample.now ∷ []) }
    {
        let snooped = self.snooped_with(clock, sample, queue);
        let heads = self.heads_with(clock, sample, queue, &snooped);
        let transfer = heads.chunks();
        let ended = self.ended_with(sample, queue, transfer);
        *self = Phases {
            heads,
            from: self.from_with(clock, sample, queue, &snooped, transfer),
            response: clock_if(responds(sample), clock, self.response),
        };
        Phased {
            snooped: number_of(&snooped),
            ended: number_of(&ended),
        }
    }

    /// The request whose snoop clock is the next clock.
    fn snooping(&self, clock: u32, queue: &Queue) -> Option<Entry>
        ensures { (h : Trace) (turns : List ℕ) → IsNext self.now clock queue.now turns h →
            result ≡ find (has_snoop h) queue.now }
    {
        match open_entry(queue) {
            Some(e) => {
                if self.heads.is_due(e.clock, clock) {
                    Some(e)
                } else {
                    None
                }
            }
            None => None,
        }
    }

    /// Whether the snoop is to be stalled of the request whose snoop clock is the next clock.
    fn is_stalled(&self, clock: u32, snooping: &Option<Entry>) -> bool
        ensures { (h : Trace) (queue : List Entry) (turns : List ℕ) →
            IsNext self.now clock queue turns h → snooping.now ≡ find (has_snoop h) queue →
            result ≡ is_some (find (is_stalled h) queue) }
    {
        match snooping {
            Some(e) => is_stall_from(
                e.choice.stall,
                u64::from(clock),
                self.heads.snoop_start(e.clock),
            ),
            None => false,
        }
    }

    /// Whether the next clock is the ready clock of the oldest request.
    fn has_ready(&self, clock: u32, oldest: &Entry) -> bool
        ensures { (h : Trace) (queue : List Entry) (turns : List ℕ) →
            IsNext self.now clock queue turns h → slice_get queue 0 ≡ Some oldest.now →
            result ≡ has_ready h oldest.now }
    {
        is_taking(oldest) && is_ready_from(self.from, oldest.choice.trdy, u64::from(clock))
    }

    /// Whether the next clock is the response clock of the oldest request.
    fn has_response(&self, clock: u32, oldest: &Entry) -> bool
        ensures { (h : Trace) (queue : List Entry) (turns : List ℕ) →
            IsNext self.now clock queue turns h → slice_get queue 0 ≡ Some oldest.now →
            result ≡ has_response h oldest.now }
    {
        is_response_from(
            is_taking(oldest),
            self.from,
            self.heads.ready(),
            oldest.choice.resp,
            clock,
        )
    }

    /// The response clock of the oldest request, if it is the next clock, where it responds there, or lies before.
    fn answered(&self, clock: u32, responds: bool) -> Option<u32>
        ensures { (h : Trace) (queue : List Entry) (turns : List ℕ) (oldest : Entry) →
            IsNext self.now clock queue turns h → slice_get queue 0 ≡ Some oldest →
            responds ≡ has_response h oldest → result ≡ response_to_now h oldest }
    {
        if self.heads.chunks().is_some() {
            self.response
        } else if responds {
            Some(clock)
        } else {
            None
        }
    }

    /// The request whose snoop ends with the sample.
    fn snooped_with(&self, clock: u32, sample: &Sample, queue: &Queue) -> Option<Entry>
        ensures { (h : Trace) (turns : List ℕ) → Stands self.now h →
            MayTake clock sample.now queue.now turns h →
            result ≡ find (ends_snoop_at (h ++ sample.now ∷ []) (length h)) queue.now }
    {
        if stalls(sample) {
            None
        } else {
            self.snooping(clock, queue)
        }
    }

    /// The heads after the sample, with which this request has its snoop end.
    fn heads_with(
        &self,
        clock: u32,
        sample: &Sample,
        queue: &Queue,
        snooped: &Option<Entry>,
    ) -> Heads
        ensures { (h : Trace) (turns : List ℕ) → Stands self.now h →
            MayTake clock sample.now queue.now turns h →
            snooped.now ≡ find (ends_snoop_at (h ++ sample.now ∷ []) (length h)) queue.now →
            HeadsStands result (h ++ sample.now ∷ []) }
    {
        let next = Next {
            snoops: snooped.is_some(),
            readies: self.readies(clock, sample),
            moves: has_data(queue.at(0).copied()),
        };
        self.heads.after(clock, sample, &next)
    }

    /// Whether the oldest request has responded, with the sample or before.
    fn has_answered(&self, sample: &Sample) -> bool
        ensures { (h : Trace) → HeadsStands self.now.heads h →
            result ≡ (responds sample.now || is_some (transfer_of h)) }
    {
        responds(sample) || self.heads.chunks().is_some()
    }

    /// Whether its end comes with the sample, with which this transfer is on the way.
    fn has_ended(&self, sample: &Sample, transfer: Option<u8>) -> bool
        ensures { (h : Trace) → HeadsStands self.now.heads h →
            result ≡ ((responds sample.now || is_some (transfer_of h)) && is_none transfer) }
    {
        self.has_answered(sample) && transfer.is_none()
    }

    /// The request whose end comes with the sample, with which this transfer is on the way.
    fn ended_with(&self, sample: &Sample, queue: &Queue, transfer: Option<u8>) -> Option<Entry>
        ensures { (h : Trace) (clock : ℕ) (turns : List ℕ) → Stands self.now h →
            MayTake clock sample.now queue.now turns h →
            transfer ≡ transfer_of (h ++ sample.now ∷ []) →
            result ≡ find (has_end_at (h ++ sample.now ∷ []) (length h)) queue.now }
    {
        if self.has_ended(sample, transfer) {
            queue.at(0).copied()
        } else {
            None
        }
    }

    /// The clock from which the next request to respond is answered, after the sample with which this request has its
    /// snoop end and this transfer is on the way.
    fn from_with(
        &self,
        clock: u32,
        sample: &Sample,
        queue: &Queue,
        snooped: &Option<Entry>,
        transfer: Option<u8>,
    ) -> Option<u64>
        ensures { (h : Trace) (turns : List ℕ) → Stands self.now h →
            MayTake clock sample.now queue.now turns h →
            snooped.now ≡ find (ends_snoop_at (h ++ sample.now ∷ []) (length h)) queue.now →
            transfer ≡ transfer_of (h ++ sample.now ∷ []) →
            result ≡ answer_from (h ++ sample.now ∷ []) (response_count (h ++ sample.now ∷ [])) }
    {
        let ends = snooped.is_some();
        if !self.has_answered(sample) {
            answer_after(self.from, clock, ends, queue.at(0).copied())
        } else if transfer.is_some() {
            None
        } else {
            answer_after(
                Some(u64::from(clock) + 1),
                clock,
                ends,
                queue.at(1).copied(),
            )
        }
    }

    /// Whether the next request to respond may do so at the next clock.
    fn may_answer(&self, clock: u32) -> bool
        ensures { (h : Trace) → Stands self.now h → clock ≡ length h → result ≡ may_answer_next h }
    {
        match self.from {
            Some(from) => from <= u64::from(clock),
            None => false,
        }
    }

    /// Whether the target is ready with the sample for that request.
    fn readies(&self, clock: u32, sample: &Sample) -> bool
        ensures { (h : Trace) → Stands self.now h → clock ≡ length h →
            result ≡ (has_line sample.now TRDY && may_answer_next h) }
    {
        sample.has(Lines::TRDY) && self.may_answer(clock)
    }
}

/// The last clock at which something happens, where it happens at this clock or not, and happened last at that one.
fn clock_if(happens: bool, clock: u32, last: Option<u32>) -> Option<u32>
    ensures { result ≡ (if happens then Some clock else last) }
{
    if happens { Some(clock) } else { last }
}
