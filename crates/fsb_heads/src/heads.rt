//! What the next snoop, the next response and the data on the way rest on.

ghost use Rattle.std.specs.Prelude.{◌≡◌, [], ◌∷◌, ◌++◌, length, ◌&&◌, is_some, if◌then◌else◌, Some, None};
ghost use Rattle.fsb_trace.specs.At.{Trace};
ghost use Rattle.fsb_trace.specs.Requests.{live_clock_of};
ghost use Rattle.fsb_trace.specs.Snoop.{snoop_start_of};
ghost use Rattle.fsb_trace.specs.Response.{ready_clock_of};
ghost use Rattle.fsb_laws.specs.OneMore.{responds, stalls};
ghost use Rattle.fsb_laws.specs.Progress.{response_count, transfer_of, is_snoop_due, chunk_step};
ghost use Rattle.fsb_heads.specs.Heads.{snooped_count, Stands, MovesWith, BringsNext};

use fsb_signal::{Lines, Sample};
use fsb_trace::is_every_second_from;

/// What is kept of a history for its next clock.
#[derive(Clone, Copy, Debug, PartialEq, Eq)]
pub struct Heads {
    /// The last snoop end.
    snooped: Option<u32>,
    /// The ready clock of the next request to respond.
    ready: Option<u32>,
    /// How many chunks came of the data that are on the way.
    chunks: Option<u8>,
}

/// What the requests make of the sample of the next clock.
#[derive(Clone, Copy, Debug, PartialEq, Eq)]
pub struct Next {
    /// Whether a snoop ends with it.
    pub snoops: bool,
    /// Whether the target is ready with it for the next request to respond, which may do so at its clock.
    pub readies: bool,
    /// Whether data move with the response that it is; free where it is none.
    pub moves: bool,
}

/// Whether RS# is not idle in the sample.
#[tactic(auto, unfolding(fsb_laws::specs::OneMore::responds))]
pub fn responds(sample: &Sample) -> bool
    ensures { result ≡ responds sample.now }
{
    sample.response() != 0
}

/// Whether HIT# and HITM# are asserted together in the sample.
#[tactic(auto, unfolding(fsb_laws::specs::OneMore::stalls))]
pub fn stalls(sample: &Sample) -> bool
    ensures { result ≡ stalls sample.now }
{
    sample.has(Lines::HIT) && sample.has(Lines::HITM)
}

/// How many chunks came of a transfer after a clock at which a chunk comes or none does; none after the fourth.
#[tactic(auto, unfolding(fsb_laws::specs::Progress::chunk_step))]
fn chunk_step(comes: bool, came: Option<u8>) -> Option<u8>
    ensures { result ≡ chunk_step comes came }
{
    match came {
        Some(came) if comes => { if came < 3 { Some(came + 1) } else { None } }
        Some(came) if came < 4 => Some(came),
        _ => None,
    }
}

impl Heads {
    /// The heads before the first clock: they stand for the empty history.
    pub fn new() -> Heads
        ensures { Stands result [] }
    {
        Heads {
            snooped: None,
            ready: None,
            chunks: None,
        }
    }

    /// The first snoop clock of the request that is snooped next, which began at this clock.
    pub fn snoop_start(&self, begun: u32) -> u64
        ensures { (h : Trace) → Stands self.now h → live_clock_of h (snooped_count h) ≡ Some begun →
            snoop_start_of h (snooped_count h) ≡ Some result }
    {
        let earliest = u64::from(begun) + 4;
        match self.snooped {
            Some(end) => earliest.max(u64::from(end) + 3),
            None => earliest,
        }
    }

    /// Whether that request has a snoop clock at `clock`.
    pub fn is_due(&self, begun: u32, clock: u32) -> bool
        ensures { (h : Trace) → Stands self.now h → live_clock_of h (snooped_count h) ≡ Some begun →
            result ≡ is_snoop_due h (snooped_count h) clock }
    {
        is_every_second_from(self.snoop_start(begun), u64::from(clock))
    }

    /// The ready clock of the next request to respond.
    pub fn ready(&self) -> Option<u32>
        ensures { (h : Trace) → Stands self.now h → result ≡ ready_clock_of h (response_count h) }
    {
        self.ready
    }

    /// How many chunks came of the data that are on the way; none where no data are.
    pub fn chunks(&self) -> Option<u8>
        ensures { (h : Trace) → Stands self.now h → result ≡ transfer_of h }
    {
        self.chunks
    }

    /// How many chunks came before the sample of the next clock of the data that are on the way with it.
    fn chunks_before(&self, sample: &Sample, moves: bool) -> Option<u8>
        ensures { result
            ≡ (if responds sample.now then (if moves then Some 0 else None) else self.now.chunks) }
    {
        if !responds(sample) {
            self.chunks
        } else if moves {
            Some(0)
        } else {
            None
        }
    }

    /// How many chunks came, with the sample of the next clock, of the data that are on the way after it.
    pub fn chunks_with(&self, sample: &Sample, moves: bool) -> Option<u8>
        ensures { (h : Trace) → Stands self.now h → MovesWith sample.now moves h →
            result ≡ transfer_of (h ++ sample.now ∷ []) }
    {
        chunk_step(sample.has(Lines::DRDY), self.chunks_before(sample, moves))
    }

    /// The ready clock of the next request to respond, after the sample of the next clock.
    fn ready_with(&self, clock: u32, sample: &Sample, readies: bool) -> Option<u32>
        ensures { result ≡ (if responds sample.now then None else
            (if is_some self.now.ready then self.now.ready else
            (if readies then Some clock else None))) }
    {
        if responds(sample) {
            None
        } else if self.ready.is_some() {
            self.ready
        } else if readies {
            Some(clock)
        } else {
            None
        }
    }

    /// The heads after the sample of the next clock, with which this happens.
    pub fn after(&self, clock: u32, sample: &Sample, next: &Next) -> Heads
        ensures { (h : Trace) → Stands self.now h → BringsNext clock sample.now next.now h →
            Stands result (h ++ sample.now ∷ []) }
    {
        Heads {
            snooped: if next.snoops {
                Some(clock)
            } else {
                self.snooped
            },
            ready: self.ready_with(clock, sample, next.readies),
            chunks: self.chunks_with(sample, next.moves),
        }
    }
}
