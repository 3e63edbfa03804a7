//! What a trace shows at its last clock and shortly before.

ghost use Rattle.std.specs.Prelude.{◌≡◌, ◌<◌, ◌≤◌, ◌^◌, ℕ, ◌+◌, ◌-◌, ◌&&◌, false, if◌then◌else◌, Some, [], ◌∷◌, ◌++◌, length};
ghost use Rattle.std.specs.Option.{option_and_then, option_map_or};
ghost use Rattle.fsb_encode.specs.Decoded.{request_of};
ghost use Rattle.fsb_signal.specs.declared.marks.Marks.{Marks};
ghost use Rattle.fsb_signal.specs.Samples.{has_line, line_at};
ghost use Rattle.fsb_signal.specs.declared.lines.TheConstants.Lines.{ADS};
ghost use Rattle.fsb_trace.specs.At.{Trace, line_back, known_pair_at, request_at};
ghost use Rattle.fsb_trace.specs.Winner.{begins_at, winner_at, is_agent};
ghost use Rattle.fsb_why.specs.Look.{Shows};

use fsb_encode::{Pair, Request, decode};
use fsb_signal::{Lines, Marks, Sample};
use fsb_trace::{Who, known_pair};

/// What a trace shows at its last clock, which is called the clock here, and at the three before it.
#[derive(Clone, Copy, Debug, PartialEq, Eq)]
pub struct Look {
    /// Which of the two parity lines the dump declares.
    pub marks: Marks,
    pub clock: u32,
    pub sample: Sample,
    /// The sample one clock before, if there is such a clock.
    pub one: Option<Sample>,
    /// The sample two clocks before.
    pub two: Option<Sample>,
    /// The sample three clocks before.
    pub three: Option<Sample>,
    /// The winner at the clock.
    pub winner: Option<Who>,
    /// The winner one clock before.
    pub winner_before: Option<Who>,
    /// The agent of the last request that began before the clock, if there is one and it had a winner.
    pub last: Option<Who>,
    /// The first clock of the last request that began before the clock.
    pub request: Option<u32>,
}

/// Whether there is such a sample, and the line is asserted in it.
fn has_line(sample: &Option<Sample>, line: Lines) -> bool
    ensures { result ≡ option_map_or (λ s. has_line s line) sample.now false }
{
    match sample {
        Some(sample) => sample.has(line),
        None => false,
    }
}

/// Whether there is such an agent, and it is this one.
#[tactic(auto, unfolding(fsb_trace::specs::Winner::is_agent, fsb_trace::specs::Winner::is_same_agent, fsb_count::specs::Options::is_some_and))]
pub fn is_agent(agent: Option<Who>, who: Who) -> bool
    ensures { result ≡ is_agent agent who }
{
    match (agent, who) {
        (Some(Who::Symmetric(a)), Who::Symmetric(b)) => a == b,
        (Some(Who::Priority), Who::Priority) => true,
        _ => false,
    }
}

/// The request of two clocks with these words, where they hold a lawful one.
fn request_by(first: Option<Pair>, second: Option<Pair>) -> Option<Request>
    ensures { result
        ≡ option_and_then (λ a. option_and_then (λ b. request_of a b) second) first }
{
    let first = first?;
    let second = second?;
    decode(first, second).ok()
}

/// Whether both hold.
pub fn both(first: bool, second: bool) -> bool
    ensures { result ≡ (first && second) }
{
    first && second
}

impl Look {
    /// Whether the line is asserted at the clock.
    pub fn has(&self, line: Lines) -> bool
        ensures { (m : Marks) (v : Trace) → Shows self.now m v →
            result ≡ line_at line v self.now.clock }
    {
        self.sample.has(line)
    }

    /// Whether the line is asserted one clock before.
    pub fn one_back(&self, line: Lines) -> bool
        ensures { (m : Marks) (v : Trace) → Shows self.now m v →
            result ≡ line_back line v self.now.clock 1 }
    {
        has_line(&self.one, line)
    }

    /// Whether the line is asserted two clocks before.
    pub fn two_back(&self, line: Lines) -> bool
        ensures { (m : Marks) (v : Trace) → Shows self.now m v →
            result ≡ line_back line v self.now.clock 2 }
    {
        has_line(&self.two, line)
    }

    /// Whether the line is asserted three clocks before.
    pub fn three_back(&self, line: Lines) -> bool
        ensures { (m : Marks) (v : Trace) → Shows self.now m v →
            result ≡ line_back line v self.now.clock 3 }
    {
        has_line(&self.three, line)
    }

    /// The address and REQ words one clock before, where none of their bits is unknown.
    pub fn first_words(&self) -> Option<Pair>
        ensures { (m : Marks) (v : Trace) → Shows self.now m v → 1 ≤ self.now.clock →
            result ≡ known_pair_at v (self.now.clock - 1) }
    {
        match self.one {
            Some(sample) => known_pair(&sample),
            None => None,
        }
    }

    /// The address and REQ words at the clock, where none of their bits is unknown.
    pub fn second_words(&self) -> Option<Pair>
        ensures { (m : Marks) (v : Trace) → Shows self.now m v →
            result ≡ known_pair_at v self.now.clock }
    {
        known_pair(&self.sample)
    }

    /// The request of the two clocks up to this one, where they hold a lawful one.
    pub fn request(&self) -> Option<Request>
        ensures { (m : Marks) (v : Trace) → Shows self.now m v → 1 ≤ self.now.clock →
            result ≡ request_at v (self.now.clock - 1) }
    {
        request_by(self.first_words(), self.second_words())
    }

    /// Whether the agent began a request one clock before.
    pub fn began(&self, who: Who) -> bool
        ensures { (m : Marks) (v : Trace) → Shows self.now m v →
            result ≡ begins_at v (self.now.clock - 1) who }
    {
        both(self.one_back(Lines::ADS), is_agent(self.winner_before, who))
    }

    /// The agent of the last request that began up to the clock.
    fn last_after(&self) -> Option<Who>
        ensures { result
            ≡ (if has_line self.now.sample ADS then self.now.winner else self.now.last) }
    {
        if self.sample.has(Lines::ADS) {
            self.winner
        } else {
            self.last
        }
    }

    /// The first clock of the last request that began up to the clock.
    fn request_after(&self) -> Option<u32>
        ensures { result
            ≡ (if has_line self.now.sample ADS then Some self.now.clock else self.now.request) }
    {
        if self.sample.has(Lines::ADS) {
            Some(self.clock)
        } else {
            self.request
        }
    }

    /// What is shown one clock on, at which this is the winner.
    pub fn next(&self, sample: &Sample, winner: Option<Who>) -> Look
        requires { self.now.clock + 1 < 2 ^ 32 }
        ensures { (m : Marks) (h : Trace) → Shows self.now m h →
            winner ≡ winner_at (h ++ sample.now ∷ []) (length h) →
            Shows result m (h ++ sample.now ∷ []) }
    {
        Look {
            marks: self.marks,
            clock: self.clock + 1,
            sample: *sample,
            one: Some(self.sample),
            two: self.one,
            three: self.two,
            winner,
            winner_before: self.winner,
            last: self.last_after(),
            request: self.request_after(),
        }
    }
}
