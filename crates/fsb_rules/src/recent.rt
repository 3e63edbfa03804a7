//! The last three clocks.

ghost use Rattle.std.specs.Prelude.{◌≡◌, ◌<◌, ℕ, [], ◌∷◌, ◌++◌, length};
ghost use Rattle.fsb_trace.specs.At.{Trace, line_back};
ghost use Rattle.fsb_rules.specs.Recent.{RecentStands, asserted_back, request_by};

use bitflags::Flags;
use fsb_encode::{Pair, Request, decode};
use fsb_signal::{Lines, Sample};
use fsb_trace::known_pair;

/// What is kept of the last three clocks. Where there is no such clock, no line is asserted in it.
#[derive(Clone, Copy, Debug, PartialEq, Eq)]
pub struct Recent {
    /// The control lines one clock back.
    first: Lines,
    /// The control lines two clocks back.
    second: Lines,
    /// The control lines three clocks back.
    third: Lines,
    /// The address and REQ words of the last clock at which a request began, where no bit of them is unknown.
    words: Option<Pair>,
}

/// Whether the line is among the lines of a clock.
fn is_among(lines: Lines, line: Lines) -> bool
    requires { 0 < line.0 }
    ensures { (h : Trace) (d : ℕ) → lines ≡ asserted_back h d →
        result ≡ line_back line h (length h) d }
{
    lines.contains(line)
}

impl Recent {
    /// No clock yet.
    pub fn new() -> Recent
        ensures { RecentStands result [] }
    {
        Recent {
            first: Lines(0),
            second: Lines(0),
            third: Lines(0),
            words: None,
        }
    }

    /// The control lines one clock back; where there is no such clock, none of them is asserted.
    pub fn first(&self) -> Lines
        ensures { (h : Trace) → RecentStands self.now h → result ≡ asserted_back h 1 }
    {
        self.first
    }

    /// Whether the line is asserted one clock back.
    pub fn one_back(&self, line: Lines) -> bool
        requires { 0 < line.0 }
        ensures { (h : Trace) → RecentStands self.now h → result ≡ line_back line h (length h) 1 }
    {
        is_among(self.first, line)
    }

    /// Whether the line is asserted two clocks back.
    pub fn two_back(&self, line: Lines) -> bool
        requires { 0 < line.0 }
        ensures { (h : Trace) → RecentStands self.now h → result ≡ line_back line h (length h) 2 }
    {
        is_among(self.second, line)
    }

    /// Whether the line is asserted three clocks back.
    pub fn three_back(&self, line: Lines) -> bool
        requires { 0 < line.0 }
        ensures { (h : Trace) → RecentStands self.now h → result ≡ line_back line h (length h) 3 }
    {
        is_among(self.third, line)
    }

    /// The request that begins one clock back, whose second clock is this sample.
    #[tactic(auto, unfolding(crate::specs::Recent::request_by))]
    pub fn request(&self, sample: &Sample) -> Option<Request>
        ensures { result ≡ request_by self.now.words sample.now }
    {
        let second = known_pair(sample)?;
        decode(self.words?, second).ok()
    }

    /// Takes the sample of the next clock; its words where a request begins with it.
    pub fn absorb(&mut self, sample: &Sample)
        ensures { (h : Trace) → RecentStands self.old h →
            RecentStands self.new (h ++ sample.now ∷ []) }
    {
        self.third = self.second;
        self.second = self.first;
        self.first = sample.lines;
        if sample.has(Lines::ADS) {
            self.words = known_pair(sample);
        }
    }
}
