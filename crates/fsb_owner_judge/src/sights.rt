//! What the wires show at one clock.

ghost use Rattle.std.specs.Prelude.{◌≡◌};
ghost use Rattle.fsb_owner_judge.specs.Sights.{begun_for, begun_of, end_of_line, ended_for, is_of_write_back_end};

use fsb_joint::{Begun, SnoopEnd};
use fsb_line::Purpose;

/// A request that names a line, told in its second clock.
#[derive(Clone, Copy, Debug, PartialEq, Eq)]
pub struct Asking {
    /// The line.
    pub line: u64,
    /// Its agent, 0 to 3.
    pub agent: u8,
    /// What it asks; none where the request is not decoded.
    pub kind: Option<Purpose>,
    /// Whether an earlier request of its agent for the line was outstanding when it began.
    pub is_asked_twice: bool,
    /// Whether a request of another agent for the line was open when it began.
    pub is_held_back: bool,
}

/// The snoop end of a request that names a line, or of the reply to one.
#[derive(Clone, Copy, Debug, PartialEq, Eq)]
pub struct LineEnd {
    /// The line.
    pub line: u64,
    /// The agent that asked, 0 to 3.
    pub asker: u8,
    /// What it asked; none where its request is not decoded.
    pub kind: Option<Purpose>,
    /// Whether it is a reply.
    pub is_reply: bool,
    /// HIT#.
    pub hit: bool,
    /// HITM#.
    pub hitm: bool,
    /// Whether the request is turned away, to be made again or to be answered later.
    pub turned: bool,
    /// Whether HIT# is another than at the snoop end of the request that counts: of a reply the one that it answers.
    pub is_hit_wrong: bool,
}

/// A line on which somebody waits.
#[derive(Clone, Copy, Debug, PartialEq, Eq)]
pub struct Waiting {
    /// The line.
    pub line: u64,
    /// For each agent whether no bytes of the line are under way to it.
    pub ready: [bool; 4],
    /// For each agent whether it may drop a clean copy.
    pub may_drop: [bool; 4],
}

impl Asking {
    /// The request as it counts for its line.
    #[tactic(auto, unfolding(crate::specs::Sights::begun_of))]
    fn begun(&self) -> Option<Begun>
        ensures { result ≡ begun_of self.now }
    {
        match self.kind {
            Some(kind) => Some(Begun {
                agent: self.agent,
                kind,
            }),
            None => None,
        }
    }
}

/// The request as it counts for this line.
#[tactic(auto, unfolding(crate::specs::Sights::begun_for))]
pub fn begun_for(line: u64, asking: Option<Asking>) -> Option<Begun>
    ensures { result ≡ begun_for line asking }
{
    match asking {
        Some(asking) if asking.line == line => asking.begun(),
        _ => None,
    }
}

impl LineEnd {
    /// The snoop end as it counts for its line.
    #[tactic(auto, unfolding(crate::specs::Sights::end_of_line))]
    pub fn snoop_end(&self) -> Option<SnoopEnd>
        ensures { result ≡ end_of_line self.now }
    {
        match self.kind {
            Some(kind) => Some(SnoopEnd {
                asker: self.asker,
                kind,
                is_reply: self.is_reply,
                hit: self.hit,
                hitm: self.hitm,
                turned: self.turned,
            }),
            None => None,
        }
    }

    /// Whether it is the snoop end of a write-back.
    #[tactic(auto, unfolding(crate::specs::Sights::is_of_write_back_end, fsb_count::specs::Options::is_some_and, fsb_owners::specs::Rules::is_write_back_purpose))]
    pub fn is_of_write_back(&self) -> bool
        ensures { result ≡ is_of_write_back_end self.now }
    {
        match self.kind {
            Some(Purpose::WriteBack) => !self.is_reply,
            _ => false,
        }
    }
}

/// The snoop end as it counts for this line.
#[tactic(auto, unfolding(crate::specs::Sights::ended_for))]
pub fn ended_for(line: u64, end: Option<LineEnd>) -> Option<SnoopEnd>
    ensures { result ≡ ended_for line end }
{
    match end {
        Some(end) if end.line == line => end.snoop_end(),
        _ => None,
    }
}
