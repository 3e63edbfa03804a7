//! What the wires show of a line at one clock, and what it makes of the joint states of the line.

ghost use Rattle.std.specs.Prelude.{◌≡◌, ℕ};
ghost use Rattle.fsb_trace.specs.At.{Trace};
ghost use Rattle.fsb_owners.specs.Possible.{after_answer, after_begin, after_snoop_end, after_unseen};
ghost use Rattle.fsb_joint.specs.LineClock.{BegunByOne, EndedByOne, begun_at, droppable_at, ended_at, ready_at};
ghost use Rattle.fsb_joint.specs.Sets.{joints_of};

use crate::set::JointSet;
use fsb_line::Purpose;

/// A request that begins.
#[derive(Clone, Copy, Debug, PartialEq, Eq)]
pub struct Begun {
    /// Its agent, 0 to 3.
    pub agent: u8,
    /// What it asks.
    pub kind: Purpose,
}

/// The snoop end of a request, or of the reply to one.
#[derive(Clone, Copy, Debug, PartialEq, Eq)]
pub struct SnoopEnd {
    /// The agent that asked, 0 to 3.
    pub asker: u8,
    /// What it asked.
    pub kind: Purpose,
    /// Whether it is a reply.
    pub is_reply: bool,
    /// HIT#.
    pub hit: bool,
    /// HITM#.
    pub hitm: bool,
    /// Whether the request is turned away, to be made again or to be answered later.
    pub turned: bool,
}

impl JointSet {
    /// What is left with the request for the line that begins at the clock, if one does.
    pub fn after_begin(self, begun: Option<Begun>) -> JointSet
        requires { BegunByOne begun }
        ensures { (v : Trace) (line c : ℕ) → begun ≡ begun_at v line c →
            joints_of result ≡ after_begin v line c (joints_of self) }
    {
        match begun {
            Some(request) => self.asking(request.agent, request.kind),
            None => self,
        }
    }

    /// What is left with the snoop end for the line at the clock, if there is one; a reply leaves all.
    pub fn after_answer(self, ended: Option<SnoopEnd>) -> JointSet
        requires { EndedByOne ended }
        ensures { (v : Trace) (line c : ℕ) → ended ≡ ended_at v line c →
            joints_of result ≡ after_answer v line c (joints_of self) }
    {
        match ended {
            None => self,
            Some(end) => {
                if end.is_reply {
                    self
                } else {
                    self.showing(end.hit, end.hitm, end.asker, end.kind)
                }
            }
        }
    }

    /// What the snoop end for the line at the clock, if there is one, turns these into.
    pub fn after_snoop_end(self, ended: Option<SnoopEnd>) -> JointSet
        requires { EndedByOne ended }
        ensures { (v : Trace) (line c : ℕ) → ended ≡ ended_at v line c →
            joints_of result ≡ after_snoop_end v line c (joints_of self) }
    {
        match ended {
            None => self,
            Some(end) => {
                if end.is_reply {
                    self.replied(end.hit, end.asker, end.kind)
                } else {
                    self.snooped(end.hit, end.hitm, end.turned, end.asker, end.kind)
                }
            }
        }
    }

    /// What stores and drops that nobody sees make of these at the clock: by agents whose bytes have come, and by agents that
    /// wait for nothing on the line.
    pub fn after_unseen(self, ready: [bool; 4], may_drop: [bool; 4]) -> JointSet
        ensures { (v : Trace) (line c : ℕ) → ready ≡ ready_at v line c →
            may_drop ≡ droppable_at v line c →
            joints_of result ≡ after_unseen v line c (joints_of self) }
    {
        self.stored(ready).dropped(may_drop)
    }
}
