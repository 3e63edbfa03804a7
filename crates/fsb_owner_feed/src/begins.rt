//! The request that began at the last clock.

ghost use Rattle.std.specs.Prelude.{◌≡◌, ◌∷◌, ◌++◌, []};
ghost use Rattle.fsb_laws.specs.Orderly.{Orderly};
ghost use Rattle.fsb_trace.specs.At.{Trace};
ghost use Rattle.fsb_trace.specs.Requests.{seen_at};
ghost use Rattle.fsb_owner_table.specs.Rows.{row_at};
ghost use Rattle.fsb_owner_feed.specs.Begins.{IsLast, line_by, decoded_by};

use fsb_encode::{Request, decode};
use fsb_owner_table::{Row, begun_row};
use fsb_signal::Sample;
use fsb_trace::{Seen, Who, known_pair};

/// A request in its first clock.
#[derive(Clone, Copy, Debug, PartialEq, Eq)]
pub struct FirstClock {
    /// The winner of that clock; none where there is none.
    pub who: Option<Who>,
    /// The sample of that clock.
    pub first: Sample,
}

/// The request of two clocks with these samples, where they hold a lawful one.
#[tactic(auto, unfolding(crate::specs::Begins::decoded_by))]
fn decoded_by(first: &Sample, second: &Sample) -> Option<Request>
    ensures { result ≡ decoded_by first.now second.now }
{
    let first = known_pair(first)?;
    let second = known_pair(second)?;
    decode(first, second).ok()
}

/// The line that the winner names with the address word of this sample, if it is a symmetric agent.
#[tactic(auto, unfolding(crate::specs::Begins::line_by))]
fn line_by(who: Option<Who>, first: &Sample) -> Option<u64>
    ensures { result ≡ line_by who first.now }
{
    match who {
        Some(Who::Symmetric(_)) => Some(first.addr.bits / 4),
        _ => None,
    }
}

impl FirstClock {
    /// The request, where it is a lawful one with this sample in its second clock.
    pub fn request(&self, second: &Sample) -> Option<Request>
        ensures { result ≡ decoded_by self.now.first second.now }
    {
        decoded_by(&self.first, second)
    }

    /// The request as it is seen in its second clock, which has this sample.
    fn seen(&self, clock: u32, second: &Sample) -> Seen
        ensures { (h : Trace) → IsLast self.now clock h →
            result ≡ seen_at (h ++ second.now ∷ []) clock }
    {
        Seen {
            clock,
            who: self.who,
            request: decoded_by(&self.first, second),
            cancelled: false,
        }
    }

    /// The row of the request that began at this clock, in its second clock, which has this sample.
    pub fn row(&self, clock: u32, second: &Sample) -> Row
        ensures { (h : Trace) → IsLast self.now clock h → Orderly h →
            Orderly (h ++ second.now ∷ []) → result ≡ row_at (h ++ second.now ∷ []) clock }
    {
        begun_row(self.seen(clock, second), line_by(self.who, &self.first))
    }
}
