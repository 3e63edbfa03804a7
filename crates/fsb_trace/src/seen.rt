use crate::who::Who;
use fsb_encode::Request;

/// A request as a trace shows it.
#[derive(Clone, Copy, Debug, PartialEq, Eq)]
pub struct Seen {
    /// Its first clock, a clock with ADS#.
    pub clock: u32,
    /// The winner of that clock; none where there is none.
    pub who: Option<Who>,
    /// The lawful request of its two clocks; none where they hold no such request.
    pub request: Option<Request>,
    /// Whether AERR# stands at the third clock after its first clock.
    pub cancelled: bool,
}
