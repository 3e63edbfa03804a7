use fsb_encode::Request;
use fsb_hazard::Choice;
use fsb_trace::{Outcome, Who};

/// A request in flight.
#[derive(Clone, Copy, Debug, PartialEq, Eq)]
pub struct Entry {
    /// Its number among all requests, from 0; one that is cancelled counts.
    pub number: u32,
    /// Its first clock.
    pub clock: u32,
    /// The agent that began it.
    pub who: Who,
    pub request: Request,
    /// What the hazards chose for it.
    pub choice: Choice,
    /// Its settled outcome, from its snoop end on.
    pub outcome: Option<Outcome>,
}
