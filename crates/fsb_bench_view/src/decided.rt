use crate::beginning::Starting;
use crate::snoop::{Served, SnoopSettled};
use fsb_agent_view::Want;
use fsb_bridge::Deferral;
use fsb_phase::Drive;
use fsb_queue::Entry;
use fsb_trace::Outcome;

/// Where the bytes come from that move with a response.
#[derive(Clone, Copy, Debug, PartialEq, Eq)]
pub enum BytesFrom {
    /// From memory: those of this line.
    Memory(u64),
    /// From the agent that owes them to the transaction of this number.
    Agents(u32),
}

/// What is asked for at a clock.
#[derive(Clone, Copy, Debug, PartialEq, Eq)]
pub struct AskedFor {
    /// What each agent wants.
    pub wants: [Option<Want>; 4],
    /// The first deferral whose reply is due.
    pub due: Option<Deferral>,
}

/// What is decided at a clock before its sample is made.
#[derive(Clone, Copy, Debug, PartialEq, Eq)]
pub struct Decided {
    /// Whether BNR# is asked for.
    pub hold: bool,
    /// What the phases drive.
    pub drive: Drive,
    pub asked: AskedFor,
    /// The request that begins.
    pub starting: Option<Starting>,
    /// The request that an address error cancels.
    pub cancelled: Option<Entry>,
    /// The snoop end that the clock is.
    pub snooped: Option<SnoopSettled>,
}

/// The end of the oldest request in flight.
#[derive(Clone, Copy, Debug, PartialEq, Eq)]
pub struct Ending {
    /// The request that it serves.
    pub served: Served,
    /// Its settled outcome.
    pub outcome: Outcome,
}
