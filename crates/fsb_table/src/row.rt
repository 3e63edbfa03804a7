ghost use Rattle.std.specs.Prelude.{◌≡◌};
ghost use Rattle.fsb_table.specs.Rows.{cancelled_row};

use fsb_trace::{Outcome, Seen};

/// A request of a trace, with the numbers that are reached in it. A cancelled request has none of
/// them.
#[derive(Clone, Copy, Debug, PartialEq, Eq)]
pub struct Row {
    /// The request as the trace shows it.
    pub seen: Seen,
    /// The clock of its snoop end.
    pub snoop: Option<u32>,
    /// The clock of its response.
    pub response: Option<u32>,
    /// The clock of its end: of its fourth chunk where data move, and else of its response.
    pub end: Option<u32>,
    /// The outcome that its response tells.
    pub outcome: Option<Outcome>,
}

/// The row of a cancelled request.
#[tactic(auto, unfolding(crate::specs::Rows::cancelled_row))]
pub fn cancelled_row(seen: Seen) -> Row
    ensures { result ≡ cancelled_row seen }
{
    Row {
        seen,
        snoop: None,
        response: None,
        end: None,
        outcome: None,
    }
}
