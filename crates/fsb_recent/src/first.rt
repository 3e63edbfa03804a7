//! The request that began at the last clock of a trace.

ghost use Rattle.std.specs.Prelude.{◌≡◌, length};
ghost use Rattle.fsb_laws.specs.Orderly.{Orderly};
ghost use Rattle.fsb_trace.specs.At.{Trace};
ghost use Rattle.fsb_owner_table.specs.Rows.{row_at};
ghost use Rattle.fsb_owner_feed.specs.Begins.{IsLast, SaysBegins, line_by};
ghost use Rattle.fsb_recent.specs.Over.{last_begun};

use fsb_owner_feed::FirstClock;
use fsb_owner_table::Row;
use fsb_signal::Sample;
use fsb_trace::{Seen, Who};

/// The line that the winner names with the address word of this sample, if it is a symmetric agent.
#[tactic(auto, unfolding(fsb_owner_feed::specs::Begins::line_by))]
fn line_by(who: Option<Who>, first: &Sample) -> Option<u64>
    ensures { result ≡ line_by who first.now }
{
    match who {
        Some(Who::Symmetric(_)) => Some(first.addr.bits / 4),
        _ => None,
    }
}

/// The row of the request in its first clock, which is this one.
fn first_row(begins: &FirstClock, clock: u32) -> Row
    ensures { (h : Trace) → IsLast begins.now clock h → Orderly h → result ≡ row_at h clock }
{
    Row {
        seen: Seen {
            clock,
            who: begins.who,
            request: None,
            cancelled: false,
        },
        line: line_by(begins.who, &begins.first),
        snoop: None,
        response: None,
        outcome: None,
        end: None,
        reply: None,
        reply_snoop: None,
        reply_end: None,
    }
}

/// The row of the request that began at the last of so many clocks, if one did.
pub(crate) fn last_begun(begins: Option<FirstClock>, clocks: u32) -> Option<Row>
    ensures { (h : Trace) → SaysBegins begins h → Orderly h → clocks ≡ length h →
        result ≡ last_begun h }
{
    match begins {
        Some(begins) => Some(first_row(&begins, clocks.saturating_sub(1))),
        None => None,
    }
}
