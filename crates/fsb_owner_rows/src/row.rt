//! What one row shows of its line.

ghost use Rattle.std.specs.Prelude.{◌≡◌, nat_eq};
ghost use Rattle.fsb_count.specs.Options.{is_at, is_before, is_some_and};
ghost use Rattle.fsb_trace.specs.Requests.{is_upgrade, is_write_back};
ghost use Rattle.fsb_owners.specs.Shown.{purpose_of};
ghost use Rattle.fsb_owner_rows.specs.OfRow.{is_row_open, is_row_outstanding, is_row_turned, is_row_between, row_agent, row_asks, row_asks_other, row_names, row_purpose};

use fsb_encode::{Kind, Request};
use fsb_line::Purpose;
use fsb_owner_table::Row;

/// Whether there is such a line, and it is this one.
#[tactic(auto, unfolding(fsb_count::specs::Options::is_at, fsb_count::specs::Options::is_some_and))]
fn is_line(line: Option<u64>, other: u64) -> bool
    ensures { result ≡ is_at line other }
{
    match line {
        Some(line) => line == other,
        None => false,
    }
}

/// Whether there is such an agent, and it is this one.
#[tactic(auto, unfolding(fsb_count::specs::Options::is_at, fsb_count::specs::Options::is_some_and))]
fn is_agent(agent: Option<u8>, other: u8) -> bool
    ensures { result ≡ is_at agent other }
{
    match agent {
        Some(agent) => agent == other,
        None => false,
    }
}

/// Whether there is such a clock, and it is this one.
#[tactic(auto, unfolding(fsb_count::specs::Options::is_at, fsb_count::specs::Options::is_some_and))]
pub fn is_at(clock: Option<u32>, other: u32) -> bool
    ensures { result ≡ is_at clock other }
{
    match clock {
        Some(clock) => clock == other,
        None => false,
    }
}

/// Whether there is such a clock, and it lies before this one.
#[tactic(auto, unfolding(fsb_count::specs::Options::is_before, fsb_count::specs::Options::is_some_and))]
pub fn is_before(clock: Option<u32>, other: u32) -> bool
    ensures { result ≡ is_before clock other }
{
    match clock {
        Some(clock) => clock < other,
        None => false,
    }
}

/// What a request of this kind asks of its line; a reply asks nothing of its own.
#[tactic(auto, unfolding(fsb_owners::specs::Shown::purpose_of))]
fn purpose_of(kind: Kind) -> Option<Purpose>
    ensures { result ≡ purpose_of kind }
{
    match kind {
        Kind::Reply => None,
        Kind::Invalidate => Some(Purpose::Own),
        Kind::Read => Some(Purpose::Read),
        Kind::WriteBack => Some(Purpose::WriteBack),
        Kind::Upgrade => Some(Purpose::Upgrade),
    }
}

/// Whether the request is an upgrade.
#[tactic(auto, unfolding(fsb_trace::specs::Requests::is_upgrade, fsb_trace::specs::Requests::is_upgrade_kind, fsb_count::specs::Options::is_some_and))]
fn is_upgrade_request(request: Option<Request>) -> bool
    ensures { result ≡ is_upgrade request }
{
    match request {
        Some(request) => match request.kind {
            Kind::Upgrade => true,
            Kind::Read | Kind::Invalidate | Kind::WriteBack | Kind::Reply => false,
        },
        None => false,
    }
}

/// Whether the request is a write-back.
#[tactic(auto, unfolding(fsb_trace::specs::Requests::is_write_back, fsb_trace::specs::Requests::is_write_back_kind, fsb_count::specs::Options::is_some_and))]
fn is_write_back_request(request: Option<Request>) -> bool
    ensures { result ≡ is_write_back request }
{
    match request {
        Some(request) => match request.kind {
            Kind::WriteBack => true,
            Kind::Read | Kind::Invalidate | Kind::Upgrade | Kind::Reply => false,
        },
        None => false,
    }
}

/// What the request asks of its line; none where it is not decoded, or is a reply.
pub fn purpose(row: &Row) -> Option<Purpose>
    ensures { result ≡ row_purpose row.now }
{
    match row.seen.request {
        Some(request) => purpose_of(request.kind),
        None => None,
    }
}

/// Whether the request names the line; a reply names none.
pub fn names(row: &Row, line: u64) -> bool
    ensures { result ≡ row_names line row.now }
{
    is_line(row.line, line) && !row.is_reply()
}

/// Whether the request is the agent's, and names the line.
pub fn asks(row: &Row, line: u64, agent: u8) -> bool
    ensures { result ≡ row_asks line agent row.now }
{
    names(row, line) && is_agent(row.agent(), agent)
}

/// Whether the request names the line, and is another agent's.
pub fn is_others(row: &Row, line: u64, agent: u8) -> bool
    ensures { result ≡ row_asks_other line agent row.now }
{
    names(row, line) && !is_agent(row.agent(), agent)
}

/// Whether the request is an upgrade.
pub fn is_upgrade(row: &Row) -> bool
    ensures { result ≡ is_upgrade row.now.seen.request }
{
    is_upgrade_request(row.seen.request)
}

/// Whether the request is a write-back.
pub fn is_write_back(row: &Row) -> bool
    ensures { result ≡ is_write_back row.now.seen.request }
{
    is_write_back_request(row.seen.request)
}

/// Whether the request is outstanding at the clock.
pub fn is_outstanding(row: &Row, clock: u32) -> bool
    ensures { result ≡ is_row_outstanding clock row.now }
{
    row.seen.clock < clock && !row.is_reply() && !row.is_closed(clock)
}

/// Whether the request is in flight at the clock, and has no snoop end before it.
pub fn is_open(row: &Row, clock: u32) -> bool
    ensures { result ≡ is_row_open clock row.now }
{
    row.seen.clock < clock && !row.has_left(clock) && !row.is_snooped_before(clock)
}

/// Whether the request is turned away at its snoop end, to be made again or to be answered later.
#[tactic(auto, unfolding(fsb_count::specs::Options::is_some_and))]
pub fn is_turned(row: &Row) -> bool
    ensures { result ≡ is_row_turned row.now }
{
    match row.snoop {
        Some(snoop) => snoop.defer && !snoop.hitm,
        None => false,
    }
}

/// Whether the request has its snoop end at the clock.
#[tactic(auto, unfolding(fsb_count::specs::Options::is_some_and))]
pub fn is_snooped_at(row: &Row, clock: u32) -> bool
    ensures { result ≡ is_some_and row.now.snoop (λ s. nat_eq s.clock clock) }
{
    match row.snoop {
        Some(snoop) => snoop.clock == clock,
        None => false,
    }
}

/// Whether the request has its snoop end before the clock, and its end is not.
pub fn is_between(row: &Row, clock: u32) -> bool
    ensures { result ≡ is_row_between clock row.now }
{
    row.is_snooped_before(clock) && !is_before(row.end, clock)
}
