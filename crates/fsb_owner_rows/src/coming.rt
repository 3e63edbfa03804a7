//! Whose bytes are under way, and who may drop a copy.

ghost use Rattle.std.specs.Prelude.{◌≡◌, ◌+◌, ◌<◌, ℕ, true, false, length};
ghost use Rattle.std.specs.List.{list_any};
ghost use Rattle.std.specs.Option.{option_map};
ghost use Rattle.fsb_count.specs.Options.{is_before, is_some_and};
ghost use Rattle.fsb_line.specs.States.{gets_line};
ghost use Rattle.fsb_trace.specs.At.{Trace};
ghost use Rattle.fsb_trace.specs.Requests.{is_live, live_number_of};
ghost use Rattle.fsb_trace.specs.Response.{end_of};
ghost use Rattle.fsb_owners.specs.Shown.{is_coming, is_upgrading, may_drop_at, origin_clock_of};
ghost use Rattle.fsb_owner_table.specs.Rows.{reached, row_at};
ghost use Rattle.fsb_owner_rows.specs.Kept.{AreKeptAt};
ghost use Rattle.fsb_owner_rows.specs.OfRow.{answered_by, row_brings, row_comes, row_origin, row_upgrades};

use crate::row::{
    asks, is_at, is_between, is_outstanding, is_turned, is_upgrade, is_write_back, purpose,
};
use fsb_line::Purpose;
use fsb_owner_table::Row;

/// The first row whose live reply began at the clock.
fn answered_by(rows: &[Row], reply: u32) -> Option<Row>
    ensures { result ≡ answered_by rows.now reply }
{
    rows.iter().copied().find(|row| is_at(row.reply, reply))
}

/// The row of the request that counts at this one: of a reply the first that it answers, else itself.
fn origin_row(rows: &[Row], row: &Row) -> Option<Row>
    ensures { result ≡ row_origin rows.now row.now }
{
    if row.is_reply() {
        answered_by(rows, row.seen.clock)
    } else {
        Some(*row)
    }
}

/// The row of the request that counts at this one, which is live and has no end before one of the last three clocks:
/// of a reply the first that it answers, else itself.
pub fn origin_of(rows: &[Row], row: &Row) -> Option<Row>
    ensures { (v : Trace) (c q : ℕ) → AreKeptAt rows.now v c → row.now ≡ row_at v q →
        is_live v q ≡ true → is_before (reached end_of v q) c ≡ false →
        result ≡ option_map (row_at v) (origin_clock_of v (live_number_of v q)) }
{
    origin_row(rows, row)
}

/// Whether a request that asks so is to have the bytes of its line from memory.
#[tactic(auto, unfolding(fsb_count::specs::Options::is_some_and))]
fn gets_line(purpose: Option<Purpose>) -> bool
    ensures { result ≡ is_some_and purpose gets_line }
{
    match purpose {
        Some(Purpose::Read | Purpose::Own) => true,
        Some(Purpose::Upgrade | Purpose::WriteBack) => false,
        None => false,
    }
}

/// Whether the request of the row, of which this one counts, is to have the bytes of its line.
fn brings_bytes(row: &Row, origin: &Row) -> bool
    ensures { result ≡ row_brings row.now origin.now }
{
    row.is_reply()
        || (row.is_handed() && !is_write_back(row))
        || (!is_turned(row) && gets_line(purpose(origin)))
}

/// Whether bytes of the line are under way to the agent at the clock, by the request of this row.
#[tactic(auto, unfolding(fsb_count::specs::Options::is_some_and))]
fn is_coming_by(rows: &[Row], row: &Row, line: u64, agent: u8, clock: u32) -> bool
    ensures { result ≡ row_comes rows.now line agent clock row.now }
{
    match origin_row(rows, row) {
        Some(origin) => {
            asks(&origin, line, agent) && brings_bytes(row, &origin) && is_between(row, clock)
        }
        None => false,
    }
}

/// Whether bytes of the line are under way to the agent at the clock, by the request of some row.
fn some_coming(rows: &[Row], line: u64, agent: u8, clock: u32) -> bool
    ensures { result ≡ list_any (row_comes rows.now line agent clock) rows.now }
{
    rows.iter()
        .any(|row| is_coming_by(rows, row, line, agent, clock))
}

/// Whether bytes of the line are under way to the agent at the clock: the snoop end lies before it, and the end does not.
pub fn is_coming(rows: &[Row], line: u64, agent: u8, clock: u32) -> bool
    ensures { (v : Trace) → AreKeptAt rows.now v clock → result ≡ is_coming v line agent clock }
{
    some_coming(rows, line, agent, clock)
}

/// Whether the row is of an upgrade of the line by the agent, and the clock lies from its first clock to its last one as
/// outstanding.
fn is_upgrading_by(row: &Row, line: u64, agent: u8, clock: u32) -> bool
    ensures { result ≡ row_upgrades line agent clock row.now }
{
    asks(row, line, agent)
        && is_upgrade(row)
        && (row.seen.clock == clock || is_outstanding(row, clock))
}

/// Whether a row is of an upgrade of the line by the agent that is under way at the clock.
fn some_upgrading(rows: &[Row], line: u64, agent: u8, clock: u32) -> bool
    ensures { result ≡ list_any (row_upgrades line agent clock) rows.now }
{
    rows.iter()
        .any(|row| is_upgrading_by(row, line, agent, clock))
}

/// Whether the clock, which is not the last one, lies from the first clock of an upgrade of the line by the agent to its last
/// clock as outstanding.
pub fn is_upgrading(rows: &[Row], line: u64, agent: u8, clock: u32) -> bool
    ensures { (v : Trace) → AreKeptAt rows.now v clock → clock + 1 < length v →
        result ≡ is_upgrading v line agent clock }
{
    some_upgrading(rows, line, agent, clock)
}

/// Whether the agent may drop a clean copy of the line at the clock, which the other one follows.
#[tactic(auto, unfolding(fsb_owners::specs::Shown::may_drop_at))]
pub fn may_drop(rows: &[Row], line: u64, agent: u8, clock: u32, next: u32) -> bool
    ensures { (v : Trace) → AreKeptAt rows.now v clock → AreKeptAt rows.now v next →
        next ≡ clock + 1 → result ≡ may_drop_at v line clock agent }
{
    !is_coming(rows, line, agent, clock)
        && !is_coming(rows, line, agent, next)
        && !is_upgrading(rows, line, agent, clock)
}
