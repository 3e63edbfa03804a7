//! The snoop end at a clock.

ghost use Rattle.std.specs.Prelude.{◌≡◌, ℕ, if◌then◌else◌, not};
ghost use Rattle.std.specs.Option.{option_and_then, option_map};
ghost use Rattle.fsb_count.specs.Options.{is_some_and};
ghost use Rattle.fsb_trace.specs.At.{Trace};
ghost use Rattle.fsb_owners.specs.Shown.{agent_at, origin_clock_of};
ghost use Rattle.fsb_owner_rows.specs.Kept.{AreKeptAt};
ghost use Rattle.fsb_owner_judge.specs.Sights.{EndsAsOne, line_end_at, line_end_by, line_end_of};
ghost use Rattle.fsb_owner_sights.specs.Ends.{IsOrigin, IsSnooped};

use crate::asking::known_agent;
use fsb_owner_judge::LineEnd;
use fsb_owner_rows::{is_turned, named_line, origin_of, purpose, snooped_at};
use fsb_owner_table::Row;

/// Whether HIT# is asserted at the snoop end.
#[tactic(auto, unfolding(fsb_count::specs::Options::is_some_and))]
fn is_hit(row: &Row) -> bool
    ensures { result ≡ is_some_and row.now.snoop (λ s. s.hit) }
{
    match row.snoop {
        Some(snoop) => snoop.hit,
        None => false,
    }
}

/// Whether HIT# is another at the snoop end of the first row than at that of the second one.
fn is_hit_other(row: &Row, origin: &Row) -> bool
    ensures { result
        ≡ (if is_some_and origin.now.snoop (λ s. s.hit) then not (is_some_and row.now.snoop (λ s. s.hit))
        else is_some_and row.now.snoop (λ s. s.hit)) }
{
    if is_hit(origin) {
        !is_hit(row)
    } else {
        is_hit(row)
    }
}

/// The snoop end of the row, where this agent's request for this line counts.
fn line_end_of(row: &Row, origin: &Row, line: u64, agent: u8) -> LineEnd
    ensures asker { result.asker ≡ agent }
    ensures traced { (v : Trace) (c j q p : ℕ) → IsOrigin v c j q p row.now origin.now →
        result ≡ line_end_of v c j p line agent }
{
    LineEnd {
        line,
        asker: agent,
        kind: purpose(origin),
        is_reply: row.is_reply(),
        hit: is_hit(row),
        hitm: row.is_handed(),
        turned: is_turned(row),
        is_hit_wrong: is_hit_other(row, origin),
    }
}

/// The snoop end of the row, where the request that counts names this line.
fn line_end_for(row: &Row, origin: &Row, line: u64) -> Option<LineEnd>
    ensures one { EndsAsOne result }
    ensures traced { (v : Trace) (c j q p : ℕ) → IsOrigin v c j q p row.now origin.now →
        result ≡ option_map (line_end_of v c j p line) (agent_at v p) }
{
    match known_agent(origin) {
        Some(agent) => Some(line_end_of(row, origin, line, agent)),
        None => None,
    }
}

/// The snoop end of the row, where the request that counts names a line.
fn line_end_by(row: &Row, origin: &Row) -> Option<LineEnd>
    ensures one { EndsAsOne result }
    ensures traced { (v : Trace) (c j q p : ℕ) → IsOrigin v c j q p row.now origin.now →
        result ≡ line_end_by v c j p }
{
    match named_line(origin) {
        Some(line) => line_end_for(row, origin, line),
        None => None,
    }
}

/// The snoop end of the row, where its request names a line, or answers one that does.
fn line_end_with(rows: &[Row], row: &Row) -> Option<LineEnd>
    ensures one { EndsAsOne result }
    ensures traced { (v : Trace) (c j q : ℕ) → AreKeptAt rows.now v c →
        IsSnooped v c j q row.now →
        result ≡ option_and_then (line_end_by v c j) (origin_clock_of v j) }
{
    match origin_of(rows, row) {
        Some(origin) => line_end_by(row, &origin),
        None => None,
    }
}

/// The snoop end at the clock, where its request names a line, or answers one that does.
pub fn line_end_at(rows: &[Row], clock: u32) -> Option<LineEnd>
    ensures one { EndsAsOne result }
    ensures traced { (v : Trace) → AreKeptAt rows.now v clock → result ≡ line_end_at v clock }
{
    match snooped_at(rows, clock) {
        Some(row) => line_end_with(rows, &row),
        None => None,
    }
}
