//! The request that begins at a clock.

ghost use Rattle.std.specs.Prelude.{◌≡◌, ◌+◌, ◌<◌, ℕ, true, length};
ghost use Rattle.std.specs.Option.{option_map};
ghost use Rattle.fsb_signal.specs.declared.lines.TheConstants.Lines.{ADS};
ghost use Rattle.fsb_signal.specs.Samples.{line_at};
ghost use Rattle.fsb_trace.specs.At.{Trace};
ghost use Rattle.fsb_owners.specs.Shown.{agent_at};
ghost use Rattle.fsb_owner_table.specs.Rows.{row_at};
ghost use Rattle.fsb_owner_rows.specs.Kept.{AreKeptAt};
ghost use Rattle.fsb_owner_judge.specs.Sights.{AsksAsOne, asking_at, asking_of};
ghost use Rattle.fsb_owner_sights.specs.Agents.{IsOneOfFour};

use fsb_owner_judge::Asking;
use fsb_owner_rows::{begun_at, is_held_back, is_still_asking, named_line, purpose};
use fsb_owner_table::Row;

/// The agent, where it is one of four.
fn one_of_four(agent: Option<u8>) -> Option<u8>
    ensures one { IsOneOfFour result }
    ensures same { IsOneOfFour agent → result ≡ agent }
{
    match agent {
        Some(agent) => { if agent < 4 { Some(agent) } else { None } }
        None => None,
    }
}

/// The agent of the request, 0 to 3, where that is a symmetric one.
pub fn known_agent(row: &Row) -> Option<u8>
    ensures one { IsOneOfFour result }
    ensures traced { (v : Trace) (q : ℕ) → row.now ≡ row_at v q → result ≡ agent_at v q }
{
    one_of_four(row.agent())
}

/// The request of the row, by this agent for this line.
#[tactic(auto, using(crate::proofs::AskingRows::purpose_row), unfolding(fsb_owner_judge::specs::Sights::asking_of))]
fn asking_of(rows: &[Row], row: &Row, line: u64, agent: u8, clock: u32) -> Asking
    ensures agent { result.agent ≡ agent }
    ensures traced { (v : Trace) → AreKeptAt rows.now v clock → row.now ≡ row_at v clock →
        result ≡ asking_of v clock line agent }
{
    Asking {
        line,
        agent,
        kind: purpose(row),
        is_asked_twice: is_still_asking(rows, line, agent, clock),
        is_held_back: is_held_back(rows, line, agent, clock),
    }
}

/// The request of the row, which names this line.
fn asking_for(rows: &[Row], row: &Row, line: u64, clock: u32) -> Option<Asking>
    ensures one { AsksAsOne result }
    ensures traced { (v : Trace) → AreKeptAt rows.now v clock → row.now ≡ row_at v clock →
        result ≡ option_map (asking_of v clock line) (agent_at v clock) }
{
    match known_agent(row) {
        Some(agent) => Some(asking_of(rows, row, line, agent, clock)),
        None => None,
    }
}

/// The request of the row, where it names a line.
fn asking_by(rows: &[Row], row: &Row, clock: u32) -> Option<Asking>
    ensures one { AsksAsOne result }
    ensures traced { (v : Trace) → AreKeptAt rows.now v clock → row.now ≡ row_at v clock →
        line_at ADS v clock ≡ true → result ≡ asking_at v clock }
{
    match named_line(row) {
        Some(line) => asking_for(rows, row, line, clock),
        None => None,
    }
}

/// The request that begins at the clock, which is not the last one, where it names a line.
pub fn asking_at(rows: &[Row], clock: u32) -> Option<Asking>
    ensures one { AsksAsOne result }
    ensures traced { (v : Trace) → AreKeptAt rows.now v clock → clock + 1 < length v →
        result ≡ asking_at v clock }
{
    match begun_at(rows, clock) {
        Some(row) => asking_by(rows, &row, clock),
        None => None,
    }
}
