//! The line of the request that fails hard at a clock.

ghost use Rattle.std.specs.Prelude.{◌≡◌, ℕ};
ghost use Rattle.fsb_count.specs.Options.{is_at, is_some_and};
ghost use Rattle.fsb_trace.specs.At.{Trace};
ghost use Rattle.fsb_owners.specs.Shown.{is_failure, is_for_line};
ghost use Rattle.fsb_owner_rows.specs.Kept.{AreKeptAt};
ghost use Rattle.fsb_owner_fails.specs.Fails.{IsAnswered, fails_at, is_row_failed};

use fsb_owner_rows::{answered_at, named_line, origin_of};
use fsb_owner_table::Row;
use fsb_trace::Outcome;

/// Whether the request of the row failed hard.
#[tactic(auto, unfolding(fsb_count::specs::Options::is_some_and, fsb_owners::specs::Shown::is_failure))]
fn is_failed(row: &Row) -> bool
    ensures { result ≡ is_row_failed row.now }
{
    match row.outcome {
        Some(Outcome::Failed) => true,
        _ => false,
    }
}

/// The line that the request of the row names, or of a reply the one that it answers.
fn line_for(rows: &[Row], row: &Row) -> Option<u64>
    ensures { (v : Trace) (c j q line : ℕ) → AreKeptAt rows.now v c → IsAnswered v c j q row.now →
        is_at result line ≡ is_for_line v line j }
{
    match origin_of(rows, row) {
        Some(origin) => named_line(&origin),
        None => None,
    }
}

/// The line of the request that responds so, where it fails hard.
fn failed_by(rows: &[Row], row: &Row) -> Option<u64>
    ensures { (v : Trace) (c j q line : ℕ) → AreKeptAt rows.now v c → IsAnswered v c j q row.now →
        is_at result line ≡ fails_at v c line }
{
    if is_failed(row) {
        line_for(rows, row)
    } else {
        None
    }
}

/// The line of which a request, or the reply to one, fails hard at the clock, if there is one.
pub fn failed_at(rows: &[Row], clock: u32) -> Option<u64>
    ensures { (v : Trace) (line : ℕ) → AreKeptAt rows.now v clock →
        is_at result line ≡ fails_at v clock line }
{
    match answered_at(rows, clock) {
        Some(row) => failed_by(rows, &row),
        None => None,
    }
}
