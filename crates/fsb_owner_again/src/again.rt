//! Two requests for one line, of which the first is deferred.

ghost use Rattle.std.specs.Prelude.{◌≡◌, ◌&&◌, ◌||◌, ℕ, List, length, nat_lt, not, is_some};
ghost use Rattle.std.specs.List.{list_any};
ghost use Rattle.fsb_count.specs.Options.{is_at, is_before, is_some_and};
ghost use Rattle.fsb_line.specs.States.{asks_line};
ghost use Rattle.fsb_signal.specs.declared.sample.Sample.{Sample};
ghost use Rattle.fsb_trace.specs.At.{Trace};
ghost use Rattle.fsb_owners.specs.Joint.{Joint};
ghost use Rattle.fsb_owners.specs.Rules.{is_given_again};
ghost use Rattle.fsb_owner_table.specs.declared.row.Row.{Row};
ghost use Rattle.fsb_owner_table.specs.RowAfter.{is_row_deferred};
ghost use Rattle.fsb_owner_again.specs.Pairs.{KnowsPast, asks_between, has_judged_line, is_given_to, is_row_served, is_spoiled_now, row_given, row_asks_line};

use fsb_line::Purpose;
use fsb_owner_judge::OwnerJudge;
use fsb_owner_rows::{named_line, names, purpose};
use fsb_owner_table::{Row, Snooped};

/// Whether the line is the one that fails with the sample, or was spoiled before.
#[tactic(auto, unfolding(fsb_count::specs::Options::is_at, fsb_count::specs::Options::is_some_and))]
fn is_spoiled_now(judge: &OwnerJudge, failed: Option<u64>, line: u64) -> bool
    ensures { result ≡ is_spoiled_now judge.now failed line }
{
    match failed {
        Some(failed) => failed == line || judge.is_spoiled(line),
        None => judge.is_spoiled(line),
    }
}

/// Whether the reply to the request of the row has its snoop end before the clock.
#[tactic(auto, unfolding(fsb_count::specs::Options::is_before, fsb_count::specs::Options::is_some_and))]
fn is_answered_before(row: &Row, clock: u32) -> bool
    ensures { result ≡ is_before row.now.reply_snoop clock }
{
    match row.reply_snoop {
        Some(reply) => reply < clock,
        None => false,
    }
}

/// Whether the first row has its snoop end before that of the second one, and its reply has it not.
fn is_between(row: &Row, snoop: &Snooped, other: &Snooped) -> bool
    ensures { result ≡ (nat_lt snoop.now.clock other.now.clock
        && not (is_before row.now.reply_snoop other.now.clock)) }
{
    snoop.clock < other.clock && !is_answered_before(row, other.clock)
}

/// Whether the second row has its snoop end between that of the first one and that of its reply.
#[tactic(auto, unfolding(fsb_count::specs::Options::is_some_and))]
fn asks_between(row: &Row, other: &Row) -> bool
    ensures { result ≡ asks_between row.now other.now }
{
    match row.snoop {
        Some(snoop) => match other.snoop {
            Some(late) => is_between(row, &snoop, &late),
            None => false,
        },
        None => false,
    }
}

/// Whether the row names a line by a symmetric agent that is not spoiled, and the other one names it too.
#[tactic(auto, unfolding(fsb_count::specs::Options::is_some_and))]
fn has_judged_line(judge: &OwnerJudge, failed: Option<u64>, row: &Row, other: &Row) -> bool
    ensures { result ≡ has_judged_line (is_spoiled_now judge.now failed) row.now other.now }
{
    match named_line(row) {
        Some(line) => {
            !is_spoiled_now(judge, failed, line) && row.agent().is_some() && names(other, line)
        }
        None => false,
    }
}

/// Whether the request of the row asks for its line.
#[tactic(auto, unfolding(fsb_count::specs::Options::is_some_and, fsb_line::specs::States::asks_line))]
fn asks_line(row: &Row) -> bool
    ensures { result ≡ row_asks_line row.now }
{
    match purpose(row) {
        Some(Purpose::Read | Purpose::Own | Purpose::Upgrade) => true,
        Some(Purpose::WriteBack) => false,
        None => false,
    }
}

/// Whether neither DEFER# nor HITM# is asserted at the snoop end of the row, or it is Deferred.
#[tactic(auto, unfolding(fsb_count::specs::Options::is_some_and))]
fn is_served(row: &Row) -> bool
    ensures { result ≡ is_row_served row.now }
{
    match row.snoop {
        Some(snoop) => (!snoop.defer && !snoop.hitm) || row.is_deferred(),
        None => true,
    }
}

/// Whether the line of the first row, which is deferred, is given to the second one.
fn is_given_to(judge: &OwnerJudge, failed: Option<u64>, row: &Row, other: &Row) -> bool
    ensures { result ≡ is_given_to (is_spoiled_now judge.now failed) row.now other.now }
{
    asks_between(row, other)
        && has_judged_line(judge, failed, row, other)
        && asks_line(other)
        && is_served(other)
}

/// Whether the line of the row, which is deferred, is given to another one.
fn given_to_some(rows: &[Row], judge: &OwnerJudge, failed: Option<u64>, row: &Row) -> bool
    ensures { result ≡ list_any (is_given_to (is_spoiled_now judge.now failed) row.now) rows.now }
{
    rows.iter()
        .any(|other| is_given_to(judge, failed, row, other))
}

/// Whether the line of the row is deferred and given to another one.
fn is_given(rows: &[Row], judge: &OwnerJudge, failed: Option<u64>, row: &Row) -> bool
    ensures { result ≡ row_given rows.now (is_spoiled_now judge.now failed) row.now }
{
    row.is_deferred() && given_to_some(rows, judge, failed, row)
}

/// Whether the line of some row is deferred and given to another one.
fn some_given(rows: &[Row], judge: &OwnerJudge, failed: Option<u64>) -> bool
    ensures { result ≡ list_any (row_given rows.now (is_spoiled_now judge.now failed)) rows.now }
{
    rows.iter().any(|row| is_given(rows, judge, failed, row))
}

/// Whether a deferred line is given again with the last sample, where the judge stands for the samples before, found nothing in
/// them, and this line fails with the last one.
pub fn is_given_again(rows: &[Row], judge: &OwnerJudge, failed: Option<u64>) -> bool
    ensures { (first : List Joint) (h : Trace) (x : Sample) (v : Trace) →
        KnowsPast first h x v rows.now judge.now failed →
        result ≡ is_given_again first v (length h) }
{
    some_given(rows, judge, failed)
}
