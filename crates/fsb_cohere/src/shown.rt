//! What the rows of a table show with the last sample.

ghost use Rattle.std.specs.Prelude.{◌≡◌, ◌+◌, ℕ, List, length};
ghost use Rattle.fsb_signal.specs.declared.sample.Sample.{Sample};
ghost use Rattle.fsb_trace.specs.At.{Trace};
ghost use Rattle.fsb_owners.specs.Joint.{Joint};
ghost use Rattle.fsb_owner_judge.specs.Judge.{Shows};
ghost use Rattle.fsb_owner_judge.specs.Sights.{AsksAsOne, EndsAsOne};
ghost use Rattle.fsb_owner_judge.specs.declared.sights.Waiting.{Waiting};
ghost use Rattle.fsb_cohere.specs.Cohere.{IsOneOn, ShowsWaits};

use fsb_owner_again::is_given_again;
use fsb_owner_fails::failed_at;
use fsb_owner_judge::{OwnerJudge, Shown};
use fsb_owner_sights::{asking_at, line_end_at};
use fsb_owner_table::Row;

/// What the rows show with the sample of this clock, which is the last one, where the judge took the samples before.
pub fn shown_at(rows: &[Row], judge: &OwnerJudge, clock: u32) -> Shown
    ensures begun { AsksAsOne result.begun }
    ensures before { EndsAsOne result.ended_before }
    ensures ended { EndsAsOne result.ended }
    ensures shows { (first : List Joint) (h : Trace) (x : Sample) (v : Trace)
        (waits : List Waiting) → IsOneOn first h x v rows.now judge.now → clock ≡ length h →
        ShowsWaits v rows.now (length h) waits → Shows first h x v result waits }
{
    let before = clock.saturating_sub(1);
    let begun = asking_at(rows, before);
    let ended_before = line_end_at(rows, before);
    let ended = line_end_at(rows, clock);
    let failed = failed_at(rows, clock);
    let is_given_again = is_given_again(rows, judge, failed);
    Shown {
        begun,
        ended_before,
        ended,
        failed,
        is_given_again,
    }
}
