//! The lines on which somebody waits.

ghost use Rattle.std.specs.Prelude.{◌≡◌, ◌+◌, ◌||◌, ℕ, IfOk, OnOk, nat_eq};
ghost use Rattle.fsb_trace.specs.At.{Trace};
ghost use Rattle.fsb_joint.specs.LineClock.{droppable_at, ready_at};
ghost use Rattle.fsb_owner_rows.specs.Kept.{AreKeptAt};
ghost use Rattle.fsb_owner_rows.specs.OfRow.{is_named_line, row_names};
ghost use Rattle.fsb_owner_judge.specs.Lines.{ShowWaits, is_waiting};

use fsb_owner_judge::Waiting;
use fsb_owner_rows::{droppable_of, named_line, ready_of};
use fsb_owner_table::Row;
use std::alloc::{AllocError, Global};

/// What the agents wait for on the line at the clock, which the other one follows.
#[tactic(auto, unfolding(fsb_joint::specs::LineClock::ready_at, fsb_joint::specs::LineClock::droppable_at))]
fn waiting(rows: &[Row], line: u64, clock: u32, next: u32) -> Waiting
    ensures line { result.line ≡ line }
    ensures ready { (v : Trace) → AreKeptAt rows.now v next → next ≡ clock + 1 →
        result.ready ≡ ready_at v line clock }
    ensures drops { (v : Trace) → AreKeptAt rows.now v clock → AreKeptAt rows.now v next →
        next ≡ clock + 1 → result.may_drop ≡ droppable_at v line clock }
{
    Waiting {
        line,
        ready: ready_of(rows, line, next),
        may_drop: droppable_of(rows, line, clock, next),
    }
}

/// Whether the line is one of these.
fn is_listed(waits: &[Waiting], line: u64) -> bool
    ensures { result ≡ is_waiting waits.now line }
{
    waits.iter().any(|wait| wait.line == line)
}

/// Adds the line, where it is none of these yet.
fn add_line(
    waits: &mut Vec<Waiting>,
    rows: &[Row],
    line: u64,
    clock: u32,
    next: u32,
) -> Result<(), AllocError>
    ensures lines { OnOk result ((other : ℕ) → is_waiting waits.new.items other
        ≡ (is_waiting waits.old.items other || nat_eq line other)) }
    ensures shown { OnOk result ((v : Trace) → AreKeptAt rows.now v clock →
        AreKeptAt rows.now v next → next ≡ clock + 1 → ShowWaits v clock waits.old.items →
        ShowWaits v clock waits.new.items) }
{
    if !is_listed(waits.as_slice(), line) {
        waits.push(waiting(rows, line, clock, next))?;
    }
    Ok(())
}

/// Adds the line of the row, where it names one that is none of these yet.
fn add_row(
    waits: &mut Vec<Waiting>,
    rows: &[Row],
    row: &Row,
    clock: u32,
    next: u32,
) -> Result<(), AllocError>
    ensures lines { OnOk result ((other : ℕ) → is_waiting waits.new.items other
        ≡ (is_waiting waits.old.items other || row_names other row.now)) }
    ensures shown { OnOk result ((v : Trace) → AreKeptAt rows.now v clock →
        AreKeptAt rows.now v next → next ≡ clock + 1 → ShowWaits v clock waits.old.items →
        ShowWaits v clock waits.new.items) }
{
    match named_line(row) {
        Some(line) => add_line(waits, rows, line, clock, next),
        None => Ok(()),
    }
}

/// The lines that the rows name, each once, with what the agents wait for at the clock, which the other one follows.
pub fn waits_of(
    alloc: Global,
    rows: &[Row],
    clock: u32,
    next: u32,
) -> Result<Vec<Waiting>, AllocError>
    ensures lines { IfOk result (λ waits. (line : ℕ) →
        is_waiting waits.items line ≡ is_named_line rows.now line) }
    ensures shown { IfOk result (λ waits. (v : Trace) → AreKeptAt rows.now v clock →
        AreKeptAt rows.now v next → next ≡ clock + 1 → ShowWaits v clock waits.items) }
{
    let mut waits = Vec::new(alloc);
    for row in rows {
        add_row(&mut waits, rows, row, clock, next)?;
    }
    Ok(waits)
}
