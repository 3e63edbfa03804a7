//! The text of a shown dump.
ghost use Rattle.std.specs.Prelude.{◌≡◌, ◌≤◌, ◌++◌, IsTrue, OnOk, map, length};
ghost use Rattle.fsb_io.specs.Appends.{AppendsPart};
ghost use Rattle.fsb_io.specs.Faults.{HasCause};
ghost use Rattle.fsb_report.specs.VerdictText.{verdict_text};
ghost use Rattle.fsb_show.specs.ShowText.{numbered_text, probe_text, row_text, table_text, told_text};

use crate::lines::{probe_line, row_line};
use crate::show::Shown;
use fsb_io::{Failed, Sink, put_all};
use fsb_probe::{Probe, total_of};
use fsb_report::verdict_line;
use fsb_rules::Broken;
use fsb_table::Row;

/// Appends what is shown of a dump, one piece a line: the line of a broken rule or, where none is
/// broken, a line for each object with its total, a line for each request, and the line of the
/// verdict. It takes no memory.
#[tactic(auto, unfolding(crate::specs::ShowText::told_text))]
pub fn put_show<O: Sink>(
    out: &mut O,
    shown: &Shown,
    probes: &[Box<dyn Probe>],
) -> Result<(), Failed>
    ensures whole { IsTrue O.tells → OnOk result (O.holds out.new
        ≡ O.holds out.old
        ++ told_text shown.now.broken (map (λ p. counted p) probes.now) shown.now.rows.items
        shown.now.clocks) }
    ensures part { IsTrue O.tells →
        AppendsPart (told_text shown.now.broken (map (λ p. counted p) probes.now)
        shown.now.rows.items shown.now.clocks) (O.holds out.old) (O.holds out.new) }
    ensures name_stays { IsTrue O.tells → O.begun_as out.new ≡ O.begun_as out.old }
    ensures cause { HasCause (O.faults out.old) (O.faults out.new) result }
{
    match shown.broken {
        Some(broken) => put_verdict(out, shown.clocks, Some(broken)),
        None => put_table(out, shown.clocks, shown.rows.as_slice(), probes),
    }
}

// Appends the table of so many clocks.
fn put_table<O: Sink>(
    out: &mut O,
    clocks: u32,
    rows: &[Row],
    probes: &[Box<dyn Probe>],
) -> Result<(), Failed>
    ensures whole { IsTrue O.tells → OnOk result (O.holds out.new
        ≡ O.holds out.old ++ table_text (map (λ p. counted p) probes.now) rows.now clocks) }
    ensures part { IsTrue O.tells →
        AppendsPart (table_text (map (λ p. counted p) probes.now) rows.now clocks)
        (O.holds out.old) (O.holds out.new) }
    ensures name_stays { IsTrue O.tells → O.begun_as out.new ≡ O.begun_as out.old }
    ensures cause { HasCause (O.faults out.old) (O.faults out.new) result }
{
    put_totals(out, probes)?;
    put_rows(out, rows)?;
    put_verdict(out, clocks, None)
}

// Appends the line of the verdict.
fn put_verdict<O: Sink>(out: &mut O, clocks: u32, broken: Option<Broken>) -> Result<(), Failed>
    ensures whole { IsTrue O.tells →
        OnOk result (O.holds out.new ≡ O.holds out.old ++ verdict_text clocks broken) }
    ensures part { IsTrue O.tells →
        AppendsPart (verdict_text clocks broken) (O.holds out.old) (O.holds out.new) }
    ensures name_stays { IsTrue O.tells → O.begun_as out.new ≡ O.begun_as out.old }
    ensures cause { HasCause (O.faults out.old) (O.faults out.new) result }
{
    put_all(out, verdict_line(clocks, broken).as_slice())
}

// Appends the line of each object.
fn put_totals<O: Sink>(out: &mut O, probes: &[Box<dyn Probe>]) -> Result<(), Failed>
    ensures whole { IsTrue O.tells → OnOk result (O.holds out.new
        ≡ O.holds out.old ++ numbered_text probe_text 0 (map (λ p. counted p) probes.now)) }
    ensures part { IsTrue O.tells →
        AppendsPart (numbered_text probe_text 0 (map (λ p. counted p) probes.now))
        (O.holds out.old) (O.holds out.new) }
    ensures name_stays { IsTrue O.tells → O.begun_as out.new ≡ O.begun_as out.old }
    ensures cause { HasCause (O.faults out.old) (O.faults out.new) result }
{
    for i in 0..probes.len() {
        put_total(out, i as u64, total_of(&probes[i]))?;
    }
    Ok(())
}

// Appends the line of one object.
fn put_total<O: Sink>(out: &mut O, number: u64, total: u64) -> Result<(), Failed>
    ensures whole { IsTrue O.tells →
        OnOk result (O.holds out.new ≡ O.holds out.old ++ probe_text number total) }
    ensures part { IsTrue O.tells →
        AppendsPart (probe_text number total) (O.holds out.old) (O.holds out.new) }
    ensures name_stays { IsTrue O.tells → O.begun_as out.new ≡ O.begun_as out.old }
    ensures cause { HasCause (O.faults out.old) (O.faults out.new) result }
{
    put_all(out, probe_line(number, total).as_slice())
}

// Appends the line of each row.
fn put_rows<O: Sink>(out: &mut O, rows: &[Row]) -> Result<(), Failed>
    ensures whole { IsTrue O.tells →
        OnOk result (O.holds out.new ≡ O.holds out.old ++ numbered_text row_text 0 rows.now) }
    ensures part { IsTrue O.tells →
        AppendsPart (numbered_text row_text 0 rows.now) (O.holds out.old) (O.holds out.new) }
    ensures name_stays { IsTrue O.tells → O.begun_as out.new ≡ O.begun_as out.old }
    ensures cause { HasCause (O.faults out.old) (O.faults out.new) result }
{
    for i in 0..rows.len() {
        put_row(out, i as u64, &rows[i])?;
    }
    Ok(())
}

// Appends the line of one row.
fn put_row<O: Sink>(out: &mut O, number: u64, row: &Row) -> Result<(), Failed>
    ensures whole { IsTrue O.tells →
        OnOk result (O.holds out.new ≡ O.holds out.old ++ row_text number row.now) }
    ensures part { IsTrue O.tells →
        AppendsPart (row_text number row.now) (O.holds out.old) (O.holds out.new) }
    ensures name_stays { IsTrue O.tells → O.begun_as out.new ≡ O.begun_as out.old }
    ensures cause { HasCause (O.faults out.old) (O.faults out.new) result }
{
    put_all(out, row_line(number, row).as_slice())
}
