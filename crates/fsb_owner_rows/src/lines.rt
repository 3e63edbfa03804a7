//! Which lines the rows name.

ghost use Rattle.std.specs.Prelude.{◌≡◌, ◌+◌, ◌<◌, ℕ, List, length, Some, false};
ghost use Rattle.std.specs.List.{list_any};
ghost use Rattle.fsb_trace.specs.At.{Trace};
ghost use Rattle.fsb_owners.specs.Shown.{is_coming, is_for_line, is_upgrading, names, snooped_at};
ghost use Rattle.fsb_owner_table.specs.declared.row.Row.{Row};
ghost use Rattle.fsb_owner_rows.specs.Kept.{AreKeptAt};
ghost use Rattle.fsb_owner_rows.specs.OfRow.{is_named_line, row_line, row_names};

use crate::row::names;
use fsb_owner_table::Row;

/// The line that the request of the row names; a reply names none.
pub fn named_line(row: &Row) -> Option<u64>
    ensures { result ≡ row_line row.now }
{
    if row.is_reply() { None } else { row.line }
}

/// Whether a row names the line.
pub fn is_named(rows: &[Row], line: u64) -> bool
    ensures { result ≡ is_named_line rows.now line }
{
    rows.iter().any(|row| names(row, line))
}

/// Of a line that no row names nothing is under way, neither bytes nor an upgrade, no request for it begins, and no snoop of one,
/// or of the reply to one, ends.
pub fn unnamed_lines_are_quiet()
    ensures coming { (rows : List Row) (v : Trace) (line a c : ℕ) → AreKeptAt rows v c →
        is_named_line rows line ≡ false → is_coming v line a c ≡ false }
    ensures upgrading { (rows : List Row) (v : Trace) (line a c : ℕ) → AreKeptAt rows v c →
        c + 1 < length v → is_named_line rows line ≡ false → is_upgrading v line a c ≡ false }
    ensures begun { (rows : List Row) (v : Trace) (line c : ℕ) → AreKeptAt rows v c →
        c + 1 < length v → is_named_line rows line ≡ false → names v line c ≡ false }
    ensures snooped { (rows : List Row) (v : Trace) (line c j : ℕ) → AreKeptAt rows v c →
        is_named_line rows line ≡ false → snooped_at v c ≡ Some j →
        is_for_line v line j ≡ false }
{}
