//! Which rows are next.

ghost use Rattle.std.specs.Prelude.{◌≡◌, nat_le, ◌+◌};
ghost use Rattle.std.specs.List.{find};
ghost use Rattle.fsb_count.specs.Options.{is_some_and};
ghost use Rattle.fsb_owner_feed.specs.Table.{is_row_asking, is_row_moving, is_row_waiting};

use fsb_owner_table::Row;

/// The first row that waits for its snoop end.
pub fn first_asking(rows: &[Row]) -> Option<Row>
    ensures { result ≡ find is_row_asking rows.now }
{
    rows.iter().copied().find(|row| row.is_asking())
}

/// The first row that waits for its response.
pub fn first_waiting(rows: &[Row]) -> Option<Row>
    ensures { result ≡ find is_row_waiting rows.now }
{
    rows.iter().copied().find(|row| row.is_waiting())
}

/// The first row whose data are on the way.
pub fn first_moving(rows: &[Row]) -> Option<Row>
    ensures { result ≡ find is_row_moving rows.now }
{
    rows.iter().copied().find(|row| row.is_moving())
}

/// Whether the earlier clock lies two clocks before this one at least.
fn is_two_before(earlier: u32, clock: u32) -> bool
    ensures { result ≡ nat_le (earlier + 2) clock }
{
    u64::from(earlier) + 2 <= u64::from(clock)
}

/// Whether its snoop end lies two clocks before this one at least.
#[tactic(auto, unfolding(fsb_count::specs::Options::is_some_and))]
pub fn is_snooped_two_before(row: &Row, clock: u32) -> bool
    ensures { result ≡ is_some_and row.now.snoop (λ s. nat_le (s.clock + 2) clock) }
{
    match row.snoop {
        Some(snoop) => is_two_before(snoop.clock, clock),
        None => false,
    }
}
