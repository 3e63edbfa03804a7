//! The rows of the requests that are not over, one sample on.

ghost use Rattle.std.specs.Prelude.{◌≡◌, ◌++◌, [], OnOk};
ghost use Rattle.std.specs.List.{filter_map};
ghost use Rattle.std.specs.Option.{option_to_list};
ghost use Rattle.fsb_trace.specs.At.{Trace};
ghost use Rattle.fsb_owner_table.specs.Happened.{Happens};
ghost use Rattle.fsb_owner_table.specs.Kept.{Stands, left_in, rows_of};

use crate::happened::Happened;
use crate::row::Row;
use fsb_io::Memory;
use fsb_signal::Sample;
use std::alloc::{AllocError, Global};

/// The rows of the requests that are not over, in order.
#[derive(Drop)]
pub struct Rows {
    items: Vec<Row>,
}

/// Keeps what is left of the rows after what happens with the sample.
fn keep_rows(rows: &mut Vec<Row>, happened: &Happened, sample: &Sample)
    ensures { (h v : Trace) → Happens h sample.now v happened.now → rows.old.items ≡ rows_of h →
        rows.new.items ≡ filter_map (left_in v) (rows_of h) }
{
    let old = happened.clock.saturating_sub(2);
    rows.retain_mut(|row| row.keep(happened, sample, old));
}

/// Adds the row behind the others, if there is one.
fn add_row(rows: &mut Vec<Row>, begun: Option<Row>) -> Result<(), AllocError>
    ensures { OnOk result (rows.new.items ≡ rows.old.items ++ option_to_list begun) }
{
    if let Some(row) = begun {
        rows.push(row)?;
    }
    Ok(())
}

impl Rows {
    /// No row yet: they stand for the empty trace. It takes no memory.
    pub fn new(alloc: Global) -> Rows
        ensures { Stands result [] }
    {
        Rows {
            items: Vec::new(alloc),
        }
    }

    /// The rows, in order.
    pub fn as_slice(&self) -> &[Row]
        ensures { (h : Trace) → Stands self.now h → result.now ≡ rows_of h }
    {
        self.items.as_slice()
    }

    /// Takes what happens with the sample. Where memory lacks the rows stand for nothing any more.
    pub fn take(&mut self, happened: &Happened, sample: &Sample) -> Result<(), Memory>
        ensures { OnOk result ((h v : Trace) → Happens h sample.now v happened.now →
            Stands self.old h → Stands self.new v) }
    {
        keep_rows(&mut self.items, happened, sample);
        add_row(&mut self.items, happened.begun)?;
        Ok(())
    }
}
