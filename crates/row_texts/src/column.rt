//! The columns of a table of requests.

ghost use Rattle.std.specs.Prelude.{◌≡◌, ◌++◌, OnOk};
ghost use Rattle.row_texts.specs.Cells.{column_text, snoop_clock};
ghost use Rattle.row_texts.specs.Lines.{all_columns, is_first, name_of, width_of};

use crate::cells::{
    put_agent, put_between, put_clock, put_kind, put_outcome, put_signs, put_target,
};
use fsb_owner_table::{Row, Snooped};
use std::alloc::AllocError;

/// A column of a table of requests.
#[derive(Clone, Copy, Debug, PartialEq, Eq)]
pub enum Column {
    /// The first clock.
    First,
    /// Who began it.
    Agent,
    Kind,
    /// The address of its line, or, of a reply, the deferred ID.
    Address,
    /// The clock of its snoop end.
    Snoop,
    /// The lines that are asserted there.
    Signs,
    /// The clock of its response.
    Response,
    Outcome,
    /// The clock of its end.
    End,
    /// The first clock of the reply to it.
    Reply,
    /// How many clocks lie between its first clock and its snoop end.
    ToSnoop,
    /// How many lie between its snoop end and its response.
    ToResponse,
    /// How many lie between its first clock and its end.
    ToEnd,
}

/// All columns, in their order.
#[tactic(auto, unfolding(crate::specs::Lines::all_columns))]
pub(crate) fn all_columns() -> [Column; 13]
    ensures { result ≡ all_columns }
{
    [
        Column::First,
        Column::Agent,
        Column::Kind,
        Column::Address,
        Column::Snoop,
        Column::Signs,
        Column::Response,
        Column::Outcome,
        Column::End,
        Column::Reply,
        Column::ToSnoop,
        Column::ToResponse,
        Column::ToEnd,
    ]
}

/// The name of a column.
#[tactic(auto, unfolding(crate::specs::Lines::name_of))]
pub(crate) fn name_of(column: Column) -> &'static str
    ensures { result.now ≡ name_of column }
{
    match column {
        Column::First => "first",
        Column::Agent => "agent",
        Column::Kind => "kind",
        Column::Address => "address",
        Column::Snoop => "snoop",
        Column::Signs => "signs",
        Column::Response => "response",
        Column::Outcome => "outcome",
        Column::End => "end",
        Column::Reply => "reply",
        Column::ToSnoop => "first_to_snoop",
        Column::ToResponse => "snoop_to_response",
        Column::ToEnd => "first_to_end",
    }
}

/// How wide a column is at least in aligned lines.
#[tactic(auto, unfolding(crate::specs::Lines::width_of))]
pub(crate) fn width_of(column: Column) -> usize
    ensures { result ≡ width_of column }
{
    match column {
        Column::First
        | Column::Snoop
        | Column::Response
        | Column::Outcome
        | Column::End
        | Column::Reply => 8,
        Column::Agent => 5,
        Column::Kind | Column::Signs => 10,
        Column::Address => 9,
        Column::ToSnoop => 14,
        Column::ToResponse => 17,
        Column::ToEnd => 0,
    }
}

/// Whether it is the first column.
#[tactic(auto, unfolding(crate::specs::Lines::is_first))]
pub(crate) fn is_first(column: Column) -> bool
    ensures { result ≡ is_first column }
{
    match column {
        Column::First => true,
        _ => false,
    }
}

/// The clock of a snoop end.
fn snoop_clock(snoop: Option<Snooped>) -> Option<u32>
    ensures { result ≡ snoop_clock snoop }
{
    match snoop {
        Some(snoop) => Some(snoop.clock),
        None => None,
    }
}

/// Appends what a row has in a column, where its clocks come behind so many.
#[tactic(auto, unfolding(crate::specs::Cells::column_text))]
pub fn put_column(
    text: &mut Vec<u8>,
    column: Column,
    row: &Row,
    before: u32,
) -> Result<(), AllocError>
    ensures { OnOk result
        (text.new.items ≡ text.old.items ++ column_text before row.now column) }
{
    let first = Some(row.seen.clock);
    let snoop = snoop_clock(row.snoop);
    match column {
        Column::First => put_clock(text, first, before),
        Column::Agent => put_agent(text, row.seen.who),
        Column::Kind => put_kind(text, row.seen.request),
        Column::Address => put_target(text, row.seen.request),
        Column::Snoop => put_clock(text, snoop, before),
        Column::Signs => put_signs(text, false, row.snoop),
        Column::Response => put_clock(text, row.response, before),
        Column::Outcome => put_outcome(text, row.seen.cancelled, row.outcome),
        Column::End => put_clock(text, row.end, before),
        Column::Reply => put_clock(text, row.reply, before),
        Column::ToSnoop => put_between(text, first, snoop),
        Column::ToResponse => put_between(text, snoop, row.response),
        Column::ToEnd => put_between(text, first, row.end),
    }
}
