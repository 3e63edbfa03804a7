//! The lines of a table.
ghost use Rattle.std.specs.Prelude.{◌≡◌, ◌≤◌, ◌<◌, ◌^◌, ◌+◌, ◌++◌, length};
ghost use Rattle.arrayvec.specs.ArrayVec.{array_vec_len};
ghost use Rattle.fsb_show.specs.ShowText.{address_text, asker_text, kind_name, kind_text, line_address, number_text, outcome_name, outcome_text, probe_text, row_text, seen_text, way_text};

use arrayvec::ArrayVec;
use fsb_encode::{Kind, Request};
use fsb_io::{Line, put_decimal, put_hex, put_text};
use fsb_table::Row;
use fsb_trace::{Outcome, Who};

/// One more than the greatest line that a request can name.
const LINES: u64 = 1 << 31;

/// The line of a probe: its number, and its total.
#[tactic(auto, unfolding(crate::specs::ShowText::probe_text))]
pub fn probe_line(number: u64, total: u64) -> Line
    ensures { result.items ≡ probe_text number total }
{
    let mut line = ArrayVec::new();
    put_text(&mut line, "probe ");
    put_decimal(&mut line, number);
    put_text(&mut line, " = ");
    put_decimal(&mut line, total);
    put_text(&mut line, "\n");
    line
}

/// The line of a row: its number, and what it says.
#[tactic(auto, unfolding(crate::specs::ShowText::row_text))]
pub fn row_line(number: u64, row: &Row) -> Line
    ensures { result.items ≡ row_text number row.now }
{
    let mut line = ArrayVec::new();
    put_decimal(&mut line, number);
    put_seen(&mut line, row);
    put_way(&mut line, row);
    put_text(&mut line, "\n");
    line
}

// Appends what the row says of the request itself.
fn put_seen(line: &mut Line, row: &Row)
    requires { array_vec_len line.old + 74 ≤ 256 }
    ensures items { line.new.items ≡ line.old.items ++ seen_text row.now }
    ensures len { array_vec_len line.new ≤ array_vec_len line.old + 74 }
{
    put_text(line, " ");
    put_decimal(line, u64::from(row.seen.clock));
    put_text(line, " ");
    put_agent(line, row.seen.who);
    put_text(line, " ");
    put_kind(line, row.seen.request);
    put_text(line, " ");
    put_address(line, row.seen.request);
}

// Appends what the row says of the way of the request.
fn put_way(line: &mut Line, row: &Row)
    requires { array_vec_len line.old + 72 ≤ 256 }
    ensures items { line.new.items ≡ line.old.items ++ way_text row.now }
    ensures len { array_vec_len line.new ≤ array_vec_len line.old + 72 }
{
    put_text(line, " ");
    put_number(line, row.snoop);
    put_text(line, " ");
    put_number(line, row.response);
    put_text(line, " ");
    put_number(line, row.end);
    put_text(line, " ");
    put_text(line, end_word(row.seen.cancelled, row.outcome));
}

// Appends the number, or a dash.
fn put_number(line: &mut Line, number: Option<u32>)
    requires { array_vec_len line.old + 20 ≤ 256 }
    ensures items { line.new.items ≡ line.old.items ++ number_text number }
    ensures len { array_vec_len line.new ≤ array_vec_len line.old + 20 }
{
    match number {
        Some(number) => put_decimal(line, u64::from(number)),
        None => put_text(line, "-"),
    }
}

// Appends who began the request.
fn put_agent(line: &mut Line, who: Option<Who>)
    requires { array_vec_len line.old + 20 ≤ 256 }
    ensures items { line.new.items ≡ line.old.items ++ asker_text who }
    ensures len { array_vec_len line.new ≤ array_vec_len line.old + 20 }
{
    match who {
        Some(Who::Symmetric(agent)) => put_decimal(line, u64::from(agent)),
        Some(Who::Priority) => put_text(line, "p"),
        None => put_text(line, "-"),
    }
}

// The word for a kind.
fn kind_word(kind: Kind) -> &'static str
    ensures name { result.now ≡ kind_name kind }
    ensures short { length result.now ≤ 10 }
{
    match kind {
        Kind::Reply => "reply",
        Kind::Invalidate => "invalidate",
        Kind::Read => "read",
        Kind::WriteBack => "writeback",
        Kind::Upgrade => "upgrade",
    }
}

// Appends what the request asks for.
fn put_kind(line: &mut Line, request: Option<Request>)
    requires { array_vec_len line.old + 10 ≤ 256 }
    ensures items { line.new.items ≡ line.old.items ++ kind_text request }
    ensures len { array_vec_len line.new ≤ array_vec_len line.old + 10 }
{
    match request {
        Some(request) => put_text(line, kind_word(request.kind)),
        None => put_text(line, "-"),
    }
}

// Appends the address of the line of the request.
#[tactic(auto, unfolding(fsb_trace::specs::Requests::is_reply_kind))]
fn put_address(line: &mut Line, request: Option<Request>)
    requires { array_vec_len line.old + 20 ≤ 256 }
    ensures items { line.new.items ≡ line.old.items ++ address_text request }
    ensures len { array_vec_len line.new ≤ array_vec_len line.old + 20 }
{
    match request {
        Some(request) if request.kind != Kind::Reply => put_hex(line, request.line % LINES * 32),
        _ => put_text(line, "-"),
    }
}

// How the request ends.
fn end_word(cancelled: bool, outcome: Option<Outcome>) -> &'static str
    ensures name { result.now ≡ outcome_text cancelled outcome }
    ensures short { length result.now ≤ 8 }
{
    match outcome {
        Some(outcome) => outcome_word(outcome),
        None if cancelled => "aerr",
        None => "-",
    }
}

// The word for an outcome.
fn outcome_word(outcome: Outcome) -> &'static str
    ensures name { result.now ≡ outcome_name outcome }
    ensures short { length result.now ≤ 8 }
{
    match outcome {
        Outcome::Granted => "granted",
        Outcome::Handed => "handed",
        Outcome::Retried => "retried",
        Outcome::Deferred => "deferred",
        Outcome::Written => "written",
        Outcome::Replied => "replied",
        Outcome::Failed => "failed",
        Outcome::Upgraded => "upgraded",
    }
}
