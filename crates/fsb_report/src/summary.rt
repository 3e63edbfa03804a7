//! The lines of the summary of a generated run; its second line is the log's last.
ghost use Rattle.std.specs.Prelude.{◌≡◌, ◌≤◌, ◌+◌, ◌++◌, length};
ghost use Rattle.std.specs.Fmt.{decimal};
ghost use Rattle.arrayvec.specs.ArrayVec.{array_vec_len};
ghost use Rattle.fsb_report.specs.SummaryText.{gen_line_text, counts_text, bus_line_text};

use crate::counts::RequestCounts;
use arrayvec::ArrayVec;
use fsb_io::{Line, put_decimal, put_text};

/// What the run was made from, with the line feed: `gen seed=<seed> agents=<agents> items=<items>`. It takes no memory.
#[tactic(auto, unfolding(crate::specs::SummaryText::gen_line_text))]
pub fn gen_line(seed: u64, agents: u8, items: u16) -> Line
    ensures { result.items ≡ gen_line_text seed agents items }
{
    let mut line = ArrayVec::new();
    put_number(&mut line, "gen seed=", seed);
    put_number(&mut line, " agents=", u64::from(agents));
    put_number(&mut line, " items=", u64::from(items));
    put_text(&mut line, "\n");
    line
}

/// The requests on the bus, with the line feed:
/// `bus requests=<total> reads=<reads> invalidates=<invalidates> writebacks=<writebacks> replies=<replies>`. The total is
/// the sum of the four. It takes no memory.
#[tactic(auto, unfolding(crate::specs::SummaryText::bus_line_text))]
pub fn bus_line(counts: &RequestCounts) -> Line
    ensures { result.items ≡ bus_line_text counts.now }
{
    let mut line = ArrayVec::new();
    put_number(&mut line, "bus requests=", counts.total());
    put_counts(&mut line, counts);
    put_text(&mut line, "\n");
    line
}

// Appends the four counts, each with its name.
#[tactic(auto, unfolding(crate::specs::SummaryText::counts_text))]
fn put_counts(line: &mut Line, counts: &RequestCounts)
    requires { array_vec_len line.old + 122 ≤ 256 }
    ensures items { line.new.items ≡ line.old.items ++ counts_text counts.now }
    ensures len { array_vec_len line.new ≤ array_vec_len line.old + 122 }
{
    put_number(line, " reads=", u64::from(counts.reads));
    put_number(line, " invalidates=", u64::from(counts.invalidates));
    put_number(line, " writebacks=", u64::from(counts.writebacks));
    put_number(line, " replies=", u64::from(counts.replies));
}

// Appends the name, with its `=`, and then the number.
fn put_number(line: &mut Line, name: &str, number: u64)
    requires { array_vec_len line.old + length name.now + 20 ≤ 256 }
    ensures items { line.new.items ≡ line.old.items ++ name.now ++ decimal number }
    ensures len { array_vec_len line.new ≤ array_vec_len line.old + length name.now + 20 }
{
    put_text(line, name);
    put_decimal(line, number);
}
