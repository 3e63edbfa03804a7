//! The line of a search.
ghost use Rattle.std.specs.Prelude.{◌≡◌, ◌≤◌, ◌+◌, ◌*◌, ◌++◌, length, option_map};
ghost use Rattle.std.specs.List.{flat_map};
ghost use Rattle.arrayvec.specs.ArrayVec.{array_vec_len};
ghost use Rattle.fsb_look.specs.SearchText.{behind_text, clock_list_text, found_text, last_text, none_text, search_text};

use crate::find::Search;
use arrayvec::ArrayVec;
use fsb_io::{Line, put_decimal, put_text};

/// The line of what a search has given, with its line feed: `found clock=<clock> steps=<clocks>`, with the clock of each step
/// of the match, divided by commas, of which the last is the clock of the match; or `none clocks=<clocks>` where there is no
/// match. It takes no memory.
pub fn search_line(search: &Search) -> Line
    ensures { result.items ≡ search_text (option_map (λ found. found.clocks) search.now.found)
        search.now.clocks }
{
    match &search.found {
        Some(found) => found_line(found.clocks.as_slice()),
        None => none_line(search.clocks),
    }
}

// The line of a match with these clocks.
fn found_line(clocks: &[u32]) -> Line
    requires { length clocks.now ≤ 8 }
    ensures { result.items ≡ found_text clocks.now }
{
    let mut line = ArrayVec::new();
    put_text(&mut line, "found clock=");
    put_last(&mut line, clocks);
    put_text(&mut line, " steps=");
    put_clock_list(&mut line, clocks);
    put_text(&mut line, "\n");
    line
}

// Appends the last of these clocks.
fn put_last(line: &mut Line, clocks: &[u32])
    requires { array_vec_len line.old + 20 ≤ 256 }
    ensures items { line.new.items ≡ line.old.items ++ last_text clocks.now }
    ensures len { array_vec_len line.new ≤ array_vec_len line.old + 20 }
{
    if let Some(clock) = clocks.last() {
        put_decimal(line, u64::from(*clock));
    }
}

// Appends the clocks, divided by commas.
fn put_clock_list(line: &mut Line, clocks: &[u32])
    requires few { length clocks.now ≤ 8 }
    requires room { array_vec_len line.old + 190 ≤ 256 }
    ensures items { line.new.items ≡ line.old.items ++ clock_list_text clocks.now }
    ensures len { array_vec_len line.new ≤ array_vec_len line.old + 188 }
{
    if let Some((first, rest)) = clocks.split_first() {
        put_decimal(line, u64::from(*first));
        put_behind(line, rest);
    }
}

// Appends the clocks, each behind a comma.
fn put_behind(line: &mut Line, clocks: &[u32])
    requires few { length clocks.now ≤ 8 }
    requires room { array_vec_len line.old + 168 ≤ 256 }
    ensures items { line.new.items ≡ line.old.items ++ flat_map behind_text clocks.now }
    ensures len { array_vec_len line.new ≤ array_vec_len line.old + 21 * length clocks.now }
{
    for clock in clocks {
        put_text(line, ",");
        put_decimal(line, u64::from(*clock));
    }
}

// The line where there is no match in so many clocks.
fn none_line(clocks: u32) -> Line
    ensures { result.items ≡ none_text clocks }
{
    let mut line = ArrayVec::new();
    put_text(&mut line, "none clocks=");
    put_decimal(&mut line, u64::from(clocks));
    put_text(&mut line, "\n");
    line
}
