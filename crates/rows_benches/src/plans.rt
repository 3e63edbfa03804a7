//! Bench files, drawn: small caches, few lines, locked items, and hazard lines.

use crate::text::{put, put_hex_number, put_number};
use rows_store::Draws;

/// How many lines of memory the accesses of a drawn file name.
const LINES: u32 = 12;

/// Appends a bench file that is drawn from the seed; None for want of memory.
pub(crate) fn drawn_bench(text: &mut Vec<u8>, seed: u64) -> Option<()> {
    let mut draws = Draws::behind(seed, 2);
    let agents = draws.below(4) + 1;
    put(text, "p6bench 1\nagents ")?;
    put_number(text, u64::from(agents))?;
    put(text, "\nclocks ")?;
    put_number(text, u64::from(draws.below(300)))?;
    put(text, "\ncache ")?;
    let cache = 1 << draws.below(3);
    put_number(text, u64::from(cache))?;
    put(text, "\nahead ")?;
    put_number(text, u64::from(draws.below(4) + 1))?;
    put(text, "\nprofile ")?;
    put_number(text, u64::from(draws.below(2) + 1))?;
    if draws.once_in(2) {
        put(text, "\nbridge 80 100")?;
    }
    put(text, "\n")?;
    for agent in 0..agents {
        put(text, "agent ")?;
        put_number(text, u64::from(agent))?;
        put(text, "\n")?;
        for _ in 0..draws.below(10) {
            put_item(text, &mut draws, cache)?;
        }
        put(text, "end\n")?;
    }
    for _ in 0..draws.below(12) {
        put_hazard(text, &mut draws)?;
    }
    Some(())
}

/// Appends an item: an access, an idle item, or a locked one on lines of sets of their own.
fn put_item(text: &mut Vec<u8>, draws: &mut Draws, cache: u32) -> Option<()> {
    match draws.below(8) {
        0 => {
            put(text, "idle ")?;
            put_number(text, u64::from(draws.below(9) + 1))?;
            put(text, "\n")
        }
        1 => {
            put(text, "lock\n")?;
            let first = draws.below(LINES);
            put_access(text, draws, first)?;
            put_access(text, draws, first)?;
            if cache > 1 {
                put_access(text, draws, first ^ 1)?;
            }
            put(text, "unlock\n")
        }
        _ => {
            let line = draws.below(LINES);
            put_access(text, draws, line)
        }
    }
}

/// Appends an access to the line.
fn put_access(text: &mut Vec<u8>, draws: &mut Draws, line: u32) -> Option<()> {
    let (size, place) = match draws.below(4) {
        0 => (1, draws.below(32)),
        1 => (2, draws.below(16) * 2),
        2 => (4, draws.below(8) * 4),
        _ => (8, draws.below(4) * 8),
    };
    let is_load = draws.once_in(2);
    put(text, if is_load { "ld " } else { "st " })?;
    put_number(text, size)?;
    put(text, " ")?;
    put_hex_number(text, u64::from(line) * 32 + u64::from(place))?;
    if !is_load {
        put(text, if draws.once_in(3) { " r+" } else { " " })?;
        put_hex_number(text, u64::from(draws.below(256)))?;
    }
    put(text, "\n")
}

/// Appends a hazard line.
fn put_hazard(text: &mut Vec<u8>, draws: &mut Draws) -> Option<()> {
    put(text, "tx ")?;
    put_number(text, u64::from(draws.below(40)))?;
    let wait = u64::from(draws.below(5) + 1);
    match draws.below(7) {
        0 => put(text, " retry\n"),
        1 => put(text, " aerr\n"),
        2 => put_wait(text, " defer ", wait),
        3 => put_wait(text, " stall ", wait),
        4 => put_wait(text, " trdy ", wait),
        5 => put_wait(text, " resp ", wait),
        _ => put_wait(text, " data ", wait),
    }
}

/// Appends what waits, and how long.
fn put_wait(text: &mut Vec<u8>, name: &str, wait: u64) -> Option<()> {
    put(text, name)?;
    put_number(text, wait)?;
    put(text, "\n")
}
