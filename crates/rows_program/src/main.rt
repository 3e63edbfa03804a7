//! Orders of p6scope over small dumps, and what is wanted of each, worked out by hand.
//!
//! `rows_program <file>..` goes through files of rows, does what they order by the top call of p6scope, and prints of each
//! file how many orders and how many wants it has, and those that are not met, with what came. Dumps, files of `--lines`,
//! sources and sinks lie in memory (`calls`).
//!
//! A row is a line, or a line and its text: the lines below it that begin with `|`. A line with `#` is a note (rows_files).
//!
//! - `text NAME`, `line NAME`: a part of dumps; of a line, the last line feed does not count.
//! - `dump PART ..`: the dump, of these parts; `answer` is the last answer. `file NAME`: the dump is this file.
//! - `lines PART ..`: the file of `--lines`.
//! - `once`, `fail CALLS NUMBER`: for the next order, the dump can be read once, or a call fails: of the source of the
//!   `dump`, or of the sink of the `answer`, of the file of `save` or of `cut`.
//! - `$ p6scope WORDS`: does it.
//! - `status NUMBER`: the status that is wanted of it (`wants`).
//! - `answer HOW`, `refusal HOW`, `save HOW`, `cut HOW`, `joined HOW`: the text that is wanted there; `joined` is the answer
//!   with indented lines joined to the one before. HOW is `is`, `ends`, `rest` (behind the first line), or `has`, `lacks`,
//!   `begins`, `second` (the second line), where the last line feed does not count.
//! - `as p6scope WORDS`: these words are to come to the same. `cut as p6scope WORDS`: what they answer is the cut.
//!
//! Nothing is promised: the files are in `data/`, their names in `args`, and what is printed is stored in `stdout`. Read
//! scope_top next.
#![tactic(auto)]

use fsb_io::Memory;
use rows_files::{Row, read_file, rows_of};
use std::rt::{Env, Files};
use trial::{Answer, Trial};

mod calls;
mod trial;
mod wants;

fn main(rt: HostRuntime) {
    let Ok(args) = std::env::args(&rt) else {
        return;
    };
    for word in args.skip(1) {
        let name = word.as_str();
        if goes_through(&rt, name).is_err() {
            let _ = println!(rt; "{name}: not read, or no memory is left");
        }
    }
}

// Goes through the rows of a file, and tells what came of them.
fn goes_through(rt: &(impl Files + Print + AllocGlobal), name: &str) -> Result<(), Memory> {
    let bytes = read_file(rt, name).ok_or(Memory)?;
    let Ok(text) = std::str::from_utf8(&bytes) else {
        return Err(Memory);
    };
    let mut trial = Trial::new(rt.alloc());
    for row in rows_of(rt.alloc(), text)?.iter() {
        go(rt, name, &mut trial, row)?;
    }
    let (orders, wants) = trial.counts();
    let _ = println!(rt; "{name}: {orders} orders, {wants} wants");
    Ok(())
}

// Goes through a row, and tells where it asks for what is not so.
fn go(
    rt: &(impl Files + Print + AllocGlobal),
    name: &str,
    trial: &mut Trial,
    row: &Row<'_>,
) -> Result<(), Memory> {
    let (word, rest) = row.words();
    let answer = if word == "file" {
        trial.take(read_file(rt, rest))
    } else {
        trial.row(rt.alloc(), row)?
    };
    match answer {
        Answer::Done => {}
        Answer::Unmet => {
            let (answer, refusal) = trial.told();
            let _ = println!(rt; "{name}, line {}: not so: {}", row.number, row.head);
            let _ = println!(rt; "{answer}{refusal}");
        }
        Answer::Unknown => {
            let _ = println!(rt; "{name}, line {}: no such row: {}", row.number, row.head);
        }
    }
    Ok(())
}
