//! What the words of p6scope ask for, which wires of a header are picked, and the texts of the rules, with answers that
//! were worked out by hand.
//!
//! `rows_scope <file>..` goes through files of rows, and prints of each file how many wants it has, and those that are not
//! met, with what was answered. It tries scope_words, scope_pick, scope_wiring, scope_way and rule_texts.
//!
//! A row is a line and its text: the lines below it that begin with `|`. A line with `#` is a note (rows_files).
//!
//! - `header`, `dump`: the declarations that the rows below it ask, in few words, or as tools write them (`headers`).
//! - `name COUNT`: in the command lines below it, NAME is a name of so many bytes.
//! - `ORDER`: the text is the whole answer to the order. There is no such row without a text.
//! - `begins ORDER`, `has ORDER`, `lacks ORDER`, `ends ORDER`: the answer begins with the text, has it, lacks it, or ends
//!   with it. But for `ends`, the last line feed of the text does not count.
//! - `lists ORDER`: the answer has each line of the text. `within ORDER`: its lines have at most so many bytes.
//!
//! An order is one of these:
//!
//! - `$ WORD|WORD ..`: what the words of a command line ask for (`commands`).
//! - `count`, `moment`, `number`, `lines`, `line`, `bit`, `option` with a word, `place LINE WIDTH [RANGE]`, and `title`,
//!   `text` with a rule: what is read of it (`words`).
//! - `pick OPTIONS`, `wires OPTIONS`, `take LINE OPTIONS`: which scope of the header is judged, the same with how many
//!   wires, or what is taken as a line; or why none is picked (`picks`).
//! - `lacking LINES`, `alike LINE`, `views`, `variables`: what else is told of the header (`told`).
//!
//! Nothing is promised: the files are in `data/`, their names in `args`, and what is printed is stored in `stdout`. Read
//! scope_words and scope_wiring next.
#![tactic(auto)]

use fsb_io::Memory;
use rows_files::{read_file, rows_of};
use std::rt::{Env, Files};
use trial::{Outcome, Trial};

mod commands;
mod headers;
mod picks;
mod told;
mod trial;
mod words;

fn main(rt: HostRuntime) {
    let Ok(args) = std::env::args(&rt) else {
        return;
    };
    for word in args.skip(1) {
        let name = word.as_str();
        if goes_through(&rt, name).is_err() {
            let _ = println!(rt; "{name}: not read, or no memory is left");
        }
    }
}

// Goes through the rows of a file, and tells where one wants what is not so.
fn goes_through(rt: &(impl Files + Print + AllocGlobal), name: &str) -> Result<(), Memory> {
    let bytes = read_file(rt, name).ok_or(Memory)?;
    let Ok(text) = std::str::from_utf8(&bytes) else {
        return Err(Memory);
    };
    let mut trial = Trial::new(rt.alloc());
    for row in rows_of(rt.alloc(), text)?.iter() {
        match trial.row(rt.alloc(), row)? {
            Outcome::Done => {}
            Outcome::Unmet(answer) => {
                let _ = println!(rt; "{name}, line {}: not so: {}", row.number, row.head);
                let _ = println!(rt; "{answer}");
            }
            Outcome::Unknown => {
                let _ = println!(rt; "{name}, line {}: no such row: {}", row.number, row.head);
            }
        }
    }
    let wants = trial.wants();
    let _ = println!(rt; "{name}: {wants} wants");
    Ok(())
}
