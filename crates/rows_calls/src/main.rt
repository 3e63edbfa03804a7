//! Orders of p6bench over benches and dumps, and what is wanted of each, worked out by hand.
//!
//! `rows_calls <file>..` goes through files of rows, does what they order by the top call of p6bench, and prints of each
//! file how many orders and how many wants it has, and those that are not met, with what came. Texts, sources and sinks lie
//! in memory (`calls`).
//!
//! A row is a line, or a line and its text: the lines below it that begin with `|`. A line with `#` is a note (rows_files).
//!
//! - `text NAME`, `line NAME`: a part of texts; of a line, the last line feed does not count. `repeat NAME FROM TO`: one for
//!   each number, which stands in the place of each `%`. Parts of one name stand one behind the other. `keep NAME`: a part is
//!   the last dump. `dump` and `out` are those of the last order.
//! - `source PART ..`: what the source holds, of these parts. `blank NUMBER`: so many line feeds.
//! - `fail CALLS NUMBER`, `stubborn`, `probes`: for the next order, a call of the `source`, of the sink of `out` or of the
//!   sink of the `dump` fails; the object of a run always asks for a retry; there are probes of ADS#, of DRDY# and of the data.
//! - `$ p6bench WORDS`: does it; `@NUMBER` is a word of so many letters. Of each order it is wanted what `calls` says of
//!   `odd`.
//! - `made STATUS`: in the place of an order, a status (`statuses`).
//! - `status NUMBER LINE`: the exit status and its line. `calls SOURCE OUT DUMP`: how often each is called.
//! - `out HOW`, `dump HOW`: what is printed and dumped. HOW is `none`, `is`, `begins`, or `as PART ..`.
//! - `again p6bench WORDS`: these words are to come to the same.
//! - `cut PART ..`: each text that is cut off before the end of these parts is no dump, and no longer one has another fault.
//!
//! Nothing is promised: the files are in `data/`, their names in `args`, and what is printed is stored in `stdout`. Read
//! fsb_headline next, whose laws say in a reader's words what the contract of `bench` says of a call.
#![tactic(auto)]

use fsb_io::Memory;
use rows_files::{Row, read_file, rows_of};
use std::rt::{Env, Files};
use trial::{Answer, Trial};

mod calls;
mod statuses;
mod trial;
mod wants;

fn main(rt: HostRuntime) {
    let Ok(args) = std::env::args(&rt) else {
        return;
    };
    for word in args.skip(1) {
        let name = word.as_str();
        if goes_through(&rt, name).is_err() {
            let _ = println!(rt; "{name}: not read, or no memory is left");
        }
    }
}

// Goes through the rows of a file, and tells what came of them.
fn goes_through(rt: &(impl Files + Print + AllocGlobal), name: &str) -> Result<(), Memory> {
    let bytes = read_file(rt, name).ok_or(Memory)?;
    let Ok(text) = std::str::from_utf8(&bytes) else {
        return Err(Memory);
    };
    let mut trial = Trial::new(rt.alloc())?;
    for row in rows_of(rt.alloc(), text)?.iter() {
        go(rt, name, &mut trial, row)?;
    }
    let (orders, wants) = trial.counts();
    let _ = println!(rt; "{name}: {orders} orders, {wants} wants");
    Ok(())
}

// Goes through a row, and tells where it asks for what is not so.
fn go(
    rt: &(impl Print + AllocGlobal),
    name: &str,
    trial: &mut Trial,
    row: &Row<'_>,
) -> Result<(), Memory> {
    let (number, head) = (row.number, row.head);
    match trial.row(rt.alloc(), row)? {
        Answer::Done => {}
        Answer::Unmet => {
            let _ = println!(rt; "{name}, line {number}: not so: {head}");
            tell(rt, trial);
        }
        Answer::Unknown => {
            let _ = println!(rt; "{name}, line {number}: no such row: {head}");
        }
    }
    Ok(())
}

// Tells what came of the last order.
fn tell(rt: &impl Print, trial: &Trial) {
    let came = trial.came();
    let [reads, prints, dumps] = came.calls;
    let (status, line, odd) = (came.status, came.line.as_str(), came.odd);
    let _ = println!(rt; "status {status} {line}; calls {reads} {prints} {dumps}; {odd}");
    let (out, dump) = (came.out.as_str(), came.dump.as_str());
    let _ = println!(rt; "{out}{dump}");
}
