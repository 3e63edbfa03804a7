//! Texts of dumps, small ones and those of other tools, with the samples or the first fault that each has, worked out by hand
//! from docs/reference/dump-format.md: tests of `vcd_read`, whole and in pieces.
//!
//! The tests go over tables: `table` has small texts, `parity` those with parity lines, `loads` the samples of a load, `texts`
//! what stands before the text of a row, and `calls` goes once through the calls of the reader. The program reads the files of
//! the dumps of other tools, in `data/`, and says of each whether it is the text of rows_store that the tests read.
//!
//! Nothing is promised. Read rows_dumps next, which has what audits and tables tell of dumps; rows_trials reads whole dumps,
//! and all their neighbours, for both judges.
#![tactic(auto)]

use fsb_io::{FileSource, Source, read_all};
use rows_store::{FALLING, FALLING_VERILATOR, SAME_TIME, SCOPES};
use std::rt::Files;

#[cfg(test)]
mod tests;

/// Each file, and the text that it is to be.
const FILES: [(&str, &str); 4] = [
    ("falling.vcd", FALLING),
    ("falling_verilator.vcd", FALLING_VERILATOR),
    ("scopes.vcd", SCOPES),
    ("same_time.vcd", SAME_TIME),
];

fn main(rt: HostRuntime) {
    for (name, text) in FILES.iter() {
        match file(&rt, name) {
            Some(bytes) if bytes.as_slice() == text.as_bytes() => {
                let _ = println!(rt; "{name}: the same");
            }
            Some(_) => {
                let _ = println!(rt; "{name}: another text");
            }
            None => {
                let _ = println!(rt; "{name}: not read");
            }
        }
    }
}

/// What a file holds, where it can be read.
fn file(rt: &(impl Files + AllocGlobal), name: &str) -> Option<Vec<u8>> {
    if name.len() > 4_096 {
        return None;
    }
    let mut source = FileSource::new(rt);
    source.begin(name).ok()?;
    read_all(rt.alloc(), &mut source, 1 << 20).ok()
}
