//! Waveforms, judged twice: by the checker, sample by sample, and by the plain judge of whole traces.
//!
//! `rows_trials <seed> <count> <dump>..` makes so many random waveforms from the seed (`waveform`), and reads the dumps, whole
//! and in pieces of 1, 7, 113 and 65,536 bytes (`pieces`), which must say the same, or else it prints `not read`. Of each dump
//! it also takes every waveform in which one control line is turned over at one clock: a parity line only where the dump
//! declares one. The random ones have parity lines, and are judged by marks that are drawn. Of the random ones and then of
//! those of the dumps it prints how many were judged, how many were accepted and how many broke each rule first, and how many
//! were judged differently, which is to be none.
//!
//! Nothing is promised: the words are in `args`, the dumps in `data/`, and what is printed is stored in `stdout`. Read
//! rows_benches next, which judges the waveforms of benches.
#![tactic(auto)]

ghost use Rattle.std.specs.Prelude.{◌<◌, ◌^◌, length};

use fsb_io::{FileSource, Source, read_all};
use fsb_signal::{Marks, Sample};
use fsb_trace::verdict;
use pieces::says_the_same;
use rows_judged::checked;
use rows_store::Draws;
use std::alloc::{AllocError, Global};
use std::rt::{Env, Files};
use vcd_read::read_dump;
use waveform::{turned_over, waveform};

mod pieces;
mod waveform;

fn main(rt: HostRuntime) {
    let asked = read_words(&rt);
    let mut tally = NONE_JUDGED;
    if random(rt.alloc(), asked, &mut tally).is_err() {
        let _ = println!(rt; "out of memory");
    }
    report(&rt, "random", &tally);
    let mut tally = NONE_JUDGED;
    if let Ok(args) = std::env::args(&rt) {
        for word in args.skip(3) {
            if dump(&rt, word.as_str(), &mut tally).is_none() {
                let _ = println!(rt; "not read: {}", word.as_str());
            }
        }
    }
    report(&rt, "dumps and their neighbours", &tally);
}

/// What became of the waveforms.
#[derive(Clone, Copy)]
struct Tally {
    judged: u32,
    accepted: u32,
    /// How many broke each rule first, at the rule's number.
    broken: [u32; 21],
    differ: u32,
}

const NONE_JUDGED: Tally = Tally {
    judged: 0,
    accepted: 0,
    broken: [0; 21],
    differ: 0,
};

/// What the words ask for.
#[derive(Clone, Copy)]
struct Asked {
    seed: u64,
    count: u32,
}

/// What the words ask for: seed 1 and 100 waveforms where they name none.
fn read_words(rt: &(impl Env + AllocGlobal)) -> Asked {
    let mut asked = Asked {
        seed: 1,
        count: 100,
    };
    let Ok(args) = std::env::args(rt) else {
        return asked;
    };
    for (i, word) in args.enumerate() {
        match i {
            1 => asked.seed = word.as_str().parse().unwrap_or(1),
            2 => asked.count = word.as_str().parse().unwrap_or(100),
            _ => {}
        }
    }
    asked
}

/// Judges random waveforms.
fn random(alloc: Global, asked: Asked, tally: &mut Tally) -> Result<(), AllocError> {
    let mut draws = Draws::new(asked.seed);
    for _ in 0..asked.count {
        let marks = Marks {
            ap: draws.once_in(2),
            rp: draws.once_in(2),
        };
        let w = waveform(alloc, &mut draws, marks)?;
        tally.judge(marks, &w);
    }
    Ok(())
}

/// Judges the waveform of a dump, and each in which one line is turned over at one clock; None
/// where it is not read, or says something else in pieces than whole.
fn dump(rt: &(impl Files + AllocGlobal), name: &str, tally: &mut Tally) -> Option<()> {
    if name.len() > 4_096 {
        return None;
    }
    let mut source = FileSource::new(rt);
    source.begin(name).ok()?;
    let text = read_all(rt.alloc(), &mut source, 1 << 20).ok()?;
    let (marks, mut w) = read_dump(rt.alloc(), &text).ok()?;
    if w.len() > 200_000 || !says_the_same(rt.alloc(), &text, marks, &w) {
        return None;
    }
    let lines = if marks.ap || marks.rp { 21 } else { 18 };
    tally.judge(marks, &w);
    for at in 0..w.len() {
        let kept = w[at];
        for line in 0..lines {
            w[at] = turned_over(&kept, line);
            tally.judge(marks, &w);
        }
        w[at] = kept;
    }
    Some(())
}

impl Tally {
    /// Judges a waveform twice.
    fn judge(&mut self, marks: Marks, w: &[Sample])
        requires { length w.now < 2 ^ 32 }
    {
        self.count(verdict(marks, w), checked(marks, w));
    }

    /// Counts a waveform with these two verdicts.
    fn count(&mut self, plain: Option<(u32, u8)>, checked: Option<(u32, u8)>) {
        self.judged = self.judged.wrapping_add(1);
        if plain != checked {
            self.differ = self.differ.wrapping_add(1);
        }
        match plain {
            None => self.accepted = self.accepted.wrapping_add(1),
            Some((_, rule)) => {
                if let Some(count) = self.broken.get_mut(rule as usize) {
                    *count = count.wrapping_add(1);
                }
            }
        }
    }
}

/// Prints what became of the waveforms of this kind.
fn report(rt: &HostRuntime, kind: &str, tally: &Tally) {
    let _ = println!(rt;
        "{kind}: {} judged, {} of them differently",
        tally.judged, tally.differ
    );
    let _ = println!(rt; "accepted: {}", tally.accepted);
    for (rule, count) in tally.broken.iter().enumerate().skip(1) {
        let _ = println!(rt; "rule {rule}: {count}");
    }
}
