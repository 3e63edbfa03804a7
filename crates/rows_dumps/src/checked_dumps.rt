//! Verdicts on dumps: those that are written of worked waveforms, those of other tools, and one with parity.

use crate::written;
use fsb_check::{Judgement, check_dump};
use fsb_io::{MemSource, Memory};
use fsb_rules::Broken;
use rows_store::{
    Clock, FALLING, FALLING_VERILATOR, LEAST_RULE_NAMED, PARITY_OF_A_LOAD, QUEUE_DEPTH_BROKEN,
    REQUEST_SPACING_BROKEN, SAME_TIME, SCOPES, SIMULATOR_HEAD, SIMULATOR_RISES, SIMULATOR_START,
    UNKNOWN_AFTER_FALL, UNKNOWN_AFTER_RISE,
};
use std::alloc::{AllocError, Global};

/// The verdict on a dump: its clocks, or the clock and the number of its first broken rule.
type Verdict = Result<u32, (u32, u8)>;

/// The verdict that is found.
fn verdict_of(judgement: Judgement) -> Verdict {
    match judgement.broken {
        None => Ok(judgement.clocks),
        Some(Broken { clock, rule }) => Err((clock, rule)),
    }
}

/// Whether this is the verdict on a dump.
fn is_judged(alloc: Global, dump: &[u8], wanted: Verdict) -> Result<bool, Memory> {
    let mut source = MemSource::new(alloc, dump, &[])?;
    match check_dump(alloc, "d.vcd", &mut source) {
        Ok(judgement) => Ok(verdict_of(judgement) == wanted),
        Err(_) => Ok(false),
    }
}

/// The clocks of a waveform, and the clock and the number of the first broken rule of its dump of 60 clocks.
type Rejected<'a> = (&'a [Clock], (u32, u8));

/// Whether the dump of the waveform is rejected so.
fn is_rejected(alloc: Global, row: &Rejected<'_>) -> Result<bool, Memory> {
    let &(clocks, broken) = row;
    let dump = written(alloc, 60, clocks, &[])?;
    is_judged(alloc, dump.holds(), Err(broken))
}

#[test]
fn dumps_of_broken_rules(rt: HostRuntime) {
    let table: [Rejected<'_>; 3] = [
        (&REQUEST_SPACING_BROKEN, (4, 2)),
        (&LEAST_RULE_NAMED, (1, 2)),
        (&QUEUE_DEPTH_BROKEN, (26, 4)),
    ];
    for (at, row) in table.iter().enumerate() {
        assert!(rt;
            matches!(is_rejected(rt.alloc(), row), Ok(true)),
            "row {at}"
        );
    }
}

/// Two texts, one behind the other, and a third between them.
fn joined(alloc: Global, first: &str, between: &str, last: &str) -> Result<Vec<u8>, AllocError> {
    let mut whole = Vec::from_slice(alloc, first.as_bytes())?;
    whole.extend_from_slice(between.as_bytes())?;
    whole.extend_from_slice(last.as_bytes())?;
    Ok(whole)
}

/// An end of the simulator's dump, and the verdict on the dump with it.
type End = (&'static str, Verdict);

const ENDS: [End; 3] = [
    (SIMULATOR_RISES, Ok(2)),
    (UNKNOWN_AFTER_FALL, Err((1, 1))),
    (UNKNOWN_AFTER_RISE, Err((1, 1))),
];

/// Whether this is the verdict on the simulator's dump with the end of the row.
fn ends_so(alloc: Global, row: &End) -> Result<bool, Memory> {
    let &(rises, wanted) = row;
    let dump = joined(alloc, SIMULATOR_HEAD, SIMULATOR_START, rises)?;
    is_judged(alloc, &dump, wanted)
}

/// In a dump whose values are unknown at the second clock, lines are unknown there.
#[test]
fn dumps_of_a_simulator(rt: HostRuntime) {
    for (at, row) in ENDS.iter().enumerate() {
        assert!(rt; matches!(ends_so(rt.alloc(), row), Ok(true)), "row {at}");
    }
}

/// The text, with a part of it, which stands in it once, replaced.
fn changed(alloc: Global, text: &str, part: &str, by: &str) -> Result<Vec<u8>, AllocError> {
    match text.split_once(part) {
        Some((before, after)) => joined(alloc, before, by, after),
        None => joined(alloc, "", "", ""),
    }
}

/// Dumps that are accepted, with their clocks; a part of each, what it is replaced by, and the clock and the rule that are
/// then the verdict. Without the line that ends DBSY# at clock 11, or BREQ0# at clock 4, the next sample breaks a rule; without
/// the change of RP#, or of AP0#, at clock 2 the parity of the first clock of the request fails there.
type Changed = (&'static str, u32, &'static str, &'static str, (u32, u8));

const CHANGED: [Changed; 7] = [
    (FALLING, 15, "#110\n1*\n", "#110\n", (11, 16)),
    (FALLING_VERILATOR, 15, "#110\n1%\n", "#110\n", (11, 16)),
    (
        SCOPES,
        15,
        "#11000\nb1100 3\n1)\n",
        "#11000\nb1100 3\n",
        (11, 16),
    ),
    (SAME_TIME, 5, "1#\n1\"\n#40", "1#\n#40", (4, 8)),
    (PARITY_OF_A_LOAD, 13, "b10 5\n06\n", "b10 5\n", (2, 20)),
    (PARITY_OF_A_LOAD, 13, "b10 5\n06\n", "06\n", (2, 19)),
    (PARITY_OF_A_LOAD, 13, "b10 5\n06\n", "", (2, 19)),
];

/// Whether the dump is accepted, and once it is changed rejected, as the row says.
fn is_changed(alloc: Global, row: &Changed) -> Result<bool, Memory> {
    let &(text, clocks, part, by, broken) = row;
    let dump = changed(alloc, text, part, by)?;
    Ok(is_judged(alloc, text.as_bytes(), Ok(clocks))? && is_judged(alloc, &dump, Err(broken))?)
}

#[test]
fn changed_dumps(rt: HostRuntime) {
    for (at, row) in CHANGED.iter().enumerate() {
        assert!(rt; matches!(is_changed(rt.alloc(), row), Ok(true)), "row {at}");
    }
}
