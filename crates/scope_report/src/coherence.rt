//! Whether a coherent system could have made a dump.

use crate::check::{put_early_end, put_rule, put_wires};
use crate::rules::title_of;
use crate::scale::time_of;
use crate::text::{put, put_count, put_number};
use crate::verdict::put_broken;
use scope_check::Verdict;
use scope_pick::Variable;
use scope_time::scale_of;
use scope_wiring::{Choice, Wiring};
use std::alloc::{AllocError, Global};
use vcd_course::Stamp;
use vcd_header::Section;
use vcd_scan::EarlyEnd;

/// The least number of a rule of ownership.
const OWNERSHIP: u8 = 21;

/// What was judged of the coherence of a part.
#[derive(Clone, Copy, Debug)]
pub struct CoherenceTold {
    /// The first clock of the part.
    pub start: u64,
    /// How many clocks it has.
    pub judged: u64,
    /// Whether nothing is known of what came before it.
    pub is_later: bool,
    /// The verdict on it, its clock counted as those of the dump.
    pub verdict: Verdict,
    pub early_end: Option<EarlyEnd>,
}

/// What was judged of the coherence of a file, and found: the scope and the lines that are not there, the verdict, what the
/// broken rule asks, and what the lines are taken to be before the part.
pub fn coherence_text(
    alloc: Global,
    file: &str,
    variables: &[Variable],
    remarks: &[Section],
    choice: &Choice,
    wiring: &Wiring,
    told: &CoherenceTold,
) -> Result<Vec<u8>, AllocError> {
    let mut text = Vec::new(alloc);
    put_wires(&mut text, alloc, file, variables, choice, wiring)?;
    match told.verdict {
        Verdict::Nothing => put(&mut text, NOTHING)?,
        Verdict::Accepted => put_coherent(&mut text, told)?,
        Verdict::Broken { clock, rule, stamp } => {
            let time = time_of(alloc, stamp, scale_of(alloc, remarks)?)?;
            put_found(&mut text, told, clock, rule, &time, stamp)?;
        }
    }
    put_early_end(&mut text, told.early_end)?;
    Ok(text)
}

const NOTHING: &str =
    "nothing could be judged: no clock of the part is there, and p6scope check tells why\n";

fn put_coherent(text: &mut Vec<u8>, told: &CoherenceTold) -> Result<(), AllocError> {
    put(text, "coherent: ")?;
    put_count(text, told.judged, "clock")?;
    put(text, " judged, from clock ")?;
    put_number(text, told.start)?;
    put(text, " on\n")?;
    put_begin(text, told.is_later)
}

// What is broken; of a part that begins later a phase rule may be so for want of what came before.
fn put_found(
    text: &mut Vec<u8>,
    told: &CoherenceTold,
    clock: u64,
    rule: u8,
    time: &[u8],
    stamp: Option<Stamp>,
) -> Result<(), AllocError> {
    if told.is_later && rule < OWNERSHIP {
        return put_unknown_bus(text, clock, rule);
    }
    put_broken(text, clock, time, stamp, rule, title_of(rule))?;
    put(text, "\n")?;
    put_rule(text, rule)?;
    put_begin(text, told.is_later)
}

fn put_unknown_bus(text: &mut Vec<u8>, clock: u64, rule: u8) -> Result<(), AllocError> {
    put(text, "coherence could not be judged: at clock ")?;
    put_number(text, clock)?;
    put(text, " rule ")?;
    put_number(text, u64::from(rule))?;
    put(text, ", ")?;
    put(text, title_of(rule))?;
    put(text, UNKNOWN_BUS)
}

const UNKNOWN_BUS: &str = "
  is broken if nobody had the bus before the part. Who had it is not known: p6scope check
  judges the phase rules for each of the four agents.
";

fn put_begin(text: &mut Vec<u8>, is_later: bool) -> Result<(), AllocError> {
    put(text, if is_later { ANY_LINES } else { NO_LINES })
}

const NO_LINES: &str = "all caches are taken to be empty before the first judged clock\n";

const ANY_LINES: &str = "\
each line is taken to be in any state before the part, which begins later, so less is found
";
