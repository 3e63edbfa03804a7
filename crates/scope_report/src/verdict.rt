//! The line of a verdict.

ghost use Rattle.std.specs.Prelude.{◌≡◌, ◌<◌, ◌++◌, OnOk};
ghost use Rattle.scope_report.specs.Endings.{verdict_after, verdict_over};
ghost use Rattle.scope_report.specs.VerdictText.{broken_text, clock_text, place_text, rule_text, verdict_text};

use crate::text::{put, put_number};
use scope_check::Verdict;
use scope_parts::{PartFound, PartsFound};
use std::alloc::AllocError;
use vcd_course::Stamp;

/// The verdict on all parts of a dump: that of the first broken one. Without one they are accepted, where a clock was judged.
pub fn verdict_over(found: &PartsFound) -> Verdict
    ensures { result ≡ verdict_over found.now }
{
    match found.faults.as_slice().first() {
        Some(fault) => fault.verdict,
        None => unbroken(found.judged),
    }
}

fn unbroken(judged: u64) -> Verdict
    ensures { result ≡ verdict_after judged }
{
    if 0 < judged {
        Verdict::Accepted
    } else {
        Verdict::Nothing
    }
}

/// Appends the line of a verdict, without its line feed, where the time of the broken clock has this text, and the rule
/// this title: `accepted: 20 of 24 clocks judged`, or
/// `rejected at clock 28, 285 ns (line 1032 of the file): rule 15, target ready`.
#[tactic(auto, unfolding(crate::specs::VerdictText::verdict_text))]
pub fn put_verdict(
    text: &mut Vec<u8>,
    found: &PartsFound,
    time: &[u8],
    title: &str,
) -> Result<(), AllocError>
    ensures { OnOk result
        (text.new.items ≡ text.old.items ++ verdict_text found.now time.now title.now) }
{
    match verdict_over(found) {
        Verdict::Nothing => put(text, "nothing could be judged"),
        Verdict::Accepted => {
            put(text, "accepted: ")?;
            put_number(text, found.judged)?;
            put(text, " of ")?;
            put_number(text, found.clocks)?;
            put(text, " clocks judged")
        }
        Verdict::Broken { clock, rule, stamp } => {
            put_broken(text, clock, time, stamp, rule, title)
        }
    }
}

/// Appends what is broken, and where.
pub(crate) fn put_broken(
    text: &mut Vec<u8>,
    clock: u64,
    time: &[u8],
    stamp: Option<Stamp>,
    rule: u8,
    title: &str,
) -> Result<(), AllocError>
    ensures { OnOk result (text.new.items
        ≡ text.old.items ++ broken_text clock time.now stamp rule title.now) }
{
    put_clock(text, clock, time, stamp)?;
    put_rule(text, rule, title)
}

fn put_clock(
    text: &mut Vec<u8>,
    clock: u64,
    time: &[u8],
    stamp: Option<Stamp>,
) -> Result<(), AllocError>
    ensures { OnOk result
        (text.new.items ≡ text.old.items ++ clock_text clock time.now stamp) }
{
    put(text, "rejected at clock ")?;
    put_number(text, clock)?;
    put_place(text, time, stamp)
}

fn put_rule(text: &mut Vec<u8>, rule: u8, title: &str) -> Result<(), AllocError>
    ensures { OnOk result (text.new.items ≡ text.old.items ++ rule_text rule title.now) }
{
    put(text, ": rule ")?;
    put_number(text, u64::from(rule))?;
    put(text, ", ")?;
    put(text, title)
}

fn put_place(text: &mut Vec<u8>, time: &[u8], stamp: Option<Stamp>) -> Result<(), AllocError>
    ensures { OnOk result (text.new.items ≡ text.old.items ++ place_text time.now stamp) }
{
    match stamp {
        None => Ok(()),
        Some(stamp) => {
            put(text, ", ")?;
            text.extend_from_slice(time)?;
            put(text, " (line ")?;
            put_number(text, stamp.line)?;
            put(text, " of the file)")
        }
    }
}
