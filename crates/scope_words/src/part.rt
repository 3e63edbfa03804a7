//! The part of a dump that an order names.

ghost use Rattle.std.specs.Prelude.{◌≡◌, ◌≤◌, IfOk, IfErr};
ghost use Rattle.scope_words.specs.Orders.{IsError, IsMost, KeepsPart, ends_before};

use crate::moment::{Moment, read_moment};
use crate::number::read_count;
use crate::order::Part;
use crate::told::{Stop, wrong, wrong_value};
use clap::ArgMatches;
use std::alloc::Global;

const CLOCK: &str =
    "a clock number, as 1200, or a time with its unit, as 285ns (s, ms, us, ns, ps, fs), may stand there";

/// How many clocks without an asserted line make a quiet clock, where the user doesn't say.
const QUIET: u32 = 32;

/// How many broken rules are looked for with `--resume`, at most and where the user doesn't say.
const MOST: u32 = 16;

/// The part that the options name.
pub(crate) fn part_of(alloc: Global, found: &ArgMatches<'_>) -> Result<Part, Stop>
    ensures ok { IfOk result KeepsPart }
    ensures err { IfErr result IsError }
{
    let at = moment_of(alloc, found, "at", "--at")?;
    let from = moment_of(alloc, found, "from", "--from")?;
    let to = moment_of(alloc, found, "to", "--to")?;
    let quiet = quiet_of(alloc, found)?;
    let most = most_of(alloc, found)?;
    if at.is_some() && from.is_some() {
        let wanted =
            "--at begins exactly at a clock, --from at the first quiet one: only one of them may stand";
        return Err(wrong(alloc, "both --at and --from are there", wanted));
    }
    if ends_before(at, to) || ends_before(from, to) {
        let wanted = "the clock of --to is the last one that is judged";
        return Err(wrong(
            alloc,
            "--to lies before the clock at which the part begins",
            wanted,
        ));
    }
    Ok(Part {
        at,
        from,
        to,
        quiet,
        most,
    })
}

// Whether both are numbers of clocks, and the end lies before the begin.
#[tactic(auto, unfolding(crate::specs::Orders::ends_before))]
fn ends_before(begin: Option<Moment>, end: Option<Moment>) -> bool
    ensures { result ≡ ends_before begin end }
{
    match begin {
        Some(Moment::Clock(begin)) => match end {
            Some(Moment::Clock(end)) => end < begin,
            _ => false,
        },
        _ => false,
    }
}

fn moment_of(
    alloc: Global,
    found: &ArgMatches<'_>,
    id: &str,
    option: &str,
) -> Result<Option<Moment>, Stop>
    ensures err { IfErr result IsError }
{
    match found.get_str(id) {
        None => Ok(None),
        Some(word) => match read_moment(word.as_bytes()) {
            None => Err(wrong_value(alloc, option, word, "this is no clock", CLOCK)),
            Some(moment) => Ok(Some(moment)),
        },
    }
}

fn quiet_of(alloc: Global, found: &ArgMatches<'_>) -> Result<u32, Stop>
    ensures ok { IfOk result (λ n. 1 ≤ n) }
    ensures err { IfErr result IsError }
{
    match found.get_str("quiet") {
        None => Ok(QUIET),
        Some(word) => match read_count(word.as_bytes()) {
            None | Some(0) => {
                let wanted = "a number of clocks may stand there, 1 to 4294967295";
                Err(wrong_value(
                    alloc,
                    "--quiet",
                    word,
                    "this is no number of clocks",
                    wanted,
                ))
            }
            Some(count) => Ok(count),
        },
    }
}

// Up to how many broken rules are looked for.
fn most_of(alloc: Global, found: &ArgMatches<'_>) -> Result<u32, Stop>
    ensures ok { IfOk result IsMost }
    ensures err { IfErr result IsError }
{
    let resumes = found.get_flag("resume");
    match found.get_str("max") {
        None => Ok(if resumes { MOST } else { 1 }),
        Some(word) => most_named(alloc, resumes, word),
    }
}

// The number behind `--max`, which stands beside `--resume` alone.
fn most_named(alloc: Global, resumes: bool, word: &str) -> Result<u32, Stop>
    ensures ok { IfOk result IsMost }
    ensures err { IfErr result IsError }
{
    if !resumes {
        let wanted = "--max says up to how many broken rules --resume looks for";
        return Err(wrong(alloc, "--max is there without --resume", wanted));
    }
    match read_count(word.as_bytes()) {
        Some(count) if 1 <= count && count <= MOST => Ok(count),
        _ => {
            let wanted = "a number of broken rules may stand there, 1 to 16";
            Err(wrong_value(alloc, "--max", word, "this is no such number", wanted))
        }
    }
}
