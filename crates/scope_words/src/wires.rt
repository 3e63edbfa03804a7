//! The wires that an order names.

ghost use Rattle.std.specs.Prelude.{◌≡◌, IfOk, IfErr, IfSome, Some, map};
ghost use Rattle.scope_wiring.specs.Settling.{said_by};
ghost use Rattle.scope_wiring.specs.Texts.{said};
ghost use Rattle.scope_words.specs.Names.{Lines, SampledLines};
ghost use Rattle.scope_words.specs.Orders.{IsError, IsName, KeepsWires};

use crate::names::read_line_names;
use crate::order::{Edge, Wires};
use crate::told::{Stop, wrong, wrong_value};
use clap::ArgMatches;
use scope_pick::{is_listed, line_named};
use scope_wiring::{Choice, LineOption, line_option};
use std::alloc::Global;

const LINES: &str =
    "the lines: BCLK, BREQ0_n to BREQ3_n, BPRI_n, LOCK_n, BNR_n, ADS_n, REQ_n, A_n, AERR_n, HIT_n, HITM_n, DEFER_n, RS_n, TRDY_n, DBSY_n, DRDY_n, D_n, AP_n, RP_n";

const SAMPLED: &str =
    "the lines: BREQ0_n to BREQ3_n, BPRI_n, LOCK_n, BNR_n, ADS_n, REQ_n, A_n, AERR_n, HIT_n, HITM_n, DEFER_n, RS_n, TRDY_n, DBSY_n, DRDY_n, D_n, AP_n, RP_n";

/// The number of BCLK.
const CLOCK: u8 = 0;

const ONE_LINE: &str =
    "LINE=[!]PATH is wanted, as ADS_n=tb.dut.ads, A_n=tb.a[35:3] or HIT_n=!tb.hit";

/// The longest name, in bytes.
const NAME_LIMIT: usize = 4096;

/// A name of 1 to 4,096 bytes, or the error.
pub(crate) fn named<'a>(alloc: Global, what: &str, word: &'a str) -> Result<&'a str, Stop>
    ensures ok { IfOk result (λ w. (w ≡ word.entry) × IsName word.now) }
    ensures err { IfErr result IsError }
{
    if word.is_empty() || NAME_LIMIT < word.len() {
        let count = word.len();
        return Err(match format!(in alloc; "{what} has {count} bytes") {
            Ok(fault) => wrong(alloc, fault.as_str(), "a name has 1 to 4096 bytes"),
            Err(_) => Stop::Memory,
        });
    }
    Ok(word)
}

/// The wires that the options name.
pub(crate) fn wires_of<'a>(alloc: Global, found: &ArgMatches<'a>) -> Result<Wires<'a>, Stop>
    ensures ok { IfOk result KeepsWires }
    ensures err { IfErr result IsError }
{
    let scope = scope_of(alloc, found)?;
    let lines = line_options(alloc, found.get_strs("line").unwrap_or(&[]))?;
    let without = left_out(alloc, found.get_strs("without").unwrap_or(&[]))?;
    Ok(Wires {
        choice: Choice {
            scope,
            lines,
            without,
        },
        file: file_of(alloc, found)?,
        edge: edge_of(alloc, found)?,
        is_first: found.get_flag("first"),
        after: late_lines(alloc, found.get_strs("after").unwrap_or(&[]))?,
    })
}

fn scope_of(alloc: Global, found: &ArgMatches<'_>) -> Result<Option<Vec<u8>>, Stop>
    ensures ok { IfOk result (λ o. IfSome o (λ v. IsName v.items)) }
    ensures err { IfErr result IsError }
{
    match found.get_str("scope") {
        None => Ok(None),
        Some(word) => {
            let path = named(alloc, "--scope", word)?;
            Ok(Some(Vec::from_slice(alloc, path.as_bytes())?))
        }
    }
}

fn file_of<'a>(alloc: Global, found: &ArgMatches<'a>) -> Result<Option<&'a str>, Stop>
    ensures ok { IfOk result (λ o. IfSome o (λ w. IsName w.now)) }
    ensures err { IfErr result IsError }
{
    match found.get_str("lines") {
        None => Ok(None),
        Some(word) => Ok(Some(named(alloc, "--lines", word)?)),
    }
}

fn edge_of(alloc: Global, found: &ArgMatches<'_>) -> Result<Edge, Stop>
    ensures err { IfErr result IsError }
{
    match found.get_str("edge") {
        None => Ok(Edge::Rise),
        Some("rise") => Ok(Edge::Rise),
        Some("fall") => Ok(Edge::Fall),
        Some(word) => {
            Err(wrong_value(
                alloc,
                "--edge",
                word,
                "there is no such edge",
                "rise or fall may stand there",
            ))
        }
    }
}

// What the words behind `--line` say, in their order.
fn line_options(alloc: Global, words: &[&str]) -> Result<Vec<LineOption>, Stop>
    ensures ok { IfOk result (λ v. map (λ o. Some (said_by o)) v.items
        ≡ map (λ w. said w.now) words.now) }
    ensures err { IfErr result IsError }
{
    let mut options = Vec::new(alloc);
    for word in words {
        let word = named(alloc, "--line", *word)?;
        match line_option(alloc, word.as_bytes())? {
            None => return Err(no_option(alloc, word)),
            Some(option) => options.push(option)?,
        }
    }
    Ok(options)
}

// Why a word behind `--line` says nothing: its name is none of a line, or it has not the form.
fn no_option(alloc: Global, word: &str) -> Stop
    ensures { IsError result }
{
    match word.split_once("=") {
        None => wrong_value(alloc, "--line", word, "it has no =", ONE_LINE),
        Some((name, _)) => {
            if line_named(name.as_bytes()).is_some() {
                wrong_value(alloc, "--line", word, "no variable is named", ONE_LINE)
            } else {
                wrong_value(
                    alloc,
                    "--line",
                    word,
                    "no line of the bus has this name",
                    LINES,
                )
            }
        }
    }
}

// The lines that are left out, by their numbers.
fn left_out(alloc: Global, words: &[&str]) -> Result<Vec<u8>, Stop>
    ensures ok { IfOk result (λ v. Lines v.items) }
    ensures err { IfErr result IsError }
{
    let mut lines = Vec::new(alloc);
    for word in words {
        match line_named(word.as_bytes()) {
            None => {
                let fault = "no line of the bus has this name";
                return Err(wrong_value(alloc, "--without", *word, fault, LINES));
            }
            Some(line) => lines.push(line)?,
        }
    }
    Ok(lines)
}

// The lines that are sampled after the edge, by their numbers.
#[tactic(auto, unfolding(scope_pick::specs::Scopes::is_listed))]
fn late_lines(alloc: Global, words: &[&str]) -> Result<Vec<u8>, Stop>
    ensures ok { IfOk result (λ v. SampledLines v.items) }
    ensures err { IfErr result IsError }
{
    let mut lines = Vec::new(alloc);
    for word in words {
        let more = sampled_lines(alloc, *word)?;
        lines.extend_from_slice(&more)?;
    }
    Ok(lines)
}

// The lines that a word names, but for the clock, by whose edge all are sampled.
fn sampled_lines(alloc: Global, word: &str) -> Result<Vec<u8>, Stop>
    ensures ok { IfOk result (λ v. SampledLines v.items) }
    ensures err { IfErr result IsError }
{
    match read_line_names(alloc, word.as_bytes())? {
        None => {
            let fault = "these are no lines of the bus with commas between";
            Err(wrong_value(alloc, "--after", word, fault, SAMPLED))
        }
        Some(lines) => {
            if is_listed(&lines, CLOCK) {
                let fault = "BCLK is the clock itself: its edge says when the others are sampled";
                return Err(wrong_value(alloc, "--after", word, fault, SAMPLED));
            }
            Ok(lines)
        }
    }
}
