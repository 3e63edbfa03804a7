//! The order that the words of a command line are.

ghost use Rattle.std.specs.Prelude.{◌≡◌, ◌≤◌, IfOk, IfErr, IfSome};
ghost use Rattle.scope_words.specs.Orders.{IsError, IsName, IsReading, KeepsLimits};

use crate::number::read_rule;
use crate::order::Order;
use crate::part::part_of;
use crate::told::{Stop, Told, told_by_clap, wrong, wrong_value};
use crate::usage::usage;
use crate::views::{table_form_of, views_of};
use crate::wires::{named, wires_of};
use clap::ArgMatches;
use fsb_io::Memory;
use std::alloc::Global;

/// What the words of a command line are: an order, or a text to print in place of one.
#[derive(Debug, Drop)]
pub enum Reading<'a> {
    Order(Order<'a>),
    Told(Told),
}

/// What the words behind the program's name ask for.
pub fn read_order<'a>(alloc: Global, words: &'a [String]) -> Result<Reading<'a>, Memory>
    ensures { IfOk result IsReading }
{
    match order_of(alloc, words) {
        Ok(order) => Ok(Reading::Order(order)),
        Err(Stop::Told(told)) => Ok(Reading::Told(told)),
        Err(Stop::Memory) => Err(Memory),
    }
}

fn order_of<'a>(alloc: Global, words: &'a [String]) -> Result<Order<'a>, Stop>
    ensures { IfOk result KeepsLimits }
{
    match usage(alloc)?.try_get_matches_from(words) {
        Ok(found) => match found.subcommand() {
            Some((verb, found)) => order_behind(alloc, verb, found),
            None => Err(no_verb(alloc)),
        },
        Err(error) => Err(told_by_clap(alloc, first_word(words), &error)),
    }
}

fn no_verb(alloc: Global) -> Stop
    ensures { IsError result }
{
    wrong(
        alloc,
        "no command is there",
        "the commands: lines, check, coherence, table, pick, rule; each has --help",
    )
}

fn first_word<'a>(words: &'a [String]) -> Option<&'a str> {
    match words.first() {
        Some(word) => Some(word.as_str()),
        None => None,
    }
}

// The order of a verb and of what was found behind it.
fn order_behind<'a>(alloc: Global, verb: &str, found: &ArgMatches<'a>) -> Result<Order<'a>, Stop>
    ensures ok { IfOk result KeepsLimits }
    ensures err { IfErr result IsError }
{
    match verb {
        "lines" => Ok(Order::Lines {
            dump: dump_of(alloc, found)?,
        }),
        "check" => Ok(Order::Check {
            wires: wires_of(alloc, found)?,
            part: part_of(alloc, found)?,
            views: views_of(alloc, found)?,
            dump: dump_of(alloc, found)?,
        }),
        "coherence" => Ok(Order::Coherence {
            wires: wires_of(alloc, found)?,
            part: part_of(alloc, found)?,
            dump: dump_of(alloc, found)?,
        }),
        "table" => Ok(Order::Table {
            wires: wires_of(alloc, found)?,
            part: part_of(alloc, found)?,
            form: table_form_of(alloc, found)?,
            dump: dump_of(alloc, found)?,
        }),
        "pick" => Ok(Order::Pick {
            wires: wires_of(alloc, found)?,
            part: part_of(alloc, found)?,
            dump: dump_of(alloc, found)?,
        }),
        "rule" => Ok(Order::Rule {
            number: rule_of(alloc, found)?,
        }),
        _ => Err(no_verb(alloc)),
    }
}

fn dump_of<'a>(alloc: Global, found: &ArgMatches<'a>) -> Result<&'a str, Stop>
    ensures ok { IfOk result (λ w. IsName w.now) }
    ensures err { IfErr result IsError }
{
    match found.get_str("dump") {
        None => Err(wrong(
            alloc,
            "no dump is named",
            "the name of a VCD file is wanted",
        )),
        Some(word) => named(alloc, "the name of the dump", word),
    }
}

fn rule_of(alloc: Global, found: &ArgMatches<'_>) -> Result<Option<u8>, Stop>
    ensures ok { IfOk result (λ o. IfSome o (λ n. (1 ≤ n) × (n ≤ 31))) }
    ensures err { IfErr result IsError }
{
    match found.get_str("rule") {
        None => Ok(None),
        Some(word) => match read_rule(word.as_bytes()) {
            None => {
                let wanted =
                    "a number from 1 to 31 may stand there; without one all rules are listed";
                Err(wrong_value(alloc, "rule", word, "there is no such rule", wanted))
            }
            Some(rule) => Ok(Some(rule)),
        },
    }
}
