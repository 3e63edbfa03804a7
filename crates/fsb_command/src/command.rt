//! The command that the words of a command line are.
ghost use Rattle.std.specs.Prelude.{◌≡◌, IfOk, IfSome, OnOk, option_and_then, option_map};
ghost use Rattle.clap.specs.Matches.{first_value, found_of};
ghost use Rattle.clap.specs.Simple.{subcommand_rows_of};
ghost use Rattle.fsb_command.specs.Form.{KeepsLimits, form_of, looks};
ghost use Rattle.fsb_command.specs.Command.{IsCommand, form_meant, task_meant};
ghost use Rattle.fsb_command.specs.Found.{asked_found, form_found, form_in};

use crate::number::{read_agents, read_items, read_seed};
use crate::range::read_range;
use crate::usage::find_words;
use crate::words::Words;
use clap::ArgMatches;
use fsb_io::Memory;
use fsb_trigger::Trigger;
use fsb_wave::ClockRange;
use std::alloc::Global;

/// What is asked of a dump.
#[derive(Drop)]
pub enum Task {
    /// To judge it.
    Check,
    /// To audit it.
    Audit,
    /// To tell it as a table.
    Show,
    /// To search it for a trigger.
    Find(Trigger),
    /// To draw a range of its clocks.
    Wave(ClockRange),
}

/// What the words of a command line ask for.
#[derive(Drop)]
pub enum Command<'a> {
    /// To run a bench file, and to write the dump under the other name where there is one.
    Run {
        bench: &'a str,
        dump: Option<&'a str>,
    },
    /// To look at a dump.
    Look {
        dump: &'a str,
        task: Task,
    },
    /// To run the plan that is made from a seed, for so many agents with so many items each.
    Gen {
        seed: u64,
        agents: u8,
        items: u16,
    },
}

/// The command that the words are, None exactly where they have no form.
pub fn read_words<'a>(alloc: Global, words: &'a Words) -> Result<Option<Command<'a>>, Memory>
    ensures form { IfOk result (IsCommand (form_of words.entry.now)) }
    ensures limits { IfOk result (λ command. IfSome command (λ c. KeepsLimits (form_meant c))) }
{
    if !words.may_stand() {
        return Ok(None);
    }
    match find_words(alloc, words.as_slice())? {
        Some(found) => Ok(found_command(&found)),
        None => Ok(None),
    }
}

// The command of what was found in the words.
fn found_command<'a>(found: &ArgMatches<'a>) -> Option<Command<'a>>
    ensures { IsCommand (option_and_then form_in (subcommand_rows_of found.now)) result }
{
    let (verb, arguments) = found.subcommand()?;
    command_of(verb, arguments)
}

// The command of a verb and of what was found for its arguments.
#[tactic(auto, unfolding(crate::specs::Found::form_found))]
fn command_of<'a>(verb: &str, found: &ArgMatches<'a>) -> Option<Command<'a>>
    ensures { IsCommand (form_found verb.now (first_value (found_of found.now))) result }
{
    match verb {
        "run" => Some(Command::Run {
            bench: found.get_str("bench")?,
            dump: found.get_str("dump"),
        }),
        "gen" => Some(Command::Gen {
            seed: read_seed(found.get_str("seed")?)?,
            agents: read_agents(found.get_str("agents")?)?,
            items: read_items(found.get_str("items")?)?,
        }),
        _ => Some(Command::Look {
            dump: found.get_str("dump")?,
            task: task_of(verb, found)?,
        }),
    }
}

// What a verb asks of a dump, by what was found for the arguments behind it.
fn task_of(verb: &str, found: &ArgMatches<'_>) -> Option<Task>
    ensures { option_map task_meant result ≡
        asked_found looks verb.now (first_value (found_of found.now)) }
{
    match verb {
        "check" => Some(Task::Check),
        "audit" => Some(Task::Audit),
        "show" => Some(Task::Show),
        "find" => Some(Task::Find(Trigger::read(found.get_str("trigger")?)?)),
        "wave" => Some(Task::Wave(read_range(found.get_str("from")?, found.get_str("to")?)?)),
        _ => None,
    }
}
