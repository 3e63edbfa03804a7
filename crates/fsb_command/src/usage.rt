//! The command line as `clap` is told of it.
ghost use Rattle.std.specs.Prelude.{◌≡◌, IfOk, false, map};
ghost use Rattle.std.specs.List.{fold};
ghost use Rattle.std.specs.String.{string_bytes};
ghost use Rattle.clap.specs.Simple.{app_of, shape_of, with_subcommand};
ghost use Rattle.clap.specs.declared.builder.command.Command.TheViews.{out-Command as fields_of};
ghost use Rattle.clap.specs.Walk.{rule_of};
ghost use Rattle.fsb_command.specs.Usage.{IsFound, needed, usage, verb_of, verb_told};

use clap::error::ErrorKind;
use clap::{Arg, ArgMatches, Command};
use fsb_io::Memory;
use std::alloc::Global;

/// What `clap` finds in the words; none where it refuses them.
pub(crate) fn find_words<'a>(
    alloc: Global,
    words: &'a [String],
) -> Result<Option<ArgMatches<'a>>, Memory>
    ensures { IfOk result (IsFound (map (λ s. string_bytes s) words.entry.now)) }
{
    match usage(alloc)?.try_get_matches_from(words) {
        Ok(matches) => Ok(Some(matches)),
        Err(error) => match error.kind() {
            ErrorKind::OutOfMemory => Err(Memory),
            _ => Ok(None),
        },
    }
}

// The program with its verbs.
fn usage<'a>(alloc: Global) -> Result<Command<'a>, Memory>
    ensures { IfOk result (λ c. app_of c ≡ usage) }
{
    let run = Command::new(alloc, "run")
        .arg(needed(alloc, "bench"))?
        .arg(Arg::new(alloc, "dump"))?;
    let usage = Command::new(alloc, "p6bench")
        .no_binary_name(true)
        .disable_help_flag(true)
        .disable_help_subcommand(true)
        .subcommand_required(true)
        .subcommand(run)?;
    let usage = with_verb(alloc, usage, "gen", &["seed", "agents", "items"])?;
    let looks = [
        LookVerb {
            name: "check",
            ids: &["dump"],
        },
        LookVerb {
            name: "audit",
            ids: &["dump"],
        },
        LookVerb {
            name: "show",
            ids: &["dump"],
        },
        LookVerb {
            name: "find",
            ids: &["dump", "trigger"],
        },
        LookVerb {
            name: "wave",
            ids: &["dump", "from", "to"],
        },
    ];
    with_looks(alloc, usage, &looks)
}

// A verb that looks at a dump, and the names of its arguments.
#[derive(Clone, Copy)]
struct LookVerb<'a> {
    name: &'a str,
    ids: &'a [&'a str],
}

// The verbs that look at a dump, behind those that are there.
fn with_looks<'a>(
    alloc: Global,
    usage: Command<'a>,
    looks: &[LookVerb<'a>],
) -> Result<Command<'a>, Memory>
    ensures { IfOk result (λ c.
        app_of c ≡ fold with_subcommand (app_of usage.entry) (map verb_told looks.now)) }
{
    let mut usage = usage;
    for look in looks {
        usage = with_verb(alloc, usage, look.name, look.ids)?;
    }
    Ok(usage)
}

// One verb more, whose arguments all have to be there.
fn with_verb<'a>(
    alloc: Global,
    usage: Command<'a>,
    name: &'a str,
    ids: &[&'a str],
) -> Result<Command<'a>, Memory>
    ensures { IfOk result (λ c. app_of c ≡ with_subcommand (app_of usage.entry)
        (verb_of name.entry.now (map (λ s. s.now) ids.now))) }
{
    Ok(usage.subcommand(verb(alloc, name, ids)?)?)
}

// A verb whose arguments all have to be there.
fn verb<'a>(alloc: Global, name: &'a str, ids: &[&'a str]) -> Result<Command<'a>, Memory>
    ensures shape { IfOk result (λ c.
        shape_of c ≡ verb_of name.entry.now (map (λ s. s.now) ids.now)) }
    ensures local { IfOk result (λ c. (fields_of c).has_globals ≡ false) }
{
    let mut verb = Command::new(alloc, name);
    for id in ids {
        verb = verb.arg(needed(alloc, *id))?;
    }
    Ok(verb)
}

// An argument that has to be there.
fn needed<'a>(alloc: Global, id: &'a str) -> Arg<'a>
    ensures rule { rule_of result ≡ needed id.entry.now }
    ensures local { result.global ≡ false }
{
    Arg::new(alloc, id).required(true)
}
