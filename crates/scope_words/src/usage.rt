//! The command line as `clap` is told of it.
//!
//! A command is handed on as the `Result` that it came as, and only `with` and `with_verb` open it. Each `?` is a way out of
//! its function that drops whole commands: a chain with a `?` behind each call takes the prover minutes.

use clap::{Arg, ArgAction, Command};
use std::alloc::{AllocError, Global};

const VERSION: &str = "0.1.0";

const WIRES: &str = "Which wires are the bus";

const PART: &str = "Which clocks are judged, or written";

const VIEWS: &str = "The report, and what is written beside that of a broken rule";

/// The program with its verbs.
pub(crate) fn usage<'a>(alloc: Global) -> Result<Command<'a>, AllocError> {
    let usage = with_verb(program(alloc), lines(alloc));
    let usage = with_verb(usage, check(alloc));
    let usage = with_verb(usage, coherence(alloc));
    let usage = with_verb(usage, table(alloc));
    let usage = with_verb(usage, pick(alloc));
    with_verb(usage, rule(alloc))
}

// The program without its verbs.
fn program<'a>(alloc: Global) -> Result<Command<'a>, AllocError> {
    command(alloc, "p6scope")
        .about("Judges and explains the dump of a snooping bus, whatever tool wrote it")
        .version(VERSION)
        .propagate_version(true)
        .no_binary_name(true)
        .disable_help_subcommand(true)
        .subcommand_required(true)
        .bin_name("p6scope")
}

fn lines<'a>(alloc: Global) -> Result<Command<'a>, AllocError> {
    let about =
        "Lists the scopes and the lines of the bus that a dump declares, and what is missing";
    with(verb(alloc, "lines", about), dump(alloc))
}

fn check<'a>(alloc: Global) -> Result<Command<'a>, AllocError> {
    let about = "Says whether the bus keeps its rules, and explains the first one that it breaks";
    let judged = with_resumed(alloc, with_judged(alloc, verb(alloc, "check", about)));
    with_views(alloc, judged)
}

fn coherence<'a>(alloc: Global) -> Result<Command<'a>, AllocError> {
    let about = "Says whether a coherent system could have made the wires: all rules, 1 to 31";
    with_judged(alloc, verb(alloc, "coherence", about))
}

fn table<'a>(alloc: Global) -> Result<Command<'a>, AllocError> {
    let about = "Prints the requests of the bus, a line each, while it reads the dump";
    let judged = with_judged(alloc, verb(alloc, "table", about));
    let help = "The form of the table: text or csv [default: text]";
    with(judged, option(alloc, "format", help).value_name("FORMAT"))
}

fn pick<'a>(alloc: Global) -> Result<Command<'a>, AllocError> {
    let about = "Writes the lines of the bus as a dump of its own, for p6bench and any viewer";
    with_judged(alloc, verb(alloc, "pick", about))
}

fn rule<'a>(alloc: Global) -> Result<Command<'a>, AllocError> {
    with(
        verb(alloc, "rule", "Prints the text of a rule"),
        number(alloc),
    )
}

// A verb with what help says of it.
fn verb<'a>(alloc: Global, name: &'a str, about: &'a str) -> Result<Command<'a>, AllocError> {
    command(alloc, name).about(about).display_name("p6scope")
}

// A dump, and the options that say which part of it is judged.
fn with_judged<'a>(
    alloc: Global,
    verb: Result<Command<'a>, AllocError>,
) -> Result<Command<'a>, AllocError> {
    let verb = with_wires(alloc, with(verb, dump(alloc)));
    with_part(alloc, with_edge(alloc, verb))
}

// The options that say which wires are the bus.
fn with_wires<'a>(
    alloc: Global,
    verb: Result<Command<'a>, AllocError>,
) -> Result<Command<'a>, AllocError> {
    let help = "The scope of the bus, as tb.dut.bus; a dot alone is the root";
    let verb = with(verb, wires(alloc, "scope", "PATH", help));
    let help = "The variable that is a line, as A_n=tb.a[35:3]; ! says that it is active high";
    let verb = with(verb, many(wires(alloc, "line", "LINE=[!]PATH", help)));
    let help = "A file with such words, one a line; # at the front makes a note";
    let verb = with(verb, wires(alloc, "lines", "FILE", help));
    let help = "A line that reads as never asserted, declared or not";
    with(verb, many(wires(alloc, "without", "LINE", help)))
}

// The options that say when the wires are sampled.
fn with_edge<'a>(
    alloc: Global,
    verb: Result<Command<'a>, AllocError>,
) -> Result<Command<'a>, AllocError> {
    let help = "The edge of BCLK at which the lines are sampled: rise or fall [default: rise]";
    let verb = with(verb, wires(alloc, "edge", "EDGE", help));
    let verb = with(verb, first(alloc));
    let help = "The lines that are sampled after the changes of the edge's own time";
    with(verb, many(wires(alloc, "after", "LINE,..", help)))
}

// The options that say which clocks are judged.
fn with_part<'a>(
    alloc: Global,
    verb: Result<Command<'a>, AllocError>,
) -> Result<Command<'a>, AllocError> {
    let help = "Exactly from this clock on, where nothing is under way: 1200, or 285ns";
    let verb = with(verb, part(alloc, "at", "C", help));
    let help = "From the first quiet clock at or above this one on: 1200, or 285ns";
    let verb = with(verb, part(alloc, "from", "C", help));
    let verb = with(verb, part(alloc, "to", "C", "Up to this clock"));
    let help = "How many clocks without an asserted line a part begins behind [default: 32]";
    with(verb, part(alloc, "quiet", "N", help))
}

// The options that say whether judging goes on behind a broken rule.
fn with_resumed<'a>(
    alloc: Global,
    verb: Result<Command<'a>, AllocError>,
) -> Result<Command<'a>, AllocError> {
    let help = "Goes on behind a broken rule, from the next quiet clock on";
    let resume = option(alloc, "resume", help);
    let verb = with(verb, resume.action(ArgAction::SetTrue).help_heading(PART));
    let help = "Up to how many broken rules --resume looks for, 1 to 16 [default: 16]";
    with(verb, part(alloc, "max", "N", help))
}

// The options that say how what was found is shown.
fn with_views<'a>(
    alloc: Global,
    verb: Result<Command<'a>, AllocError>,
) -> Result<Command<'a>, AllocError> {
    let help = "The form of the report: text, json or csv [default: text]";
    let verb = with(verb, view(alloc, "format", "FORMAT", help));
    let help = "Writes a save file for GTKWave: the wires, and a marker on the broken clock";
    let verb = with(verb, view(alloc, "save", "FILE", help));
    let help = "Writes the lines of the bus around the broken clock as a dump of its own";
    with(verb, view(alloc, "cut", "FILE", help))
}

fn dump<'a>(alloc: Global) -> Arg<'a> {
    argument(alloc, "dump", "A VCD file")
        .required(true)
        .value_name("DUMP")
}

fn number<'a>(alloc: Global) -> Arg<'a> {
    let help = "The number of a rule, 1 to 31; without it all titles are listed";
    argument(alloc, "rule", help).value_name("N")
}

// The flag of a clock that is first seen high.
fn first<'a>(alloc: Global) -> Arg<'a> {
    let help = "A clock that is first seen high has its first edge there";
    option(alloc, "first", help)
        .action(ArgAction::SetTrue)
        .help_heading(WIRES)
}

// An option of the wires, with a value.
fn wires<'a>(alloc: Global, name: &'a str, value: &'a str, help: &'a str) -> Arg<'a> {
    option(alloc, name, help)
        .value_name(value)
        .help_heading(WIRES)
}

// An option of the part, with a value.
fn part<'a>(alloc: Global, name: &'a str, value: &'a str, help: &'a str) -> Arg<'a> {
    option(alloc, name, help)
        .value_name(value)
        .help_heading(PART)
}

// An option of the report, with a value.
fn view<'a>(alloc: Global, name: &'a str, value: &'a str, help: &'a str) -> Arg<'a> {
    option(alloc, name, help)
        .value_name(value)
        .help_heading(VIEWS)
}

// An option that may stand more than once.
fn many<'a>(option: Arg<'a>) -> Arg<'a> {
    option.action(ArgAction::Append)
}

fn option<'a>(alloc: Global, name: &'a str, help: &'a str) -> Arg<'a> {
    argument(alloc, name, help).long(name)
}

// Stands alone, without a contract: what `Arg::new` says of each field would go with all calls behind it.
fn argument<'a>(alloc: Global, name: &'a str, help: &'a str) -> Arg<'a> {
    Arg::new(alloc, name).help(help)
}

// Stands alone as `argument` does.
fn command<'a>(alloc: Global, name: &'a str) -> Command<'a> {
    Command::new(alloc, name)
}

// A command with one more argument.
fn with<'a>(
    command: Result<Command<'a>, AllocError>,
    argument: Arg<'a>,
) -> Result<Command<'a>, AllocError> {
    command?.arg(argument)
}

// A program with one more verb.
fn with_verb<'a>(
    program: Result<Command<'a>, AllocError>,
    verb: Result<Command<'a>, AllocError>,
) -> Result<Command<'a>, AllocError> {
    program?.subcommand(verb?)
}
