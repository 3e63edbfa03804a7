//! The program `p6scope`: the real files and standard output under the top call.
#![tactic(auto)]

ghost use Rattle.std.specs.Prelude.{◌≡◌, ◌≢◌, Err, IfErr, IfOk};
ghost use Rattle.std.specs.IoError.{error_kind};
ghost use Rattle.std.specs.Process.{exit_status};
ghost use Rattle.scope_report.specs.Endings.{status_of};
ghost use Rattle.scope_top.specs.Ends.{ending_at};
ghost use Rattle.scope_words.specs.Orders.{KeepsLimits};

mod views;

use crate::views::{refused, warn_unwritten};
use fsb_io::{FileSink, FileSource, Memory, Sink, StdoutSink, put_all};
use scope_report::{Ending, status, unread_text};
use scope_top::{Ended, Stop, ViewStop, ending_at, perform};
use scope_words::{Format, Order, Reading, Told, Views, read_order};
use std::alloc::{AllocError, Global};
use std::env::Args;
use std::fs;
use std::io::{self, ErrorKind, Read};
use std::process::ExitCode;
use std::rt::{Env, Files};

fn main(rt: HostRuntime) -> ExitCode {
    // Standard error has no name, as standard output has none, and is written in the same way.
    let stderr = rt.stderr();
    exit(run(&rt, &mut StdoutSink::new(&stderr)))
}

// The end of the program.
fn exit(ending: Ending) -> ExitCode
    ensures { exit_status result ≡ status_of ending }
{
    ExitCode::from(status(ending))
}

// Does what the program's words ask for.
fn run<E: Sink>(rt: &(impl Files + Env + Print + AllocGlobal), err: &mut E) -> Ending {
    match words_of(rt) {
        Err(ending) => {
            warn(err, unheard(ending));
            ending
        }
        Ok(words) => match read_order(rt.alloc(), &words) {
            Err(Memory) => ended(rt, Err(Stop::Memory), NAMES, err),
            Ok(Reading::Told(told)) => print_told(rt, &told, err),
            Ok(Reading::Order(order)) => obey(rt, order, err),
        },
    }
}

// Writes to standard error, as far as that can be written.
pub(crate) fn warn<E: Sink>(err: &mut E, text: &[u8]) {
    let _ = put_all(err, text);
}

// Prints a text that stands in place of an order.
fn print_told<E: Sink>(
    rt: &(impl Files + Print + AllocGlobal),
    told: &Told,
    err: &mut E,
) -> Ending {
    let text = told.text.as_bytes();
    if told.is_error {
        warn(err, text);
        return Ending::BadWords;
    }
    match put_all(&mut StdoutSink::new(rt), text) {
        Ok(()) => Ending::Clean,
        Err(_) => ended(rt, Err(Stop::Out), NAMES, err),
    }
}

// Does what an order asks for, unless the files that it names to be written are refused.
fn obey<E: Sink>(rt: &(impl Files + Print + AllocGlobal), order: Order<'_>, err: &mut E) -> Ending
    requires { KeepsLimits order }
{
    match refused(rt, dump_of(&order), lines_of(&order), views_of(&order)) {
        Err(AllocError) => ended(rt, Err(Stop::Memory), NAMES, err),
        Ok(Some(text)) => {
            warn(err, &text);
            Ending::BadWords
        }
        Ok(None) => carry_out(rt, order, err),
    }
}

// Does what an order asks for. The save file is never the dump, and the cut never one of the two.
fn carry_out<E: Sink>(
    rt: &(impl Files + Print + AllocGlobal),
    order: Order<'_>,
    err: &mut E,
) -> Ending
    requires { KeepsLimits order }
{
    let names = Names {
        lines: lines_of(&order),
        dump: dump_of(&order),
        views: views_of(&order),
    };
    let mut save = FileSink::new(rt, Some(names.dump));
    let mut cut = FileSink::new(rt, Some(names.views.save.unwrap_or(names.dump)));
    let end = perform(
        rt.alloc(),
        order,
        is_again(rt, names.dump),
        &mut FileSource::new(rt),
        &mut FileSource::new(rt),
        &mut StdoutSink::new(rt),
        err,
        &mut save,
        &mut cut,
    );
    let end = stored(end, &mut save, &mut cut);
    ended(rt, end, names, err)
}

// The names of the files of an order.
#[derive(Clone, Copy)]
struct Names<'a> {
    lines: &'a str,
    dump: &'a str,
    views: Views<'a>,
}

const NAMES: Names<'static> = Names {
    lines: "",
    dump: "",
    views: NO_VIEWS,
};

const NO_VIEWS: Views<'static> = Views {
    format: Format::Text,
    save: None,
    cut: None,
};

// The end of a command, once the system has stored the files that were written.
fn stored<R: Files + Print>(
    end: Result<Ended, Stop>,
    save: &mut FileSink<'_, R>,
    cut: &mut FileSink<'_, R>,
) -> Result<Ended, Stop>
    ensures err { IfErr end (λ stop. result ≡ Err stop) }
    ensures ok { IfOk end (λ told. IfOk result (λ ended. ended.ending ≡ told.ending)) }
{
    let told = end?;
    let shown = match told.shown {
        Err(stop) => Err(stop),
        Ok(()) => stored_files(save, cut),
    };
    Ok(Ended {
        ending: told.ending,
        shown,
    })
}

fn stored_files<R: Files + Print>(
    save: &mut FileSink<'_, R>,
    cut: &mut FileSink<'_, R>,
) -> Result<(), ViewStop> {
    if save.store().is_err() {
        return Err(ViewStop::Save);
    }
    if cut.store().is_err() {
        return Err(ViewStop::Cut);
    }
    Ok(())
}

// Whether a file can be read again: a regular one, and no pipe. Without a name there is none.
fn is_again(rt: &impl Files, name: &str) -> bool {
    match fs::metadata(rt, name) {
        Ok(found) => found.is_file(),
        Err(_) => false,
    }
}

// The name of the dump of an order.
fn dump_of<'a>(order: &Order<'a>) -> &'a str {
    match order {
        Order::Lines { dump } => *dump,
        Order::Check { dump, .. } => *dump,
        Order::Coherence { dump, .. } => *dump,
        Order::Table { dump, .. } => *dump,
        Order::Pick { dump, .. } => *dump,
        Order::Rule { .. } => "",
    }
}

// The name of the file of `--lines`.
fn lines_of<'a>(order: &Order<'a>) -> &'a str {
    match order {
        Order::Check { wires, .. } => wires.file.unwrap_or(""),
        Order::Coherence { wires, .. } => wires.file.unwrap_or(""),
        Order::Table { wires, .. } => wires.file.unwrap_or(""),
        Order::Pick { wires, .. } => wires.file.unwrap_or(""),
        Order::Lines { .. } | Order::Rule { .. } => "",
    }
}

// The files that an order names to show a broken rule.
fn views_of<'a>(order: &Order<'a>) -> Views<'a> {
    match order {
        Order::Check { views, .. } => *views,
        Order::Lines { .. } | Order::Coherence { .. } => NO_VIEWS,
        Order::Table { .. } | Order::Pick { .. } | Order::Rule { .. } => NO_VIEWS,
    }
}

// The end of a command: where it did not come to its end, or a file was not written, why is told.
fn ended<E: Sink>(
    rt: &(impl Files + AllocGlobal),
    end: Result<Ended, Stop>,
    names: Names<'_>,
    err: &mut E,
) -> Ending
    ensures { result ≡ ending_at end }
{
    match end {
        Ok(ended) => warn_unshown(rt, ended.shown, names, err),
        Err(Stop::Memory) => warn(err, NO_MEMORY),
        Err(Stop::Out) => warn(err, b"p6scope: its text could not be written\n"),
        Err(Stop::Lines) => warn_unread(rt, names.lines, err),
        Err(Stop::Dump) => warn_unread(rt, names.dump, err),
    }
    ending_at(end)
}

// Tells why a file that shows a broken rule is not written.
fn warn_unshown<E: Sink>(
    rt: &(impl Files + AllocGlobal),
    shown: Result<(), ViewStop>,
    names: Names<'_>,
    err: &mut E,
) {
    match shown {
        Ok(()) => {}
        Err(ViewStop::Memory) => warn(err, NO_MEMORY),
        Err(ViewStop::Dump) => warn_unread(rt, names.dump, err),
        Err(ViewStop::Save) => warn_unwritten(rt, names.views.save.unwrap_or(""), err),
        Err(ViewStop::Cut) => warn_unwritten(rt, names.views.cut.unwrap_or(""), err),
        Err(ViewStop::Changed) => warn(err, b"p6scope: the dump has changed while it was read\n"),
    }
}

const NO_MEMORY: &[u8] = b"p6scope: out of memory\n";

// Tells that a file was not read, with the reason of the system.
fn warn_unread<E: Sink>(rt: &(impl Files + AllocGlobal), name: &str, err: &mut E) {
    match unread(rt, name) {
        Ok(text) => warn(err, &text),
        Err(AllocError) => warn(err, b"p6scope: a file could not be read\n"),
    }
}

fn unread(rt: &(impl Files + AllocGlobal), name: &str) -> Result<Vec<u8>, AllocError> {
    let reason = reason(rt, name)?;
    unread_text(rt.alloc(), name, reason.as_str())
}

// Why a file cannot be read: what the system says where it is tried once more.
fn reason(rt: &(impl Files + AllocGlobal), name: &str) -> Result<String, AllocError> {
    let alloc = rt.alloc();
    match fs::open(rt, name) {
        Err(error) => format!(in alloc; "{error}"),
        Ok(mut file) => match file.read(&mut [0; 1]) {
            Err(error) => format!(in alloc; "{error}"),
            Ok(_) => String::from_str(alloc, "reading failed"),
        },
    }
}

// The words that the program was called with.
fn words_of(rt: &(impl Env + AllocGlobal)) -> Result<Vec<String>, Ending> {
    match std::env::args(rt) {
        Ok(args) => match words_after_name(rt.alloc(), args) {
            Ok(words) => Ok(words),
            Err(AllocError) => Err(Ending::NoMemory),
        },
        Err(error) => Err(no_words(error.kind())),
    }
}

// The end of a call whose words could not be had: memory lacked, or they are no text.
fn no_words(kind: ErrorKind) -> Ending
    ensures memory { kind ≡ ErrorKind.OutOfMemory → result ≡ Ending.NoMemory }
    ensures no_text { kind ≢ ErrorKind.OutOfMemory → result ≡ Ending.BadWords }
{
    if kind == ErrorKind::OutOfMemory {
        Ending::NoMemory
    } else {
        Ending::BadWords
    }
}

// Why the words could not be had, by the end that comes of it.
fn unheard(ending: Ending) -> &'static [u8] {
    if ending == Ending::NoMemory {
        b"p6scope: out of memory\n"
    } else {
        b"p6scope: a word of the command is no text: it is not UTF-8\n"
    }
}

// The words after the program's name.
fn words_after_name(alloc: Global, mut args: Args) -> Result<Vec<String>, AllocError> {
    let mut words = Vec::new(alloc);
    if args.next().is_none() {
        return Ok(words);
    }
    for word in args {
        words.push(word)?;
    }
    Ok(words)
}
