//! The texts that are printed in place of an order.

ghost use Rattle.std.specs.Prelude.{◌≡◌, IfOk, true, false, if◌then◌else◌};
ghost use Rattle.scope_words.specs.Orders.{IsError};

use clap::error::ErrorKind;
use fsb_io::Memory;
use std::alloc::{AllocError, AllocFailed, Global};

/// A text that is printed in place of an order: help and the version to standard output, an error to standard error.
#[derive(Debug, Drop)]
pub struct Told {
    pub text: String,
    pub is_error: bool,
}

impl Told {
    /// The exit status: 2 for an error, else 0.
    pub fn status(&self) -> u8
        ensures { result ≡ (if self.now.is_error then 2 else 0) }
    {
        if self.is_error { 2 } else { 0 }
    }
}

/// Why there is no order.
#[derive(Debug, Drop)]
pub(crate) enum Stop {
    Told(Told),
    Memory,
}

impl From<AllocError> for Stop {
    ghost use Rattle.scope_words.specs.Orders.{LacksMemory};

    ghost from_gives = { λ _ stop. LacksMemory stop };

    fn from(_error: AllocError) -> Stop {
        Stop::Memory
    }
}

impl<T: Drop> From<AllocFailed<T>> for Stop {
    ghost use Rattle.scope_words.specs.Orders.{LacksMemory};

    ghost from_gives = { λ _ stop. LacksMemory stop };

    fn from(_error: AllocFailed<T>) -> Stop {
        Stop::Memory
    }
}

impl From<Memory> for Stop {
    ghost use Rattle.scope_words.specs.Orders.{LacksMemory};

    ghost from_gives = { λ _ stop. LacksMemory stop };

    fn from(_error: Memory) -> Stop {
        Stop::Memory
    }
}

/// An error of two lines: what is wrong, and what may stand there.
pub(crate) fn wrong(alloc: Global, what: &str, wanted: &str) -> Stop
    ensures { IsError result }
{
    match format!(in alloc; "error: {what}\n{wanted}\n") {
        Ok(text) => Stop::Told(Told {
            text,
            is_error: true,
        }),
        Err(AllocError) => Stop::Memory,
    }
}

/// An error of an option's value: what the value is not, and what may stand there.
pub(crate) fn wrong_value(
    alloc: Global,
    option: &str,
    value: &str,
    fault: &str,
    wanted: &str,
) -> Stop
    ensures { IsError result }
{
    match format!(in alloc; "'{option} {value}': {fault}") {
        Ok(what) => wrong(alloc, what.as_str(), wanted),
        Err(AllocError) => Stop::Memory,
    }
}

/// What `clap` tells in place of matches: help and the version whole, of an error the first paragraph, with what may stand
/// behind the verb where that is one line.
pub(crate) fn told_by_clap(alloc: Global, verb: Option<&str>, error: &clap::Error) -> Stop {
    match error.kind() {
        ErrorKind::OutOfMemory => Stop::Memory,
        ErrorKind::DisplayHelp => whole(alloc, error),
        ErrorKind::DisplayVersion => whole(alloc, error),
        _ => first_paragraph(alloc, verb, error),
    }
}

// The text of help or of the version.
fn whole(alloc: Global, error: &clap::Error) -> Stop {
    match format!(in alloc; "{error}") {
        Ok(text) => Stop::Told(Told {
            text,
            is_error: false,
        }),
        Err(AllocError) => Stop::Memory,
    }
}

// The first paragraph of an error, and what may stand there where it is one line.
fn first_paragraph(alloc: Global, verb: Option<&str>, error: &clap::Error) -> Stop
    ensures { IsError result }
{
    match format!(in alloc; "{error}") {
        Ok(text) => with_wanted(alloc, verb, paragraph(text.as_str())),
        Err(AllocError) => Stop::Memory,
    }
}

fn paragraph(text: &str) -> &str {
    match text.split_once("\n\n") {
        Some((first, _)) => first,
        None => text.trim_end(),
    }
}

fn with_wanted(alloc: Global, verb: Option<&str>, first: &str) -> Stop
    ensures { IsError result }
{
    let text = if first.contains("\n") {
        format!(in alloc; "{first}\n")
    } else {
        let wanted = may_stand(verb);
        format!(in alloc; "{first}\n{wanted}\n")
    };
    match text {
        Ok(text) => Stop::Told(Told {
            text,
            is_error: true,
        }),
        Err(AllocError) => Stop::Memory,
    }
}

// What may stand behind a verb.
fn may_stand(verb: Option<&str>) -> &'static str {
    match verb {
        Some("lines") => "wanted: p6scope lines DUMP",
        Some("check") => JUDGED,
        Some("pick") => PICKED,
        Some("coherence") => PICKED,
        Some("table") => TABLED,
        Some("rule") => "wanted: p6scope rule, or p6scope rule N with N from 1 to 31",
        _ => "the commands: lines, check, coherence, table, pick, rule; each has --help",
    }
}

const PICKED: &str = "wanted: one DUMP, and of --scope --line --lines --without \
    --edge --first --after --at --from --to --quiet";

const TABLED: &str = "wanted: one DUMP, and of --scope --line --lines --without \
    --edge --first --after --at --from --to --quiet --format";

const JUDGED: &str = "wanted: one DUMP, and of --scope --line --lines --without \
    --edge --first --after --at --from --to --quiet --resume --max --format --save --cut";
