//! Statuses by name.

use fsb_audit::FoulAt;
use fsb_rules::Broken;
use fsb_script::{Cause, ScriptFault};
use fsb_top::Status;
use rows_files::halves;
use vcd_read::{VcdCause, VcdFault};

/// The status of these words: its name, and the numbers or the name of a cause that it carries.
pub(crate) fn status_of(words: &str) -> Option<Status> {
    let (name, rest) = halves(words);
    let (place, what) = halves(rest);
    Some(match name {
        "Rejected" => Status::Rejected(Broken {
            clock: place.parse().ok()?,
            rule: what.parse().ok()?,
        }),
        "Foul" => Status::Foul(FoulAt {
            clock: place.parse().ok()?,
            addr: what.parse().ok()?,
        }),
        "BadBench" => Status::BadBench(ScriptFault {
            line: place.parse().ok()?,
            cause: cause_of(what)?,
        }),
        "BadDump" => Status::BadDump(VcdFault {
            place: place.parse().ok()?,
            cause: dump_cause_of(what)?,
        }),
        _ => return bare_status_of(words),
    })
}

// The status of this name that carries nothing.
fn bare_status_of(name: &str) -> Option<Status> {
    Some(match name {
        "Done" => Status::Done,
        "BadWords" => Status::BadWords,
        "ReadFault" => Status::ReadFault,
        "WriteFault" => Status::WriteFault,
        "DumpFault" => Status::DumpFault,
        "OutOfMemory" => Status::OutOfMemory,
        "TooLong" => Status::TooLong,
        "NotFound" => Status::NotFound,
        _ => return None,
    })
}

// The cause of a bench file's fault.
fn cause_of(name: &str) -> Option<Cause> {
    Some(match name {
        "first_line" => Cause::FirstLine,
        "word" => Cause::Word,
        "number" => Cause::Number,
        "range" => Cause::Range,
        "align" => Cause::Align,
        "outside" => Cause::Outside,
        "lock_conflict" => Cause::LockConflict,
        "lock_size" => Cause::LockSize,
        "missing" => Cause::Missing,
        "after" => Cause::After,
        _ => return None,
    })
}

// The cause of a dump's fault.
fn dump_cause_of(name: &str) -> Option<VcdCause> {
    Some(match name {
        "token" => VcdCause::Token,
        "header" => VcdCause::Header,
        "code" => VcdCause::Code,
        "width" => VcdCause::Width,
        "time_back" => VcdCause::TimeBack,
        "cut" => VcdCause::Cut,
        _ => VcdCause::Missing(name.strip_prefix("missing ")?.parse().ok()?),
    })
}
