//! The audit of a dump, and the line of what it finds.
ghost use Rattle.std.specs.Prelude.{◌≡◌, ◌≤◌, IsTrue, [], length};
ghost use Rattle.fsb_command.specs.Form.{to_audit};
ghost use Rattle.fsb_top.specs.CallEnds.{LookEnds};
ghost use Rattle.fsb_top.specs.Looks.{audit_status, look_at};

use crate::status::Status;
use crate::told::tell_line;
use fsb_audit::Finding;
use fsb_audit_dump::{audit_dump, audit_line};
use fsb_io::{Sink, Source};
use std::alloc::Global;

/// Audits the dump that the source holds under the name, and writes the line of what is found first to `out`.
pub fn audit_file<S: Source, O: Sink>(
    alloc: Global,
    name: &str,
    source: &mut S,
    out: &mut O,
) -> Status
    requires { length name.now ≤ 4096 }
    ensures ends { LookEnds S.Source O.Sink source.old source.new out.old out.new
        [] name.now (look_at to_audit) result }
    ensures holds_stays { IsTrue S.tells → S.holds source.new ≡ S.holds source.old }
    ensures log_name { IsTrue O.tells → O.begun_as out.new ≡ O.begun_as out.old }
{
    match audit_dump(alloc, name, source) {
        Ok(audited) => {
            let line = audit_line(audited);
            tell_line(out, &line, status_of_audit(audited.found))
        }
        Err(stop) => Status::from(stop),
    }
}

// The status of what an audit finds first, or of how many chunks are moved where it finds nothing.
fn status_of_audit(found: Result<u64, Finding>) -> Status
    ensures { result ≡ audit_status found }
{
    match found {
        Ok(_) => Status::Done,
        Err(Finding::Broken(broken)) => Status::Rejected(broken),
        Err(Finding::Foul(foul)) => Status::Foul(foul),
    }
}
