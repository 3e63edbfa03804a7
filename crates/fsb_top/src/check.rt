//! The check of a dump, and the line of its verdict.
ghost use Rattle.std.specs.Prelude.{◌≡◌, ◌≤◌, IsTrue, [], length};
ghost use Rattle.fsb_command.specs.Form.{to_check};
ghost use Rattle.fsb_top.specs.CallEnds.{LookEnds};
ghost use Rattle.fsb_top.specs.Looks.{look_at};

use crate::status::Status;
use crate::stop::status_of_broken;
use crate::told::tell_line;
use fsb_check::check_dump;
use fsb_io::{Sink, Source};
use fsb_report::verdict_line;
use std::alloc::Global;

/// Judges the dump that the source holds under the name, and writes the line of its verdict to `out`.
pub fn check_file<S: Source, O: Sink>(
    alloc: Global,
    name: &str,
    source: &mut S,
    out: &mut O,
) -> Status
    requires { length name.now ≤ 4096 }
    ensures ends { LookEnds S.Source O.Sink source.old source.new out.old out.new
        [] name.now (look_at to_check) result }
    ensures holds_stays { IsTrue S.tells → S.holds source.new ≡ S.holds source.old }
    ensures log_name { IsTrue O.tells → O.begun_as out.new ≡ O.begun_as out.old }
{
    match check_dump(alloc, name, source) {
        Ok(finding) => {
            let line = verdict_line(finding.clocks, finding.broken);
            tell_line(out, &line, status_of_broken(finding.broken))
        }
        Err(stop) => Status::from(stop),
    }
}
