//! The search of a dump, and the line of what it has given.
ghost use Rattle.std.specs.Prelude.{◌≡◌, ◌≤◌, IsTrue, [], length, option_map};
ghost use Rattle.fsb_trigger.specs.Hunt.{steps_in};
ghost use Rattle.fsb_command.specs.Form.{to_find};
ghost use Rattle.fsb_top.specs.CallEnds.{LookEnds};
ghost use Rattle.fsb_top.specs.Looks.{look_at, match_status};

use crate::status::Status;
use crate::told::tell_line;
use fsb_io::{Sink, Source};
use fsb_look::{Search, find_in_dump, search_line};
use fsb_trigger::Trigger;
use std::alloc::Global;

/// Searches the dump that the source holds under the name for a trigger, and writes the line of the search to `out`.
pub fn find_file<S: Source, O: Sink>(
    alloc: Global,
    name: &str,
    trigger: Trigger,
    source: &mut S,
    out: &mut O,
) -> Status
    requires { length name.now ≤ 4096 }
    ensures ends { LookEnds S.Source O.Sink source.old source.new out.old out.new
        [] name.now (look_at (to_find (steps_in trigger))) result }
    ensures holds_stays { IsTrue S.tells → S.holds source.new ≡ S.holds source.old }
    ensures log_name { IsTrue O.tells → O.begun_as out.new ≡ O.begun_as out.old }
{
    match find_in_dump(alloc, name, source, trigger) {
        Ok(search) => {
            let line = search_line(&search);
            tell_line(out, &line, status_of_search(&search))
        }
        Err(stop) => Status::from(stop),
    }
}

// The status of a search, by whether it has found a match.
fn status_of_search(search: &Search) -> Status
    ensures { result ≡ match_status (option_map (λ found. found.clocks) search.now.found) }
{
    match &search.found {
        Some(_) => Status::Done,
        None => Status::NotFound,
    }
}
