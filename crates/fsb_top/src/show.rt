//! The table of a dump, with the totals of the probes.
ghost use Rattle.std.specs.Prelude.{◌≡◌, ◌≤◌, IsTrue, length, map};
ghost use Rattle.fsb_show.specs.ShowText.{told_text};
ghost use Rattle.fsb_top.specs.BenchEnds.{IsWritten};
ghost use Rattle.fsb_command.specs.Form.{to_show};
ghost use Rattle.fsb_top.specs.CallEnds.{EndsTold, LookEnds};
ghost use Rattle.fsb_top.specs.Looks.{broken_status, look_at};

use crate::status::Status;
use crate::stop::status_of_broken;
use crate::told::told;
use fsb_io::{Sink, Source};
use fsb_probe::Probe;
use fsb_show::{Shown, put_show, show_dump};
use std::alloc::Global;

/// Tells the dump that the source holds under the name as a table, or by its first broken rule, and
/// writes that to `out`.
pub fn show_file<S: Source, O: Sink>(
    alloc: Global,
    name: &str,
    source: &mut S,
    out: &mut O,
    probes: &mut [Box<dyn Probe>],
) -> Status
    requires { length name.now ≤ 4096 }
    ensures ends { LookEnds S.Source O.Sink source.old source.new out.old out.new
        (map (λ p. weight p) probes.old) name.now (look_at to_show) result }
    ensures holds_stays { IsTrue S.tells → S.holds source.new ≡ S.holds source.old }
    ensures log_name { IsTrue O.tells → O.begun_as out.new ≡ O.begun_as out.old }
{
    match show_dump(alloc, name, source, probes) {
        Ok(shown) => tell_table(out, &shown, probes),
        Err(stop) => Status::from(stop),
    }
}

// Writes what is shown of a dump.
fn tell_table<O: Sink>(out: &mut O, shown: &Shown, probes: &[Box<dyn Probe>]) -> Status
    ensures ends { EndsTold O.Sink out.old out.new (broken_status shown.now.broken) result }
    ensures text { IsTrue O.tells →
        IsWritten result (told_text shown.now.broken (map (λ p. counted p) probes.now)
        shown.now.rows.items shown.now.clocks)
        (O.holds out.old) (O.holds out.new) }
    ensures log_name { IsTrue O.tells → O.begun_as out.new ≡ O.begun_as out.old }
{
    told(put_show(out, shown, probes), status_of_broken(shown.broken))
}
