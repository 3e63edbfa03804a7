//! The wave of a range of clocks of a dump.
ghost use Rattle.std.specs.Prelude.{◌≡◌, ◌≤◌, ℕ, IsTrue, List, [], length};
ghost use Rattle.fsb_signal.specs.declared.sample.Sample.{Sample};
ghost use Rattle.fsb_wave.specs.Wave.{Stands};
ghost use Rattle.fsb_wave.specs.WaveText.{wave_text};
ghost use Rattle.fsb_top.specs.BenchEnds.{IsWritten};
ghost use Rattle.fsb_command.specs.Form.{to_wave};
ghost use Rattle.fsb_top.specs.CallEnds.{EndsTold, LookEnds};
ghost use Rattle.fsb_top.specs.Looks.{look_at};

use crate::status::Status;
use crate::told::told;
use fsb_io::{Sink, Source};
use fsb_look::{put_wave, wave_of_dump};
use fsb_wave::{ClockRange, Wave};
use std::alloc::Global;

/// Draws a range of clocks of the dump that the source holds under the name, and writes the wave to `out`.
pub fn wave_file<S: Source, O: Sink>(
    alloc: Global,
    name: &str,
    range: &ClockRange,
    source: &mut S,
    out: &mut O,
) -> Status
    requires { length name.now ≤ 4096 }
    ensures ends { LookEnds S.Source O.Sink source.old source.new out.old out.new
        [] name.now (look_at (to_wave range.now.from range.now.to)) result }
    ensures holds_stays { IsTrue S.tells → S.holds source.new ≡ S.holds source.old }
    ensures log_name { IsTrue O.tells → O.begun_as out.new ≡ O.begun_as out.old }
{
    match wave_of_dump(alloc, name, source, range.from, range.to) {
        Ok(wave) => tell_wave(out, &wave),
        Err(stop) => Status::from(stop),
    }
}

// Writes a wave.
fn tell_wave<O: Sink>(out: &mut O, wave: &Wave) -> Status
    ensures ends { EndsTold O.Sink out.old out.new Status.Done result }
    ensures text { IsTrue O.tells → (from to : ℕ) (h : List Sample) → Stands wave.now from to h →
        IsWritten result (wave_text h from to) (O.holds out.old) (O.holds out.new) }
    ensures log_name { IsTrue O.tells → O.begun_as out.new ≡ O.begun_as out.old }
{
    told(put_wave(out, wave), Status::Done)
}
