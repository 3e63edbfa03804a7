//! The wave of a range of clocks of a dump.
ghost use Rattle.std.specs.Prelude.{◌≡◌, ◌≤◌, ◌+◌, ◌++◌, ℕ, List, Err, IsTrue, OnOk, Some, length, slice_get};
ghost use Rattle.fsb_io.specs.Appends.{AppendsPart};
ghost use Rattle.fsb_io.specs.Faults.{HasCause, Rose};
ghost use Rattle.fsb_signal.specs.declared.sample.Sample.{Sample};
ghost use Rattle.fsb_watch.specs.Watched.{IsReadAs, HasBegun, IsBegunOrStays};
ghost use Rattle.fsb_wave.specs.Wave.{Stands};
ghost use Rattle.fsb_wave.specs.WaveText.{wave_lines, wave_text};
ghost use Rattle.fsb_look.specs.Looked.{IsWave};
ghost use Rattle.fsb_look.specs.SearchText.{line_text};

use fsb_io::{Failed, Memory, Sink, Source, put_all};
use fsb_signal::{Marks, Sample};
use fsb_watch::{DumpStop, Watcher, watch_dump};
use fsb_wave::Wave;
use std::alloc::Global;

/// The drawing of the samples of a dump.
#[derive(Drop)]
pub struct Drawer {
    wave: Wave,
}

impl Watcher for Drawer {
    ghost use Rattle.fsb_look.specs.Looking.{CanDraw, HasDrawn};

    ghost is_ready = { λ drawer. CanDraw drawer };

    ghost has_seen = { λ first now _ h. HasDrawn first now h };

    fn begin(&mut self, _marks: Marks) -> Result<(), Memory> {
        Ok(())
    }

    fn see(&mut self, sample: &Sample) -> Result<(), Memory> {
        self.wave.feed(sample);
        Ok(())
    }
}

/// The wave of the clocks from `from` to `to` of the dump that the source holds under the name.
pub fn wave_of_dump<S: Source>(
    alloc: Global,
    name: &str,
    source: &mut S,
    from: u32,
    to: u32,
) -> Result<Wave, DumpStop>
    requires named { length name.now ≤ 4096 }
    requires ordered { from ≤ to }
    requires few { to ≤ from + 63 }
    ensures read { IsTrue S.tells →
        IsReadAs (IsWave from to) result (S.holds source.old) (S.left source.new) }
    ensures named { IsTrue S.tells → HasBegun result → S.begun_as source.new ≡ Some name.now }
    ensures not_read { IsTrue S.tells → result ≡ Err DumpStop.ReadFault →
        IsBegunOrStays name.now (S.begun_as source.old) (S.begun_as source.new)
        (S.left source.old) (S.left source.new) }
    ensures read_fault { result ≡ Err DumpStop.ReadFault →
        Rose (S.faults source.old) (S.faults source.new) }
    ensures later { S.faults source.old ≤ S.faults source.new }
    ensures holds_stays { IsTrue S.tells → S.holds source.new ≡ S.holds source.old }
{
    let mut drawer = Drawer {
        wave: Wave::new(from, to),
    };
    watch_dump(alloc, name, source, &mut drawer)?;
    Ok(drawer.wave)
}

/// Appends the text of the wave, one piece a line. It takes no memory.
pub fn put_wave<O: Sink>(out: &mut O, wave: &Wave) -> Result<(), Failed>
    ensures whole { IsTrue O.tells → (from to : ℕ) (h : List Sample) → Stands wave.now from to h →
        OnOk result (O.holds out.new ≡ O.holds out.old ++ wave_text h from to) }
    ensures part { IsTrue O.tells → (from to : ℕ) (h : List Sample) → Stands wave.now from to h →
        AppendsPart (wave_text h from to) (O.holds out.old) (O.holds out.new) }
    ensures name_stays { IsTrue O.tells → O.begun_as out.new ≡ O.begun_as out.old }
    ensures cause { HasCause (O.faults out.old) (O.faults out.new) result }
{
    for i in 0..wave.lines() {
        put_line(out, wave, i)?;
    }
    Ok(())
}

// Appends the line of this number, where there is one.
fn put_line<O: Sink>(out: &mut O, wave: &Wave, i: u32) -> Result<(), Failed>
    ensures whole { IsTrue O.tells → (from to : ℕ) (h : List Sample) → Stands wave.now from to h →
        OnOk result (O.holds out.new
        ≡ O.holds out.old ++ line_text (slice_get (wave_lines h from to) i)) }
    ensures part { IsTrue O.tells → (from to : ℕ) (h : List Sample) → Stands wave.now from to h →
        AppendsPart (line_text (slice_get (wave_lines h from to) i)) (O.holds out.old)
        (O.holds out.new) }
    ensures name_stays { IsTrue O.tells → O.begun_as out.new ≡ O.begun_as out.old }
    ensures cause { HasCause (O.faults out.old) (O.faults out.new) result }
{
    match wave.line(i) {
        Some(line) => put_all(out, line.as_slice()),
        None => Ok(()),
    }
}
