//! A whole dump.

ghost use Rattle.std.specs.Prelude.{◌≡◌, ◌≤◌, ◌⊎◌, ◌++◌, IsTrue, OnOk, length};
ghost use Rattle.std.specs.List.{list_all};
ghost use Rattle.fsb_io.specs.Appends.{AppendsPart};
ghost use Rattle.fsb_io.specs.Faults.{HasCause};
ghost use Rattle.fsb_signal.specs.Samples.{is_known, is_known_trace};
ghost use Rattle.fsb_signal.specs.Parity.{has_no_parity};
ghost use Rattle.fsb_signal.specs.DumpText.{dump_text, clocks_text};

use crate::clock::put_clock;
use crate::header::put_header;
use fsb_io::{Failed, Sink};
use fsb_signal::{Sample, idle_sample};

/// Writes the dump of these samples in this profile, one for each clock from 0 on: the header, and then the text of
/// each clock, one piece each. No memory.
///
/// After `Failed` a first part of the text was appended, maybe none of it.
pub fn put_dump<D: Sink>(sink: &mut D, profile: u8, samples: &[Sample]) -> Result<(), Failed>
    requires profile { profile ≡ 1 ⊎ profile ≡ 2 }
    requires clocks { length samples.now ≤ 200000 }
    requires known { IsTrue (is_known_trace samples.now) }
    requires parity { profile ≡ 1 → IsTrue (list_all has_no_parity samples.now) }
    ensures whole { IsTrue D.tells
        → OnOk result (D.holds sink.new ≡ D.holds sink.old ++ dump_text profile samples.now) }
    ensures part { IsTrue D.tells
        → AppendsPart (dump_text profile samples.now) (D.holds sink.old) (D.holds sink.new) }
    ensures name_stays { IsTrue D.tells → D.begun_as sink.new ≡ D.begun_as sink.old }
    ensures cause { HasCause (D.faults sink.old) (D.faults sink.new) result }
{
    match samples.first() {
        None => put_header(sink, profile, &idle_sample()),
        Some(first) => {
            put_header(sink, profile, first)?;
            put_clocks(sink, profile, first, samples)
        }
    }
}

// Writes the texts of the clocks of these samples, the first of which is clock 0's.
fn put_clocks<D: Sink>(
    sink: &mut D,
    profile: u8,
    first: &Sample,
    samples: &[Sample],
) -> Result<(), Failed>
    requires profile { profile ≡ 1 ⊎ profile ≡ 2 }
    requires clocks { length samples.now ≤ 200000 }
    requires first { IsTrue (is_known first.now) }
    requires first_parity { profile ≡ 1 → IsTrue (has_no_parity first.now) }
    requires known { IsTrue (is_known_trace samples.now) }
    requires parity { profile ≡ 1 → IsTrue (list_all has_no_parity samples.now) }
    ensures whole { IsTrue D.tells
        → OnOk result (D.holds sink.new
        ≡ D.holds sink.old ++ clocks_text profile 0 first.now samples.now) }
    ensures part { IsTrue D.tells
        → AppendsPart (clocks_text profile 0 first.now samples.now)
        (D.holds sink.old) (D.holds sink.new) }
    ensures name_stays { IsTrue D.tells → D.begun_as sink.new ≡ D.begun_as sink.old }
    ensures cause { HasCause (D.faults sink.old) (D.faults sink.new) result }
{
    let mut before = *first;
    for (clock, now) in samples.iter().enumerate() {
        put_clock(sink, profile, clock as u32, &before, now)?;
        before = *now;
    }
    Ok(())
}
