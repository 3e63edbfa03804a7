//! The text of a clock.

ghost use Rattle.std.specs.Prelude.{◌≡◌, ◌+◌, ◌≤◌, ◌<◌, ◌⊎◌, ◌^◌, ◌++◌, IsTrue, OnOk, codes, decimal, length};
ghost use Rattle.arrayvec.specs.ArrayVec.{array_vec_len};
ghost use Rattle.fsb_io.specs.Appends.{AppendsPart};
ghost use Rattle.fsb_io.specs.Faults.{HasCause};
ghost use Rattle.fsb_signal.specs.Samples.{is_known};
ghost use Rattle.fsb_signal.specs.Parity.{has_no_parity};
ghost use Rattle.fsb_signal.specs.DumpText.{clock_text};

use crate::value::put_changes;
use arrayvec::ArrayVec;
use fsb_io::{Failed, Sink, put_all, put_decimal, put_text};
use fsb_signal::Sample;

/// Writes the text of clock `clock`, in which the lines have `now` where they had `before` the clock before: its time
/// in nanoseconds, the falling edge, the values that changed, and the rising edge. Clock 0 is its rising edge alone,
/// since the header has its values. Profile 2 has the parity lines, profile 1 has not. One piece of at most 201 bytes,
/// in profile 1 of at most 192; no memory.
///
/// After `Failed` a first part of the text was appended, maybe none of it.
pub fn put_clock<D: Sink>(
    sink: &mut D,
    profile: u8,
    clock: u32,
    before: &Sample,
    now: &Sample,
) -> Result<(), Failed>
    requires profile { profile ≡ 1 ⊎ profile ≡ 2 }
    requires clock { clock ≤ 200000 }
    requires before { IsTrue (is_known before.now) }
    requires now { IsTrue (is_known now.now) }
    requires parity_before { profile ≡ 1 → IsTrue (has_no_parity before.now) }
    requires parity_now { profile ≡ 1 → IsTrue (has_no_parity now.now) }
    ensures whole { IsTrue D.tells
        → OnOk result (D.holds sink.new
        ≡ D.holds sink.old ++ clock_text profile clock before.now now.now) }
    ensures part { IsTrue D.tells
        → AppendsPart (clock_text profile clock before.now now.now)
        (D.holds sink.old) (D.holds sink.new) }
    ensures name_stays { IsTrue D.tells → D.begun_as sink.new ≡ D.begun_as sink.old }
    ensures cause { HasCause (D.faults sink.old) (D.faults sink.new) result }
    ensures short { length (clock_text profile clock before.now now.now) ≤ 201 }
    ensures shorter { profile ≡ 1 → length (clock_text profile clock before.now now.now) ≤ 192 }
{
    let text = text_of_clock(profile, clock, before, now);
    put_all(sink, text.as_slice())
}

// The text of a clock.
fn text_of_clock(profile: u8, clock: u32, before: &Sample, now: &Sample) -> ArrayVec<u8, 256>
    requires { clock ≤ 200000 }
    ensures items { result.items ≡ clock_text profile clock before.now now.now }
    ensures short { array_vec_len result ≤ 201 }
    ensures shorter { profile ≡ 1 → array_vec_len result ≤ 192 }
{
    let time = 10 * u64::from(clock);
    let mut text = ArrayVec::new();
    if clock == 0 {
        put_edge(&mut text, time + 5, "1!\n");
    } else {
        put_edge(&mut text, time, "0!\n");
        put_changes(&mut text, profile, before, now);
        put_edge(&mut text, time + 5, "1!\n");
    }
    text
}

// Appends a time and what happens then, of three bytes.
fn put_edge<const N: usize>(text: &mut ArrayVec<u8, N>, time: u64, edge: &str)
    requires edge { length edge.now ≡ 3 }
    requires time { time < 10 ^ 7 }
    requires room { array_vec_len text.old + 25 ≤ N }
    ensures items { text.new.items
        ≡ text.old.items ++ (codes "#" ++ decimal time ++ codes "\n" ++ edge.now) }
    ensures len { array_vec_len text.new ≤ array_vec_len text.old + 12 }
{
    text.push(b'#');
    put_decimal(text, time);
    text.push(b'\n');
    put_text(text, edge);
}
