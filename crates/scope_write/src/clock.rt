//! The text of a clock.

ghost use Rattle.std.specs.Prelude.{◌≡◌, ◌+◌, ◌*◌, ◌≤◌, ◌<◌, ◌^◌, ◌++◌, IsTrue, OnOk, codes, decimal, length};
ghost use Rattle.arrayvec.specs.ArrayVec.{array_vec_len};
ghost use Rattle.fsb_io.specs.Appends.{AppendsPart};
ghost use Rattle.fsb_io.specs.Faults.{HasCause};
ghost use Rattle.scope_write.specs.Text.{shown_clock};

use crate::value::put_changes;
use arrayvec::ArrayVec;
use fsb_io::{Failed, Sink, put_all, put_decimal, put_text};
use fsb_signal::Sample;

// Writes the text of a clock, in which the lines have `now` where they had `before` the clock before. One piece, no memory.
//
// After `Failed` a first part of the text was appended, maybe none of it.
pub(crate) fn put_clock<D: Sink>(
    sink: &mut D,
    there: &[bool],
    clock: u64,
    before: &Option<Sample>,
    now: &Sample,
) -> Result<(), Failed>
    requires clock { clock ≤ 10 ^ 18 }
    ensures whole { IsTrue D.tells
        → OnOk result (D.holds sink.new
        ≡ D.holds sink.old ++ shown_clock there.now clock before.now now.now) }
    ensures part { IsTrue D.tells
        → AppendsPart (shown_clock there.now clock before.now now.now)
        (D.holds sink.old) (D.holds sink.new) }
    ensures name_stays { IsTrue D.tells → D.begun_as sink.new ≡ D.begun_as sink.old }
    ensures cause { HasCause (D.faults sink.old) (D.faults sink.new) result }
{
    let text = text_of_clock(there, clock, before, now);
    put_all(sink, text.as_slice())
}

// The text of a clock.
fn text_of_clock(
    there: &[bool],
    clock: u64,
    before: &Option<Sample>,
    now: &Sample,
) -> ArrayVec<u8, 2048>
    requires { clock ≤ 10 ^ 18 }
    ensures { result.items ≡ shown_clock there.now clock before.now now.now }
{
    let time = 10 * clock;
    let mut text = ArrayVec::new();
    put_edge(&mut text, time, "0!\n");
    put_changes(&mut text, there, before, now);
    put_edge(&mut text, time + 5, "1!\n");
    text
}

// Appends a time and what happens then, of three bytes.
fn put_edge<const N: usize>(text: &mut ArrayVec<u8, N>, time: u64, edge: &str)
    requires edge { length edge.now ≡ 3 }
    requires room { array_vec_len text.old + 25 ≤ N }
    ensures items { text.new.items
        ≡ text.old.items ++ (codes "#" ++ decimal time ++ codes "\n" ++ edge.now) }
    ensures len { array_vec_len text.new ≤ array_vec_len text.old + 25 }
{
    text.push(b'#');
    put_decimal(text, time);
    text.push(b'\n');
    put_text(text, edge);
}
