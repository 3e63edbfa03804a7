//! The header: the declarations, and the values of the first sample.

ghost use Rattle.std.specs.Prelude.{◌≡◌, ◌+◌, ◌≤◌, ◌<◌, ◌⊎◌, ◌++◌, IsTrue, OnOk};
ghost use Rattle.arrayvec.specs.ArrayVec.{array_vec_len};
ghost use Rattle.fsb_io.specs.Appends.{AppendsPart};
ghost use Rattle.fsb_io.specs.Faults.{HasCause};
ghost use Rattle.fsb_signal.specs.Samples.{is_known};
ghost use Rattle.fsb_signal.specs.Parity.{has_no_parity};
ghost use Rattle.fsb_signal.specs.DumpText.{header_text, declaration_text, range_text, lowest_of, width_of, texts_from, entries_in};

use crate::value::{entries_in, put_values};
use arrayvec::ArrayVec;
use fsb_io::{Failed, Sink, put_all, put_decimal, put_text};
use fsb_signal::{Sample, signal_at};

/// Writes the header of a dump in this profile whose first sample is `first`, up to the end of its first block of
/// values, in which the clock is low. A dump without samples has the idle sample's values there. Profile 2 has the
/// parity lines, profile 1 has not. One piece, no memory.
///
/// After `Failed` a first part of the text was appended, maybe none of it.
pub fn put_header<D: Sink>(sink: &mut D, profile: u8, first: &Sample) -> Result<(), Failed>
    requires profile { profile ≡ 1 ⊎ profile ≡ 2 }
    requires known { IsTrue (is_known first.now) }
    requires parity { profile ≡ 1 → IsTrue (has_no_parity first.now) }
    ensures whole { IsTrue D.tells
        → OnOk result (D.holds sink.new ≡ D.holds sink.old ++ header_text profile first.now) }
    ensures part { IsTrue D.tells
        → AppendsPart (header_text profile first.now) (D.holds sink.old) (D.holds sink.new) }
    ensures name_stays { IsTrue D.tells → D.begun_as sink.new ≡ D.begun_as sink.old }
    ensures cause { HasCause (D.faults sink.old) (D.faults sink.new) result }
{
    let text = text_of_header(profile, first);
    put_all(sink, text.as_slice())
}

// The text of the header.
fn text_of_header(profile: u8, first: &Sample) -> ArrayVec<u8, 4096>
    ensures { result.items ≡ header_text profile first.now }
{
    let mut text = ArrayVec::new();
    put_text(
        &mut text,
        "$version p6bench 1 $end\n$timescale 1 ns $end\n$scope module fsb $end\n",
    );
    put_declarations(&mut text, profile);
    put_text(
        &mut text,
        "$upscope $end\n$enddefinitions $end\n#0\n$dumpvars\n0!\n",
    );
    put_values(&mut text, profile, first);
    put_text(&mut text, "$end\n");
    text
}

// Appends the declaration of each entry of the table that a dump of this profile has.
fn put_declarations<const N: usize>(text: &mut ArrayVec<u8, N>, profile: u8)
    requires { array_vec_len text.old + 2090 ≤ N }
    ensures items { text.new.items
        ≡ text.old.items ++ texts_from declaration_text 0 (entries_in profile) }
    ensures len { array_vec_len text.new ≤ array_vec_len text.old + 2090 }
{
    for number in 0..entries_in(profile) {
        put_declaration(text, number);
    }
}

// Appends the declaration of an entry.
fn put_declaration<const N: usize>(text: &mut ArrayVec<u8, N>, number: u8)
    requires number { number < 22 }
    requires room { array_vec_len text.old + 95 ≤ N }
    ensures items { text.new.items ≡ text.old.items ++ declaration_text number }
    ensures len { array_vec_len text.new ≤ array_vec_len text.old + 95 }
{
    let signal = signal_at(number);
    put_text(text, "$var wire ");
    put_decimal(text, u64::from(signal.width));
    text.push(b' ');
    text.push(33 + number);
    text.push(b' ');
    put_text(text, signal.name);
    text.push(b' ');
    put_range(text, number, signal.width);
    put_text(text, "$end\n");
}

// Appends the lines of an entry of this width, where it is a word.
fn put_range<const N: usize>(text: &mut ArrayVec<u8, N>, number: u8, width: u8)
    requires width { width ≡ width_of number }
    requires some { 0 < width }
    requires few { width ≤ 64 }
    requires room { array_vec_len text.old + 44 ≤ N }
    ensures items { text.new.items ≡ text.old.items ++ range_text number }
    ensures len { array_vec_len text.new ≤ array_vec_len text.old + 44 }
{
    if width > 1 {
        let lowest = lowest_line(number);
        text.push(b'[');
        put_decimal(text, u64::from(lowest + width - 1));
        text.push(b':');
        put_decimal(text, u64::from(lowest));
        put_text(text, "] ");
    }
}

// The number of the lowest line of an entry.
fn lowest_line(number: u8) -> u8
    ensures value { result ≡ lowest_of number }
    ensures small { result ≤ 3 }
{
    if number == 10 { 3 } else { 0 }
}
