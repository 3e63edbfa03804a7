//! The header: the declarations.

ghost use Rattle.std.specs.Prelude.{◌≡◌, ◌+◌, ◌≤◌, ◌<◌, ◌++◌, IsTrue, OnOk};
ghost use Rattle.arrayvec.specs.ArrayVec.{array_vec_len};
ghost use Rattle.fsb_io.specs.Appends.{AppendsPart};
ghost use Rattle.fsb_io.specs.Faults.{HasCause};
ghost use Rattle.fsb_signal.specs.DumpText.{declaration_text, range_text, lowest_of, width_of, texts_from};
ghost use Rattle.scope_write.specs.Text.{shown_declaration, shown_header};

use crate::value::is_written;
use arrayvec::ArrayVec;
use fsb_io::{Failed, Sink, put_all, put_decimal, put_text};
use fsb_signal::signal_at;

// Writes the header of a dump of which these lines are there. One piece, no memory.
//
// After `Failed` a first part of the text was appended, maybe none of it.
pub(crate) fn put_header<D: Sink>(sink: &mut D, there: &[bool]) -> Result<(), Failed>
    ensures whole { IsTrue D.tells
        → OnOk result (D.holds sink.new ≡ D.holds sink.old ++ shown_header there.now) }
    ensures part { IsTrue D.tells
        → AppendsPart (shown_header there.now) (D.holds sink.old) (D.holds sink.new) }
    ensures name_stays { IsTrue D.tells → D.begun_as sink.new ≡ D.begun_as sink.old }
    ensures cause { HasCause (D.faults sink.old) (D.faults sink.new) result }
{
    let text = text_of_header(there);
    put_all(sink, text.as_slice())
}

// The text of the header.
fn text_of_header(there: &[bool]) -> ArrayVec<u8, 4096>
    ensures { result.items ≡ shown_header there.now }
{
    let mut text = ArrayVec::new();
    put_text(
        &mut text,
        "$version p6scope 1 $end\n$timescale 1 ns $end\n$scope module fsb $end\n",
    );
    put_declarations(&mut text, there);
    put_text(&mut text, "$upscope $end\n$enddefinitions $end\n");
    text
}

// Appends the declaration of each entry that is written.
fn put_declarations<const N: usize>(text: &mut ArrayVec<u8, N>, there: &[bool])
    requires { array_vec_len text.old + 2090 ≤ N }
    ensures items { text.new.items
        ≡ text.old.items ++ texts_from (shown_declaration there.now) 0 22 }
    ensures len { array_vec_len text.new ≤ array_vec_len text.old + 2090 }
{
    for number in 0..22 {
        put_if_written(text, there, number);
    }
}

// Appends the declaration of an entry, if it is written.
#[tactic(auto, unfolding(crate::specs::Text::shown_declaration))]
fn put_if_written<const N: usize>(text: &mut ArrayVec<u8, N>, there: &[bool], number: u8)
    requires number { number < 22 }
    requires room { array_vec_len text.old + 95 ≤ N }
    ensures items { text.new.items ≡ text.old.items ++ shown_declaration there.now number }
    ensures len { array_vec_len text.new ≤ array_vec_len text.old + 95 }
{
    if is_written(there, number) {
        put_declaration(text, number);
    }
}

// Appends the declaration of an entry.
fn put_declaration<const N: usize>(text: &mut ArrayVec<u8, N>, number: u8)
    requires number { number < 22 }
    requires room { array_vec_len text.old + 95 ≤ N }
    ensures items { text.new.items ≡ text.old.items ++ declaration_text number }
    ensures len { array_vec_len text.new ≤ array_vec_len text.old + 95 }
{
    let signal = signal_at(number);
    put_text(text, "$var wire ");
    put_decimal(text, u64::from(signal.width));
    text.push(b' ');
    text.push(33 + number);
    text.push(b' ');
    put_text(text, signal.name);
    text.push(b' ');
    put_range(text, number, signal.width);
    put_text(text, "$end\n");
}

// Appends the lines of an entry of this width, where it is a word.
fn put_range<const N: usize>(text: &mut ArrayVec<u8, N>, number: u8, width: u8)
    requires width { width ≡ width_of number }
    requires some { 0 < width }
    requires few { width ≤ 64 }
    requires room { array_vec_len text.old + 44 ≤ N }
    ensures items { text.new.items ≡ text.old.items ++ range_text number }
    ensures len { array_vec_len text.new ≤ array_vec_len text.old + 44 }
{
    if width > 1 {
        let lowest = lowest_line(number);
        text.push(b'[');
        put_decimal(text, u64::from(lowest + width - 1));
        text.push(b':');
        put_decimal(text, u64::from(lowest));
        put_text(text, "] ");
    }
}

// The number of the lowest line of an entry.
fn lowest_line(number: u8) -> u8
    ensures value { result ≡ lowest_of number }
    ensures small { result ≤ 3 }
{
    if number == 10 { 3 } else { 0 }
}
