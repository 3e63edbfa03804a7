//! The lines of values.

ghost use Rattle.std.specs.Prelude.{◌≡◌, ◌+◌, ◌-◌, ◌<◌, ◌≤◌, ◌++◌};
ghost use Rattle.std.specs.Int.{bit_at};
ghost use Rattle.arrayvec.specs.ArrayVec.{array_vec_len};
ghost use Rattle.fsb_signal.specs.DumpText.{digit_of, digits_of, value_text, texts_from, sample_value_text, change_text, entries_in};
ghost use Rattle.vcd_write.specs.Room.{value_room, values_room};

use arrayvec::ArrayVec;
use fsb_signal::{Sample, signal_at};

// Appends the digits of the lowest `width` bits of `value`, from the highest to the lowest: 0 where it is asserted.
fn put_digits<const N: usize>(text: &mut ArrayVec<u8, N>, width: u8, value: u64)
    requires width { width ≤ 64 }
    requires room { array_vec_len text.old + width ≤ N }
    ensures items { text.new.items ≡ text.old.items ++ digits_of width value }
    ensures len { array_vec_len text.new ≡ array_vec_len text.old + width }
{
    let mut place = width;
    while place > 0 {
        place -= 1;
        text.push(digit_at(value, place));
    }
}

// The digit of the bit at this place: 0 where it is asserted.
fn digit_at(value: u64, place: u8) -> u8
    requires { place < 64 }
    ensures { result ≡ digit_of (bit_at value place) }
{
    if (value >> place) % 2 == 1 {
        b'0'
    } else {
        b'1'
    }
}

// Appends the line of the value of the signal of this number.
pub(crate) fn put_value<const N: usize>(text: &mut ArrayVec<u8, N>, number: u8, value: u64)
    requires number { number < 22 }
    requires room { array_vec_len text.old + value_room number ≤ N }
    ensures items { text.new.items ≡ text.old.items ++ value_text number value }
    ensures len { array_vec_len text.new ≡ array_vec_len text.old + value_room number }
{
    let width = signal_at(number).width;
    if width == 1 {
        put_digits(text, 1, value);
        text.push(33 + number);
        text.push(b'\n');
    } else {
        text.push(b'b');
        put_digits(text, width, value);
        text.push(b' ');
        text.push(33 + number);
        text.push(b'\n');
    }
}

// How many entries of the table a dump of this profile has.
pub(crate) fn entries_in(profile: u8) -> u8
    ensures value { result ≡ entries_in profile }
    ensures some { 20 ≤ result }
    ensures within { result ≤ 22 }
{
    if profile == 2 { 22 } else { 20 }
}

// Appends the values of a sample, but for the clock's, in the order of the table.
pub(crate) fn put_values<const N: usize>(text: &mut ArrayVec<u8, N>, profile: u8, sample: &Sample)
    requires { array_vec_len text.old + values_room 22 ≤ N }
    ensures items { text.new.items
        ≡ text.old.items ++ texts_from (sample_value_text sample.now) 1 (entries_in profile - 1) }
    ensures len { array_vec_len text.new ≤ array_vec_len text.old + values_room
        (entries_in profile) }
{
    for number in 1..entries_in(profile) {
        put_value(text, number, sample.value(number));
    }
}

// Appends the values of `now` that differ from those of `before`, in the order of the table.
pub(crate) fn put_changes<const N: usize>(
    text: &mut ArrayVec<u8, N>,
    profile: u8,
    before: &Sample,
    now: &Sample,
)
    requires { array_vec_len text.old + values_room 22 ≤ N }
    ensures items { text.new.items
        ≡ text.old.items ++ texts_from (change_text before.now now.now) 1 (entries_in profile - 1) }
    ensures len { array_vec_len text.new ≤ array_vec_len text.old + values_room
        (entries_in profile) }
{
    for number in 1..entries_in(profile) {
        put_change(text, number, before, now);
    }
}

// Appends the value of a signal where it differs from the one before.
#[tactic(auto, unfolding(fsb_signal::specs::DumpText::change_text))]
fn put_change<const N: usize>(text: &mut ArrayVec<u8, N>, number: u8, before: &Sample, now: &Sample)
    requires number { number < 22 }
    requires room { array_vec_len text.old + value_room number ≤ N }
    ensures items { text.new.items ≡ text.old.items ++ change_text before.now now.now number }
    ensures len { array_vec_len text.new ≤ array_vec_len text.old + value_room number }
{
    let was = before.value(number);
    let is = now.value(number);
    if was != is {
        put_value(text, number, is);
    }
}
