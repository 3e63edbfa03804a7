//! The lines of values.

ghost use Rattle.std.specs.Prelude.{◌≡◌, ◌+◌, ◌*◌, ◌-◌, ◌<◌, ◌≤◌, ◌++◌};
ghost use Rattle.std.specs.Int.{bit_at};
ghost use Rattle.arrayvec.specs.ArrayVec.{array_vec_len};
ghost use Rattle.fsb_signal.specs.DumpText.{texts_from, value_of};
ghost use Rattle.scope_write.specs.Text.{unknowns, unknown_of, is_there, is_written, shown_digit, shown_digits, shown_text, shown_value, is_same, has_changed, shown_change};

use arrayvec::ArrayVec;
use fsb_signal::{Sample, signal_at};

// The sample that asserts exactly what is unknown in another.
fn unknowns(sample: &Sample) -> Sample
    ensures { result ≡ unknowns sample.now }
{
    Sample::known(
        sample.unknown,
        sample.req.unknown as u8,
        sample.addr.unknown,
        sample.dbus.unknown,
    )
}

// What is unknown on the entry of this number.
fn unknown_value(sample: &Sample, number: u8) -> u64
    requires { number < 22 }
    ensures { result ≡ unknown_of sample.now number }
{
    unknowns(sample).value(number)
}

// Whether the entry of this number is written.
#[tactic(auto, unfolding(crate::specs::Text::is_written))]
pub(crate) fn is_written(there: &[bool], number: u8) -> bool
    requires { number < 22 }
    ensures { result ≡ is_written there.now number }
{
    signal_at(number).needed || is_there(there, number)
}

// Whether the entry of this number is there.
fn is_there(there: &[bool], number: u8) -> bool
    ensures { result ≡ is_there there.now number }
{
    match there.get(usize::from(number)) {
        Some(is_there) => *is_there,
        None => false,
    }
}

// The digit of the bit at this place.
fn digit_at(asserted: u64, unknown: u64, place: u8) -> u8
    requires { place < 64 }
    ensures { result ≡ shown_digit (bit_at asserted place) (bit_at unknown place) }
{
    if (unknown >> place) % 2 == 1 {
        b'x'
    } else if (asserted >> place) % 2 == 1 {
        b'0'
    } else {
        b'1'
    }
}

// Appends the digits of the lowest `width` bits, from the highest to the lowest.
fn put_digits<const N: usize>(text: &mut ArrayVec<u8, N>, width: u8, asserted: u64, unknown: u64)
    requires width { width ≤ 64 }
    requires room { array_vec_len text.old + width ≤ N }
    ensures items { text.new.items ≡ text.old.items ++ shown_digits width asserted unknown }
    ensures len { array_vec_len text.new ≡ array_vec_len text.old + width }
{
    let mut place = width;
    while place > 0 {
        place -= 1;
        text.push(digit_at(asserted, unknown, place));
    }
}

// Appends the line of the value of the signal of this number.
fn put_value<const N: usize>(text: &mut ArrayVec<u8, N>, number: u8, asserted: u64, unknown: u64)
    requires number { number < 22 }
    requires room { array_vec_len text.old + 68 ≤ N }
    ensures items { text.new.items ≡ text.old.items ++ shown_text number asserted unknown }
    ensures len { array_vec_len text.new ≤ array_vec_len text.old + 68 }
{
    let width = signal_at(number).width;
    if width == 1 {
        put_digits(text, 1, asserted, unknown);
        text.push(33 + number);
        text.push(b'\n');
    } else {
        text.push(b'b');
        put_digits(text, width, asserted, unknown);
        text.push(b' ');
        text.push(33 + number);
        text.push(b'\n');
    }
}

// Whether the entry is the same in two samples.
fn is_same(before: &Sample, now: &Sample, number: u8) -> bool
    requires { number < 22 }
    ensures { result ≡ is_same before.now now.now number }
{
    before.value(number) == now.value(number)
        && unknown_value(before, number) == unknown_value(now, number)
}

// Whether the entry has changed since the sample before; in the first sample each has.
fn has_changed(before: &Option<Sample>, now: &Sample, number: u8) -> bool
    requires { number < 22 }
    ensures { result ≡ has_changed before.now now.now number }
{
    match before {
        None => true,
        Some(before) => !is_same(before, now, number),
    }
}

// Appends the value of an entry that is written and has changed.
#[tactic(auto, unfolding(crate::specs::Text::shown_change))]
fn put_change<const N: usize>(
    text: &mut ArrayVec<u8, N>,
    there: &[bool],
    before: &Option<Sample>,
    now: &Sample,
    number: u8,
)
    requires number { number < 22 }
    requires room { array_vec_len text.old + 68 ≤ N }
    ensures items { text.new.items
        ≡ text.old.items ++ shown_change there.now before.now now.now number }
    ensures len { array_vec_len text.new ≤ array_vec_len text.old + 68 }
{
    let is_new = is_written(there, number) && has_changed(before, now, number);
    if is_new {
        put_value(text, number, now.value(number), unknown_value(now, number));
    }
}

// Appends the values of `now` that are written and have changed, in the order of the table.
pub(crate) fn put_changes<const N: usize>(
    text: &mut ArrayVec<u8, N>,
    there: &[bool],
    before: &Option<Sample>,
    now: &Sample,
)
    requires { array_vec_len text.old + 1428 ≤ N }
    ensures items { text.new.items
        ≡ text.old.items ++ texts_from (shown_change there.now before.now now.now) 1 21 }
    ensures len { array_vec_len text.new ≤ array_vec_len text.old + 1428 }
{
    for number in 1..22 {
        put_change(text, there, before, now, number);
    }
}
