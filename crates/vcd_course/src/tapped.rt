//! The digits of a line, where a tap got a value.

ghost use Rattle.std.specs.Prelude.{◌≡◌, ◌≤◌, ◌+◌, length, take, replicate, true};
ghost use Rattle.vcd_grammar.specs.Digits.{extended};
ghost use Rattle.vcd_grammar.specs.Levels.{level_of};
ghost use Rattle.vcd_way.specs.declared.tap.Part.TheVariants as parts;
ghost use Rattle.vcd_way.specs.Events.{inverted_if, with_part};
ghost use Rattle.vcd_way.specs.Lawful.{is_part_within};

use crate::digits::{pad_before, run_digit, tap_digit};
use crate::level::level_of_row;
use vcd_grammar::Level;
use vcd_way::{BitRun, Part, Tap};

/// The row of a line of this width, where the tap gets a value. Tells what it says then.
#[inline(always)]
pub(crate) fn tapped(row: &mut [u8; 64], width: usize, tap: &Tap, digits: &[u8]) -> Level
    requires width { width ≤ 64 }
    requires part { is_part_within tap.now.part tap.now.width width ≡ true }
    requires fits { length digits.now ≤ tap.now.width }
    ensures row { take width row.new ≡ with_part tap.now.part
        (inverted_if tap.now.inverted (extended tap.now.width digits.now)) (take width row.old) }
    ensures level { result ≡ level_of (take width row.new) }
{
    put_tap(row, width, tap, digits);
    level_of_row(row, width)
}

/// The digits of a line of this width after the tap got a value.
#[inline(always)]
fn put_tap(row: &mut [u8; 64], width: usize, tap: &Tap, digits: &[u8])
    requires width { width ≤ 64 }
    requires part { is_part_within tap.now.part tap.now.width width ≡ true }
    requires fits { length digits.now ≤ tap.now.width }
    ensures { take width row.new ≡ with_part tap.now.part
        (inverted_if tap.now.inverted (extended tap.now.width digits.now)) (take width row.old) }
{
    match tap.part {
        Part::Whole => put_whole(row, width, tap, digits),
        Part::Bits(run) => *row = run_row(*row, width, tap, &run, digits),
    }
}

/// The digits of a line that the tap is.
#[inline(always)]
fn put_whole(row: &mut [u8; 64], width: usize, tap: &Tap, digits: &[u8])
    requires width { width ≤ 64 }
    requires whole { tap.now.width ≡ width }
    requires fits { length digits.now ≤ tap.now.width }
    ensures { take width row.new ≡ inverted_if tap.now.inverted (extended tap.now.width digits.now) }
{
    if tap.inverted {
        put_inverted(row, width, tap, digits);
    } else {
        put_extended(row, width, digits);
    }
}

/// So many first digits of a row become this one.
#[inline(always)]
fn fill_first(row: &mut [u8; 64], count: usize, digit: u8)
    requires { count ≤ 64 }
    ensures { take count row.new ≡ replicate count digit }
{
    for i in 0..count {
        row[i] = digit;
    }
}

/// Digits that are extended to this width.
#[inline(always)]
fn put_extended(row: &mut [u8; 64], width: usize, digits: &[u8])
    requires width { width ≤ 64 }
    requires fits { length digits.now ≤ width }
    ensures { take width row.new ≡ extended width digits.now }
{
    let missing = width - digits.len();
    fill_first(row, missing, pad_before(digits));
    for i in 0..digits.len() {
        row[missing + i] = digits[i];
    }
}

/// The digits of a line that the tap is, each inverted where the tap is.
fn put_inverted(row: &mut [u8; 64], width: usize, tap: &Tap, digits: &[u8])
    requires width { width ≤ 64 }
    requires whole { tap.now.width ≡ width }
    requires fits { length digits.now ≤ tap.now.width }
    ensures { take width row.new ≡ inverted_if tap.now.inverted (extended tap.now.width digits.now) }
{
    for i in 0..width {
        row[i] = tap_digit(tap, digits, i);
    }
}

/// The digits of a line of which the tap has a run of bits.
fn run_row(row: [u8; 64], width: usize, tap: &Tap, run: &BitRun, digits: &[u8]) -> [u8; 64]
    requires width { width ≤ 64 }
    requires low { run.now.low + run.now.count ≤ tap.now.width }
    requires lowest { run.now.lowest + run.now.count ≤ width }
    requires fits { length digits.now ≤ tap.now.width }
    ensures { take width result ≡ with_part (parts.Bits run.now)
        (inverted_if tap.now.inverted (extended tap.now.width digits.now)) (take width row) }
{
    let mut new = row;
    let top = width - (run.lowest as usize + run.count as usize);
    for i in 0..run.count as usize {
        new[top + i] = run_digit(tap, run, digits, i);
    }
    new
}
