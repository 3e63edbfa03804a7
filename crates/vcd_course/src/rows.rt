ghost use Rattle.std.specs.Prelude.{◌≡◌, ◌<◌, ◌≤◌, ℕ, [], ◌∷◌, length, take, map, slice_set, ◌≢◌, true};
ghost use Rattle.fsb_signal.specs.DumpText.{width_of};
ghost use Rattle.vcd_grammar.specs.Levels.{level_of};
ghost use Rattle.vcd_grammar.specs.Values.{Values, at_first, clock_of, sample_of};
ghost use Rattle.vcd_way.specs.Lawful.{is_lawful_tap};
ghost use Rattle.vcd_way.specs.Events.{set_tap, sampled, settled, settled_digits, digits_at};
ghost use Rattle.vcd_way.specs.declared.tap.Part.TheVariants as parts;
ghost use Rattle.vcd_course.specs.Told.{rows_told};
ghost use Rattle.vcd_course.specs.Lines.{row_at, is_listed, SameUnlessListed};

use crate::digits::tap_digit;
use crate::level::{level_of_digit, level_of_row};
use crate::lines::{LISTED, Rows};
use crate::sample::sample_at;
use crate::settle::settle_row;
use crate::tapped::tapped;
use fsb_signal::{Sample, signal_at};
use vcd_grammar::Level;
use vcd_way::{Part, Tap};

/// How many bits the line has.
#[inline(always)]
pub(crate) fn width_at(line: u8) -> usize
    requires { line < 22 }
    ensures width { result ≡ width_of line }
    ensures most { result ≤ 64 }
    ensures some { 0 < result }
{
    signal_at(line).width as usize
}

/// Puts a digit in front of a row, in the place of the first one.
#[inline(always)]
#[tactic(auto, using(crate::proofs::TappedFacts::first_digit))]
fn put_first(row: &mut [u8; 64], digit: u8)
    ensures { take 1 row.new ≡ digit ∷ [] }
{
    row[0] = digit;
}

/// Whether the tap has one bit, and is a line.
#[inline(always)]
fn is_bit(tap: &Tap) -> bool
    ensures one { result ≡ true → tap.now.width ≡ 1 }
    ensures whole { result ≡ true → tap.now.part ≡ parts.Whole }
{
    match tap.part {
        Part::Whole => tap.width == 1,
        Part::Bits(_) => false,
    }
}

impl Rows {
    /// No line is asserted.
    pub(crate) fn new() -> Self
        ensures { rows_told result ≡ at_first }
    {
        Rows {
            rows: [[b'1'; 64]; 22],
            levels: [Level {
                asserted: 0,
                unknown: 0,
            }; 22],
        }
    }

    /// A tap gets a value.
    #[inline(always)]
    pub(crate) fn set_tap(&mut self, tap: &Tap, digits: &[u8])
        requires lawful { is_lawful_tap tap.now ≡ true }
        requires fits { length digits.now ≤ tap.now.width }
        ensures told { rows_told self.new ≡ set_tap (rows_told self.old) tap.now digits.now }
        ensures rest { (line : ℕ) → line ≢ tap.now.line →
            row_at self.new.rows line ≡ row_at self.old.rows line }
    {
        if is_bit(tap) {
            self.set_bit(tap, digits);
        } else {
            self.set_bits(tap, digits);
        }
    }

    /// A tap of one bit that is a line gets a value.
    #[inline(always)]
    fn set_bit(&mut self, tap: &Tap, digits: &[u8])
        requires lawful { is_lawful_tap tap.now ≡ true }
        requires fits { length digits.now ≤ tap.now.width }
        requires one { tap.now.width ≡ 1 }
        requires whole { tap.now.part ≡ parts.Whole }
        ensures told { rows_told self.new ≡ set_tap (rows_told self.old) tap.now digits.now }
        ensures rest { (line : ℕ) → line ≢ tap.now.line →
            row_at self.new.rows line ≡ row_at self.old.rows line }
    {
        let line = tap.line as usize;
        let digit = tap_digit(tap, digits, 0);
        self.levels[line] = level_of_digit(digit);
        put_first(&mut self.rows[line], digit);
    }

    /// Any tap gets a value.
    fn set_bits(&mut self, tap: &Tap, digits: &[u8])
        requires lawful { is_lawful_tap tap.now ≡ true }
        requires fits { length digits.now ≤ tap.now.width }
        ensures told { rows_told self.new ≡ set_tap (rows_told self.old) tap.now digits.now }
        ensures rest { (line : ℕ) → line ≢ tap.now.line →
            row_at self.new.rows line ≡ row_at self.old.rows line }
    {
        let line = tap.line as usize;
        let width = width_at(tap.line);
        self.levels[line] = tapped(&mut self.rows[line], width, tap, digits);
    }

    /// The digit of the clock.
    pub(crate) fn clock(&self) -> u8
        ensures { result ≡ clock_of (rows_told self.now) }
    {
        self.rows[0][0]
    }

    /// A line gets the digits that it has there.
    #[inline(always)]
    pub(crate) fn copy_line(&mut self, line: usize, from: &Rows)
        requires { line < 22 }
        ensures { self.new.rows ≡ slice_set self.old.rows line (row_at from.now.rows line) }
    {
        self.rows[line] = from.rows[line];
        self.levels[line] = from.levels[line];
    }

    /// Gets all digits that the lines have there, where so many lines are listed, and others are the
    /// same in both. More than there is room for may be any.
    pub(crate) fn follow(&mut self, from: &Rows, lines: &[u8; 32], count: usize)
        requires { SameUnlessListed count lines.now self.old.rows from.now.rows }
        ensures { (line : ℕ) → row_at self.new.rows line ≡ row_at from.now.rows line }
    {
        if LISTED < count {
            *self = *from;
            return;
        }
        self.copy_lines(from, &lines[..count]);
    }

    /// Copies these lines; some may be listed twice.
    pub(crate) fn copy_lines(&mut self, from: &Rows, lines: &[u8])
        ensures copied { (line : ℕ) → is_listed lines.now line ≡ true →
            row_at self.new.rows line ≡ row_at from.now.rows line }
        ensures kept { (line : ℕ) → row_at self.old.rows line ≡ row_at from.now.rows line →
            row_at self.new.rows line ≡ row_at from.now.rows line }
    {
        for line in lines {
            if *line < 22 {
                self.copy_line(*line as usize, from);
            }
        }
    }

    /// The digits at the first edge, between these and those after them.
    pub(crate) fn settled(&self, after: &Rows) -> Rows
        ensures { rows_told result ≡ settled (rows_told self.now) (rows_told after.now) }
    {
        let mut rows = *self;
        for line in 0..22 {
            rows.settle_line(line, self, after);
        }
        rows
    }

    /// A line gets its digits at the first edge.
    fn settle_line(&mut self, line: u8, before: &Rows, after: &Rows)
        requires { line < 22 }
        ensures { rows_told self.new
            ≡ slice_set (rows_told self.old) line
            (settled_digits (digits_at (rows_told before.now) line) (digits_at (rows_told after.now) line)) }
    {
        let width = width_at(line);
        let line = line as usize;
        let row = settle_row(&before.rows[line], &after.rows[line]);
        self.levels[line] = level_of_row(&row, width);
        self.rows[line] = row;
    }

    /// The sample between these and those after them: of the late lines, those after.
    #[inline(always)]
    pub(crate) fn sample(&self, late: &[u8], after: &Rows) -> Sample
        ensures { result
            ≡ sample_of (sampled late.now (rows_told self.now) (rows_told after.now)) }
    {
        if late.is_empty() {
            return sample_at(&self.levels);
        }
        sample_at(&self.levels_with(late, after))
    }

    /// What each line has; of the late lines, what they have after that.
    fn levels_with(&self, late: &[u8], after: &Rows) -> [Level; 22]
        ensures { result
            ≡ map level_of (sampled late.now (rows_told self.now) (rows_told after.now)) }
    {
        let mut levels = self.levels;
        let mut left = late.len();
        while 0 < left {
            left -= 1;
            copy_level(&mut levels, late[left], &after.levels);
        }
        levels
    }
}

/// A line gets what it has there.
fn copy_level(levels: &mut [Level; 22], line: u8, from: &[Level; 22])
    ensures { (before after : Values) → levels.old ≡ map level_of before →
        from.now ≡ map level_of after → length before ≡ 22 → length after ≡ 22 →
        levels.new ≡ map level_of (slice_set before line (digits_at after line)) }
{
    if line < 22 {
        levels[line as usize] = from[line as usize];
    }
}
