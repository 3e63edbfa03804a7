ghost use Rattle.std.specs.Prelude.{◌≡◌, ◌<◌, ℕ, List, [], ◌∷◌, false};
ghost use Rattle.fsb_signal.specs.DumpText.{width_of};
ghost use Rattle.vcd_grammar.specs.Digits.{extended};
ghost use Rattle.vcd_grammar.specs.Levels.{level_of};
ghost use Rattle.vcd_grammar.specs.Judging.{is_too_wide};
ghost use Rattle.vcd_read.specs.Lines.{nothing_changed, changed_line, changed_lines, next_block, block_rises};

use crate::levels::Values;
use fsb_signal::Sample;
use std::marker::Model;
use vcd_grammar::Level;

/// The block that stands open: the values in it, and of those before it the digit of the clock and the sample.
///
/// The sample before a block is computed only where a line but the clock has changed since the last one, since it takes
/// nothing of the clock.
#[derive(Drop)]
pub(crate) struct OpenBlock {
    clock_before: u8,
    sample_before: Sample,
    values: Values,
    /// A line but the clock may have changed since the sample before the block.
    changed: bool,
}

impl Model for OpenBlock {
    ghost use Rattle.vcd_read.specs.Lines.{BlockView, SampleKept};

    ghost Value = { BlockView };

    ghost view = { λ b. record {
      clock_before = b.clock_before;
      sample_before = b.sample_before;
      now = b.values;
    } };

    ghost invariant = { λ b. SampleKept b.changed b.sample_before b.values.levels };
}

impl OpenBlock {
    /// Before anything was declared.
    pub(crate) fn new() -> Self
        ensures { result ≡ nothing_changed }
    {
        let values = Values::new();
        OpenBlock {
            clock_before: values.clock,
            sample_before: values.sample(),
            values,
            changed: false,
        }
    }

    /// Gives a line some digits.
    pub(crate) fn set_line(&mut self, number: u8, digits: &[u8])
        requires { number < 22 → is_too_wide digits.now (number ∷ []) ≡ false }
        ensures { self.new ≡ changed_line self.old number digits.now }
    {
        self.values.set_line(number, digits);
        if number != 0 {
            self.changed = true;
        }
    }

    /// Gives a line one digit.
    pub(crate) fn set_digit(&mut self, number: u8, digit: u8)
        ensures { self.new ≡ changed_line self.old number (digit ∷ []) }
    {
        self.values.set_digit(number, digit);
        if number != 0 {
            self.changed = true;
        }
    }

    /// Gives a line what digits say of it.
    pub(crate) fn set_level(&mut self, number: u8, level: Level)
        requires { number < 22 }
        ensures { (digits : List ℕ) → 0 < number →
            level ≡ level_of (extended (width_of number) digits) →
            self.new ≡ changed_line self.old number digits }
    {
        self.values.set_level(number, level);
        self.changed = true;
    }

    /// Gives some lines some digits.
    pub(crate) fn set_lines(&mut self, lines: &[u8], digits: &[u8])
        requires { is_too_wide digits.now lines.now ≡ false }
        ensures { self.new ≡ changed_lines self.old lines.now digits.now }
    {
        self.values.set_lines(lines, digits);
        self.changed = true;
    }

    /// Gives some lines one digit.
    pub(crate) fn set_lines_to(&mut self, lines: &[u8], digit: u8)
        ensures { self.new ≡ changed_lines self.old lines.now (digit ∷ []) }
    {
        self.values.set_lines_to(lines, digit);
        self.changed = true;
    }

    /// Whether the clock rises in the block.
    pub(crate) fn rises(&self) -> bool
        ensures { result ≡ block_rises self.now }
    {
        self.clock_before == b'0' && self.values.clock == b'1'
    }

    /// The sample of the values before the block.
    pub(crate) fn sample_before(&self) -> Sample
        ensures { result ≡ self.now.sample_before }
    {
        self.sample_before
    }

    /// Ends the block; another one begins.
    pub(crate) fn end(&mut self)
        ensures { self.new ≡ next_block self.old }
    {
        if self.changed {
            self.sample_before = self.values.sample();
            self.changed = false;
        }
        self.clock_before = self.values.clock;
    }
}
