ghost use Rattle.std.specs.Prelude.{◌≡◌, ◌≤◌, length, true, false};
ghost use Rattle.std.specs.List.{list_all};
ghost use Rattle.vcd_grammar.specs.Values.{at_first};
ghost use Rattle.vcd_way.specs.Lawful.{is_line, is_lawful_tap};
ghost use Rattle.vcd_way.specs.Steps.{is_too_wide_for};
ghost use Rattle.vcd_way.specs.Events.{set_tap, set_taps, unknown_in};
ghost use Rattle.vcd_course.specs.Told.{rows_told};

use crate::lines::{Block, LISTED, Rows};
use crate::rows::width_at;
use vcd_way::{Part, Tap};

impl Block {
    /// No line is asserted.
    pub(crate) fn new() -> Self
        ensures before { rows_told result.before ≡ at_first }
        ensures inside { rows_told result.inside ≡ at_first }
    {
        let rows = Rows::new();
        Block {
            before: rows,
            inside: rows,
            changed: [0; 32],
            count: 0,
        }
    }

    /// A tap gets a value.
    #[inline(always)]
    fn set_tap(&mut self, tap: &Tap, digits: &[u8])
        requires lawful { is_lawful_tap tap.now ≡ true }
        requires fits { length digits.now ≤ tap.now.width }
        ensures inside { rows_told self.new.inside
            ≡ set_tap (rows_told self.old.inside) tap.now digits.now }
        ensures before { self.new.before ≡ self.old.before }
    {
        self.inside.set_tap(tap, digits);
        if self.count < LISTED {
            self.changed[self.count] = tap.line;
            self.count += 1;
        } else {
            self.count = LISTED + 1;
        }
    }

    /// Some taps get a value.
    #[inline(always)]
    pub(crate) fn set_taps(&mut self, taps: &[Tap], digits: &[u8])
        requires lawful { list_all is_lawful_tap taps.now ≡ true }
        requires fits { is_too_wide_for taps.now digits.now ≡ false }
        ensures inside { rows_told self.new.inside
            ≡ set_taps (rows_told self.old.inside) taps.now digits.now }
        ensures before { self.new.before ≡ self.old.before }
    {
        for tap in taps {
            self.set_tap(tap, digits);
        }
    }

    /// Some lines become unknown.
    pub(crate) fn forget(&mut self, lines: &[u8])
        requires { list_all is_line lines.now ≡ true }
        ensures inside { rows_told self.new.inside
            ≡ unknown_in (rows_told self.old.inside) lines.now }
        ensures before { self.new.before ≡ self.old.before }
    {
        for line in lines {
            let tap = Tap {
                line: *line,
                width: width_at(*line) as u32,
                part: Part::Whole,
                inverted: false,
            };
            self.set_tap(&tap, b"x");
        }
    }

    /// Ends the block.
    #[inline(always)]
    pub(crate) fn close(&mut self)
        ensures inside { self.new.inside ≡ self.old.inside }
        ensures before { rows_told self.new.before ≡ rows_told self.old.inside }
    {
        self.before.follow(&self.inside, &self.changed, self.count);
        self.count = 0;
    }
}
