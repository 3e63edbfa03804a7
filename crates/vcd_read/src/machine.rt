ghost use Rattle.std.specs.Prelude.{◌≡◌, ℕ, true, None, [], ◌∷◌, ◌==◌, ◌&&◌, not, slice_get, ◌<◌, ◌+◌, ◌^◌, List, take, length, vec_len, vec_capacity, ◌≤◌, Some, IfOk, OnOk, OnErr, if◌then◌else◌, false, is_some, IsOk};
ghost use Rattle.fsb_signal.specs.Table.{TableEntry, table};
ghost use Rattle.fsb_signal.specs.DumpText.{width_of};
ghost use Rattle.vcd_grammar.specs.Digits.{time_in, extended};
ghost use Rattle.vcd_grammar.specs.Levels.{level_of};
ghost use Rattle.vcd_grammar.specs.Words.{header_word, value_word, stamp_word, scalar_word, vector_word, is_end};
ghost use Rattle.vcd_grammar.specs.Judging.{turn, turn_in, stays, goes_to, fails, later, unless_long, drafted, declared, mode_behind, other_declared, line_declared, named, closed, is_declared, missing_from, header_turn, value_turn, scalar_turn, stamped, Header as in_header, Variable as in_variable, Pending as in_pending, Beside as in_beside, marks_of_lines, known_marks};
ghost use Rattle.vcd_grammar.specs.Reading.{or_cut};
ghost use Rattle.vcd_read.specs.ReaderView.{known_of, lines_view, draft_of, is_declaring};
ghost use Rattle.vcd_read.specs.Lines.{rises};
ghost use Rattle.vcd_read.specs.Taking.{taken, untaken, turned, decided_of, pushed, line_changed};
ghost use Rattle.vcd_read.specs.Scanning.{open_samples, open_rises};

use crate::codes::Codes;
use crate::digits::{is_long, is_value_digit, time_in, width_in};
use crate::levels::{is_too_wide, is_wider, width_of};
use crate::mode::{Draft, Mode};
use crate::open_block::OpenBlock;
use crate::words::{
    are_value_digits, is_code_word, is_dollar, is_end, is_foreign_type, is_read_past, line_in,
};
use arrayvec::ArrayVec;
use fsb_signal::{Marks, Sample, signal_at};
use std::alloc::{AllocError, Global};
use vcd_grammar::{Level, VcdCause, VcdFault};

/// What is known behind the tokens so far.
#[derive(Drop)]
pub(crate) struct Machine {
    pub(crate) fault: Option<VcdFault>,
    pub(crate) mode: Mode,
    /// The code of the variable that is being declared.
    pub(crate) code: Vec<u8>,
    /// The first digits of the vector whose code is next.
    pub(crate) digits: ArrayVec<u8, 65>,
    /// The lines that were declared.
    pub(crate) lines: Vec<u8>,
    pub(crate) codes: Codes,
    pub(crate) time: Option<u64>,
    pub(crate) block: OpenBlock,
    /// How many samples were decided, whether they were kept or not.
    pub(crate) decided: u64,
}

impl Machine {
    /// Before the first token.
    pub(crate) fn new(alloc: Global) -> Self
        ensures { taken result ≡ untaken }
    {
        Machine {
            fault: None,
            mode: Mode::Header,
            code: Vec::new(alloc),
            digits: ArrayVec::new(),
            lines: Vec::new(alloc),
            codes: Codes::new(alloc),
            time: None,
            block: OpenBlock::new(),
            decided: 0,
        }
    }

    fn fail(&mut self, place: u64, cause: VcdCause)
        ensures { taken self.new ≡ turned (taken self.old) (fails (known_of self.old) place cause) }
    {
        self.fault = Some(VcdFault { place, cause });
    }

    /// A declaration that is a fault at its `$end`, behind which it is over.
    fn refuse(&mut self, draft: Draft, cause: VcdCause)
        ensures { taken self.new ≡ turned (taken self.old)
            (fails (record (known_of self.old) { mode = in_header }) draft.place cause) }
    {
        self.mode = Mode::Header;
        self.fail(draft.place, cause);
    }

    /// A token between the sections of the header.
    #[tactic(auto, unfolding(vcd_grammar::specs::Words::header_word))]
    fn header(&mut self, place: u64, word: &[u8])
        ensures { taken self.new ≡ turned (taken self.old)
            (unless_long (known_of self.old) (record { place = place; word = word.now })
            (header_turn (known_of self.old) place (header_word word.now))) }
    {
        if is_long(word) {
            self.fail(place, VcdCause::Token);
        } else if b"$var".as_slice() == word {
            self.code.clear();
            self.mode = Mode::Variable(Draft {
                place,
                count: 0,
                is_line: false,
                width: None,
                line: None,
            });
        } else if b"$enddefinitions".as_slice() == word {
            self.mode = Mode::Closing(place);
        } else if is_end(word) {} else if is_dollar(word) {
            self.mode = Mode::Skipped;
        } else {
            self.fail(place, VcdCause::Header);
        }
    }

    /// A token of the declaration of a variable.
    fn variable(&mut self, draft: Draft, place: u64, word: &[u8]) -> Result<(), AllocError>
        requires { self.old.mode ≡ Mode.Variable draft }
        ensures { OnOk result (taken self.new
            ≡ turned (taken self.old)
            (turn_in (in_variable (draft_of draft self.old.code.items)) (known_of self.old)
            (record { place = place; word = word.now }))) }
    {
        if is_long(word) {
            self.fail(place, VcdCause::Token);
            Ok(())
        } else if is_end(word) {
            self.declare(draft)
        } else {
            self.drafted(draft, word)
        }
    }

    /// A further token of a declaration, which is not its `$end`.
    fn drafted(&mut self, draft: Draft, word: &[u8]) -> Result<(), AllocError>
        ensures { OnOk result (taken self.new
            ≡ turned (taken self.old)
            (goes_to (known_of self.old)
            (in_variable (drafted (draft_of draft self.old.code.items) word.now)))) }
    {
        if draft.count == 2 {
            self.code.clear();
            self.code.extend_from_slice(word)?;
        }
        self.mode = Mode::Variable(next_draft(draft, word));
        Ok(())
    }

    /// The `$end` of a declaration.
    #[tactic(auto, unfolding(vcd_grammar::specs::Judging::declared))]
    fn declare(&mut self, draft: Draft) -> Result<(), AllocError>
        ensures { OnOk result (taken self.new
            ≡ turned (taken self.old)
            (declared (known_of self.old) (draft_of draft self.old.code.items))) }
    {
        let Some(width) = draft.width else {
            self.refuse(draft, VcdCause::Header);
            return Ok(());
        };
        if draft.count != 4 || !is_code_word(self.code.as_slice()) {
            self.refuse(draft, VcdCause::Header);
            return Ok(());
        }
        match draft.line {
            None => self.declare_other(),
            Some(number) => self.declare_named(draft, width, number),
        }
    }

    /// A variable that is no line.
    fn declare_other(&mut self) -> Result<(), AllocError>
        ensures { OnOk result (taken self.new
            ≡ turned (taken self.old) (other_declared (known_of self.old) self.old.code.items)) }
    {
        self.codes.declare(self.code.as_slice(), &[])?;
        self.mode = Mode::Header;
        Ok(())
    }

    /// A variable of a line's name.
    fn declare_named(&mut self, draft: Draft, width: u64, number: u8) -> Result<(), AllocError>
        ensures { OnOk result (taken self.new
            ≡ turned (taken self.old)
            (named (known_of self.old) (draft_of draft self.old.code.items) width (Some number))) }
    {
        if !draft.is_line || self.lines.contains(&number) {
            self.declare_other()
        } else if width == width_of(number) {
            self.declare_line(number)
        } else {
            self.refuse(draft, VcdCause::Width);
            Ok(())
        }
    }

    /// A line, which is unknown until it gets a value.
    fn declare_line(&mut self, number: u8) -> Result<(), AllocError>
        ensures { OnOk result (taken self.new
            ≡ turned (taken self.old)
            (line_declared (known_of self.old) self.old.code.items number)) }
    {
        self.lines.push(number)?;
        self.codes.declare(self.code.as_slice(), &[number])?;
        self.block.set_line(number, b"x");
        self.mode = Mode::Header;
        Ok(())
    }

    /// A token behind the `$enddefinitions` at `place`.
    #[tactic(auto, unfolding(vcd_grammar::specs::Judging::closed))]
    fn closing(&mut self, place: u64, word: &[u8])
        ensures { taken self.new ≡ turned (taken self.old)
            (if is_end word.now then closed (known_of self.old) place else stays
            (known_of self.old)) }
    {
        if !is_end(word) {
            return;
        }
        self.mode = Mode::Values;
        if let Some(number) = missing(self.lines.as_slice()) {
            self.fail(place, VcdCause::Missing(number));
        }
    }

    /// A token between values.
    #[tactic(auto, unfolding(vcd_grammar::specs::Words::value_word))]
    fn value(
        &mut self,
        place: u64,
        word: &[u8],
        limit: u32,
        to: &mut Vec<Sample>,
    ) -> Result<(), AllocError>
        requires { self.old.decided + 1 < 2 ^ 64 }
        ensures taken { OnOk result
            (taken self.new ≡ turned (taken self.old)
            (unless_long (known_of self.old) (record { place = place; word = word.now })
            (value_turn (known_of self.old) place (value_word word.now)))) }
        ensures samples { OnOk result
            (to.new.items ≡ pushed limit self.old.decided to.old.items
            (decided_of (taken self.old)
            (unless_long (known_of self.old) (record { place = place; word = word.now })
            (value_turn (known_of self.old) place (value_word word.now))))) }
        ensures silent { OnErr result (to.new.items ≡ to.old.items) }
        ensures full { OnErr result (vec_capacity to.old ≤ vec_len to.old) }
    {
        if is_long(word) {
            self.fail(place, VcdCause::Token);
            return Ok(());
        }
        match word {
            [] => self.fail(place, VcdCause::Token),
            [first, rest @ ..] => {
                if *first == b'#' {
                    return self.stamp(place, rest, limit, to);
                }
                if is_value_digit(*first) {
                    self.scalar(place, *first, rest);
                } else if *first == b'b' || *first == b'B' {
                    self.vector(place, rest);
                } else if (*first == b'r' || *first == b'R') || (*first == b's' || *first == b'S') {
                    self.mode = Mode::Beside;
                } else if *first == b'$' {
                    if !is_read_past(word) {
                        self.mode = Mode::Passed;
                    }
                } else {
                    self.fail(place, VcdCause::Token);
                }
            }
        }
        Ok(())
    }

    /// A time stamp, of which `digits` stand behind the number sign.
    fn stamp(
        &mut self,
        place: u64,
        digits: &[u8],
        limit: u32,
        to: &mut Vec<Sample>,
    ) -> Result<(), AllocError>
        requires { self.old.decided + 1 < 2 ^ 64 }
        ensures taken { OnOk result
            (taken self.new ≡ turned (taken self.old)
            (value_turn (known_of self.old) place (stamp_word (time_in digits.now)))) }
        ensures samples { OnOk result
            (to.new.items ≡ pushed limit self.old.decided to.old.items
            (decided_of (taken self.old)
            (value_turn (known_of self.old) place (stamp_word (time_in digits.now))))) }
        ensures silent { OnErr result (to.new.items ≡ to.old.items) }
        ensures full { OnErr result (vec_capacity to.old ≤ vec_len to.old) }
    {
        match time_in(digits) {
            None => {
                self.fail(place, VcdCause::Token);
                Ok(())
            }
            Some(time) => self.stamped(place, time, limit, to),
        }
    }

    /// Whether the next token stands between values, with no fault before it.
    pub(crate) fn is_between_values(&self) -> bool
        ensures fault { result ≡ true → self.now.fault ≡ None }
        ensures mode { result ≡ true → self.now.mode ≡ Mode.Values }
    {
        if self.fault.is_some() {
            return false;
        }
        match self.mode {
            Mode::Values => true,
            _ => false,
        }
    }

    /// A time stamp of this time.
    pub(crate) fn stamped(
        &mut self,
        place: u64,
        time: u64,
        limit: u32,
        to: &mut Vec<Sample>,
    ) -> Result<(), AllocError>
        requires { self.old.decided + 1 < 2 ^ 64 }
        ensures taken { OnOk result
            (taken self.new ≡ turned (taken self.old)
            (stamped (known_of self.old) place time self.old.time)) }
        ensures samples { OnOk result
            (to.new.items ≡ pushed limit self.old.decided to.old.items
            (decided_of (taken self.old) (stamped (known_of self.old) place time self.old.time))) }
        ensures silent { OnErr result (to.new.items ≡ to.old.items) }
        ensures full { OnErr result (vec_capacity to.old ≤ vec_len to.old) }
    {
        match self.time {
            None => self.later(time, limit, to),
            Some(last) => {
                if time < last {
                    self.fail(place, VcdCause::TimeBack);
                    Ok(())
                } else if last < time {
                    self.later(time, limit, to)
                } else {
                    Ok(())
                }
            }
        }
    }

    /// A greater time, which ends the block.
    fn later(&mut self, time: u64, limit: u32, to: &mut Vec<Sample>) -> Result<(), AllocError>
        requires { self.old.decided + 1 < 2 ^ 64 }
        ensures taken { OnOk result
            (taken self.new ≡ turned (taken self.old) (later (known_of self.old) time)) }
        ensures samples { OnOk result
            (to.new.items ≡ pushed limit self.old.decided to.old.items
            (decided_of (taken self.old) (later (known_of self.old) time))) }
        ensures silent { OnErr result (to.new.items ≡ to.old.items) }
        ensures full { OnErr result (vec_capacity to.old ≤ vec_len to.old) }
    {
        if self.rises() {
            if self.decided < u64::from(limit) {
                to.push(self.block.sample_before())?;
            }
            self.decided += 1;
        }
        self.block.end();
        self.time = Some(time);
        Ok(())
    }

    /// Which of the two parity lines were declared.
    pub(crate) fn declared_marks(&self) -> Marks
        ensures { result ≡ marks_of_lines self.now.lines.items }
    {
        Marks {
            ap: is_declared(&self.lines, 20),
            rp: is_declared(&self.lines, 21),
        }
    }

    /// The marks, where the header is over.
    pub(crate) fn marks(&self) -> Option<Marks>
        ensures { result ≡ known_marks (known_of self.now) }
    {
        match self.mode {
            Mode::Values | Mode::Pending(_) | Mode::Beside | Mode::Passed => {
                Some(self.declared_marks())
            }
            Mode::Header | Mode::Variable(_) | Mode::Skipped | Mode::Closing(_) => None,
        }
    }

    /// The end of the text, at a place where a text may end or not.
    pub(crate) fn end(&mut self, place: u64)
        ensures known { known_of self.new
            ≡ record (known_of self.old)
            { fault = or_cut self.old.fault (known_of self.old).mode place } }
        ensures lines { lines_view self.new ≡ lines_view self.old }
    {
        if self.fault.is_none() {
            match self.mode {
                Mode::Values => {}
                _ => self.fail(place, VcdCause::Cut),
            }
        }
    }

    /// The block that stands open, where the text ends: its sample is appended while there are fewer than the limit, if
    /// there is no fault. Tells whether there is such a sample.
    pub(crate) fn close(&self, limit: u32, to: &mut Vec<Sample>) -> Result<bool, AllocError>
        ensures behind { is_some self.now.fault ≡ true → IsOk result }
        ensures rises { IfOk result
            (λ more. more ≡ open_rises self.now.fault (lines_view self.now)) }
        ensures samples { OnOk result
            (to.new.items ≡ pushed limit self.now.decided to.old.items
            (open_samples self.now.fault (lines_view self.now))) }
        ensures silent { OnErr result (to.new.items ≡ to.old.items) }
        ensures full { OnErr result (vec_capacity to.old ≤ vec_len to.old) }
    {
        if self.fault.is_some() {
            return Ok(false);
        }
        if !self.rises() {
            return Ok(false);
        }
        if self.decided < u64::from(limit) {
            to.push(self.block.sample_before())?;
        }
        Ok(true)
    }

    /// Whether the clock rises in the block that stands open.
    pub(crate) fn rises(&self) -> bool
        ensures { result ≡ rises (lines_view self.now) }
    {
        self.block.rises()
    }

    /// A scalar change.
    fn scalar(&mut self, place: u64, digit: u8, code: &[u8])
        ensures { taken self.new ≡ turned (taken self.old)
            (value_turn (known_of self.old) place (scalar_word digit code.now)) }
    {
        if code.is_empty() {
            self.fail(place, VcdCause::Token);
            return;
        }
        if let Some(number) = self.codes.single(code) {
            self.block.set_digit(number, digit);
            return;
        }
        match self.codes.lines(code) {
            None => self.fail(place, VcdCause::Code),
            Some(lines) => self.block.set_lines_to(lines, digit),
        }
    }

    /// A digit for a line.
    pub(crate) fn set_digit(&mut self, number: u8, digit: u8)
        ensures { taken self.new ≡ turned (taken self.old)
            (scalar_turn (known_of self.old) 0 digit (Some (number ∷ []))) }
    {
        self.block.set_digit(number, digit);
    }

    /// What digits for a line say of it.
    pub(crate) fn set_level(&mut self, number: u8, level: Level)
        requires { number < 22 }
        ensures { (digits : List ℕ) → 0 < number →
            level ≡ level_of (extended (width_of number) digits) →
            taken self.new
            ≡ turned (taken self.old) (line_changed (known_of self.old) number digits) }
    {
        self.block.set_level(number, level);
    }

    /// A vector, of which `digits` stand behind the `b`.
    fn vector(&mut self, place: u64, digits: &[u8])
        ensures { taken self.new ≡ turned (taken self.old)
            (value_turn (known_of self.old) place (vector_word digits.now)) }
    {
        if digits.is_empty() || !are_value_digits(digits) {
            self.fail(place, VcdCause::Token);
            return;
        }
        copy_first(&mut self.digits, digits);
        self.mode = Mode::Pending(place);
    }

    /// The code at `place` of the vector at `from`.
    fn vector_code(&mut self, from: u64, place: u64, code: &[u8])
        requires { self.old.mode ≡ Mode.Pending from }
        ensures { taken self.new ≡ turned (taken self.old)
            (turn_in (in_pending from self.old.digits.items) (known_of self.old)
            (record { place = place; word = code.now })) }
    {
        if is_long(code) {
            self.fail(place, VcdCause::Token);
            return;
        }
        if let Some(number) = self.codes.single(code) {
            if is_wider(self.digits.as_slice(), number) {
                self.fail(from, VcdCause::Width);
            } else {
                self.block.set_line(number, self.digits.as_slice());
                self.mode = Mode::Values;
            }
            return;
        }
        match self.codes.lines(code) {
            None => self.fail(place, VcdCause::Code),
            Some(lines) => {
                if is_too_wide(self.digits.as_slice(), lines) {
                    self.fail(from, VcdCause::Width);
                } else {
                    self.block.set_lines(lines, self.digits.as_slice());
                    self.mode = Mode::Values;
                }
            }
        }
    }

    /// The code of a real number or a string.
    fn beside(&mut self, place: u64, code: &[u8])
        ensures { taken self.new ≡ turned (taken self.old)
            (turn_in in_beside (known_of self.old) (record { place = place; word = code.now })) }
    {
        if is_long(code) {
            self.fail(place, VcdCause::Token);
            return;
        }
        match self.codes.lines(code) {
            None => self.fail(place, VcdCause::Code),
            Some(_) => self.mode = Mode::Values,
        }
    }

    /// A token behind a fault, of which only the sections of the header matter.
    fn pass(&mut self, place: u64, word: &[u8])
        ensures { taken self.new ≡ turned (taken self.old)
            (goes_to (known_of self.old)
            (mode_behind (known_of self.old).mode (record { place = place; word = word.now }))) }
    {
        match self.mode {
            Mode::Header => self.pass_word(place, word),
            Mode::Variable(_) | Mode::Skipped => {
                if is_end(word) {
                    self.mode = Mode::Header;
                }
            }
            Mode::Closing(_) => {
                if is_end(word) {
                    self.mode = Mode::Values;
                }
            }
            Mode::Values | Mode::Pending(_) | Mode::Beside | Mode::Passed => {}
        }
    }

    /// A token between the sections of a header with a fault.
    #[tactic(auto, unfolding(vcd_grammar::specs::Words::header_word))]
    fn pass_word(&mut self, place: u64, word: &[u8])
        requires { self.old.mode ≡ Mode.Header }
        ensures { taken self.new ≡ turned (taken self.old)
            (goes_to (known_of self.old)
            (mode_behind in_header (record { place = place; word = word.now }))) }
    {
        if is_long(word) {} else if b"$var".as_slice() == word {
            self.mode = Mode::Skipped;
        } else if b"$enddefinitions".as_slice() == word {
            self.mode = Mode::Closing(place);
        } else if is_end(word) {} else if is_dollar(word) {
            self.mode = Mode::Skipped;
        }
    }

    /// A token at a place. A sample that it decides is appended while there are fewer than the limit. Behind a fault
    /// nothing is kept but where the header stands, and memory is wanting for a sample or in a declaration alone.
    #[tactic(auto, unfolding(vcd_grammar::specs::Judging::turn))]
    pub(crate) fn take(
        &mut self,
        place: u64,
        word: &[u8],
        limit: u32,
        to: &mut Vec<Sample>,
    ) -> Result<(), AllocError>
        requires { self.old.decided + 1 < 2 ^ 64 }
        ensures taken { OnOk result
            (taken self.new ≡ turned (taken self.old)
            (turn (known_of self.old) (record { place = place; word = word.now }))) }
        ensures samples { OnOk result
            (to.new.items ≡ pushed limit self.old.decided to.old.items
            (decided_of (taken self.old)
            (turn (known_of self.old) (record { place = place; word = word.now })))) }
        ensures silent { OnErr result (to.new.items ≡ to.old.items) }
        ensures behind { is_some self.old.fault ≡ true → IsOk result }
        ensures full { is_declaring self.old.mode ≡ false →
            OnErr result (vec_capacity to.old ≤ vec_len to.old) }
    {
        if self.fault.is_some() {
            self.pass(place, word);
            return Ok(());
        }
        match self.mode {
            Mode::Values => return self.value(place, word, limit, to),
            Mode::Pending(from) => self.vector_code(from, place, word),
            Mode::Header => self.header(place, word),
            Mode::Variable(draft) => return self.variable(draft, place, word),
            Mode::Skipped => {
                if is_end(word) {
                    self.mode = Mode::Header;
                }
            }
            Mode::Closing(from) => self.closing(from, word),
            Mode::Beside => self.beside(place, word),
            Mode::Passed => {
                if is_end(word) {
                    self.mode = Mode::Values;
                }
            }
        }
        Ok(())
    }
}

/// A declaration with a further token; a code is kept beside it.
#[tactic(auto, unfolding(vcd_grammar::specs::Judging::drafted))]
fn next_draft(draft: Draft, word: &[u8]) -> Draft
    ensures { (code : List ℕ) → draft_of result (if draft.count == 2 then word.now else code)
        ≡ drafted (draft_of draft code) word.now }
{
    if draft.count == 0 {
        Draft {
            count: 1,
            is_line: !is_foreign_type(word),
            ..draft
        }
    } else if draft.count == 1 {
        Draft {
            count: 2,
            width: width_in(word),
            ..draft
        }
    } else if draft.count == 2 {
        Draft { count: 3, ..draft }
    } else if draft.count == 3 {
        Draft {
            count: 4,
            line: line_in(word),
            ..draft
        }
    } else {
        draft
    }
}

/// The first 65 digits.
fn first_of(digits: &[u8]) -> &[u8]
    ensures first { result.now ≡ take 65 digits.now }
    ensures few { length result.now ≤ 65 }
{
    if digits.len() <= 65 {
        digits
    } else {
        digits.split_at(65).0
    }
}

/// Keeps the first 65 digits.
fn copy_first(to: &mut ArrayVec<u8, 65>, digits: &[u8])
    ensures { to.new.items ≡ take 65 digits.now }
{
    to.clear();
    to.try_extend_from_slice(first_of(digits)).unwrap();
}

/// Whether the line of this number was declared.
fn is_declared(lines: &[u8], number: u8) -> bool
    ensures { result ≡ is_declared lines.now number }
{
    lines.contains(&number)
}

/// Whether the line of this number must be declared and is not.
fn is_missing(lines: &[u8], number: u8) -> bool
    requires { number < 22 }
    ensures { (e : TableEntry) → slice_get table number ≡ Some e →
        result ≡ (e.needed && not (is_declared lines.now number)) }
{
    signal_at(number).needed && !is_declared(lines, number)
}

/// The first line of the table that must be declared and is not.
fn missing(lines: &[u8]) -> Option<u8>
    ensures { result ≡ missing_from lines.now 0 table }
{
    for number in 0..22 {
        if is_missing(lines, number) {
            return Some(number);
        }
    }
    None
}
