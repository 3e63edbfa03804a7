ghost use Rattle.std.specs.Prelude.{◌≡◌, ℕ, ◌++◌, [], ◌∷◌, None, Some, IfOk, IfSome, OnOk, ◌&&◌, ◌||◌, true, false, not, if◌then◌else◌};
ghost use Rattle.vcd_grammar.specs.Digits.{time_in};
ghost use Rattle.vcd_grammar.specs.Words.{stamp_word, scalar_word, is_read_past, Foreign, Mark, Section as opens_section};
ghost use Rattle.vcd_way.specs.Steps.{breaks, moves_to, comes, stamp_step, scalar_step, word_step, vector_by, value_word_by, step, stops, resumes, mark_step, vector_step, other_step, if_short, remark_step, is_too_wide_for, AtCode};
ghost use Rattle.vcd_way.specs.Ways.{ValueRules};
ghost use Rattle.vcd_way.specs.Steps.{vector_digits, is_unreadable, hides_stamp, open_from};
ghost use Rattle.vcd_scan.specs.Digits.{digit_by};
ghost use Rattle.vcd_grammar.specs.Tokens.{is_long};
ghost use Rattle.vcd_scan.specs.Erased.{section_from, opens_remark};
ghost use Rattle.vcd_course.specs.Opening.{ended_in};
ghost use Rattle.vcd_way.specs.Answers.{fault_at_end};
ghost use Rattle.vcd_course.specs.Told.{event_list, event_told, open_told};
ghost use Rattle.vcd_scan.specs.Wired.{taps_in, wires_told};
ghost use Rattle.vcd_scan.specs.Told.{values_by, rules_in, state_told, open_in, events_told, way_in, token_at, Becomes, Leaves, Opens, Tells};
ghost use Rattle.vcd_scan.specs.Begun.{begun};
ghost use Rattle.vcd_course.specs.Told.{stamp_of};
ghost use Rattle.vcd_scan.specs.Lined.{stamps_in, Lines, LinesAt};

use crate::digits::{are_digits, digit_of, read_digits};
use crate::heard::{Heard, limit_behind};
use crate::table::Wires;
use crate::words::{is_off_word, is_on_word, is_unreadable, opens_remark, time_in};
use std::alloc::{AllocError, Global};
use vcd_course::{Course, CourseEvent, Stamp};
use vcd_grammar::{VcdCause, VcdFault};
use vcd_header::{is_end, is_long};
use vcd_way::Tap;

/// What is let pass among the values of a dump.
#[derive(Clone, Copy, Debug, PartialEq, Eq)]
pub struct ScanRules {
    /// The digits of VHDL are digits.
    pub has_wide_digits: bool,
    /// Any value is let pass of a variable that is no line.
    pub takes_any: bool,
    /// Where the dump stops for a time, and where it goes on, this is told.
    pub tells_holes: bool,
    /// A last token that is a fault, after which the text ends, ends it early.
    pub ends_early: bool,
}

/// Where the next token stands.
#[derive(Clone, Copy, Debug, PartialEq, Eq)]
pub(crate) enum Place {
    /// Between values.
    Values,
    /// After a vector at this place: its code is next.
    Code(u64),
    /// After a real number or a string at this place: its code is next.
    OtherCode(u64),
    /// In a section that began at this place, and what its words have among them.
    Remark(u64, Heard),
}

/// What the tokens so far have said.
#[derive(Drop)]
pub(crate) struct Machine {
    pub(crate) alloc: Global,
    pub(crate) rules: ScanRules,
    pub(crate) wires: Wires,
    pub(crate) course: Course,
    pub(crate) fault: Option<VcdFault>,
    pub(crate) spot: Place,
    /// The bytes of the vector whose code is next.
    pub(crate) digits: Vec<u8>,
    /// The digits that they mean.
    pub(crate) meant: Vec<u8>,
    pub(crate) time: Option<u64>,
    pub(crate) is_off: bool,
    /// Where the first section begins that was read past and says that a limit is exceeded.
    pub(crate) limit: Option<u64>,
    /// What was told and is not taken yet.
    pub(crate) told: Vec<CourseEvent>,
}

impl Machine {
    /// At the end of a header.
    pub(crate) fn new(alloc: Global, rules: ScanRules, wires: Wires, course: Course) -> Self
        ensures state { state_told result ≡ begun (wires_told wires) }
        ensures opened { open_in result ≡ open_told course }
        ensures told { events_told result.told.items ≡ [] }
        ensures rules { rules_in result ≡ values_by rules course }
        ensures fault { result.fault ≡ None }
        ensures wires { wires_told result.wires ≡ wires_told wires }
        ensures stamps { stamps_in result ≡ record { last = stamp_of course; told = [] } }
        ensures limit { result.limit ≡ None }
    {
        Machine {
            alloc,
            rules,
            wires,
            course,
            fault: None,
            spot: Place::Values,
            digits: Vec::new(alloc),
            meant: Vec::new(alloc),
            time: None,
            is_off: false,
            limit: None,
            told: Vec::new(alloc),
        }
    }

    /// A fault.
    fn fail(&mut self, place: u64, cause: VcdCause)
        ensures state { Becomes self.old self.new (breaks (state_told self.old) place cause) }
        ensures opened { Opens self.old self.new (breaks (state_told self.old) place cause) }
        ensures told { Tells self.old self.new (breaks (state_told self.old) place cause) }
        ensures rules { rules_in self.new ≡ rules_in self.old }
        ensures wires { wires_told self.new.wires ≡ wires_told self.old.wires }
        ensures stamps { stamps_in self.new ≡ stamps_in self.old }
    {
        self.fault = Some(VcdFault { place, cause });
    }

    /// A token between values.
    #[tactic(auto, unfolding(vcd_way::specs::Steps::value_word_by))]
    #[inline(always)]
    fn value(&mut self, place: u64, line: u64, word: &[u8]) -> Result<(), AllocError>
        requires values { self.old.spot ≡ Place.Values }
        requires stays { opens_remark word.now ≡ false }
        ensures state { OnOk result (Becomes self.old self.new (word_step (way_in self.old)
            (state_told self.old) (token_at place word.now) (value_word_by (rules_in self.old)
            word.now))) }
        ensures opened { OnOk result (Opens self.old self.new (word_step (way_in self.old)
            (state_told self.old) (token_at place word.now) (value_word_by (rules_in self.old)
            word.now))) }
        ensures told { OnOk result (Tells self.old self.new (word_step (way_in self.old)
            (state_told self.old) (token_at place word.now) (value_word_by (rules_in self.old)
            word.now))) }
        ensures rules { rules_in self.new ≡ rules_in self.old }
        ensures wires { wires_told self.new.wires ≡ wires_told self.old.wires }
        ensures lines { OnOk result (LinesAt place line self.old self.new) }
    {
        match word {
            [] => {
                self.fail(place, VcdCause::Token);
                Ok(())
            }
            [first, rest @ ..] => self.value_of(place, line, word, *first, rest),
        }
    }

    /// A token between values, of which this is the first byte.
    #[tactic(auto, unfolding(vcd_way::specs::Steps::value_word_by))]
    #[inline(always)]
    fn value_of(
        &mut self,
        place: u64,
        line: u64,
        word: &[u8],
        first: u8,
        rest: &[u8],
    ) -> Result<(), AllocError>
        requires values { self.old.spot ≡ Place.Values }
        requires stays { opens_remark word.now ≡ false }
        requires word { word.now ≡ first ∷ rest.now }
        ensures state { OnOk result (Becomes self.old self.new (word_step (way_in self.old)
            (state_told self.old) (token_at place word.now) (value_word_by (rules_in self.old)
            word.now))) }
        ensures opened { OnOk result (Opens self.old self.new (word_step (way_in self.old)
            (state_told self.old) (token_at place word.now) (value_word_by (rules_in self.old)
            word.now))) }
        ensures told { OnOk result (Tells self.old self.new (word_step (way_in self.old)
            (state_told self.old) (token_at place word.now) (value_word_by (rules_in self.old)
            word.now))) }
        ensures rules { rules_in self.new ≡ rules_in self.old }
        ensures wires { wires_told self.new.wires ≡ wires_told self.old.wires }
        ensures lines { OnOk result (LinesAt place line self.old self.new) }
    {
        if first == b'#' {
            return self.stamp(place, line, word, rest);
        }
        if digit_of(self.rules.has_wide_digits, first).is_some() {
            self.scalar(place, word, first, rest);
            return Ok(());
        }
        if first == b'b' || first == b'B' {
            return self.vector(place, word, rest);
        }
        if (first == b'r' || first == b'R') || (first == b's' || first == b'S') {
            self.foreign(place, word);
            return Ok(());
        }
        if first == b'$' {
            return self.dollar(place, word);
        }
        if self.rules.takes_any {
            self.scalar(place, word, first, rest);
            return Ok(());
        }
        self.fail(place, VcdCause::Token);
        Ok(())
    }

    /// A time stamp, of which `digits` stand after the number sign.
    #[inline(always)]
    fn stamp(&mut self, place: u64, line: u64, word: &[u8], digits: &[u8]) -> Result<(), AllocError>
        ensures state { OnOk result (Becomes self.old self.new (word_step (way_in self.old)
            (state_told self.old) (token_at place word.now) (stamp_word (time_in digits.now)))) }
        ensures opened { OnOk result (Opens self.old self.new (word_step (way_in self.old)
            (state_told self.old) (token_at place word.now) (stamp_word (time_in digits.now)))) }
        ensures told { OnOk result (Tells self.old self.new (word_step (way_in self.old)
            (state_told self.old) (token_at place word.now) (stamp_word (time_in digits.now)))) }
        ensures rules { rules_in self.new ≡ rules_in self.old }
        ensures wires { wires_told self.new.wires ≡ wires_told self.old.wires }
        ensures lines { OnOk result (LinesAt place line self.old self.new) }
    {
        if is_long(word) {
            self.fail(place, VcdCause::Token);
            return Ok(());
        }
        match time_in(digits) {
            None => {
                self.fail(place, VcdCause::Token);
                Ok(())
            }
            Some(time) => self.stamped(place, line, time),
        }
    }

    /// A time stamp of this time.
    #[inline(always)]
    fn stamped(&mut self, place: u64, line: u64, time: u64) -> Result<(), AllocError>
        ensures state { OnOk result (Becomes self.old self.new (stamp_step (state_told self.old)
            place time self.old.time)) }
        ensures opened { OnOk result (Opens self.old self.new (stamp_step (state_told self.old)
            place time self.old.time)) }
        ensures told { OnOk result (Tells self.old self.new (stamp_step (state_told self.old)
            place time self.old.time)) }
        ensures rules { rules_in self.new ≡ rules_in self.old }
        ensures wires { wires_told self.new.wires ≡ wires_told self.old.wires }
        ensures lines { OnOk result (LinesAt place line self.old self.new) }
    {
        match self.time {
            None => self.comes(place, line, time),
            Some(last) => {
                if time < last {
                    self.fail(place, VcdCause::TimeBack);
                    return Ok(());
                }
                if last < time {
                    return self.comes(place, line, time);
                }
                Ok(())
            }
        }
    }

    /// A greater time, which ends the block.
    fn comes(&mut self, place: u64, line: u64, time: u64) -> Result<(), AllocError>
        ensures state { OnOk result (Becomes self.old self.new (comes (state_told self.old) place
            time)) }
        ensures opened { OnOk result (Opens self.old self.new (comes (state_told self.old) place
            time)) }
        ensures told { OnOk result (Tells self.old self.new (comes (state_told self.old) place
            time)) }
        ensures rules { rules_in self.new ≡ rules_in self.old }
        ensures wires { wires_told self.new.wires ≡ wires_told self.old.wires }
        ensures lines { OnOk result (LinesAt place line self.old self.new) }
    {
        if self.course.tells() {
            self.comes_and_tells(place, line, time)
        } else {
            self.time = Some(time);
            self.course.moves_on(Stamp { time, place, line });
            Ok(())
        }
    }

    /// The same, where the block may have a sample.
    #[inline(never)]
    fn comes_and_tells(&mut self, place: u64, line: u64, time: u64) -> Result<(), AllocError>
        ensures state { OnOk result (Becomes self.old self.new (comes (state_told self.old) place
            time)) }
        ensures opened { OnOk result (Opens self.old self.new (comes (state_told self.old) place
            time)) }
        ensures told { OnOk result (Tells self.old self.new (comes (state_told self.old) place
            time)) }
        ensures rules { rules_in self.new ≡ rules_in self.old }
        ensures wires { wires_told self.new.wires ≡ wires_told self.old.wires }
        ensures lines { OnOk result (LinesAt place line self.old self.new) }
    {
        self.time = Some(time);
        let event = self.course.comes(Stamp { time, place, line });
        match event {
            None => Ok(()),
            Some(event) => {
                self.told.push(event)?;
                Ok(())
            }
        }
    }

    /// A scalar change.
    #[inline(always)]
    fn scalar(&mut self, place: u64, word: &[u8], digit: u8, code: &[u8])
        requires values { self.old.spot ≡ Place.Values }
        ensures state { Becomes self.old self.new (word_step (way_in self.old) (state_told
            self.old) (token_at place word.now) (scalar_word digit code.now)) }
        ensures opened { Opens self.old self.new (word_step (way_in self.old) (state_told
            self.old) (token_at place word.now) (scalar_word digit code.now)) }
        ensures told { Tells self.old self.new (word_step (way_in self.old) (state_told self.old)
            (token_at place word.now) (scalar_word digit code.now)) }
        ensures rules { rules_in self.new ≡ rules_in self.old }
        ensures wires { wires_told self.new.wires ≡ wires_told self.old.wires }
        ensures stamps { stamps_in self.new ≡ stamps_in self.old }
    {
        if is_long(word) {
            self.fail(place, VcdCause::Token);
            return;
        }
        match code {
            [] => self.fail(place, VcdCause::Token),
            [_, ..] => self.scalar_code(place, digit, code),
        }
    }

    /// A digit for what a code stands for.
    #[inline(always)]
    fn scalar_code(&mut self, place: u64, digit: u8, code: &[u8])
        requires values { self.old.spot ≡ Place.Values }
        ensures state { Becomes self.old self.new (scalar_step (way_in self.old) (state_told
            self.old) place digit (taps_in (wires_told self.old.wires).codes code.now)) }
        ensures opened { Opens self.old self.new (scalar_step (way_in self.old) (state_told
            self.old) place digit (taps_in (wires_told self.old.wires).codes code.now)) }
        ensures told { Tells self.old self.new (scalar_step (way_in self.old) (state_told
            self.old) place digit (taps_in (wires_told self.old.wires).codes code.now)) }
        ensures rules { rules_in self.new ≡ rules_in self.old }
        ensures wires { wires_told self.new.wires ≡ wires_told self.old.wires }
        ensures stamps { stamps_in self.new ≡ stamps_in self.old }
    {
        let Some(taps) = self.wires.taps(code) else {
            self.fault = Some(VcdFault {
                place,
                cause: VcdCause::Code,
            });
            return;
        };
        match digit_of(self.rules.has_wide_digits, digit) {
            Some(digit) => self.course.gets(taps, &[digit]),
            None => match taps {
                [] => {}
                [_, ..] => {
                    self.fault = Some(VcdFault {
                        place,
                        cause: VcdCause::Token,
                    });
                }
            },
        }
    }

    /// A vector, of which `digits` stand after the `b`.
    #[inline(always)]
    fn vector(&mut self, place: u64, word: &[u8], digits: &[u8]) -> Result<(), AllocError>
        ensures state { OnOk result (Becomes self.old self.new (word_step (way_in self.old)
            (state_told self.old) (token_at place word.now) (vector_by (rules_in self.old)
            digits.now))) }
        ensures opened { OnOk result (Opens self.old self.new (word_step (way_in self.old)
            (state_told self.old) (token_at place word.now) (vector_by (rules_in self.old)
            digits.now))) }
        ensures told { OnOk result (Tells self.old self.new (word_step (way_in self.old)
            (state_told self.old) (token_at place word.now) (vector_by (rules_in self.old)
            digits.now))) }
        ensures rules { rules_in self.new ≡ rules_in self.old }
        ensures wires { wires_told self.new.wires ≡ wires_told self.old.wires }
        ensures stamps { stamps_in self.new ≡ stamps_in self.old }
    {
        if self.rules.takes_any {
            return self.keep_vector(place, digits);
        }
        if is_long(word) {
            self.fail(place, VcdCause::Token);
            return Ok(());
        }
        if digits.is_empty() {
            self.fail(place, VcdCause::Token);
            return Ok(());
        }
        if !are_digits(self.rules.has_wide_digits, digits) {
            self.fail(place, VcdCause::Token);
            return Ok(());
        }
        self.keep_vector(place, digits)
    }

    /// A vector whose code is next.
    #[inline(always)]
    fn keep_vector(&mut self, place: u64, digits: &[u8]) -> Result<(), AllocError>
        ensures state { OnOk result (Becomes self.old self.new (moves_to (state_told self.old)
            (AtCode place digits.now))) }
        ensures opened { OnOk result (Opens self.old self.new (moves_to (state_told self.old)
            (AtCode place digits.now))) }
        ensures told { OnOk result (Tells self.old self.new (moves_to (state_told self.old)
            (AtCode place digits.now))) }
        ensures rules { rules_in self.new ≡ rules_in self.old }
        ensures wires { wires_told self.new.wires ≡ wires_told self.old.wires }
        ensures stamps { stamps_in self.new ≡ stamps_in self.old }
    {
        self.digits.clear();
        self.digits.extend_from_slice(digits)?;
        self.spot = Place::Code(place);
        Ok(())
    }

    /// A real number or a string.
    fn foreign(&mut self, place: u64, word: &[u8])
        ensures state { Becomes self.old self.new (word_step (way_in self.old) (state_told
            self.old) (token_at place word.now) Foreign) }
        ensures opened { Opens self.old self.new (word_step (way_in self.old) (state_told
            self.old) (token_at place word.now) Foreign) }
        ensures told { Tells self.old self.new (word_step (way_in self.old) (state_told self.old)
            (token_at place word.now) Foreign) }
        ensures rules { rules_in self.new ≡ rules_in self.old }
        ensures wires { wires_told self.new.wires ≡ wires_told self.old.wires }
        ensures stamps { stamps_in self.new ≡ stamps_in self.old }
    {
        if !self.rules.takes_any && is_long(word) {
            self.fail(place, VcdCause::Token);
        } else {
            self.spot = Place::OtherCode(place);
        }
    }

    /// A word that begins with `$`, and opens no section.
    fn dollar(&mut self, place: u64, word: &[u8]) -> Result<(), AllocError>
        requires { (is_long word.now || is_read_past word.now) ≡ true }
        ensures state { OnOk result (Becomes self.old self.new (word_step (way_in self.old)
            (state_told self.old) (token_at place word.now) (if is_read_past word.now then Mark
            else opens_section))) }
        ensures opened { OnOk result (Opens self.old self.new (word_step (way_in self.old)
            (state_told self.old) (token_at place word.now) (if is_read_past word.now then Mark
            else opens_section))) }
        ensures told { OnOk result (Tells self.old self.new (word_step (way_in self.old)
            (state_told self.old) (token_at place word.now) (if is_read_past word.now then Mark
            else opens_section))) }
        ensures rules { rules_in self.new ≡ rules_in self.old }
        ensures wires { wires_told self.new.wires ≡ wires_told self.old.wires }
        ensures lines { OnOk result (Lines self.old self.new) }
    {
        if is_long(word) {
            self.fail(place, VcdCause::Token);
            return Ok(());
        }
        self.mark(word)
    }

    /// A word after which changes stand, or the end of them.
    fn mark(&mut self, word: &[u8]) -> Result<(), AllocError>
        ensures state { OnOk result (Becomes self.old self.new (mark_step (way_in self.old)
            (state_told self.old) word.now)) }
        ensures opened { OnOk result (Opens self.old self.new (mark_step (way_in self.old)
            (state_told self.old) word.now)) }
        ensures told { OnOk result (Tells self.old self.new (mark_step (way_in self.old)
            (state_told self.old) word.now)) }
        ensures rules { rules_in self.new ≡ rules_in self.old }
        ensures wires { wires_told self.new.wires ≡ wires_told self.old.wires }
        ensures lines { OnOk result (Lines self.old self.new) }
    {
        if !self.rules.tells_holes {
            return Ok(());
        }
        if is_off_word(word) {
            return self.stops();
        }
        if self.is_off && is_on_word(word) {
            return self.resumes();
        }
        Ok(())
    }

    /// The dump stops for a time.
    fn stops(&mut self) -> Result<(), AllocError>
        ensures state { OnOk result (Becomes self.old self.new (stops (way_in self.old)
            (state_told self.old))) }
        ensures opened { OnOk result (Opens self.old self.new (stops (way_in self.old) (state_told
            self.old))) }
        ensures told { OnOk result (Tells self.old self.new (stops (way_in self.old) (state_told
            self.old))) }
        ensures rules { rules_in self.new ≡ rules_in self.old }
        ensures wires { wires_told self.new.wires ≡ wires_told self.old.wires }
        ensures lines { OnOk result (Lines self.old self.new) }
    {
        self.is_off = true;
        let (event, switch) = self.course.switches(true, self.wires.lines.as_slice());
        self.tell(event, switch)
    }

    /// It goes on.
    fn resumes(&mut self) -> Result<(), AllocError>
        ensures state { OnOk result (Becomes self.old self.new (resumes (way_in self.old)
            (state_told self.old))) }
        ensures opened { OnOk result (Opens self.old self.new (resumes (way_in self.old)
            (state_told self.old))) }
        ensures told { OnOk result (Tells self.old self.new (resumes (way_in self.old) (state_told
            self.old))) }
        ensures rules { rules_in self.new ≡ rules_in self.old }
        ensures wires { wires_told self.new.wires ≡ wires_told self.old.wires }
        ensures lines { OnOk result (Lines self.old self.new) }
    {
        self.is_off = false;
        let (event, switch) = self.course.switches(false, self.wires.lines.as_slice());
        self.tell(event, switch)
    }

    /// What is told of a hole, with the last stamp.
    fn tell(&mut self, event: Option<CourseEvent>, switch: CourseEvent) -> Result<(), AllocError>
        requires last { IfSome event (λ e. e.stamp ≡ stamp_of self.old.course) }
        requires switch { switch.stamp ≡ stamp_of self.old.course }
        ensures told { OnOk result (events_told self.new.told.items
            ≡ events_told self.old.told.items ++ (event_list event ++ event_told switch ∷ [])) }
        ensures state { state_told self.new ≡ state_told self.old }
        ensures opened { open_in self.new ≡ open_in self.old }
        ensures rules { rules_in self.new ≡ rules_in self.old }
        ensures wires { wires_told self.new.wires ≡ wires_told self.old.wires }
        ensures lines { OnOk result (Lines self.old self.new) }
    {
        match event {
            None => self.put(switch),
            Some(event) => {
                self.put(event)?;
                self.put(switch)
            }
        }
    }

    /// What is told, with the last stamp.
    fn put(&mut self, event: CourseEvent) -> Result<(), AllocError>
        requires { event.stamp ≡ stamp_of self.old.course }
        ensures told { OnOk result (events_told self.new.told.items
            ≡ events_told self.old.told.items ++ event_told event ∷ []) }
        ensures state { state_told self.new ≡ state_told self.old }
        ensures opened { open_in self.new ≡ open_in self.old }
        ensures rules { rules_in self.new ≡ rules_in self.old }
        ensures wires { wires_told self.new.wires ≡ wires_told self.old.wires }
        ensures stamp { stamp_of self.new.course ≡ stamp_of self.old.course }
        ensures lines { OnOk result (Lines self.old self.new) }
    {
        self.told.push(event)?;
        Ok(())
    }

    /// The code of a vector.
    fn vector_code(&mut self, from: u64, place: u64, word: &[u8]) -> Result<(), AllocError>
        ensures state { OnOk result (Becomes self.old self.new (if_short (state_told self.old)
            (token_at place word.now) (vector_step (way_in self.old) (state_told self.old) place
            from self.old.digits.items (taps_in (wires_told self.old.wires).codes word.now)))) }
        ensures opened { OnOk result (Opens self.old self.new (if_short (state_told self.old)
            (token_at place word.now) (vector_step (way_in self.old) (state_told self.old) place
            from self.old.digits.items (taps_in (wires_told self.old.wires).codes word.now)))) }
        ensures told { OnOk result (Tells self.old self.new (if_short (state_told self.old)
            (token_at place word.now) (vector_step (way_in self.old) (state_told self.old) place
            from self.old.digits.items (taps_in (wires_told self.old.wires).codes word.now)))) }
        ensures rules { rules_in self.new ≡ rules_in self.old }
        ensures wires { wires_told self.new.wires ≡ wires_told self.old.wires }
        ensures stamps { stamps_in self.new ≡ stamps_in self.old }
    {
        if is_long(word) {
            self.fail(place, VcdCause::Token);
            return Ok(());
        }
        let Some(taps) = self.wires.taps(word) else {
            self.fault = Some(VcdFault {
                place,
                cause: VcdCause::Code,
            });
            return Ok(());
        };
        if is_too_wide(taps, self.digits.as_slice()) {
            self.fault = Some(VcdFault {
                place: from,
                cause: VcdCause::Width,
            });
            return Ok(());
        }
        match taps {
            [] => {
                self.spot = Place::Values;
                Ok(())
            }
            [_, ..] => {
                let is_read = read_vector(self.rules, self.digits.as_slice(), &mut self.meant)?;
                if !is_read {
                    self.fault = Some(VcdFault {
                        place: from,
                        cause: VcdCause::Token,
                    });
                    return Ok(());
                }
                self.course.gets(taps, self.meant.as_slice());
                self.spot = Place::Values;
                Ok(())
            }
        }
    }

    /// The code of a real number or a string.
    fn other_code(&mut self, place: u64, word: &[u8])
        ensures state { Becomes self.old self.new (if_short (state_told self.old) (token_at place
            word.now) (other_step (state_told self.old) place (taps_in (wires_told
            self.old.wires).codes word.now))) }
        ensures opened { Opens self.old self.new (if_short (state_told self.old) (token_at place
            word.now) (other_step (state_told self.old) place (taps_in (wires_told
            self.old.wires).codes word.now))) }
        ensures told { Tells self.old self.new (if_short (state_told self.old) (token_at place
            word.now) (other_step (state_told self.old) place (taps_in (wires_told
            self.old.wires).codes word.now))) }
        ensures rules { rules_in self.new ≡ rules_in self.old }
        ensures wires { wires_told self.new.wires ≡ wires_told self.old.wires }
        ensures stamps { stamps_in self.new ≡ stamps_in self.old }
    {
        if is_long(word) {
            self.fail(place, VcdCause::Token);
            return;
        }
        if self.wires.taps(word).is_none() {
            self.fail(place, VcdCause::Code);
            return;
        }
        self.spot = Place::Values;
    }

    /// A token in a section that began at a place.
    fn remark(&mut self, from: u64, heard: Heard, place: u64, word: &[u8])
        ensures state { Leaves self.old self.new (remark_step (state_told self.old)
            (section_from from heard) (token_at place word.now)) }
        ensures opened { Opens self.old self.new (remark_step (state_told self.old)
            (section_from from heard) (token_at place word.now)) }
        ensures told { Tells self.old self.new (remark_step (state_told self.old)
            (section_from from heard) (token_at place word.now)) }
        ensures rules { rules_in self.new ≡ rules_in self.old }
        ensures wires { wires_told self.new.wires ≡ wires_told self.old.wires }
        ensures stamps { stamps_in self.new ≡ stamps_in self.old }
    {
        let _place = place;
        if is_end(word) {
            self.limit = limit_behind(self.limit, from, heard);
            self.spot = Place::Values;
        } else {
            self.spot = Place::Remark(from, heard.with(word));
        }
    }

    /// A token between values: a section that it opens, or a value.
    #[inline(always)]
    fn between(&mut self, place: u64, line: u64, word: &[u8]) -> Result<(), AllocError>
        requires values { self.old.spot ≡ Place.Values }
        ensures state { OnOk result (Leaves self.old self.new (word_step (way_in self.old)
            (state_told self.old) (token_at place word.now) (value_word_by (rules_in self.old)
            word.now))) }
        ensures opened { OnOk result (Opens self.old self.new (word_step (way_in self.old)
            (state_told self.old) (token_at place word.now) (value_word_by (rules_in self.old)
            word.now))) }
        ensures told { OnOk result (Tells self.old self.new (word_step (way_in self.old)
            (state_told self.old) (token_at place word.now) (value_word_by (rules_in self.old)
            word.now))) }
        ensures rules { rules_in self.new ≡ rules_in self.old }
        ensures wires { wires_told self.new.wires ≡ wires_told self.old.wires }
        ensures lines { OnOk result (LinesAt place line self.old self.new) }
    {
        if opens_remark(word) {
            self.spot = Place::Remark(place, Heard::nothing());
            return Ok(());
        }
        self.value(place, line, word)
    }

    /// A token at a place, where there was no fault before it.
    #[inline(always)]
    pub(crate) fn take(&mut self, place: u64, line: u64, word: &[u8]) -> Result<(), AllocError>
        requires fault { self.old.fault ≡ None }
        ensures state { OnOk result (Leaves self.old self.new (step (way_in self.old) (state_told
            self.old) (token_at place word.now))) }
        ensures opened { OnOk result (Opens self.old self.new (step (way_in self.old) (state_told
            self.old) (token_at place word.now))) }
        ensures told { OnOk result (Tells self.old self.new (step (way_in self.old) (state_told
            self.old) (token_at place word.now))) }
        ensures rules { rules_in self.new ≡ rules_in self.old }
        ensures wires { wires_told self.new.wires ≡ wires_told self.old.wires }
        ensures lines { OnOk result (LinesAt place line self.old self.new) }
    {
        match self.spot {
            Place::Values => self.between(place, line, word),
            Place::Code(from) => self.vector_code(from, place, word),
            Place::OtherCode(_) => {
                self.other_code(place, word);
                Ok(())
            }
            Place::Remark(from, heard) => {
                self.remark(from, heard, place, word);
                Ok(())
            }
        }
    }
}

impl Machine {
    /// The block that stands open, ended here.
    pub(crate) fn close(&mut self) -> Result<(), AllocError>
        ensures told { OnOk result (events_told self.new.told.items
            ≡ events_told self.old.told.items ++ ended_in (rules_in self.old) (open_in self.old)) }
        ensures rules { rules_in self.new ≡ rules_in self.old }
        ensures wires { wires_told self.new.wires ≡ wires_told self.old.wires }
        ensures lines { OnOk result (Lines self.old self.new) }
        ensures limit { self.new.limit ≡ self.old.limit }
    {
        let event = self.course.ends();
        match event {
            None => Ok(()),
            Some(event) => {
                self.told.push(event)?;
                Ok(())
            }
        }
    }

    /// The fault of a text that ends here, at this place, if it is one.
    pub(crate) fn fault_at(&self, place: u64) -> Option<VcdFault>
        ensures { result ≡ fault_at_end (state_told self.now).fault (state_told self.now).spot place }
    {
        if self.fault.is_some() {
            return self.fault;
        }
        match self.spot {
            Place::Values => None,
            Place::Code(_) | Place::OtherCode(_) | Place::Remark(_, _) => Some(VcdFault {
                place,
                cause: VcdCause::Cut,
            }),
        }
    }

    /// Whether a fault at the end of a text is let pass here: no open section holds a stamp.
    pub(crate) fn lets_end(&self) -> bool
        ensures { result
            ≡ ((rules_in self.now).ends_early && not (hides_stamp (state_told self.now).spot)) }
    {
        self.rules.ends_early && !self.hides_stamp()
    }

    /// Whether a section stands open that holds what looks like a time stamp.
    fn hides_stamp(&self) -> bool
        ensures { result ≡ hides_stamp (state_told self.now).spot }
    {
        match self.spot {
            Place::Remark(_, heard) => heard.stamp,
            Place::Values | Place::Code(_) | Place::OtherCode(_) => false,
        }
    }

    /// Where the section or the value begins that stands open.
    pub(crate) fn open_from(&self) -> Option<u64>
        ensures { result ≡ open_from (state_told self.now).spot }
    {
        match self.spot {
            Place::Values => None,
            Place::Code(from) | Place::OtherCode(from) => Some(from),
            Place::Remark(from, _) => Some(from),
        }
    }
}

/// Whether a value has more digits than one of the variables has bits.
pub(crate) fn is_too_wide(taps: &[Tap], digits: &[u8]) -> bool
    ensures { result ≡ is_too_wide_for taps.now digits.now }
{
    for tap in taps {
        if (tap.width as usize) < digits.len() {
            return true;
        }
    }
    false
}

/// Puts the digits that a vector means into a list, and tells whether it has a meaning.
fn read_vector(rules: ScanRules, digits: &[u8], to: &mut Vec<u8>) -> Result<bool, AllocError>
    ensures { (m : ValueRules) → m.digit ≡ digit_by rules.has_wide_digits →
        m.takes_any ≡ rules.takes_any →
        IfOk result (λ all. vector_digits m digits.now ≡ (if all then Some to.new.items else None)) }
{
    if is_let_pass(rules, digits) {
        return Ok(false);
    }
    read_digits(rules.has_wide_digits, digits, to)
}

/// Whether a vector is let pass without a meaning.
fn is_let_pass(rules: ScanRules, digits: &[u8]) -> bool
    ensures { result ≡ (rules.takes_any && is_unreadable digits.now) }
{
    rules.takes_any && is_unreadable(digits)
}
