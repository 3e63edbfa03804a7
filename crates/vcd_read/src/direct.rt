//! What is taken at once: changes of a line whose code is one byte, if all digits of a vector are 0
//! or 1, and time stamps of few digits.

ghost use Rattle.std.specs.Prelude.{◌≡◌, ◌<◌, ◌≤◌, ◌+◌, ◌^◌, ◌++◌, ℕ, [], ◌∷◌, take, length, List, true, false, Some, IfSome, OnOk, OnErr, vec_len, vec_capacity};
ghost use Rattle.std.specs.List.{list_all};
ghost use Rattle.vcd_grammar.specs.Tokens.{is_white};
ghost use Rattle.vcd_grammar.specs.Digits.{is_value_digit};
ghost use Rattle.vcd_grammar.specs.Codes.{lines_of};
ghost use Rattle.vcd_grammar.specs.Words.{value_word, Stamp};
ghost use Rattle.vcd_read.specs.Taking.{pushed};
ghost use Rattle.vcd_read.specs.Scanning.{reading, after_bytes, samples_in_bytes, is_dark, Fits};
ghost use Rattle.vcd_read.specs.Direct.{AwaitsToken, BeginsWithScalar, BeginsWithStamp, BeginsWithVector};

use crate::digits::{is_gap, is_value_digit, is_white, number_before};
use crate::lanes::binary_before;
use crate::levels::{level_of_binary, width_at};
use crate::scan::Scan;
use fsb_signal::Sample;
use std::alloc::AllocError;
use vcd_grammar::Level;

/// A scalar change whose code is one byte and a line's alone.
#[derive(Clone, Copy, Debug)]
pub(crate) struct DirectScalar {
    pub(crate) digit: u8,
    pub(crate) code: u8,
    /// The number of the line.
    pub(crate) number: u8,
}

/// A vector change of digits 0 and 1, whose code is one byte and a line's alone, not the clock's.
#[derive(Clone, Copy, Debug)]
pub(crate) struct DirectVector {
    /// How many digits there are.
    pub(crate) count: usize,
    pub(crate) code: u8,
    /// The number of the line.
    pub(crate) number: u8,
    /// What the line has then.
    pub(crate) level: Level,
}

impl Scan {
    /// Whether no token is begun, and the next one stands between values, with no fault before it.
    pub(crate) fn is_ready(&self) -> bool
        ensures { result ≡ true → AwaitsToken (reading self.now) }
    {
        self.run_len() == 0 && self.machine.is_between_values()
    }

    /// The scalar change with which the bytes begin, where it can be taken at once.
    pub(crate) fn scalar_in(&self, bytes: &[u8]) -> Option<DirectScalar>
        ensures { IfSome result (λ s. BeginsWithScalar self.now.machine.codes bytes.now s) }
    {
        match bytes {
            [digit, code, white, ..] => {
                if !is_value_digit(*digit) || is_white(*code) || !is_gap(*white) {
                    return None;
                }
                match self.machine.codes.single(&[*code]) {
                    Some(number) => Some(DirectScalar {
                        digit: *digit,
                        code: *code,
                        number,
                    }),
                    None => None,
                }
            }
            _ => None,
        }
    }

    /// Such a change, and a byte of white space behind it.
    pub(crate) fn scalar(&mut self, change: DirectScalar)
        requires ready { AwaitsToken (reading self.old) }
        requires room { self.old.at + 3 < 2 ^ 64 }
        requires digit { is_value_digit change.digit ≡ true }
        requires code { is_white change.code ≡ false }
        requires line { lines_of self.old.machine.codes (change.code ∷ [])
            ≡ Some (change.number ∷ []) }
        ensures state { (w : ℕ) → is_white w ≡ true →
            reading self.new ≡ after_bytes (reading self.old)
            (change.digit ∷ change.code ∷ w ∷ []) }
    {
        self.at += 3;
        self.machine.set_digit(change.number, change.digit);
    }

    /// The vector change with which the bytes begin, where it can be taken at once.
    #[inline(always)]
    pub(crate) fn vector_in(&self, bytes: &[u8]) -> Option<DirectVector>
        ensures { IfSome result (λ v. BeginsWithVector self.now.machine.codes bytes.now v) }
    {
        if bytes.len() < 68 || bytes[0] != b'b' {
            return None;
        }
        let (count, zeros) = binary_before(&bytes[1..]);
        let code = bytes[count + 2];
        if count == 0 || !is_gap(bytes[count + 1]) || is_white(code) || !is_gap(bytes[count + 3]) {
            return None;
        }
        let number = self.machine.codes.single(&[code])?;
        if number == 0 || 22 <= number {
            return None;
        }
        let width = width_at(number);
        if (width as usize) < count {
            return None;
        }
        let level = level_of_binary(width, count, zeros);
        Some(DirectVector {
            count,
            code,
            number,
            level,
        })
    }

    /// Such a change, and a byte of white space behind it.
    pub(crate) fn vector(&mut self, change: DirectVector)
        requires ready { AwaitsToken (reading self.old) }
        requires room { self.old.at + change.count + 4 < 2 ^ 64 }
        requires line { change.number < 22 }
        ensures state { (bytes : List ℕ) → BeginsWithVector self.old.machine.codes bytes change →
            reading self.new ≡ after_bytes (reading self.old) (take (change.count + 4) bytes) }
    {
        self.at += change.count as u64 + 4;
        self.machine.set_level(change.number, change.level);
    }

    /// A time stamp that stands whole, and a byte of white space behind it.
    pub(crate) fn stamp(
        &mut self,
        word: &[u8],
        time: u64,
        limit: u32,
        to: &mut Vec<Sample>,
    ) -> Result<(), AllocError>
        requires ready { AwaitsToken (reading self.old) }
        requires some { 0 < length word.now }
        requires short { length word.now ≤ 70000 }
        requires dark { list_all is_dark word.now ≡ true }
        requires says { value_word word.now ≡ Stamp time }
        requires room { self.old.at + length word.now + 1 < 2 ^ 64 }
        requires fits { Fits (reading self.old) }
        ensures state { (w : ℕ) → is_white w ≡ true →
            OnOk result (reading self.new ≡ after_bytes (reading self.old) (word.now ++ w ∷ [])) }
        ensures samples { (w : ℕ) → is_white w ≡ true →
            OnOk result (to.new.items
            ≡ pushed limit self.old.machine.decided to.old.items
            (samples_in_bytes (reading self.old) (word.now ++ w ∷ []))) }
        ensures silent { OnErr result (to.new.items ≡ to.old.items) }
        ensures full { OnErr result (vec_capacity to.old ≤ vec_len to.old) }
    {
        let place = self.at;
        self.at = place + word.len() as u64 + 1;
        self.machine.stamped(place, time, limit, to)
    }
}

/// The time stamp with which the bytes begin, where it can be taken at once: how many bytes it has, and its time.
pub(crate) fn stamp_in(bytes: &[u8]) -> Option<(usize, u64)>
    ensures { IfSome result (λ s. BeginsWithStamp bytes.now s.0 s.1) }
{
    if bytes.len() < 20 || bytes[0] != b'#' {
        return None;
    }
    let (len, time) = number_before(&bytes[1..20])?;
    if len == 0 || !is_gap(bytes[len + 1]) {
        return None;
    }
    Some((len + 1, time))
}
