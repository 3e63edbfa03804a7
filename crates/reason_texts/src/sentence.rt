//! A reason as a sentence.

use crate::answer::{put_code, put_ready, put_response};
use crate::begin::{put_begin, put_id, put_unwon};
use crate::lines::{put_data, put_line, put_snoop};
use fsb_reasons::Reason;
use std::fmt;

/// A reason, and the clock at which it holds. It prints as one or two sentences, without a line's end.
#[derive(Clone, Copy, Debug)]
pub struct Sentence {
    pub clock: u32,
    pub reason: Reason,
}

impl fmt::Display for Sentence {
    fn fmt<W: fmt::Write>(&self, f: &mut fmt::Formatter<W>) -> fmt::Result {
        match self.reason.rule() {
            2 | 3 | 4 | 5 => put_begin(f, self.clock, &self.reason),
            6 => put_unwon(f, self.clock, &self.reason),
            7 | 18 => put_id(f, self.clock, &self.reason),
            11 | 12 => put_snoop(f, self.clock, &self.reason),
            13 => put_response(f, self.clock, &self.reason),
            14 => put_code(f, self.clock, &self.reason),
            15 => put_ready(f, self.clock, &self.reason),
            16 | 17 => put_data(f, self.clock, &self.reason),
            _ => put_line(f, self.clock, &self.reason),
        }
    }
}
