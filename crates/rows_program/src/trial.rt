//! The rows of a file, done one after the other.

use crate::calls::{Came, Fails, Outside, did};
use crate::wants::is_met;
use fsb_io::Memory;
use rows_files::{Row, halves};
use std::alloc::{AllocError, Global};

/// What became of a row.
#[derive(Clone, Copy)]
pub(crate) enum Answer {
    /// It is done, or what it wants is so.
    Done,
    /// What it wants is not so.
    Unmet,
    /// There is no such row.
    Unknown,
}

/// What the rows so far have said.
#[derive(Drop)]
pub(crate) struct Trial {
    parts: Vec<(String, String)>,
    dump: Vec<u8>,
    lines: String,
    is_once: bool,
    fails: Fails,
    came: Came,
    orders: u32,
    wants: u32,
}

impl Trial {
    /// Nothing has been said.
    pub(crate) fn new(alloc: Global) -> Trial {
        Trial {
            parts: Vec::new(alloc),
            dump: Vec::new(alloc),
            lines: String::new(alloc),
            is_once: false,
            fails: Fails::NONE,
            came: Came::nothing(alloc),
            orders: 0,
            wants: 0,
        }
    }

    /// How many orders there were, and how many wants.
    pub(crate) fn counts(&self) -> (u32, u32) {
        (self.orders, self.wants)
    }

    /// What the last order answered, and what it refused.
    pub(crate) fn told(&self) -> (&str, &str) {
        (self.came.answer.as_str(), self.came.refusal.as_str())
    }

    /// Takes a file as the dump.
    pub(crate) fn take(&mut self, file: Option<Vec<u8>>) -> Answer {
        match file {
            Some(bytes) => {
                self.dump = bytes;
                Answer::Done
            }
            None => Answer::Unmet,
        }
    }

    /// Does a row, unless it takes a file.
    pub(crate) fn row(&mut self, alloc: Global, row: &Row<'_>) -> Result<Answer, Memory> {
        let (word, rest) = row.words();
        match word {
            "text" => self.part(alloc, rest, row.text.as_str())?,
            "line" => self.part(alloc, rest, row.cut_text())?,
            "dump" => match self.joined(alloc, rest)? {
                Some(text) => self.dump = text.into_bytes(),
                None => return Ok(Answer::Unknown),
            },
            "lines" => match self.joined(alloc, rest)? {
                Some(text) => self.lines = text,
                None => return Ok(Answer::Unknown),
            },
            "once" => self.is_once = true,
            "fail" => return Ok(self.fail(rest)),
            "$" => return self.order(alloc, rest),
            _ => return self.want(alloc, row),
        }
        Ok(Answer::Done)
    }

    // Names a part of dumps.
    fn part(&mut self, alloc: Global, name: &str, text: &str) -> Result<(), AllocError> {
        let part = (
            String::from_str(alloc, name)?,
            String::from_str(alloc, text)?,
        );
        self.parts.push(part)?;
        Ok(())
    }

    // The parts of these names, one behind the other; None where a name is that of no part. Without names it is empty.
    fn joined(&self, alloc: Global, names: &str) -> Result<Option<String>, AllocError> {
        let mut text = String::new(alloc);
        if names.is_empty() {
            return Ok(Some(text));
        }
        for name in names.split(" ") {
            match self.part_of(name) {
                Some(part) => text.push_str(part)?,
                None => return Ok(None),
            }
        }
        Ok(Some(text))
    }

    // The part of this name.
    fn part_of(&self, name: &str) -> Option<&str> {
        if name == "answer" {
            return Some(self.came.answer.as_str());
        }
        for (known, text) in self.parts.iter() {
            if known.as_str() == name {
                return Some(text.as_str());
            }
        }
        None
    }

    // Has a call fail in the next order.
    fn fail(&mut self, words: &str) -> Answer {
        let (calls, number) = halves(words);
        match number.parse::<u32>() {
            Ok(number) if self.fails.add(calls, number) => Answer::Done,
            _ => Answer::Unknown,
        }
    }

    // Does an order. It ends what was said of it before.
    fn order(&mut self, alloc: Global, words: &str) -> Result<Answer, Memory> {
        self.came = self.did(alloc, words)?;
        self.orders = self.orders.saturating_add(1);
        self.is_once = false;
        self.fails = Fails::NONE;
        Ok(Answer::Done)
    }

    // What comes of an order over the dump.
    fn did(&self, alloc: Global, words: &str) -> Result<Came, Memory> {
        let outside = Outside {
            dump: &self.dump,
            is_again: !self.is_once,
            lines: self.lines.as_str(),
            fails: self.fails,
        };
        did(alloc, words, outside)
    }

    // Asks whether what is wanted of the last order is so.
    fn want(&mut self, alloc: Global, row: &Row<'_>) -> Result<Answer, Memory> {
        let met = match row.words() {
            ("as", words) => Some(self.came.is_as(&self.did(alloc, words)?)),
            ("cut", words) if words.starts_with("as ") => {
                let (_, words) = halves(words);
                Some(self.came.cut.as_str() == self.did(alloc, words)?.answer.as_str())
            }
            _ => is_met(alloc, &self.came, row)?,
        };
        self.wants = self.wants.saturating_add(1);
        Ok(match met {
            Some(true) => Answer::Done,
            Some(false) => Answer::Unmet,
            None => Answer::Unknown,
        })
    }
}
