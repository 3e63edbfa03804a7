//! The rows of a file, done one after the other.

use crate::calls::{Came, Outside, did};
use crate::statuses::status_of;
use crate::wants::{is_met, text_of};
use fsb_io::Memory;
use fsb_top::Status;
use rows_files::{Row, halves};
use std::alloc::{AllocError, Global};

/// What became of a row.
#[derive(Clone, Copy)]
pub(crate) enum Answer {
    /// It is done, or what it wants is so.
    Done,
    /// What it wants is not so.
    Unmet,
    /// There is no such row.
    Unknown,
}

impl Answer {
    // What became of a row that is met, is not, or is none.
    fn of(met: Option<bool>) -> Answer {
        match met {
            Some(true) => Answer::Done,
            Some(false) => Answer::Unmet,
            None => Answer::Unknown,
        }
    }
}

/// What the rows so far have said.
#[derive(Drop)]
pub(crate) struct Trial {
    parts: Vec<(String, String)>,
    source: Vec<u8>,
    outside: Outside,
    came: Came,
    orders: u32,
    wants: u32,
}

impl Trial {
    /// Nothing has been said.
    pub(crate) fn new(alloc: Global) -> Result<Trial, AllocError> {
        Ok(Trial {
            parts: Vec::new(alloc),
            source: Vec::new(alloc),
            outside: Outside::PLAIN,
            came: Came::of_status(alloc, &Status::Done)?,
            orders: 0,
            wants: 0,
        })
    }

    /// How many orders there were, and how many wants.
    pub(crate) fn counts(&self) -> (u32, u32) {
        (self.orders, self.wants)
    }

    /// What came of the last order.
    pub(crate) fn came(&self) -> &Came {
        &self.came
    }

    /// Does a row.
    pub(crate) fn row(&mut self, alloc: Global, row: &Row<'_>) -> Result<Answer, Memory> {
        let (word, rest) = row.words();
        if word == "text" {
            return self.part(alloc, rest, row.text.as_str());
        }
        if takes_text(word, rest) == row.text.is_empty() {
            return Ok(Answer::Unknown);
        }
        match word {
            "line" => self.part(alloc, rest, row.cut_text()),
            "repeat" => self.repeat(alloc, rest, row.text.as_str()),
            "source" => self.source(alloc, rest),
            "blank" => self.blank(alloc, rest),
            "keep" => self.keep(alloc, rest),
            "fail" | "stubborn" | "probes" => Ok(self.outside(word, rest)),
            "$" | "made" => self.order(alloc, word, rest),
            _ => self.want(alloc, row),
        }
    }

    // Names a part of texts.
    fn part(&mut self, alloc: Global, name: &str, text: &str) -> Result<Answer, Memory> {
        if name.is_empty() {
            return Ok(Answer::Unknown);
        }
        let part = (
            String::from_str(alloc, name)?,
            String::from_str(alloc, text)?,
        );
        self.parts.push(part)?;
        Ok(Answer::Done)
    }

    // Names the text, once for each number of a range, which stands in the place of each `%`.
    fn repeat(&mut self, alloc: Global, words: &str, text: &str) -> Result<Answer, Memory> {
        let (name, range) = halves(words);
        let (from, to) = halves(range);
        let (Ok(from), Ok(to)) = (from.parse::<u32>(), to.parse::<u32>()) else {
            return Ok(Answer::Unknown);
        };
        for number in from..=to {
            let number = format!(in alloc; "{number}")?;
            let text = text.replace(alloc, "%", number.as_str())?;
            self.part(alloc, name, text.as_str())?;
        }
        Ok(Answer::Done)
    }

    // The parts of these names, one behind the other; None where a name is that of no part.
    fn joined(&self, alloc: Global, names: &str) -> Result<Option<String>, AllocError> {
        let mut text = String::new(alloc);
        for name in names.split(" ") {
            if !self.add_part(name, &mut text)? {
                return Ok(None);
            }
        }
        Ok(Some(text))
    }

    // Adds the parts of this name to the text; whether there is one.
    fn add_part(&self, name: &str, text: &mut String) -> Result<bool, AllocError> {
        if let Some(last) = text_of(&self.came, name) {
            text.push_str(last)?;
            return Ok(true);
        }
        let mut is_known = false;
        for (known, part) in self.parts.iter() {
            if known.as_str() == name {
                text.push_str(part.as_str())?;
                is_known = true;
            }
        }
        Ok(is_known)
    }

    // Takes the parts of these names as the source.
    fn source(&mut self, alloc: Global, names: &str) -> Result<Answer, Memory> {
        let Some(text) = self.joined(alloc, names)? else {
            return Ok(Answer::Unknown);
        };
        self.source = text.into_bytes();
        Ok(Answer::Done)
    }

    // Takes so many line feeds as the source.
    fn blank(&mut self, alloc: Global, number: &str) -> Result<Answer, Memory> {
        match number.parse::<u32>() {
            Ok(lines) if lines <= 5_000_000 => {
                self.source = vec![in alloc; b'\n'; lines as usize]?;
                Ok(Answer::Done)
            }
            _ => Ok(Answer::Unknown),
        }
    }

    // Names what was dumped last.
    fn keep(&mut self, alloc: Global, name: &str) -> Result<Answer, Memory> {
        let dump = String::from_str(alloc, self.came.dump.as_str())?;
        self.part(alloc, name, dump.as_str())
    }

    // Says what the next order finds.
    fn outside(&mut self, word: &str, rest: &str) -> Answer {
        if word == "fail" {
            let (calls, number) = halves(rest);
            return match number.parse::<u32>() {
                Ok(number) if self.outside.fails.add(calls, number) => Answer::Done,
                _ => Answer::Unknown,
            };
        }
        if !rest.is_empty() {
            return Answer::Unknown;
        }
        self.outside.is_stubborn = self.outside.is_stubborn || word == "stubborn";
        self.outside.has_probes = self.outside.has_probes || word == "probes";
        Answer::Done
    }

    // Does an order, or makes a status in its place. It ends what was said of it before.
    fn order(&mut self, alloc: Global, word: &str, words: &str) -> Result<Answer, Memory> {
        self.came = if word == "made" {
            let Some(status) = status_of(words) else {
                return Ok(Answer::Unknown);
            };
            Came::of_status(alloc, &status)?
        } else {
            did(alloc, words, &self.source, &self.outside)?
        };
        self.orders = self.orders.saturating_add(1);
        self.outside = Outside::PLAIN;
        Ok(Answer::of(Some(self.came.odd.is_empty())))
    }

    // Asks whether what is wanted of the last order is so.
    fn want(&mut self, alloc: Global, row: &Row<'_>) -> Result<Answer, Memory> {
        self.wants = self.wants.saturating_add(1);
        let (what, how) = row.words();
        let (word, rest) = halves(how);
        Ok(Answer::of(match (what, word) {
            ("again", _) => {
                let again = did(alloc, how, &self.source, &Outside::PLAIN)?;
                Some(self.came.is_as(&again))
            }
            ("cut", _) => self.is_cut_well(alloc, how)?,
            (_, "as") => {
                let wanted = self.joined(alloc, rest)?;
                match (text_of(&self.came, what), wanted) {
                    (Some(text), Some(wanted)) => Some(text == wanted.as_str()),
                    _ => None,
                }
            }
            _ => is_met(&self.came, row),
        }))
    }

    // Whether the check of each text that is cut off is met: of one that is cut off before the end of the parts of these
    // names, that it is no dump, and of a longer one, that it is none or is judged. None where the source does not begin with
    // these parts.
    fn is_cut_well(&self, alloc: Global, names: &str) -> Result<Option<bool>, Memory> {
        let Some(head) = self.joined(alloc, names)? else {
            return Ok(None);
        };
        let head = head.as_bytes();
        if !self.source.starts_with(head) {
            return Ok(None);
        }
        for len in 0..self.source.len() {
            let text = self.source.get(..len).unwrap_or(&[]);
            let came = did(alloc, "p6bench check first.vcd", text, &Outside::PLAIN)?;
            if came.status != 4 && (len < head.len() || came.status > 1) {
                return Ok(Some(false));
            }
        }
        Ok(Some(true))
    }
}

// Whether there is a text below a row of these words, which begin with this one.
fn takes_text(word: &str, rest: &str) -> bool {
    word == "line" || word == "repeat" || rest == "is" || rest == "begins"
}
