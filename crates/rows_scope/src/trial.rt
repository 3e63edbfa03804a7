//! The rows of a file, one after the other.

use crate::commands::read;
use crate::headers::{as_declared, in_few_words};
use crate::picks::picked;
use crate::told::told;
use crate::words::word_read;
use fsb_io::Memory;
use rows_files::{Row, halves};
use scope_pick::Variable;
use std::alloc::{AllocError, Global};

/// What became of a row.
#[derive(Drop)]
pub(crate) enum Outcome {
    /// What it wants is so, or it wants nothing.
    Done,
    /// What it wants is not so: this was answered.
    Unmet(String),
    /// There is no such row.
    Unknown,
}

/// What the rows so far have said.
#[derive(Drop)]
pub(crate) struct Trial {
    declared: Vec<Variable>,
    name: String,
    wants: u32,
}

impl Trial {
    /// Nothing has been said.
    pub(crate) fn new(alloc: Global) -> Trial {
        Trial {
            declared: Vec::new(alloc),
            name: String::new(alloc),
            wants: 0,
        }
    }

    /// How many wants there were.
    pub(crate) fn wants(&self) -> u32 {
        self.wants
    }

    /// Does a row.
    pub(crate) fn row(&mut self, alloc: Global, row: &Row<'_>) -> Result<Outcome, Memory> {
        let (word, rest) = row.words();
        match word {
            "header" => self.declared = in_few_words(alloc, row.text.as_str())?,
            "dump" => self.declared = as_declared(alloc, row.text.as_str())?,
            "name" => self.name = long_name(alloc, rest.parse::<usize>().unwrap_or(0))?,
            "begins" | "ends" | "has" | "lacks" | "lists" | "within" => {
                return self.want(alloc, word, rest, row);
            }
            _ => return self.want(alloc, "is", row.head, row),
        }
        Ok(Outcome::Done)
    }

    // Asks whether the answer to an order is as the text of the row says. There is no want without a text.
    fn want(
        &mut self,
        alloc: Global,
        how: &str,
        order: &str,
        row: &Row<'_>,
    ) -> Result<Outcome, Memory> {
        self.wants = self.wants.saturating_add(1);
        if row.cut_text().is_empty() {
            return Ok(Outcome::Unknown);
        }
        let Some(answer) = self.answer(alloc, order)? else {
            return Ok(Outcome::Unknown);
        };
        Ok(match is_so(answer.as_str(), how, row) {
            Some(true) => Outcome::Done,
            Some(false) => Outcome::Unmet(answer),
            None => Outcome::Unknown,
        })
    }

    // What an order answers; None where there is no such order.
    fn answer(&self, alloc: Global, order: &str) -> Result<Option<String>, Memory> {
        let (word, rest) = halves(order);
        Ok(match word {
            "$" => Some(read(
                alloc,
                rest.replace(alloc, "NAME", self.name.as_str())?.as_str(),
            )?),
            "pick" | "wires" | "take" => picked(alloc, &self.declared, word, rest)?,
            "lacking" | "alike" | "views" | "variables" => {
                told(alloc, &self.declared, word, rest)?
            }
            _ => word_read(alloc, word, rest)?,
        })
    }
}

// Whether the answer is as the row says; None where it does not say how.
fn is_so(answer: &str, how: &str, row: &Row<'_>) -> Option<bool> {
    let text = row.cut_text();
    Some(match how {
        "is" => answer == row.text.as_str(),
        "begins" => answer.starts_with(text),
        "ends" => answer.ends_with(row.text.as_str()),
        "has" => answer.contains(text),
        "lacks" => !answer.contains(text),
        "lists" => text.lines().all(|line| answer.contains(line)),
        "within" => {
            let most = text.parse::<usize>().ok()?;
            answer.lines().all(|line| line.len() <= most)
        }
        _ => return None,
    })
}

// A name of so many bytes.
fn long_name(alloc: Global, count: usize) -> Result<String, AllocError> {
    let mut name = String::new(alloc);
    for _ in 0..count {
        name.push('x')?;
    }
    Ok(name)
}
