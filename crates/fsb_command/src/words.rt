//! The words of a command line.
ghost use Rattle.std.specs.Prelude.{◌≡◌, ◌==◌, List, [], ◌∷◌, ◌++◌, length, map, OnOk, OnErr, slice_get};
ghost use Rattle.std.specs.List.{list_all};
ghost use Rattle.std.specs.String.{string_bytes};
ghost use Rattle.fsb_command.specs.Form.{is_word};

use fsb_io::Memory;
use std::alloc::Global;
use std::marker::Model;

/// The longest word that may stand in a command line, in bytes.
const WORD_LIMIT: usize = 4096;

/// The words of a command line, after the program's name.
#[derive(Debug, Drop)]
pub struct Words {
    words: Vec<String>,
}

impl Model for Words {
    ghost use Rattle.std.specs.Prelude.{List, ℕ, map};
    ghost use Rattle.std.specs.String.{string_bytes};

    ghost Value = { List (List ℕ) };

    ghost view = { λ w. map (λ s. string_bytes s) w.words.items };
}

impl Words {
    ghost use Rattle.std.specs.Option.{option_map};

    /// No words. It takes no memory.
    pub fn new(alloc: Global) -> Self
        ensures { result ≡ [] }
    {
        Words {
            words: Vec::new(alloc),
        }
    }

    /// Adds a copy of the word as the last one. After `Memory` nothing changed.
    pub fn push(&mut self, alloc: Global, word: &str) -> Result<(), Memory>
        ensures ok { OnOk result (self.new ≡ self.old ++ word.now ∷ []) }
        ensures err { OnErr result (self.new ≡ self.old) }
    {
        let copy = String::from_str(alloc, word)?;
        self.words.push(copy)?;
        Ok(())
    }

    /// The number of words.
    pub fn len(&self) -> usize
        ensures { result ≡ length self.now }
    {
        self.words.len()
    }

    pub fn is_empty(&self) -> bool
        ensures { result ≡ (length self.now == 0) }
    {
        self.words.is_empty()
    }

    /// The word at place `i`, None exactly where there is none.
    pub fn word(&self, i: usize) -> Option<&str>
        ensures { option_map (λ w. w.now) result ≡ slice_get self.now i }
    {
        match self.words.get(i) {
            Some(word) => Some(word.as_str()),
            None => None,
        }
    }

    /// The words as they are kept.
    pub(crate) fn as_slice(&self) -> &[String]
        ensures { map (λ s. string_bytes s) result.now ≡ self.now }
    {
        self.words.as_slice()
    }

    /// Whether each word may stand in a command line.
    pub(crate) fn may_stand(&self) -> bool
        ensures { result ≡ list_all is_word self.now }
    {
        self.words
            .as_slice()
            .iter()
            .all(|word| is_word(word.as_str()))
    }
}

// Whether the word may stand in a command line.
fn is_word(word: &str) -> bool
    ensures { result ≡ is_word word.now }
{
    let bytes = word.as_bytes();
    match bytes.first() {
        Some(first) => *first != b'-' && bytes.len() <= WORD_LIMIT,
        None => false,
    }
}
