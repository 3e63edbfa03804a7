ghost use Rattle.std.specs.Prelude.{◌≡◌, [], ◌++◌, ◌∷◌, OnOk};
ghost use Rattle.vcd_way.specs.Declarations.{word_of_section};
ghost use Rattle.vcd_header.specs.Told.{section_told, words_told};

use crate::copies::copy_of;
use std::alloc::{AllocError, Global};

/// A variable, as a header declares it.
#[derive(Debug, Drop)]
pub struct Declared {
    /// The place of its `$var` in the text, from 0 on.
    pub place: u64,
    /// The word for its type, as `wire`.
    pub kind: Vec<u8>,
    pub width: u64,
    /// The code by which changes name it.
    pub code: Vec<u8>,
    /// Its name, perhaps with a range.
    pub reference: Vec<u8>,
    /// The words after the reference.
    pub after: Vec<Vec<u8>>,
    /// The scopes that it stands in, the outermost first.
    pub path: Vec<Vec<u8>>,
}

/// A section that declares nothing.
#[derive(Debug, Drop)]
pub struct Section {
    /// The place of its first word in the text, from 0 on.
    pub place: u64,
    /// Its first word, as `$comment`.
    pub keyword: Vec<u8>,
    /// The words up to its `$end`.
    pub words: Vec<Vec<u8>>,
}

impl Section {
    /// A section without a word.
    pub fn new(alloc: Global) -> Self
        ensures { section_told result ≡ record { place = 0; keyword = []; words = [] } }
    {
        Section {
            place: 0,
            keyword: Vec::new(alloc),
            words: Vec::new(alloc),
        }
    }

    /// The word of this number after the keyword, from 0 on; there is none past the last one.
    pub(crate) fn word(&self, number: usize) -> &[u8]
        ensures { result.now ≡ word_of_section (section_told self.now) number }
    {
        match self.words.get(number) {
            Some(word) => word.as_slice(),
            None => &[],
        }
    }

    /// One more word.
    pub fn add(&mut self, alloc: Global, word: &[u8]) -> Result<(), AllocError>
        ensures place { self.new.place ≡ self.old.place }
        ensures keyword { self.new.keyword.items ≡ self.old.keyword.items }
        ensures words { OnOk result
            (words_told self.new.words.items ≡ words_told self.old.words.items ++ word.now ∷ []) }
    {
        let copy = copy_of(alloc, word)?;
        self.words.push(copy)?;
        Ok(())
    }
}
