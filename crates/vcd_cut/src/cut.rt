/// Where the word of a token lies.
#[derive(Clone, Copy, Debug, PartialEq, Eq)]
pub enum Source {
    /// In the bytes that were given: so many of the first ones.
    Given(usize),
    /// In the cutter, which has put it together.
    Kept,
}

/// A token that counts.
#[derive(Clone, Copy, Debug, PartialEq, Eq)]
pub struct CutToken {
    /// The place of its first byte in the text, from 0 on.
    pub place: u64,
    /// The number of its text line, from 1 on.
    pub line: u64,
    pub source: Source,
}

/// What was cut off some bytes.
#[derive(Clone, Copy, Debug, PartialEq, Eq)]
pub struct Cut {
    /// How many bytes were read.
    pub used: usize,
    /// The token that counts with the last of them, where one does.
    pub token: Option<CutToken>,
}
