/// What the tokens behind a `$var` have said so far; its code is kept beside it.
#[derive(Clone, Copy, Debug)]
pub(crate) struct Draft {
    /// The place of the `$var`.
    pub(crate) place: u64,
    /// How many tokens there were, of which no more than 4 are counted.
    pub(crate) count: u8,
    /// Whether the type is that of a line.
    pub(crate) is_line: bool,
    /// The width, where it is one.
    pub(crate) width: Option<u64>,
    /// The number of the line that has the name.
    pub(crate) line: Option<u8>,
}

/// Where the next token stands.
#[derive(Clone, Copy, Debug)]
pub(crate) enum Mode {
    /// Between the sections of the header.
    Header,
    /// In the declaration of a variable.
    Variable(Draft),
    /// In a section of the header that is read past.
    Skipped,
    /// Behind the `$enddefinitions` at this place, before its `$end`.
    Closing(u64),
    /// Between values.
    Values,
    /// Behind a vector at this place; its code is next.
    Pending(u64),
    /// Behind a real number or a string; its code is next.
    Beside,
    /// In a section behind the header that is read past.
    Passed,
}
