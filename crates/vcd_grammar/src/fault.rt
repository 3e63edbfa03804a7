/// Why a text is no dump.
#[derive(Clone, Copy, Debug, PartialEq, Eq)]
pub enum VcdCause {
    /// A token of no form that may stand there, one without a code, or one of more than 70,000 bytes.
    Token,
    /// A header that does not follow the form: a bare token between sections, or a bad declaration of a variable.
    Header,
    /// A code that no variable has.
    Code,
    /// A line declared with another width than its own, or a value of more digits than its line has.
    Width,
    /// A time stamp below the last one.
    TimeBack,
    /// The line of this number in the signal table must be declared and is not; there is no lesser one.
    Missing(u8),
    /// The text ends inside a section, before the end of the header, or between a value and its code.
    Cut,
}

/// The first fault of a text: its cause, and the place of the byte where it stands, counted from 0.
#[derive(Clone, Copy, Debug, PartialEq, Eq)]
pub struct VcdFault {
    pub place: u64,
    pub cause: VcdCause,
}
