/// `count` bits of a variable, from bit `low` up, are as many bits of a line, from its bit `lowest`
/// up. The lowest bit is 0.
#[derive(Clone, Copy, Debug, PartialEq, Eq)]
pub struct BitRun {
    pub count: u8,
    pub low: u32,
    pub lowest: u8,
    /// The lowest bit of the variable stands for the highest one of the line.
    pub is_turned: bool,
}

/// Which bits of a line a variable stands for.
#[derive(Clone, Copy, Debug, PartialEq, Eq)]
pub enum Part {
    /// All, as they stand.
    Whole,
    Bits(BitRun),
}

/// A variable stands for a line, or for a part of it.
#[derive(Clone, Copy, Debug, PartialEq, Eq)]
pub struct Tap {
    /// The number of the line in the signal table.
    pub line: u8,
    /// How many bits the variable has.
    pub width: u32,
    pub part: Part,
    /// The variable is active high: its 1 is the line's 0.
    pub inverted: bool,
}

/// The edge of the clock that samples.
#[derive(Clone, Copy, Debug, PartialEq, Eq)]
pub enum Edge {
    Rising,
    Falling,
}
