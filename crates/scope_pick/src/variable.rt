/// The indices of a variable's digits: `[35:3]`, or `[7]` with both the same. The last digit has the right one.
#[derive(Clone, Copy, Debug)]
pub struct Range {
    pub left: u32,
    pub right: u32,
}

/// What is written behind a name.
#[derive(Clone, Copy, Debug)]
pub enum Written {
    /// Nothing.
    Absent,
    Numbers(Range),
    /// Something else. Such a variable is no line.
    Unreadable,
}

/// A variable that a header declares. Its path, the scopes from the outermost one on and the name joined by dots, is
/// parted at its last dot: a name with dots in it stands in a scope of its own.
#[derive(Debug, Drop)]
pub struct Variable {
    pub scope: Vec<u8>,
    pub name: Vec<u8>,
    /// The word for its type, as `wire`.
    pub kind: Vec<u8>,
    pub width: u32,
    /// The code by which changes name it.
    pub code: Vec<u8>,
    pub range: Written,
}
