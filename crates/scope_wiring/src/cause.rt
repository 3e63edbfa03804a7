/// Why a dump's wires are not picked.
#[derive(Clone, Copy, Debug, PartialEq, Eq)]
pub enum Cause {
    /// The user leaves out this line, which is needed. The data alone may be left out.
    Needed(u8),
    /// The user names or leaves out this line twice.
    Twice(u8),
    /// The scope that the user names has no variable.
    NoScope,
    /// The scope that the user names, by its first declaration, lacks a needed line, or one of its lines is ambiguous.
    NotWhole(usize),
    /// No scope has every needed line and none that is ambiguous.
    NoneWhole,
    /// Several buses have, and none has all lines of the others.
    Several,
    /// The option of this number, from 0, names no variable.
    NoVariable(usize),
    /// It names several variables of different codes.
    SeveralVariables(usize),
    /// Its variable cannot be the line, by its type, width or range.
    CannotBe(usize),
    /// Its variable lacks the bits, or they are not as many as the line has.
    LacksBits(usize),
}
