/// An entry of the signal table: a line of the bus, or a word of several lines, as a dump names it.
#[derive(Clone, Copy, Debug, PartialEq, Eq)]
pub struct Signal {
    /// The name in a dump; it ends in `_n` where the line is asserted low.
    pub name: &'static str,
    /// How many lines it has.
    pub width: u8,
    /// Whether a dump must declare it.
    pub needed: bool,
}
