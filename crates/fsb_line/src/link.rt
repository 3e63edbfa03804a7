use crate::purpose::Purpose;

/// A request whose snoop end moved the line, and whose end is still to come.
#[derive(Clone, Copy, Debug, PartialEq, Eq)]
pub struct Link {
    /// The agent that made the request.
    pub agent: u8,
    pub kind: Purpose,
    /// The agent that gives the line's bytes; None where they come from the memory, or where none
    /// move.
    pub giver: Option<u8>,
}
