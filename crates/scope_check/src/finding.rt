use crate::part::Part;
use vcd_course::Stamp;

/// What was found of the part that is judged.
#[derive(Clone, Copy, Debug, PartialEq, Eq)]
pub enum Verdict {
    /// No clock was judged.
    Nothing,
    /// No rule is broken.
    Accepted,
    /// This rule is broken at this clock of the dump, from 0 on, and none before it. The stamp is that of the clock's edge.
    Broken {
        clock: u64,
        rule: u8,
        stamp: Option<Stamp>,
    },
}

/// What was judged.
#[derive(Clone, Copy, Debug, PartialEq, Eq)]
pub struct Judged {
    /// Which clocks were to be judged.
    pub part: Part,
    /// How many clocks the dump has.
    pub clocks: u64,
    /// The first clock that is judged; all of them, where none is.
    pub start: u32,
    /// How many clocks are judged, one after another.
    pub judged: u32,
    /// Whether the part begins later: of what came before it nothing is known.
    pub is_later: bool,
    pub verdict: Verdict,
    /// Whether the last two judged clocks are those of a reply whose deferred ID no other request of the part has: its
    /// request may have been deferred before the part.
    pub answers_before: bool,
}
