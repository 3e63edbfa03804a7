use fsb_rules::Broken;

/// A foul clock: data come from memory there that are not what was last moved of their chunk.
#[derive(Clone, Copy, Debug, PartialEq, Eq)]
pub struct FoulAt {
    /// The clock, from 0.
    pub clock: u32,
    /// The byte address of the chunk.
    pub addr: u64,
}

/// What an audit finds first.
#[derive(Clone, Copy, Debug, PartialEq, Eq)]
pub enum Finding {
    /// A phase rule is broken, and no clock before is foul.
    Broken(Broken),
    /// A clock is foul, and no phase rule is broken up to it.
    Foul(FoulAt),
}
