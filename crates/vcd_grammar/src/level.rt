/// What a sample takes of the value of a signal: which of its bits are asserted and which are unknown.
#[derive(Clone, Copy, Debug, PartialEq, Eq)]
pub struct Level {
    pub asserted: u64,
    pub unknown: u64,
}
