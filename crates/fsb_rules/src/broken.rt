/// The first clock with a broken phase rule, and the least rule that is broken there.
#[derive(Clone, Copy, Debug, PartialEq, Eq)]
pub struct Broken {
    /// The clock, from 0.
    pub clock: u32,
    /// The number of the rule, from 1 to 20.
    pub rule: u8,
}
