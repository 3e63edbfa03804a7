use fsb_line::Mesi;

/// A line that a cache has.
#[derive(Clone, Copy, Debug, PartialEq, Eq)]
pub struct Held {
    pub line: u64,
    pub state: Mesi,
    pub bytes: [u8; 32],
}
