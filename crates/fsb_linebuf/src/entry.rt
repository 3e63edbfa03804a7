/// A line whose bytes are on their way.
#[derive(Clone, Copy, Debug, Default, PartialEq, Eq)]
pub struct Fill {
    pub line: u64,
    /// The number of the request that brings the bytes.
    pub number: u32,
    /// The number of the transaction that gets the bytes as soon as they come.
    pub promise: Option<u32>,
}

/// Bytes that are owed to a transaction.
#[derive(Clone, Copy, Debug, Default, PartialEq, Eq)]
pub struct Push {
    /// The number of the transaction.
    pub number: u32,
    pub bytes: [u8; 32],
}
