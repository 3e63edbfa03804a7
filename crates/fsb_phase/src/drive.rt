/// What is driven at a clock.
#[derive(Clone, Copy, Debug, PartialEq, Eq)]
pub struct Drive {
    /// The number of the request whose snoop clock it is.
    pub snoop: Option<u32>,
    /// Whether that snoop stalls, by HIT# and HITM# together.
    pub stall: bool,
    /// Whether TRDY# is asserted.
    pub trdy: bool,
    /// The code on RS#; 0 is idle.
    pub rs: u8,
    /// Whether DBSY# is asserted.
    pub dbsy: bool,
    /// For data on the bus, the number of their request and the place of the chunk in its burst order, 0 to 3.
    pub chunk: Option<(u32, u8)>,
}

/// What happens at a clock.
#[derive(Clone, Copy, Debug, PartialEq, Eq)]
pub struct Phased {
    /// The number of the request whose snoop end it is.
    pub snooped: Option<u32>,
    /// The number of the live request whose end it is.
    pub ended: Option<u32>,
}
