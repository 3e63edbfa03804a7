use fsb_encode::Request;
use fsb_trace::Who;

/// A request that begins at a clock.
#[derive(Clone, Copy, Debug, PartialEq, Eq)]
pub struct Starting {
    pub who: Who,
    pub request: Request,
    /// Whether it is a locked request: one for a locked item, and no write-back.
    pub locked: bool,
}

/// The request that began last.
#[derive(Clone, Copy, Debug, PartialEq, Eq)]
pub struct Latest {
    /// Its first clock.
    pub clock: u32,
    pub who: Who,
    pub request: Request,
}

/// A request that has begun.
#[derive(Clone, Copy, Debug, PartialEq, Eq)]
pub struct Started {
    /// Its first clock.
    pub clock: u32,
    /// Whether it is a locked request.
    pub locked: bool,
}
