//! Which request's data come with a sample.

/// A chunk of data that comes with a sample.
#[derive(Clone, Copy, Debug, PartialEq, Eq)]
pub struct Coming {
    /// The deferred ID of the live request whose data it is of.
    pub did: u8,
    /// Which of the request's four chunks it is, from 0.
    pub place: u8,
}
