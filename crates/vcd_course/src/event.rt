use fsb_signal::Sample;

/// A time, and where its stamp stands.
#[derive(Clone, Copy, Debug, PartialEq, Eq)]
pub struct Stamp {
    pub time: u64,
    /// The place of the stamp in the text, from 0 on.
    pub place: u64,
    /// The number of its text line, from 1 on.
    pub line: u64,
}

/// What a dump tells.
#[derive(Clone, Copy, Debug, PartialEq, Eq)]
pub enum Told {
    /// The lines at an edge of the clock.
    Sampled(Sample),
    /// The dump stops for a time.
    Hole,
    /// It goes on.
    Resumed,
}

/// What a dump tells, with the last stamp before it.
#[derive(Clone, Copy, Debug, PartialEq, Eq)]
pub struct CourseEvent {
    pub told: Told,
    pub stamp: Option<Stamp>,
}
