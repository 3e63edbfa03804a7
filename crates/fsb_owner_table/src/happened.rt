//! What happens to requests with a sample.

ghost use Rattle.std.specs.Prelude.{◌≡◌, ℕ};
ghost use Rattle.fsb_laws.specs.OneMore.{cancels};
ghost use Rattle.fsb_count.specs.Options.{is_at, is_before};

use crate::row::Row;
use fsb_signal::{Lines, Sample};

/// What happens to requests with a sample. A request is named by its first clock.
#[derive(Clone, Copy, Debug, PartialEq, Eq)]
pub struct Happened {
    /// The clock.
    pub clock: u32,
    /// The request that is cancelled.
    pub cancelled: Option<u32>,
    /// The request that has its snoop end.
    pub snooped: Option<u32>,
    /// The request that responds.
    pub answered: Option<u32>,
    /// The request that ends.
    pub ended: Option<u32>,
    /// The request whose second clock the sample is.
    pub begun: Option<Row>,
}

/// Whether there is such a clock, and it is this one.
#[tactic(auto, unfolding(fsb_count::specs::Options::is_at, fsb_count::specs::Options::is_some_and))]
pub fn is_at(clock: Option<u32>, other: u32) -> bool
    ensures { result ≡ is_at clock other }
{
    match clock {
        Some(clock) => clock == other,
        None => false,
    }
}

/// Whether there is such a clock, and it lies before this one.
#[tactic(auto, unfolding(fsb_count::specs::Options::is_before, fsb_count::specs::Options::is_some_and))]
pub fn is_before(clock: Option<u32>, other: u32) -> bool
    ensures { result ≡ is_before clock other }
{
    match clock {
        Some(clock) => clock < other,
        None => false,
    }
}

/// The request that the sample of this clock cancels.
#[tactic(auto, using(crate::proofs::Cancels::cancelled), unfolding(fsb_count::specs::Options::is_at, fsb_count::specs::Options::is_some_and))]
pub fn cancelled_by(clock: u32, sample: &Sample) -> Option<u32>
    ensures { (q : ℕ) → is_at result q ≡ cancels sample.now clock q }
{
    let was_begun = clock >= 3;
    if sample.has(Lines::AERR) && was_begun {
        Some(clock.saturating_sub(3))
    } else {
        None
    }
}
