//! Where the view stands.

ghost use Rattle.std.specs.Prelude.{◌≡◌, ◌≤◌, ◌<◌, ◌^◌};
ghost use Rattle.scope_save.specs.Views.{begin_of, clock_of, doublings, marker_of};

/// The edge of a clock, in steps of the dump's time.
#[derive(Clone, Copy, Debug, PartialEq, Eq)]
pub struct Mark {
    /// The time of the edge.
    pub time: u64,
    /// The time of the edge before it, if there is one.
    pub before: Option<u64>,
    /// How many of its unit one step is: 1, 10 or 100.
    pub factor: u64,
}

/// Where the marker stands: one unit before the edge.
#[tactic(auto, unfolding(crate::specs::Views::marker_of))]
pub(crate) fn marker_of(mark: Mark) -> u64
    ensures { result ≡ marker_of mark }
{
    mark.time.saturating_mul(mark.factor).saturating_sub(1)
}

/// How long the clock before the edge is, in units: at least one.
#[tactic(auto, unfolding(crate::specs::Views::clock_of))]
pub(crate) fn clock_of(mark: Mark) -> u64
    ensures { result ≡ clock_of mark }
{
    let before = mark.before.unwrap_or(0);
    mark.time
        .saturating_sub(before)
        .saturating_mul(mark.factor)
        .max(1)
}

/// How often 1 is doubled up to this number.
#[tactic(auto, unfolding(crate::specs::Views::doublings))]
pub(crate) fn doublings(number: u64) -> u32
    ensures value { result ≡ doublings number }
    ensures few { result < 64 }
{
    63u32.saturating_sub(number.leading_zeros())
}

/// Where the view begins, if it shows so many doublings of a unit at 200 pixels, and the marker in its middle.
#[tactic(auto, unfolding(crate::specs::Views::begin_of))]
pub(crate) fn begin_of(marker: u64, doublings: u32) -> u64
    requires { doublings < 64 }
    ensures { result ≡ begin_of marker doublings }
{
    let half = (1u64 << doublings).saturating_mul(5) / 2;
    marker.saturating_sub(half)
}
