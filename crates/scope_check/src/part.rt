//! Which clocks of a dump are judged.

ghost use Rattle.std.specs.Prelude.{◌≡◌, Option};
ghost use Rattle.vcd_way.specs.Pieces.{Stamp as TimeStamp, time_at};
ghost use Rattle.vcd_way.specs.Events.{Sampled};
ghost use Rattle.vcd_course.specs.Told.{last_told};
ghost use Rattle.scope_check.specs.Bounds.{passes, reaches, begins_later};
ghost use Rattle.scope_check.specs.Parts.{is_quiet};

use fsb_signal::{Lines, Sample};
use vcd_course::Stamp;

/// A clock by its number, from 0 on, or by the time of its edge, in the dump's own unit.
#[derive(Clone, Copy, Debug, PartialEq, Eq)]
pub enum Bound {
    Clock(u32),
    Time(u64),
}

/// Where a part begins.
#[derive(Clone, Copy, Debug, PartialEq, Eq)]
pub enum Begin {
    /// At the first clock at which every control line is known.
    Known,
    /// At the first clock that is at or above this one.
    At(Bound),
    /// At the first one that is at or above this one and ends so many clocks in which no line was asserted.
    Quiet(Bound, u32),
}

/// Which clocks of a dump are judged.
#[derive(Clone, Copy, Debug, PartialEq, Eq)]
pub struct Part {
    pub begin: Begin,
    /// The last clock that may be judged.
    pub to: Option<Bound>,
}

impl Part {
    /// From the first clock on at which every control line is known.
    pub fn whole() -> Part
        ensures begin { result.begin ≡ Begin.Known }
        ensures to { result.to ≡ None }
    {
        Part {
            begin: Begin::Known,
            to: None,
        }
    }
}

// The time of a stamp.
fn time_at(stamp: Option<Stamp>) -> u64
    ensures { result ≡ time_at (last_told stamp) }
{
    match stamp {
        Some(stamp) => stamp.time,
        None => 0,
    }
}

// Whether a clock of this number, with this stamp, is at or above the bound.
pub(crate) fn reaches(bound: Bound, clock: u64, stamp: Option<Stamp>) -> bool
    ensures { result ≡ reaches bound clock (time_at (last_told stamp)) }
{
    match bound {
        Bound::Clock(least) => u64::from(least) <= clock,
        Bound::Time(least) => least <= time_at(stamp),
    }
}

// Whether it is above the last one.
pub(crate) fn passes(to: Option<Bound>, clock: u64, stamp: Option<Stamp>) -> bool
    ensures { result ≡ passes to clock (time_at (last_told stamp)) }
{
    match to {
        Some(Bound::Clock(last)) => u64::from(last) < clock,
        Some(Bound::Time(last)) => last < time_at(stamp),
        None => false,
    }
}

// Whether a part that begins so, behind so many clocks, among which the dump stopped or did not, begins later.
pub(crate) fn begins_later(begin: Begin, clock: u32, has_stopped: bool) -> bool
    ensures { result ≡ begins_later begin clock has_stopped }
{
    match begin {
        Begin::Known => has_stopped,
        Begin::At(_) | Begin::Quiet(_, _) => has_stopped || 0 < clock,
    }
}

/// Whether all control lines of the sample are known, and none but those of parity is asserted.
pub(crate) fn is_quiet(sample: &Sample) -> bool
    ensures { (t : Option TimeStamp) → result ≡ is_quiet (Sampled sample.now t) }
{
    sample.has_known_lines() && sample.lines.0 % Lines::AP0.0 == 0
}
