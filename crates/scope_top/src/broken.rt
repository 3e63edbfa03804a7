//! The broken clock that is shown.

ghost use Rattle.std.specs.Prelude.{◌≡◌};
ghost use Rattle.scope_top.specs.Viewing.{broken_with, factor_by, first_broken, mark_at, named_clock, part_around, stamp_time};

use scope_check::{Begin, Bound, Part, Verdict};
use scope_parts::PartFound;
use scope_save::Mark;
use scope_time::{Scale, factor_of};
use vcd_course::Stamp;

/// The first broken clock of a dump.
#[derive(Clone, Copy, Debug)]
pub struct BrokenAt {
    /// The first judged clock of its part.
    pub start: u64,
    pub clock: u64,
    /// The stamp of its edge.
    pub stamp: Option<Stamp>,
}

/// Where the first of these broken parts is broken.
pub(crate) fn first_broken(faults: &[PartFound]) -> Option<BrokenAt>
    ensures { result ≡ first_broken faults.now }
{
    match faults.split_first() {
        None => None,
        Some((fault, _)) => broken_with(fault.start, fault.verdict),
    }
}

fn broken_with(start: u64, verdict: Verdict) -> Option<BrokenAt>
    ensures { result ≡ broken_with start verdict }
{
    match verdict {
        Verdict::Nothing | Verdict::Accepted => None,
        Verdict::Broken { clock, stamp, .. } => Some(BrokenAt {
            start,
            clock,
            stamp,
        }),
    }
}

/// From sixteen clocks before the broken one, where its part has begun by then, up to eight behind it.
pub(crate) fn part_around(broken: BrokenAt) -> Part
    ensures { result ≡ part_around broken }
{
    let first = broken.start.max(broken.clock.saturating_sub(16));
    Part {
        begin: Begin::At(Bound::Clock(named_clock(first))),
        to: Some(Bound::Clock(named_clock(broken.clock.saturating_add(8)))),
    }
}

// The clock of this number, or the last one that can be named.
fn named_clock(number: u64) -> u32
    ensures { result ≡ named_clock number }
{
    number.min(4_294_967_295) as u32
}

/// The edge of the broken clock in a dump with this scale.
pub(crate) fn mark_at(broken: BrokenAt, before: Option<u64>, scale: Option<Scale>) -> Mark
    ensures { result ≡ mark_at broken before scale }
{
    Mark {
        time: stamp_time(broken.stamp),
        before,
        factor: factor_by(scale),
    }
}

fn stamp_time(stamp: Option<Stamp>) -> u64
    ensures { result ≡ stamp_time stamp }
{
    match stamp {
        None => 0,
        Some(stamp) => stamp.time,
    }
}

fn factor_by(scale: Option<Scale>) -> u64
    ensures { result ≡ factor_by scale }
{
    match scale {
        None => 1,
        Some(scale) => factor_of(scale.factor),
    }
}
