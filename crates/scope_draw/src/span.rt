//! The clocks that are drawn.

ghost use Rattle.std.specs.Prelude.{◌≡◌, ◌≤◌, ◌+◌, ◌*◌};

use fsb_signal::Sample;
use scope_ring::Ring;

/// How many clocks are drawn, at most. With one sample more a ring knows how each line came into the first of them.
const DRAWN: u64 = 14;

/// Some clocks, one after another.
#[derive(Clone, Copy)]
pub(crate) struct Span {
    pub(crate) from: u64,
    pub(crate) count: u8,
    ghost few: { count ≤ 14 },
}

impl Span {
    /// The last fourteen that are kept.
    pub(crate) fn of(ring: &Ring) -> Span {
        let count = ring.count();
        let from = ring.first().max(count.saturating_sub(DRAWN));
        Span {
            from,
            count: count.saturating_sub(from).min(DRAWN) as u8,
        }
    }

    pub(crate) fn clock(&self, place: u8) -> u64 {
        self.from.saturating_add(u64::from(place))
    }

    pub(crate) fn last(&self) -> u64 {
        self.clock(self.count.saturating_sub(1))
    }
}

/// Where the cell of a place begins.
pub(crate) fn column(place: u8) -> usize
    ensures { result ≡ 10 + 4 * place }
{
    10 + 4 * usize::from(place)
}

/// The sample of the clock before this one, where it is kept.
pub(crate) fn sample_before(ring: &Ring, clock: u64) -> Option<&Sample> {
    match clock.checked_sub(1) {
        None => None,
        Some(before) => ring.sample_at(before),
    }
}
