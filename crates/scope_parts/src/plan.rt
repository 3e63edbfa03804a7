//! How a dump is parted.

ghost use Rattle.std.specs.Prelude.{◌≡◌, ◌-◌, ℕ};
ghost use Rattle.scope_parts.specs.Plans.{later_part, to_behind};

use scope_check::{Begin, Bound, Part};

/// How a dump is parted.
#[derive(Clone, Copy, Debug, PartialEq, Eq)]
pub struct Plan {
    /// The part that is judged first.
    pub first: Part,
    /// How many clocks without an asserted line come before a part that begins again: two at least.
    pub quiet: u32,
    /// How many broken rules are looked for, 1 to 16: behind the last one nothing begins again.
    pub most: u32,
}

// The last clock that may be judged, counted from behind so many clocks of the dump.
fn to_behind(base: u64, to: Option<Bound>) -> Option<Bound>
    ensures { result ≡ to_behind base to }
{
    match to {
        Some(Bound::Clock(last)) => {
            let passed = base.min(u64::from(last)) as u32;
            Some(Bound::Clock(last - passed))
        }
        Some(Bound::Time(last)) => Some(Bound::Time(last)),
        None => None,
    }
}

// The part that is judged of a segment that is not the first, behind so many clocks of the dump.
pub(crate) fn later_part(plan: &Plan, base: u64) -> Part
    ensures { result ≡ later_part plan.now base }
{
    let quiet = plan.quiet.max(2);
    Part {
        begin: Begin::Quiet(Bound::Clock(0), quiet),
        to: to_behind(base, plan.first.to),
    }
}
