//! The range of clocks that two words name.
ghost use Rattle.std.specs.Prelude.{◌≡◌, option_map};
ghost use Rattle.fsb_command.specs.Range.{range_between, range_of, range_view};

use crate::number::read_clock;
use fsb_wave::ClockRange;

/// The range from the clock of one word to that of another, where there is one.
#[tactic(auto, unfolding(crate::specs::Range::range_of))]
pub(crate) fn read_range(from: &str, to: &str) -> Option<ClockRange>
    ensures { option_map range_view result ≡ range_of from.now to.now }
{
    let from = read_clock(from)?;
    let to = read_clock(to)?;
    range_between(from, to)
}

// The range between two clocks: at most 64.
#[tactic(auto, unfolding(crate::specs::Range::range_between))]
fn range_between(from: u32, to: u32) -> Option<ClockRange>
    ensures { option_map range_view result ≡ range_between from to }
{
    if from <= to && to - from <= 63 {
        Some(ClockRange { from, to })
    } else {
        None
    }
}
