//! How many clocks came before a part.

ghost use Rattle.std.specs.Prelude.{◌≡◌, ◌≤◌, IfErr, IfOk};
ghost use Rattle.vcd_course.specs.Told.{event_told};
ghost use Rattle.scope_check.specs.Bounds.{most_counted};
ghost use Rattle.scope_table.specs.Standing.{start_after};

use scope_watch::WatchStop;
use vcd_course::{CourseEvent, Told};

/// How many clocks before a part are counted, at most.
const MOST: u32 = 4_294_967_280;

/// How many clocks came before a part that has so many, with an event more that is none of them.
#[tactic(auto, unfolding(crate::specs::Standing::start_after))]
pub(crate) fn start_after(start: u32, inside: u64, event: &CourseEvent) -> Result<u32, WatchStop>
    ensures more { IfOk result (λ more. more ≡ start_after start inside (event_told event.now)) }
    ensures stop { IfErr result (λ stop. stop ≡ WatchStop.TooMany) }
    ensures many { IfErr result (λ _. (inside ≡ 0) × (most_counted ≤ start)) }
{
    if inside != 0 {
        return Ok(start);
    }
    match event.told {
        Told::Sampled(_) => {
            if MOST <= start {
                Err(WatchStop::TooMany)
            } else {
                Ok(start + 1)
            }
        }
        Told::Hole => Ok(start),
        Told::Resumed => Ok(start),
    }
}
