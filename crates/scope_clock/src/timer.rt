//! The watcher that waits for a clock.

ghost use Rattle.std.specs.Prelude.{◌≡◌, ◌≤◌, ◌++◌, ◌∷◌, [], ℕ, List, Err, OnOk, Some, if◌then◌else◌, length};
ghost use Rattle.vcd_course.specs.Told.{last_told};
ghost use Rattle.vcd_way.specs.Events.{DumpEvent};
ghost use Rattle.vcd_way.specs.Pieces.{time_at};
ghost use Rattle.vcd_course.specs.Told.{event_told};
ghost use Rattle.scope_clock.specs.Times.{HasTimed, edge_times, most_timed};

use scope_watch::{EventWatcher, WatchStop};
use vcd_course::{CourseEvent, Stamp, Told};

/// Waits for the clock of a number, and keeps its time.
#[derive(Drop)]
pub(crate) struct Timer {
    clock: u64,
    /// How many clocks were seen.
    count: u64,
    pub(crate) time: Option<u64>,
}

impl Timer {
    /// Before the first event.
    pub(crate) fn new(clock: u64) -> Timer
        ensures same { result.clock ≡ clock }
        ensures timed { HasTimed result result.clock [] }
    {
        Timer {
            clock,
            count: 0,
            time: None,
        }
    }

    // The next clock has this time.
    fn pass(&mut self, time: u64) -> Result<(), WatchStop>
        ensures timed { OnOk result ((events : List DumpEvent) (more : DumpEvent) (clock : ℕ) →
            HasTimed self.old clock events → edge_times (more ∷ []) ≡ time ∷ [] →
            HasTimed self.new clock (events ++ more ∷ [])) }
        ensures many { result ≡ Err WatchStop.TooMany → (events : List DumpEvent) (clock : ℕ) →
            HasTimed self.old clock events → most_timed ≤ length events }
        ensures stop { result ≡ Err WatchStop.WriteFault → ⊥ }
    {
        if self.count == u64::MAX {
            return Err(WatchStop::TooMany);
        }
        self.time = kept(self.time, self.count == self.clock, time);
        self.count += 1;
        Ok(())
    }
}

// What is kept where a clock with this time comes, which is waited for or not.
fn kept(before: Option<u64>, is_it: bool, time: u64) -> Option<u64>
    ensures { result ≡ (if is_it then Some time else before) }
{
    if is_it { Some(time) } else { before }
}

// The time of a stamp.
fn time_at(stamp: Option<Stamp>) -> u64
    ensures { result ≡ time_at (last_told stamp) }
{
    match stamp {
        Some(stamp) => stamp.time,
        None => 0,
    }
}

impl EventWatcher for Timer {
    ghost use Rattle.scope_clock.specs.Times.{HasTimed, most_timed};

    ghost has_seen = { λ first now events. HasTimed now first.clock events };

    ghost has_failed = { λ _ _. ⊥ };

    ghost most = { most_timed };

    fn see(&mut self, event: &CourseEvent) -> Result<(), WatchStop> {
        match event.told {
            Told::Sampled(_) => self.pass(time_at(event.stamp)),
            Told::Hole => Ok(()),
            Told::Resumed => Ok(()),
        }
    }
}
