//! What is shown the events of a dump.
ghost use Rattle.std.specs.Prelude.{◌≡◌, ◌≤◌, ◌++◌, ◌∷◌, ℕ, List, [], Err, OnOk, length};
ghost use Rattle.vcd_way.specs.Events.{DumpEvent};
ghost use Rattle.vcd_course.specs.Told.{event_told};

use crate::stop::WatchStop;
use vcd_course::CourseEvent;

/// Is shown the events of a dump, one after another.
///
/// `has_seen` says of two values that the second is what the first has become once it was shown these events, and
/// `has_failed` that it is what the first has become where what it writes to failed. It counts `most` events at least.
pub trait EventWatcher {
    ghost has_seen: { Self → Self → List DumpEvent → Type 0 };

    ghost has_failed: { Self → Self → Type 0 };

    ghost most: { ℕ };

    /// Shows the next event.
    fn see(&mut self, event: &CourseEvent) -> Result<(), WatchStop>
        requires { (first : Self) × (h : List DumpEvent) × has_seen first self.old h }
        ensures seen { OnOk result ((first : Self) (h : List DumpEvent) → has_seen first self.old h →
            has_seen first self.new (h ++ event_told event.now ∷ [])) }
        ensures many { result ≡ Err WatchStop.TooMany → (first : Self) (h : List DumpEvent) →
            has_seen first self.old h → most ≤ length (h ++ event_told event.now ∷ []) }
        ensures failed { result ≡ Err WatchStop.WriteFault → (first : Self) (h : List DumpEvent) →
            has_seen first self.old h → has_failed first self.new };
}
