//! The clocks and the holes of a dump.

ghost use Rattle.std.specs.Prelude.{◌≡◌, ◌+◌, ◌≤◌, ◌^◌, ◌==◌, ◌++◌, ◌∷◌, [], List, IfOk, IfErr, OnOk, if◌then◌else◌, length};
ghost use Rattle.vcd_way.specs.Events.{DumpEvent, Hole};
ghost use Rattle.vcd_course.specs.Told.{event_told, last_told};
ghost use Rattle.scope_check.specs.Bounds.{most_counted};
ghost use Rattle.scope_parts.specs.Standing.{Counted};

use scope_check::TooMany;
use vcd_course::{CourseEvent, Stamp, Told};

/// How many clocks a dump has, and how many times it stops.
#[derive(Clone, Copy)]
pub(crate) struct Counts {
    pub(crate) clocks: u64,
    pub(crate) holes: u64,
    /// The stamp before the first hole.
    pub(crate) first_hole: Option<Stamp>,
}

/// The sum, where it is counted.
pub(crate) fn sum(a: u64, b: u64) -> Result<u64, TooMany>
    ensures sum { IfOk result (λ s. s ≡ a + b) }
    ensures full { IfErr result (λ _. 2 ^ 64 ≤ a + b) }
{
    match a.checked_add(b) {
        Some(s) => Ok(s),
        None => Err(TooMany),
    }
}

// The stamp that was kept, where a hole came before, and else the new one.
fn first_stamp(holes: u64, kept: Option<Stamp>, stamp: Option<Stamp>) -> Option<Stamp>
    ensures { result ≡ (if holes == 0 then stamp else kept) }
{
    if holes == 0 { stamp } else { kept }
}

impl Counts {
    /// Before the first event.
    pub(crate) fn new() -> Counts
        ensures { Counted result [] }
    {
        Counts {
            clocks: 0,
            holes: 0,
            first_hole: None,
        }
    }

    /// With one more event.
    pub(crate) fn count(&mut self, event: &CourseEvent) -> Result<(), TooMany>
        ensures counted { (es : List DumpEvent) → Counted self.old es →
            OnOk result (Counted self.new (es ++ event_told event.now ∷ [])) }
        ensures many { (es : List DumpEvent) → Counted self.old es →
            IfErr result (λ _. most_counted ≤ length es) }
    {
        match event.told {
            Told::Sampled(_) => {
                self.clocks = sum(self.clocks, 1)?;
                Ok(())
            }
            Told::Hole => self.count_hole(event.stamp),
            Told::Resumed => Ok(()),
        }
    }

    fn count_hole(&mut self, stamp: Option<Stamp>) -> Result<(), TooMany>
        ensures counted { (es : List DumpEvent) → Counted self.old es →
            OnOk result (Counted self.new (es ++ Hole (last_told stamp) ∷ [])) }
        ensures many { (es : List DumpEvent) → Counted self.old es →
            IfErr result (λ _. most_counted ≤ length es) }
    {
        let holes = sum(self.holes, 1)?;
        self.first_hole = first_stamp(self.holes, self.first_hole, stamp);
        self.holes = holes;
        Ok(())
    }
}
