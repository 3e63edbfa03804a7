//! The search for a trigger in a dump.
ghost use Rattle.std.specs.Prelude.{◌≡◌, ◌≤◌, Err, IsTrue, Some, length};
ghost use Rattle.fsb_io.specs.Faults.{Rose};
ghost use Rattle.fsb_trigger.specs.Hunt.{steps_in};
ghost use Rattle.fsb_watch.specs.Watched.{IsReadAs, HasBegun, IsBegunOrStays};
ghost use Rattle.fsb_look.specs.Looked.{IsSearch};

use fsb_io::{Memory, Source};
use fsb_signal::{Marks, Sample};
use fsb_trigger::{Found, Hunt, Trigger};
use fsb_watch::{DumpStop, Watcher, watch_dump};
use std::alloc::Global;

/// What a search of a dump has given.
#[derive(Drop)]
pub struct Search {
    /// The clocks of the least match, where there is one.
    pub found: Option<Found>,
    /// How many samples the dump has.
    pub clocks: u32,
}

/// The search for a trigger among the samples of a dump, up to the least match, and that match.
#[derive(Drop)]
pub struct Seeker {
    hunt: Hunt,
    found: Option<Found>,
}

impl Watcher for Seeker {
    ghost use Rattle.fsb_look.specs.Looking.{CanSeek, HasSought};

    ghost is_ready = { λ seeker. CanSeek seeker };

    ghost has_seen = { λ first now _ h. HasSought first now h };

    fn begin(&mut self, _marks: Marks) -> Result<(), Memory> {
        Ok(())
    }

    fn see(&mut self, sample: &Sample) -> Result<(), Memory> {
        if self.found.is_none() {
            self.found = self.hunt.feed(sample);
        }
        Ok(())
    }
}

/// Searches the dump that the source holds under the name for a trigger.
pub fn find_in_dump<S: Source>(
    alloc: Global,
    name: &str,
    source: &mut S,
    trigger: Trigger,
) -> Result<Search, DumpStop>
    requires { length name.now ≤ 4096 }
    ensures read { IsTrue S.tells →
        IsReadAs (IsSearch (steps_in trigger)) result (S.holds source.old) (S.left source.new) }
    ensures named { IsTrue S.tells → HasBegun result → S.begun_as source.new ≡ Some name.now }
    ensures not_read { IsTrue S.tells → result ≡ Err DumpStop.ReadFault →
        IsBegunOrStays name.now (S.begun_as source.old) (S.begun_as source.new)
        (S.left source.old) (S.left source.new) }
    ensures read_fault { result ≡ Err DumpStop.ReadFault →
        Rose (S.faults source.old) (S.faults source.new) }
    ensures later { S.faults source.old ≤ S.faults source.new }
    ensures holds_stays { IsTrue S.tells → S.holds source.new ≡ S.holds source.old }
{
    let mut seeker = Seeker {
        hunt: Hunt::new(trigger),
        found: None,
    };
    let clocks = watch_dump(alloc, name, source, &mut seeker)?;
    Ok(Search {
        found: seeker.found,
        clocks,
    })
}
