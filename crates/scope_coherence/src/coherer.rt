//! The watcher that judges what it is shown.

ghost use Rattle.std.specs.Prelude.{◌≡◌, []};
ghost use Rattle.scope_coherence.specs.Parting.{HasCohered};

use crate::part::PartJudge;
use fsb_signal::Marks;
use scope_check::{Part, Parting, TooMany};
use scope_watch::{EventWatcher, WatchStop};
use std::alloc::Global;
use vcd_course::CourseEvent;

/// Judges the clocks of a part of a dump with these marks.
#[derive(Drop)]
pub(crate) struct Coherer {
    pub(crate) parting: Parting,
    pub(crate) judge: PartJudge,
    pub(crate) part: Part,
    pub(crate) marks: Marks,
}

impl Coherer {
    /// Before the first event.
    pub(crate) fn new(alloc: Global, part: Part, marks: Marks) -> Coherer
        ensures part { result.part ≡ part }
        ensures marks { result.marks ≡ marks }
        ensures none { HasCohered result result [] }
    {
        Coherer {
            parting: Parting::new(part),
            judge: PartJudge::new(alloc, part.begin, marks),
            part,
            marks,
        }
    }
}

impl EventWatcher for Coherer {
    ghost use Rattle.scope_check.specs.Bounds.{most_counted};
    ghost use Rattle.scope_coherence.specs.Parting.{HasCohered};

    ghost has_seen = { HasCohered };

    ghost has_failed = { λ _ _. ⊥ };

    ghost most = { most_counted };

    fn see(&mut self, event: &CourseEvent) -> Result<(), WatchStop> {
        match self.parting.take(event) {
            Ok(None) => self.judge.pass(event),
            Ok(Some(sample)) => self.judge.judge(&sample, event.stamp),
            Err(TooMany) => Err(WatchStop::TooMany),
        }
    }
}
