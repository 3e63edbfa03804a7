//! The watcher that explains what it is shown.

ghost use Rattle.std.specs.Prelude.{◌≡◌, [], IfOk};
ghost use Rattle.scope_explain.specs.Standing.{HasExplained};

use crate::explaining::Explaining;
use fsb_signal::Marks;
use scope_check::{Part, Parting, TooMany};
use scope_watch::{EventWatcher, WatchStop};
use std::alloc::{AllocError, Global};
use vcd_course::CourseEvent;

/// Follows the clocks of a part of a dump with these marks.
#[derive(Drop)]
pub(crate) struct Explainer {
    pub(crate) parting: Parting,
    pub(crate) explaining: Explaining,
    pub(crate) part: Part,
    pub(crate) marks: Marks,
}

impl Explainer {
    /// Before the first event.
    pub(crate) fn new(alloc: Global, part: Part, marks: Marks) -> Result<Explainer, AllocError>
        ensures part { IfOk result (λ explainer. explainer.part ≡ part) }
        ensures marks { IfOk result (λ explainer. explainer.marks ≡ marks) }
        ensures none { IfOk result (λ explainer. HasExplained explainer explainer []) }
    {
        let explaining = Explaining::new(alloc, marks)?;
        Ok(Explainer {
            parting: Parting::new(part),
            explaining,
            part,
            marks,
        })
    }
}

impl EventWatcher for Explainer {
    ghost use Rattle.scope_check.specs.Bounds.{most_counted};
    ghost use Rattle.scope_explain.specs.Standing.{HasExplained};

    ghost has_seen = { HasExplained };

    ghost has_failed = { λ _ _. ⊥ };

    ghost most = { most_counted };

    fn see(&mut self, event: &CourseEvent) -> Result<(), WatchStop> {
        match self.parting.take(event) {
            Ok(None) => Ok(()),
            Ok(Some(sample)) => self.explaining.feed(&sample),
            Err(TooMany) => Err(WatchStop::TooMany),
        }
    }
}
