//! What was found of the open segment last.

ghost use Rattle.std.specs.Prelude.{◌≡◌, ◌++◌, ◌∷◌, [], List};
ghost use Rattle.fsb_signal.specs.declared.marks.Marks.{Marks};
ghost use Rattle.vcd_way.specs.Events.{DumpEvent};
ghost use Rattle.scope_check.specs.declared.part.Part.{Part};
ghost use Rattle.scope_check.specs.Findings.{IsFoundIn};
ghost use Rattle.scope_parts.specs.Standing.{Remembers};

use scope_check::Judged;

/// What was found of the open segment, and before its last event.
#[derive(Clone, Copy)]
pub(crate) struct Latest {
    pub(crate) found: Judged,
    pub(crate) before: Judged,
}

impl Latest {
    /// What is found of no event.
    pub(crate) fn first(found: Judged) -> Latest
        ensures { (p : Part) (m : Marks) → IsFoundIn found p m [] → Remembers result p m [] }
    {
        Latest {
            found,
            before: found,
        }
    }

    /// With one more event, up to which this was found.
    #[inline(always)]
    pub(crate) fn follow(&mut self, found: Judged)
        ensures { (p : Part) (m : Marks) (es : List DumpEvent) (e : DumpEvent) →
            Remembers self.old p m es → IsFoundIn found p m (es ++ e ∷ []) →
            Remembers self.new p m (es ++ e ∷ []) }
    {
        self.before = self.found;
        self.found = found;
    }
}
