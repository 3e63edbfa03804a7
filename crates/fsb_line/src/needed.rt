//! Conditions of the events that are needed: where one is left out, some run ends in a line that is
//! not coherent.

ghost use Rattle.std.specs.Prelude.{true, false, [], ◌∷◌, ◌++◌};
ghost use Rattle.fsb_line.specs.declared.purpose.Purpose.TheVariants.{Own, Read, WriteBack};
ghost use Rattle.fsb_line.specs.Events.Event.{
  Begins,
  Ends,
  IsGranted,
  IsHanded,
  IsReplied,
  IsUpgraded,
  IsWritten,
  Responds,
  Stores,
};
ghost use Rattle.fsb_line.specs.Witness.{
  IsNeeded,
  as_it_is,
  awaited,
  contest,
  deferred,
  owned,
  reader,
  rival,
  stores,
  taken_over,
};

/// The memory doesn't give a line that another agent has Modified: the reader would get old bytes.
#[tactic(auto, using(crate::proofs::NeededRuns::needs))]
pub fn a_dirty_owner_gives_the_line()
    ensures { IsNeeded (owned ++ reader) (IsGranted 1 Read true) (Responds ∷ Ends as_it_is ∷ []) }
{}

/// Nor one whose owner has no bytes yet: it has promised them to the next.
#[tactic(auto, using(crate::proofs::NeededRuns::needs))]
pub fn an_owner_without_bytes_gives_the_line()
    ensures { IsNeeded (awaited ++ reader) (IsGranted 1 Read true)
        (Responds ∷ Ends (stores 5) ∷ Responds ∷ []) }
{}

/// An owner whose line was taken stores no more: there would be two writers.
#[tactic(auto, using(crate::proofs::NeededRuns::needs))]
pub fn a_taken_line_is_not_stored_into()
    ensures { IsNeeded taken_over (Stores 0 (stores 7)) [] }
{}

/// A write-back is held off while another agent's request is open: that one takes the line first, and
/// nothing would be left to write back.
#[tactic(auto, using(crate::proofs::NeededRuns::needs))]
pub fn a_write_back_is_held_off()
    ensures { IsNeeded (owned ++ rival) (Begins 0 WriteBack 2)
        (IsHanded 1 Own 0 ∷ IsWritten 0 ∷ Responds ∷ []) }
{}

/// A pending line is given to nobody but the deferred request: with its reply there would be two
/// writers.
#[tactic(auto, using(crate::proofs::NeededRuns::needs))]
pub fn a_pending_line_is_not_granted()
    ensures { IsNeeded deferred (IsGranted 1 Own false) (IsReplied ∷ []) }
{}

/// An upgrade is won only by an agent that still holds the line: it would store into bytes that it
/// doesn't have.
#[tactic(auto, using(crate::proofs::NeededRuns::needs))]
pub fn a_lost_upgrade_is_not_won()
    ensures { IsNeeded contest (IsUpgraded 1) (Ends (stores 7) ∷ []) }
{}
