//! The laws: small functions with no code, whose contracts are the laws.

ghost use Rattle.std.specs.Prelude.{◌≡◌, ◌↔◌, ◌<◌, ◌≤◌, ℕ, Bool, nat_eq, true, false, if◌then◌else◌, length, map, List, [], ◌∷◌, Some, None};
ghost use Rattle.std.specs.List.{Contains};
ghost use Rattle.fsb_signal.specs.declared.marks.Marks.{Marks};
ghost use Rattle.fsb_line.specs.declared.state.Mesi.TheVariants.{Invalid, Modified};
ghost use Rattle.fsb_line.specs.Coherence.{IsCoherent};
ghost use Rattle.fsb_line.specs.Events.{Event, May, after};
ghost use Rattle.fsb_line.specs.Events.Event.{Drops, Stores};
ghost use Rattle.fsb_line.specs.Line.{Bytes, MemoryLine};
ghost use Rattle.fsb_line.specs.States.{is_held, is_modified};
ghost use Rattle.fsb_trace.specs.At.{Trace};
ghost use Rattle.fsb_trace.specs.Verdict.{verdict};
ghost use Rattle.fsb_owners.specs.Joint.{Joint, agents, every_joint, unheld};
ghost use Rattle.fsb_owners.specs.Possible.{fits_answer, possible};
ghost use Rattle.fsb_owners.specs.Rules.{is_none_left, ownership_verdict};
ghost use Rattle.fsb_owners.specs.Shown.{is_spoiled};
ghost use Rattle.fsb_owner_laws.specs.Losses.{AreCoherent};
ghost use Rattle.fsb_owner_verdict.specs.Coherence.{coherence_verdict};
ghost use Rattle.fsb_courses.specs.Answers.{AnotherHas};
ghost use Rattle.fsb_courses.specs.Courses.{HasCourse, HasCourseTo, HasOneWriter, IsCourse};
ghost use Rattle.fsb_courses.specs.Coherent.{AreCoherentlyMade, CouldBeMade};
ghost use Rattle.fsb_courses.specs.Machine.{
  MachineSnoop,
  changes_no_state,
  machine_snoop,
  state_by_course,
};
ghost use Rattle.fsb_courses.specs.Runs.{FitsWires, IsMadeByMachines, states_of};

/// The joint states with one writer are the 24 of a coherent line. A trace that begins with empty caches begins with one of
/// them, and one that begins in traffic with any.
pub fn first_states_are_coherent()
    ensures one_writer { (joint : Joint) → HasOneWriter joint ↔ Contains every_joint joint }
    ensures empty { AreCoherent (unheld ∷ []) }
    ensures unknown { AreCoherent every_joint }
{}

/// Where HIT# and HITM# fit a joint state, HITM# stands exactly where another agent than the asker has the line Modified, and
/// HIT# exactly where none has it Modified and another one holds it.
pub fn snoops_are_answered_by_the_others()
    ensures hitm { (hit hitm : Bool) (asker : ℕ) (joint : Joint) →
        fits_answer hit hitm asker joint ≡ true →
        (hitm ≡ true) ↔ AnotherHas is_modified asker joint }
    ensures hit { (hit hitm : Bool) (asker : ℕ) (joint : Joint) →
        fits_answer hit hitm asker joint ≡ true →
        (hit ≡ true) ↔ (AnotherHas is_held asker joint × (AnotherHas is_modified asker joint → ⊥)) }
{}

/// A joint state is possible before a clock, by the sets of the rules of ownership, exactly where a course ends with it.
pub fn possible_states_end_courses()
    ensures { (first : List Joint) (v : Trace) (line c : ℕ) (joint : Joint) → AreCoherent first →
        Contains (possible first v line c) joint ↔ HasCourseTo first v line c joint }
{}

/// In a trace that breaks no phase rule, no rule of ownership is broken exactly where a coherent system could have made the
/// trace: where, up to each clock, the requests for each line wait for their turn and the line has a course, unless one of its
/// requests failed hard.
pub fn ownership_is_a_course_of_each_line()
    ensures { (m : Marks) (first : List Joint) (w : Trace) → AreCoherent first →
        is_none_left first ≡ false → verdict m w ≡ None →
        (ownership_verdict first w ≡ None) ↔ CouldBeMade first w }
{}

/// No rule at all is broken exactly where no phase rule is, and a coherent system could have made the trace.
pub fn coherence_is_a_course_of_each_line()
    ensures { (m : Marks) (first : List Joint) (w : Trace) → AreCoherent first →
        is_none_left first ≡ false →
        (coherence_verdict m first w ≡ None) ↔ ((verdict m w ≡ None) × CouldBeMade first w) }
{}

/// In a trace that a coherent system could have made, one course goes through all clocks of a line, if none of its requests
/// failed hard.
pub fn coherent_lines_have_one_course()
    ensures { (first : List Joint) (w : Trace) (line : ℕ) → CouldBeMade first w → 0 < length w →
        is_spoiled w line ≡ false → HasCourse first w line (length w) }
{}

/// A verdict that names a rule of ownership names the first clock that no coherent system explains.
pub fn broken_ownership_ends_the_courses()
    ensures before { (m : Marks) (first : List Joint) (w : Trace) (c j d : ℕ) → AreCoherent first →
        is_none_left first ≡ false → coherence_verdict m first w ≡ Some (c, j) → d < c →
        AreCoherentlyMade first w d }
    ensures there { (m : Marks) (first : List Joint) (w : Trace) (c j : ℕ) →
        coherence_verdict m first w ≡ Some (c, j) → 21 ≤ j →
        AreCoherentlyMade first w c → ⊥ }
{}

/// The events of the machine of fsb_line move its states as the clocks of a course do: at a snoop end by who asked, how, and what
/// stands there, by a store of one agent, and by a drop of one. And where the machine is coherent, its states have one writer.
pub fn the_machine_moves_as_courses()
    ensures snoops { (x : MemoryLine) (e : Event) (hit : Bool) (s : MachineSnoop) (b : ℕ) →
        May x e → machine_snoop x e hit ≡ Some s →
        (after x e).state b ≡ state_by_course s (x.state b) b }
    ensures stores { (x : MemoryLine) (a : ℕ) (change : Bytes → Bytes) (b : ℕ) →
        (after x (Stores a change)).state b ≡ (if nat_eq b a then Modified else x.state b) }
    ensures drops { (x : MemoryLine) (a b : ℕ) →
        (after x (Drops a)).state b ≡ (if nat_eq b a then Invalid else x.state b) }
    ensures others { (x : MemoryLine) (e : Event) (b : ℕ) → changes_no_state e ≡ true →
        (after x e).state b ≡ x.state b }
    ensures one_writer { (x : MemoryLine) → IsCoherent x → HasOneWriter (map x.state agents) }
{}

/// Where a run of that machine fits the wires, clock by clock, always coherent, and keeps the guards of a course, its states are
/// a course. So where each line has such a run and its requests wait for their turn, no rule of ownership is broken.
pub fn runs_of_the_machine_are_courses()
    ensures course { (first : List Joint) (v : Trace) (line n : ℕ) (lines : ℕ → MemoryLine) →
        FitsWires first v line n lines →
        IsCourse first v line n (λ c. states_of (lines c)) }
    ensures unbroken { (first : List Joint) (w : Trace) → IsMadeByMachines first w →
        ownership_verdict first w ≡ None }
{}
