//! What the answer means: a law over the definitions, and no code.

ghost use Rattle.std.specs.Prelude.{◌≡◌, ◌↔◌, ℕ, List, None};
ghost use Rattle.fsb_signal.specs.declared.marks.Marks.{Marks};
ghost use Rattle.fsb_courses.specs.Coherent.{CouldBeMade};
ghost use Rattle.fsb_trace.specs.Verdict.{verdict};
ghost use Rattle.vcd_way.specs.Declarations.{Declaration};
ghost use Rattle.vcd_way.specs.Events.{samples_among};
ghost use Rattle.vcd_way.specs.Ways.{Way};
ghost use Rattle.scope_check.specs.declared.part.Part.{Part};
ghost use Rattle.scope_coherence.specs.Answers.{IsCoheredPart};
ghost use Rattle.scope_coherence.specs.Found.{first_joints};
ghost use Rattle.scope_coherence.specs.declared.answer.CoheredPart.{CoheredPart};

/// Nothing is found in a part of a dump exactly where its samples break no phase rule and a coherent system could have made
/// them: up to each clock, each line has a course, and its requests wait for their turn, unless one of them failed hard.
pub fn coherent_parts_could_be_made()
    ensures { (told : CoheredPart) (p : Part) (m : Marks) (way : Way (List Declaration))
        (text : List ℕ) → (x : IsCoheredPart told p m way text) → (told.found ≡ None)
        ↔ ((verdict m (samples_among x.part) ≡ None)
        × CouldBeMade (first_joints told.is_later) (samples_among x.part)) }
{}
