ghost use Rattle.std.specs.Prelude.{◌≡◌, ◌++◌, List};
ghost use Rattle.vcd_way.specs.Ways.{ValueRules};
ghost use Rattle.vcd_way.specs.Pieces.{Happening, pieces_of, over};
ghost use Rattle.vcd_way.specs.Events.{course_at_first, events_from};
ghost use Rattle.vcd_course.specs.Opening.{first_open, after_happenings, ended_in, told_in};

/// What is told step by step is what the pieces tell that are over; what is told where the block
/// that stands open ends too, is what all pieces tell.
pub fn told_step_by_step()
    ensures over { (m : ValueRules) (hs : List Happening) →
        events_from m course_at_first (over (pieces_of hs)) ≡ told_in m first_open hs }
    ensures all { (m : ValueRules) (hs : List Happening) →
        events_from m course_at_first (pieces_of hs)
        ≡ told_in m first_open hs ++ ended_in m (after_happenings first_open hs) }
{}
