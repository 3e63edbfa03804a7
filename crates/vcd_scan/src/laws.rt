//! What first bytes tell is told first of the whole text.

ghost use Rattle.std.specs.Prelude.{◌≡◌, ◌++◌, ℕ, List};
ghost use Rattle.vcd_way.specs.Ways.{ValueRules};
ghost use Rattle.vcd_scan.specs.Wired.{Wiring};
ghost use Rattle.vcd_scan.specs.Standing.{tokens_after, told_after};
ghost use Rattle.vcd_scan.specs.Ending.{told_to_end};
ghost use Rattle.vcd_scan.specs.Firsts.{IsFirstOf};

/// The events that first bytes behind a header tell are the first ones of the text.
pub fn first_events_stay()
    ensures { (m : ValueRules) (w : Wiring) (head fed more : List ℕ) →
        IsFirstOf (told_after m w (tokens_after head fed)) (told_to_end m w head (fed ++ more)) }
{}
