ghost use Rattle.std.specs.Prelude.{ℕ, List, All};
ghost use Rattle.vcd_way.specs.Ways.{ValueRules};
ghost use Rattle.vcd_way.specs.Events.{samples_among};
ghost use Rattle.vcd_way.specs.Answers.{events_by};
ghost use Rattle.scope_wiring.specs.declared.wire.Wire.{Wire};
ghost use Rattle.scope_way.specs.Wired.{AreLawfulWires, wired_lines, wired_way};
ghost use Rattle.scope_write.specs.Samples.{IsSilent};
ghost use Rattle.scope_silent.specs.Lines.{there_in};

/// In each sample of the way of wires nothing is asserted or unknown on a line without a wire, whatever stands in the text.
pub fn unwired_lines_are_silent()
    ensures { (ws : List Wire) (rules : ValueRules) (text : List ℕ) → AreLawfulWires ws →
        All (IsSilent (there_in (wired_lines ws))) (samples_among (events_by (wired_way ws rules) text)) }
{}
