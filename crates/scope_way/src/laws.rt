ghost use Rattle.std.specs.Prelude.{ℕ, List};
ghost use Rattle.scope_pick.specs.declared.variable.Variable.{Variable};
ghost use Rattle.scope_pick.specs.declared.wires.Named.{Named};
ghost use Rattle.scope_wiring.specs.declared.home.Home.{Home};
ghost use Rattle.scope_wiring.specs.declared.text.LineOption.{LineOption};
ghost use Rattle.scope_wiring.specs.Wirings.{wires_with};
ghost use Rattle.vcd_way.specs.Declarations.{Declaration};
ghost use Rattle.vcd_way.specs.Ways.{ValueRules};
ghost use Rattle.vcd_way.specs.Lawful.{IsLawfulWay};
ghost use Rattle.vcd_way.specs.Strict.{strict};
ghost use Rattle.scope_way.specs.StrictWay.{holds_strictly};
ghost use Rattle.scope_wiring.specs.declared.wire.Wire.{Wire};
ghost use Rattle.scope_way.specs.Wired.{way_by, wired_way, AreLawfulWires, holds_always};

/// A way by wires that fit the signal table is lawful: so in it each line keeps its width, whatever stands in the text.
pub fn wired_ways_are_lawful()
    ensures chosen { (choose : List Declaration → List Wire) (rules : ValueRules)
        → ((ds : List Declaration) → AreLawfulWires (choose ds))
        → IsLawfulWay (way_by choose rules) holds_always }
    ensures picked { (ws : List Wire) (rules : ValueRules) → AreLawfulWires ws
        → IsLawfulWay (wired_way ws rules) holds_always }
{}

/// Picked wires fit the signal table: of each variable bits are taken that it has, and as many as the line has, or one.
pub fn picked_wires_are_lawful()
    ensures { (vs : List Variable) (os : List LineOption) (ns : List Named) (settled : List ℕ)
        (home : Home) → AreLawfulWires (wires_with vs os ns settled home) }
{}

/// The strict way is lawful too, so in it each line keeps its width.
pub fn strict_is_lawful()
    ensures { IsLawfulWay strict holds_strictly }
{}
