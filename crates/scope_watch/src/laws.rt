//! What first bytes show stays, for ways that keep declarations.
ghost use Rattle.std.specs.Prelude.{◌≡◌, ℕ, ◌++◌, List, Some};
ghost use Rattle.vcd_grammar.specs.declared.fault.VcdFault.{VcdFault};
ghost use Rattle.vcd_way.specs.Declarations.{Declaration};
ghost use Rattle.vcd_way.specs.Ways.{Way};
ghost use Rattle.vcd_way.specs.Answers.{fault_so_far_by, first_fault_by};

use std::marker::Model;
use vcd_header::Declared;
use vcd_way::first_bytes_stay;

/// Declarations, as ways keep them.
#[derive(Drop)]
pub(crate) struct Kept {
    pub(crate) declared: Vec<Declared>,
}

impl Model for Kept {
    ghost use Rattle.std.specs.Prelude.{List};
    ghost use Rattle.vcd_way.specs.Declarations.{Declaration};
    ghost use Rattle.vcd_header.specs.Told.{declarations_told};

    ghost Value = { List Declaration };

    ghost view = { λ k. declarations_told k.declared.items };
}

/// A fault that first bytes show is the first one of the text.
pub(crate) fn faults_stay()
    ensures { (way : Way (List Declaration)) (fed more : List ℕ) (f : VcdFault) →
        fault_so_far_by way fed ≡ Some f → first_fault_by way (fed ++ more) ≡ Some f }
{
    first_bytes_stay::<Kept>();
}
