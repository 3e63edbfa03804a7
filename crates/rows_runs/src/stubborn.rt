//! An object that never lets a request through.

use fsb_hazard::{Ask, Choice, Hazard, HazardLine, Turn, quiet_choice};
use fsb_io::Memory;

/// Tells nothing, and always asks for a retry. To a clock it also answers how often it was asked before, in a place of the
/// choice that a bench does not look at there: so one that was asked is known again.
#[derive(Drop)]
pub struct Stubborn {
    asked: u8,
}

impl Stubborn {
    /// One that was never asked.
    pub fn new() -> Stubborn {
        Stubborn { asked: 0 }
    }
}

impl Hazard for Stubborn {
    ghost use Rattle.std.specs.Prelude.{None, false};

    ghost told = { λ _. None };

    ghost is_scripted = { λ _. false };

    fn load(&mut self, _lines: &[HazardLine]) -> Result<(), Memory> {
        Ok(())
    }

    fn choose(&mut self, ask: &Ask) -> Choice {
        let before = self.asked;
        self.asked = before.wrapping_add(1);
        Choice {
            turn: Turn::Retry,
            stall: match ask {
                Ask::Clock(_) => before,
                Ask::Begun { .. } => 0,
            },
            ..quiet_choice()
        }
    }
}
