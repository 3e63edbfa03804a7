//! Objects that tell nothing, and may answer what they like.

use fsb_hazard::{Ask, Choice, Hazard, HazardLine, Turn, quiet_choice};
use fsb_io::Memory;
use rows_store::Draws;

/// Always asks for a retry.
#[derive(Drop)]
pub(crate) struct Retrying;

impl Hazard for Retrying {
    ghost use Rattle.std.specs.Prelude.{None, false};

    ghost told = { λ _. None };

    ghost is_scripted = { λ _. false };

    fn load(&mut self, _lines: &[HazardLine]) -> Result<(), Memory> {
        Ok(())
    }

    fn choose(&mut self, _ask: &Ask) -> Choice {
        Choice {
            turn: Turn::Retry,
            ..quiet_choice()
        }
    }
}

/// Always stalls as long as it may, and lets every third clock have BNR#.
#[derive(Drop)]
pub(crate) struct Stalling;

impl Hazard for Stalling {
    ghost use Rattle.std.specs.Prelude.{None, false};

    ghost told = { λ _. None };

    ghost is_scripted = { λ _. false };

    fn load(&mut self, _lines: &[HazardLine]) -> Result<(), Memory> {
        Ok(())
    }

    fn choose(&mut self, ask: &Ask) -> Choice {
        let bnr = match ask {
            Ask::Clock(clock) => *clock % 3 == 0,
            Ask::Begun { .. } => false,
        };
        Choice {
            bnr,
            stall: 255,
            ..quiet_choice()
        }
    }
}

/// Cancels every request.
#[derive(Drop)]
pub(crate) struct Cancelling;

impl Hazard for Cancelling {
    ghost use Rattle.std.specs.Prelude.{None, false};

    ghost told = { λ _. None };

    ghost is_scripted = { λ _. false };

    fn load(&mut self, _lines: &[HazardLine]) -> Result<(), Memory> {
        Ok(())
    }

    fn choose(&mut self, _ask: &Ask) -> Choice {
        Choice {
            aerr: true,
            ..quiet_choice()
        }
    }
}

/// Answers what it draws.
#[derive(Drop)]
pub(crate) struct Drawing {
    draws: Draws,
}

impl Drawing {
    /// One that draws from this seed.
    pub(crate) fn new(seed: u64) -> Drawing {
        Drawing {
            draws: Draws::behind(seed, 2),
        }
    }
}

impl Hazard for Drawing {
    ghost use Rattle.std.specs.Prelude.{None, false};

    ghost told = { λ _. None };

    ghost is_scripted = { λ _. false };

    fn load(&mut self, _lines: &[HazardLine]) -> Result<(), Memory> {
        Ok(())
    }

    fn choose(&mut self, _ask: &Ask) -> Choice {
        let turn = match self.draws.below(8) {
            0 => Turn::Retry,
            1 | 2 => Turn::Defer(self.draws.below(20) as u16),
            _ => Turn::Keep,
        };
        Choice {
            bnr: self.draws.once_in(9),
            aerr: self.draws.once_in(9),
            stall: if self.draws.once_in(4) {
                self.draws.below(4) as u8
            } else {
                0
            },
            trdy: if self.draws.once_in(4) {
                self.draws.below(5) as u8
            } else {
                0
            },
            resp: if self.draws.once_in(4) {
                self.draws.below(5) as u8
            } else {
                0
            },
            gap: if self.draws.once_in(4) {
                self.draws.below(4) as u8
            } else {
                0
            },
            turn,
        }
    }
}
