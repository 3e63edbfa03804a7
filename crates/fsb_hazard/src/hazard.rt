//! Objects that choose what goes wrong or takes longer.
ghost use Rattle.std.specs.Prelude.{◌≡◌, Bool, Option, OnOk, OnErr};
ghost use Rattle.fsb_hazard.specs.Told.{Told, IsAnswer, told_after};

use crate::choice::{Ask, Choice};
use crate::line::HazardLine;
use fsb_io::Memory;

/// Is asked at each clock and at the beginning of each request, and answers with a choice.
///
/// `told` is what an object tells, where it tells: hazard lines or a seed. An object that tells nothing may answer any
/// choice. `is_scripted` says whether an object tells the lines that it loads, and never changes.
pub trait Hazard: Drop {
    ghost told: { Self → Option Told };

    ghost is_scripted: { Self → Bool };

    /// Gives the object the hazard lines of a bench file. A scripted object then tells these, and any other one what it
    /// told before. After `Memory` an object tells what it told before.
    fn load(&mut self, lines: &[HazardLine]) -> Result<(), Memory>
        ensures loaded { OnOk result (
            told self.new ≡ told_after (is_scripted self.old) lines.now (told self.old)) }
        ensures told_stays { OnErr result (told self.new ≡ told self.old) }
        ensures kind_stays { is_scripted self.new ≡ is_scripted self.old };

    /// Answers a question. An object that tells answers exactly the entry of what it tells. What is told stays.
    fn choose(&mut self, ask: &Ask) -> Choice
        ensures answer { IsAnswer (told self.old) ask.now result }
        ensures told_stays { told self.new ≡ told self.old }
        ensures kind_stays { is_scripted self.new ≡ is_scripted self.old };
}

/// A box of an object is one: it tells what the object inside tells.
impl Hazard for Box<dyn Hazard> {
    ghost told = { λ b. (Hazard-box b).told b.value };

    ghost is_scripted = { λ b. (Hazard-box b).is_scripted b.value };

    fn load(&mut self, lines: &[HazardLine]) -> Result<(), Memory> {
        (**self).load(lines)
    }

    fn choose(&mut self, ask: &Ask) -> Choice {
        (**self).choose(ask)
    }
}
