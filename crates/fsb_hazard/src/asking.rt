//! Several hazard objects at once.
ghost use Rattle.std.specs.Prelude.{◌≡◌, map, OnOk, OnErr};
ghost use Rattle.fsb_hazard.specs.Asking.{IsJoined, IsLoadedInPart};
ghost use Rattle.fsb_hazard.specs.Told.{IsAnswer, told_after};

use crate::choice::{Ask, Choice, join, quiet_choice};
use crate::hazard::Hazard;
use crate::line::HazardLine;
use fsb_io::Memory;

/// Asks each object in order, and joins the answers.
pub fn ask_all<H: Hazard>(hazards: &mut [H], ask: &Ask) -> Choice
    ensures joined { IsJoined (map H.told hazards.old) ask.now result }
    ensures told_stays { map H.told hazards.new ≡ map H.told hazards.old }
    ensures kinds_stay { map H.is_scripted hazards.new
        ≡ map H.is_scripted hazards.old }
{
    let mut choice = quiet_choice();
    for hazard in hazards {
        let answer = hazard.choose(ask);
        choice = join(&choice, &answer);
    }
    choice
}

/// Gives each object the hazard lines, in order. Where one refuses them, those before it tell them, and it and those
/// behind it what they told before.
pub fn load_all<H: Hazard>(hazards: &mut [H], lines: &[HazardLine]) -> Result<(), Memory>
    ensures loaded { OnOk result (map H.told hazards.new
        ≡ map (λ h. told_after (H.is_scripted h) lines.now (H.told h)) hazards.old) }
    ensures in_part { OnErr result (IsLoadedInPart (map H.told hazards.old)
        (map (λ h. told_after (H.is_scripted h) lines.now (H.told h)) hazards.old)
        (map H.told hazards.new)) }
    ensures kinds_stay { map H.is_scripted hazards.new
        ≡ map H.is_scripted hazards.old }
{
    for hazard in hazards {
        hazard.load(lines)?;
    }
    Ok(())
}
