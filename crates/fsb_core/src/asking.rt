//! What the hazard objects of a bench are asked.

ghost use Rattle.std.specs.Prelude.{◌≡◌, Some, IfOk, map};
ghost use Rattle.fsb_bench_view.specs.declared.beginning.Starting.{Starting as StartingView};
ghost use Rattle.fsb_hazard.specs.Told.{told_after};
ghost use Rattle.fsb_timely.specs.Asked.{IsChosen, IsHold};

use fsb_bench_view::Starting;
use fsb_hazard::{Ask, Choice, Hazard, HazardLine, ask_all, load_all, quiet_choice};
use fsb_io::Memory;
use fsb_timely::answers_are_kept;

/// The objects, each of which was given the hazard lines.
pub(crate) fn loaded(
    mut objects: Vec<Box<dyn Hazard>>,
    lines: &[HazardLine],
) -> Result<Vec<Box<dyn Hazard>>, Memory>
    ensures told { IfOk result (λ given. map (λ h. told h) given.items
        ≡ map (λ h. told_after (is_scripted h) lines.now (told h)) objects.items) }
    ensures kinds { IfOk result (λ given. map (λ h. is_scripted h) given.items
        ≡ map (λ h. is_scripted h) objects.items) }
{
    load_all(&mut objects, lines)?;
    Ok(objects)
}

/// Whether one of the objects asks for BNR# at the clock.
pub(crate) fn ask_hold<H: Hazard>(objects: &mut [H], clock: u32) -> bool
    ensures held { IsHold (map H.told objects.old) clock result }
    ensures told_stays { map H.told objects.new ≡ map H.told objects.old }
    ensures kinds_stay { map H.is_scripted objects.new ≡ map H.is_scripted objects.old }
{
    answers_are_kept();
    ask_all(objects, &Ask::Clock(clock)).bnr
}

/// What the objects choose together for the request that begins with this number, if one does.
pub(crate) fn ask_choice<H: Hazard>(
    objects: &mut [H],
    number: u32,
    starting: &Option<Starting>,
) -> Choice
    ensures chosen { (first : StartingView) → starting.now ≡ Some first →
        IsChosen (map H.told objects.old) number result }
    ensures told_stays { map H.told objects.new ≡ map H.told objects.old }
    ensures kinds_stay { map H.is_scripted objects.new ≡ map H.is_scripted objects.old }
{
    answers_are_kept();
    match starting {
        Some(starting) => {
            let ask = Ask::Begun {
                number,
                request: starting.request,
            };
            let together = ask_all(objects, &ask);
            Choice {
                bnr: false,
                ..together
            }
        }
        None => quiet_choice(),
    }
}
