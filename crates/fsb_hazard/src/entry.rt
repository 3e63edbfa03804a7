ghost use Rattle.std.specs.Prelude.{◌≡◌, List, ◌++◌};
ghost use Rattle.fsb_hazard.specs.declared.choice.Ask.{Ask};
ghost use Rattle.fsb_hazard.specs.declared.line.HazardLine.{HazardLine};
ghost use Rattle.fsb_hazard.specs.Choice.{join};
ghost use Rattle.fsb_hazard.specs.Entry.{is_of_request, is_of_clocks, is_asked, choice_of, entry};

use crate::choice::{Ask, Choice, Turn, join, quiet_choice};
use crate::line::HazardLine;

/// What a list of hazard lines chooses: the join of the choices of its lines that speak of what is asked, beginning
/// with the quiet choice. A line of a request speaks of that request where it begins, and `Bnr` of each of its clocks.
pub fn entry_of(lines: &[HazardLine], ask: &Ask) -> Choice
    ensures { result ≡ entry lines.now ask.now }
{
    lines
        .iter()
        .filter(|line| is_asked(line, ask))
        .map(choice_of)
        .fold(quiet_choice(), |choice, line| join(&choice, &line))
}

/// The entry of two lists one after the other is the join of their entries: a law, and no code.
pub fn entry_laws()
    ensures { (xs ys : List HazardLine) (ask : Ask) →
        entry (xs ++ ys) ask ≡ join (entry xs ask) (entry ys ask) }
{}

/// Whether the line speaks of what is asked.
fn is_asked(line: &HazardLine, ask: &Ask) -> bool
    ensures { result ≡ is_asked ask.now line.now }
{
    match *line {
        HazardLine::Stall(k, _)
        | HazardLine::Trdy(k, _)
        | HazardLine::Resp(k, _)
        | HazardLine::Gap(k, _)
        | HazardLine::Retry(k)
        | HazardLine::Defer(k, _)
        | HazardLine::Aerr(k) => is_of_request(k, ask),
        HazardLine::Bnr(first, last) => is_of_clocks(first, last, ask),
    }
}

/// Whether a question is of the request with this number.
fn is_of_request(k: u32, ask: &Ask) -> bool
    ensures { result ≡ is_of_request k ask.now }
{
    match *ask {
        Ask::Clock(_) => false,
        Ask::Begun { number, .. } => k == number,
    }
}

/// Whether a question is of one of the clocks from the first to the last.
fn is_of_clocks(first: u32, last: u32, ask: &Ask) -> bool
    ensures { result ≡ is_of_clocks first last ask.now }
{
    match *ask {
        Ask::Clock(clock) => first <= clock && clock <= last,
        Ask::Begun { .. } => false,
    }
}

/// What the line chooses, where it is asked.
pub(crate) fn choice_of(line: &HazardLine) -> Choice
    ensures { result ≡ choice_of line.now }
{
    let mut choice = quiet_choice();
    match *line {
        HazardLine::Stall(_, n) => choice.stall = n,
        HazardLine::Trdy(_, n) => choice.trdy = n,
        HazardLine::Resp(_, n) => choice.resp = n,
        HazardLine::Gap(_, n) => choice.gap = n,
        HazardLine::Retry(_) => choice.turn = Turn::Retry,
        HazardLine::Defer(_, later) => choice.turn = Turn::Defer(later),
        HazardLine::Aerr(_) => choice.aerr = true,
        HazardLine::Bnr(..) => choice.bnr = true,
    }
    choice
}
