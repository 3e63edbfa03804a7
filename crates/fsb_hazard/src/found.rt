//! What is kept of hazard lines, so that a question is answered without a look at each of them.
ghost use Rattle.std.specs.Prelude.{◌≡◌, ℕ, [], ◌∷◌, IfOk, OnOk};
ghost use Rattle.std.specs.List.{list_any};
ghost use Rattle.std.specs.List.Sorted.{IsNonDecreasingBy};
ghost use Rattle.fsb_encode.specs.declared.request.Request.{Request};
ghost use Rattle.fsb_hazard.specs.Choice.{join};
ghost use Rattle.fsb_hazard.specs.Entry.{entry};
ghost use Rattle.fsb_hazard.specs.Found.{request_of, chosen, AreChosen, is_within, held_choice, AreHeld, InOrder};

use crate::choice::{Ask, Choice, join, quiet_choice};
use crate::entry::choice_of;
use crate::line::HazardLine;
use fsb_io::Memory;
use std::alloc::Global;
use std::collections::BTreeMap;

/// The clocks from the first to the last, at which BNR# is asserted.
#[derive(Clone, Copy, Debug)]
pub(crate) struct Held {
    first: u32,
    last: u32,
}

/// What the lines of a request choose together, for each request that has some.
pub(crate) fn choices_of(
    alloc: Global,
    lines: &[HazardLine],
) -> Result<BTreeMap<u32, Choice>, Memory>
    ensures { IfOk result (λ choices. AreChosen choices lines.now) }
{
    let mut choices = BTreeMap::new(alloc);
    for line in lines {
        keep_choice(&mut choices, line)?;
    }
    Ok(choices)
}

/// Joins what the line chooses to what is kept for its request, if it speaks of one.
fn keep_choice(choices: &mut BTreeMap<u32, Choice>, line: &HazardLine) -> Result<(), Memory>
    ensures { OnOk result ((number : ℕ) (request : Request) → chosen choices.new number
        ≡ join (chosen choices.old number) (entry (line.now ∷ []) (Ask.Begun number request))) }
{
    let Some(number) = request_of(line) else {
        return Ok(());
    };
    let choice = join(&chosen(choices, number), &choice_of(line));
    choices.insert(number, choice)?;
    Ok(())
}

/// What is kept for a request.
pub(crate) fn chosen(choices: &BTreeMap<u32, Choice>, number: u32) -> Choice
    ensures { result ≡ chosen choices.now number }
{
    choices.get(&number).copied().unwrap_or(quiet_choice())
}

/// The number of the request of which the line speaks, if it speaks of one.
fn request_of(line: &HazardLine) -> Option<u32>
    ensures { result ≡ request_of line.now }
{
    match *line {
        HazardLine::Stall(k, _)
        | HazardLine::Trdy(k, _)
        | HazardLine::Resp(k, _)
        | HazardLine::Gap(k, _)
        | HazardLine::Retry(k)
        | HazardLine::Defer(k, _)
        | HazardLine::Aerr(k) => Some(k),
        HazardLine::Bnr(..) => None,
    }
}

/// The clocks at which the lines assert BNR#, in order.
pub(crate) fn held_by(alloc: Global, lines: &[HazardLine]) -> Result<Vec<Held>, Memory>
    ensures held { IfOk result (λ held. AreHeld held.items lines.now) }
    ensures in_order { IfOk result (λ held. InOrder held.items) }
{
    let mut held = clocks_of(alloc, lines)?;
    held.sort_by_key(|clocks| clocks.first)?;
    reach_on(&mut held);
    Ok(held)
}

/// The clocks at which the lines assert BNR#, line by line.
fn clocks_of(alloc: Global, lines: &[HazardLine]) -> Result<Vec<Held>, Memory>
    ensures { IfOk result (λ held. AreHeld held.items lines.now) }
{
    let mut held = Vec::new(alloc);
    for line in lines {
        keep_clocks(&mut held, line)?;
    }
    Ok(held)
}

/// Adds the clocks of the line, if it speaks of some.
fn keep_clocks(held: &mut Vec<Held>, line: &HazardLine) -> Result<(), Memory>
    ensures { OnOk result ((clock : ℕ) → held_choice held.new.items clock
        ≡ join (held_choice held.old.items clock) (entry (line.now ∷ []) (Ask.Clock clock))) }
{
    let HazardLine::Bnr(first, last) = *line else {
        return Ok(());
    };
    held.push(Held { first, last })?;
    Ok(())
}

/// Lets each end no earlier than those before it, which begin no later: together they are the same clocks.
fn reach_on(held: &mut [Held])
    requires { IsNonDecreasingBy (λ (h : Held). h.first) held.old }
    ensures same { (clock : ℕ) →
        list_any (is_within clock) held.new ≡ list_any (is_within clock) held.old }
    ensures in_order { InOrder held.new }
{
    let mut last: u32 = 0;
    for clocks in held {
        last = last.max(clocks.last);
        clocks.last = last;
    }
}

/// What is chosen for a clock.
pub(crate) fn held_choice(held: &[Held], clock: u32) -> Choice
    requires { InOrder held.now }
    ensures { result ≡ held_choice held.now clock }
{
    Choice {
        bnr: is_held(held, clock),
        ..quiet_choice()
    }
}

/// Whether the clock is within some of these, which are in order: of those that have begun the last ends last.
fn is_held(held: &[Held], clock: u32) -> bool
    requires { InOrder held.now }
    ensures { result ≡ list_any (is_within clock) held.now }
{
    match held.partition_point(|clocks| clocks.first <= clock) {
        0 => false,
        begun => clock <= held[begun - 1].last,
    }
}
