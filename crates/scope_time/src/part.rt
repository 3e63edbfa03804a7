//! The part of a dump that a user's words name.

ghost use Rattle.std.specs.Prelude.{◌≡◌, ◌<◌, ◌*◌, ◌^◌, Some, None, IfOk, IfErr};
ghost use Rattle.scope_time.specs.Scales.{femtoseconds};
ghost use Rattle.scope_time.specs.Parts.{begin_in, counted, end_in, first_bound, last_bound, part_in, steps_from, steps_up_to, time_of};

use crate::scale::{Scale, femtoseconds, step_of};
use scope_check::{Begin, Bound, Part};
use scope_words::{Moment, Unit};

/// A time is named, and the dump has no `$timescale` that says how long a step is.
#[derive(Clone, Copy, Debug, PartialEq, Eq)]
pub struct NoScale;

/// The part that the words name, in steps of a dump with this scale.
#[tactic(auto, unfolding(crate::specs::Parts::part_in))]
pub fn part_in(scale: Option<Scale>, words: &scope_words::Part) -> Result<Part, NoScale>
    ensures ok { IfOk result (λ part. part_in scale words.now ≡ Some part) }
    ensures err { IfErr result (λ none. part_in scale words.now ≡ None) }
{
    let begin = begin_in(scale, words);
    let to = end_in(scale, words.to);
    match begin {
        None => Err(NoScale),
        Some(begin) => match to {
            None => Err(NoScale),
            Some(to) => Ok(Part { begin, to }),
        },
    }
}

// Where the part begins, if it can be told.
#[tactic(auto, unfolding(crate::specs::Parts::begin_in))]
fn begin_in(scale: Option<Scale>, words: &scope_words::Part) -> Option<Begin>
    ensures { result ≡ begin_in scale words.now.at words.now.from words.now.quiet }
{
    match words.at {
        Some(moment) => match first_bound(scale, moment) {
            None => None,
            Some(bound) => Some(Begin::At(bound)),
        },
        None => match words.from {
            Some(moment) => match first_bound(scale, moment) {
                None => None,
                Some(bound) => Some(Begin::Quiet(bound, words.quiet)),
            },
            None => Some(Begin::Known),
        },
    }
}

// The last clock that may be judged, if there is to be one, and if it can be told.
#[tactic(auto, unfolding(crate::specs::Parts::end_in))]
fn end_in(scale: Option<Scale>, to: Option<Moment>) -> Option<Option<Bound>>
    ensures { result ≡ end_in scale to }
{
    match to {
        None => Some(None),
        Some(moment) => match last_bound(scale, moment) {
            None => None,
            Some(bound) => Some(Some(bound)),
        },
    }
}

// The first clock that a moment allows.
#[tactic(auto, unfolding(crate::specs::Parts::first_bound))]
fn first_bound(scale: Option<Scale>, moment: Moment) -> Option<Bound>
    ensures { result ≡ first_bound scale moment }
{
    match moment {
        Moment::Clock(clock) => Some(Bound::Clock(clock)),
        Moment::Time(count, unit) => match scale {
            None => None,
            Some(scale) => Some(Bound::Time(steps_from(scale, time_of(count, unit)))),
        },
    }
}

// The last clock that a moment allows.
#[tactic(auto, unfolding(crate::specs::Parts::last_bound))]
fn last_bound(scale: Option<Scale>, moment: Moment) -> Option<Bound>
    ensures { result ≡ last_bound scale moment }
{
    match moment {
        Moment::Clock(clock) => Some(Bound::Clock(clock)),
        Moment::Time(count, unit) => match scale {
            None => None,
            Some(scale) => Some(Bound::Time(steps_up_to(scale, time_of(count, unit)))),
        },
    }
}

// So many of a unit, in femtoseconds.
fn time_of(count: u64, unit: Unit) -> u128
    ensures value { result ≡ time_of count unit }
{
    u128::from(count) * u128::from(femtoseconds(unit))
}

// The first step at or above a time.
#[tactic(auto, unfolding(crate::specs::Parts::steps_from))]
fn steps_from(scale: Scale, time: u128) -> u64
    ensures { result ≡ steps_from scale time }
{
    counted(time.div_ceil(step_of(scale)))
}

// The last step at or below a time.
#[tactic(auto, unfolding(crate::specs::Parts::steps_up_to))]
fn steps_up_to(scale: Scale, time: u128) -> u64
    ensures { result ≡ steps_up_to scale time }
{
    counted(time / step_of(scale))
}

// A number of steps, as far as a dump counts them.
fn counted(steps: u128) -> u64
    ensures { result ≡ counted steps }
{
    match u64::try_from(steps) {
        Ok(steps) => steps,
        Err(_) => u64::MAX,
    }
}
