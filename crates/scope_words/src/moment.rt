//! A clock of a dump as a user names it.

ghost use Rattle.std.specs.Prelude.{◌≡◌, ◌<◌, ◌||◌, nat_lt, IfSome, length, position, drop, take};
ghost use Rattle.scope_words.specs.Moments.{clock_with, moment_at, moment_in, time_with, unit_in};

use crate::number::{read_count, read_number};

/// A unit of time.
#[derive(Clone, Copy, Debug, PartialEq, Eq)]
pub enum Unit {
    Second,
    Millisecond,
    Microsecond,
    Nanosecond,
    Picosecond,
    Femtosecond,
}

/// A clock by its number, or by a time: so many of a unit.
#[derive(Clone, Copy, Debug, PartialEq, Eq)]
pub enum Moment {
    Clock(u32),
    Time(u64, Unit),
}

/// The moment that a word names: a number of a clock, or a time with its unit behind it, as `285ns`.
#[tactic(auto, unfolding(crate::specs::Moments::moment_in))]
pub fn read_moment(word: &[u8]) -> Option<Moment>
    ensures { result ≡ moment_in word.now }
{
    moment_at(word, unit_place(word))
}

// Where the digits of a word end.
fn unit_place(word: &[u8]) -> Option<usize>
    ensures value { result ≡ position (λ b. nat_lt b 48 || nat_lt 57 b) word.now }
    ensures within { IfSome result (λ i. i < length word.now) }
{
    word.iter().position(|byte| *byte < 48 || 57 < *byte)
}

#[tactic(auto, unfolding(crate::specs::Moments::moment_at))]
fn moment_at(word: &[u8], place: Option<usize>) -> Option<Moment>
    requires { IfSome place (λ i. i < length word.now) }
    ensures { result ≡ moment_at word.now place }
{
    match place {
        None => clock_with(read_count(word)),
        Some(place) => time_with(read_number(19, &word[..place]), read_unit(&word[place..])),
    }
}

#[tactic(auto, unfolding(crate::specs::Moments::clock_with))]
fn clock_with(clock: Option<u32>) -> Option<Moment>
    ensures { result ≡ clock_with clock }
{
    match clock {
        None => None,
        Some(clock) => Some(Moment::Clock(clock)),
    }
}

#[tactic(auto, unfolding(crate::specs::Moments::time_with))]
fn time_with(count: Option<u64>, unit: Option<Unit>) -> Option<Moment>
    ensures { result ≡ time_with count unit }
{
    match count {
        None => None,
        Some(count) => match unit {
            None => None,
            Some(unit) => Some(Moment::Time(count, unit)),
        },
    }
}

/// The unit of time that a word is: s, ms, us, ns, ps or fs.
#[tactic(auto, unfolding(crate::specs::Moments::unit_in))]
pub fn read_unit(word: &[u8]) -> Option<Unit>
    ensures { result ≡ unit_in word.now }
{
    if word == b"s".as_slice() {
        Some(Unit::Second)
    } else if word == b"ms".as_slice() {
        Some(Unit::Millisecond)
    } else if word == b"us".as_slice() {
        Some(Unit::Microsecond)
    } else if word == b"ns".as_slice() {
        Some(Unit::Nanosecond)
    } else if word == b"ps".as_slice() {
        Some(Unit::Picosecond)
    } else if word == b"fs".as_slice() {
        Some(Unit::Femtosecond)
    } else {
        None
    }
}
