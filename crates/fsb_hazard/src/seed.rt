ghost use Rattle.std.specs.Prelude.{◌≡◌};
ghost use Rattle.fsb_hazard.specs.declared.choice.Ask.{Ask};
ghost use Rattle.fsb_hazard.specs.Seed.{next_state, line_drawn, seed_line, seed_entry};

use crate::choice::{Ask, Choice, quiet_choice};
use crate::entry::choice_of;
use crate::line::HazardLine;

/// The state that comes after `state` of the generator of a seed's numbers, modulo 2^64.
pub fn next_state(state: u64) -> u64
    ensures { result ≡ next_state state }
{
    state
        .wrapping_mul(6_364_136_223_846_793_005)
        .wrapping_add(1_442_695_040_888_963_407)
}

/// The hazard line that a seed has for a request, if it has one for it: seven of sixteen requests have one.
pub fn seed_line(seed: u64, number: u32) -> Option<HazardLine>
    ensures { result ≡ seed_line seed number }
{
    let state = next_state(seed.wrapping_add(u64::from(number)));
    line_drawn(number, (state >> 33) % 16)
}

/// What a seed chooses: for a request what its line chooses, and for a clock nothing.
pub fn seed_entry(seed: u64, ask: &Ask) -> Choice
    ensures { result ≡ seed_entry seed ask.now }
{
    match *ask {
        Ask::Clock(_) => quiet_choice(),
        Ask::Begun { number, .. } => {
            seed_line(seed, number).map_or(quiet_choice(), |line| choice_of(&line))
        }
    }
}

/// The hazard line of request `k`, by a number drawn below 16.
#[tactic(auto, unfolding(crate::specs::Seed::line_drawn))]
fn line_drawn(k: u32, number: u64) -> Option<HazardLine>
    ensures { result ≡ line_drawn k number }
{
    match number {
        0 => Some(HazardLine::Stall(k, 1)),
        1 => Some(HazardLine::Retry(k)),
        2 => Some(HazardLine::Defer(k, 5)),
        3 => Some(HazardLine::Aerr(k)),
        4 => Some(HazardLine::Resp(k, 2)),
        5 => Some(HazardLine::Trdy(k, 1)),
        6 => Some(HazardLine::Gap(k, 1)),
        _ => None,
    }
}
