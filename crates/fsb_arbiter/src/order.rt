//! The winner by the control lines of one clock.

ghost use Rattle.std.specs.Prelude.{◌≡◌, ◌<◌};
ghost use Rattle.fsb_arbiter.specs.Order.{asks_among, first_among, last_if_among, winner_among};

use bitflags::Flags;
use fsb_count::first_where;
use fsb_signal::Lines;
use fsb_trace::{Who, agent_in_order, bus_request_of, first_in_order, request_line_of};

/// Whether the `n`-th agent in that order has its BREQ# among the lines.
#[tactic(auto, unfolding(crate::specs::Order::asks_among))]
fn asks_among(lines: Lines, first: usize, n: usize) -> bool
    requires first { first < 4 }
    requires place { n < 4 }
    ensures { result ≡ asks_among lines first n }
{
    lines.contains(bus_request_of(agent_in_order(first, n)))
}

/// The first symmetric agent whose BREQ# is among the lines, in the order that begins with `first`.
#[tactic(auto, unfolding(crate::specs::Order::first_among))]
fn first_among(lines: Lines, first: usize) -> Option<u8>
    requires { first < 4 }
    ensures { result ≡ first_among lines first }
{
    match first_where(4, |n| asks_among(lines, first, n)) {
        Some(n) => Some(agent_in_order(first, n)),
        None => None,
    }
}

/// The last requester, if its request line is among the lines.
#[tactic(auto, unfolding(crate::specs::Order::last_if_among))]
fn last_if_among(lines: Lines, last: Option<Who>) -> Option<Who>
    ensures { result ≡ last_if_among lines last }
{
    match last {
        Some(who) if lines.contains(request_line_of(who)) => Some(who),
        _ => None,
    }
}

/// The winner by these lines, after requests the last of which `last` began, and `symmetric` one as the last symmetric
/// agent.
#[tactic(auto, unfolding(crate::specs::Order::winner_among))]
pub fn winner_among(lines: Lines, last: Option<Who>, symmetric: Option<u8>) -> Option<Who>
    ensures { result ≡ winner_among lines last symmetric }
{
    if lines.contains(Lines::LOCK) {
        last_if_among(lines, last)
    } else if lines.contains(Lines::BPRI) {
        Some(Who::Priority)
    } else {
        match first_among(lines, first_in_order(symmetric)) {
            Some(agent) => Some(Who::Symmetric(agent)),
            None => None,
        }
    }
}
