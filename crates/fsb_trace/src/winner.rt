//! Arbitration: which agent may begin a request at a clock.

ghost use Rattle.std.specs.Prelude.{◌≡◌, ◌<◌};
ghost use Rattle.fsb_trace.specs.Winner.{bus_request_of, request_line_of, is_same_agent, is_agent, symmetric_after, then_begun, first_in_order, agent_in_order, asks_in_order, first_asking, last_if_asking, winner_by, winner_after, requesters_before, winner_at, begins_at};

use crate::who::Who;
use fsb_count::first_where;
use fsb_signal::{Lines, Sample, line_at};

/// Which agents began the requests so far: the agent of the last one, if there is one and it had a winner, and the
/// symmetric agent that began one last.
type Requesters = (Option<Who>, Option<u8>);

/// The BREQ# line of a symmetric agent.
#[tactic(auto, unfolding(crate::specs::Winner::bus_request_of))]
pub fn bus_request_of(agent: u8) -> Lines
    ensures { result ≡ bus_request_of agent }
{
    match agent {
        0 => Lines::BREQ0,
        1 => Lines::BREQ1,
        2 => Lines::BREQ2,
        _ => Lines::BREQ3,
    }
}

/// The agent's own request line.
#[tactic(auto, unfolding(crate::specs::Winner::request_line_of))]
pub fn request_line_of(who: Who) -> Lines
    ensures { result ≡ request_line_of who }
{
    match who {
        Who::Symmetric(agent) => bus_request_of(agent),
        Who::Priority => Lines::BPRI,
    }
}

/// Whether the two are the same agent.
#[tactic(auto, unfolding(crate::specs::Winner::is_same_agent))]
pub fn is_same_agent(a: Who, b: Who) -> bool
    ensures { result ≡ is_same_agent a b }
{
    match (a, b) {
        (Who::Symmetric(n), Who::Symmetric(m)) => n == m,
        (Who::Priority, Who::Priority) => true,
        _ => false,
    }
}

/// Whether there is a winner, and it is this agent.
#[tactic(auto, unfolding(crate::specs::Winner::is_agent, fsb_count::specs::Options::is_some_and))]
pub fn is_agent(winner: Option<Who>, who: Who) -> bool
    ensures { result ≡ is_agent winner who }
{
    match winner {
        Some(agent) => is_same_agent(who, agent),
        None => false,
    }
}

/// The symmetric agent that began a request last, where it was this one so far, and `winner` begins one more.
#[tactic(auto, unfolding(crate::specs::Winner::symmetric_after))]
pub fn symmetric_after(symmetric: Option<u8>, winner: Option<Who>) -> Option<u8>
    ensures { result ≡ symmetric_after symmetric winner }
{
    match winner {
        Some(Who::Symmetric(agent)) => Some(agent),
        _ => symmetric,
    }
}

/// One more request, begun by this agent, if there is one.
#[tactic(auto, unfolding(crate::specs::Winner::then_begun))]
fn then_begun(requesters: Requesters, winner: Option<Who>) -> Requesters
    ensures { result ≡ then_begun requesters winner }
{
    let (_, symmetric) = requesters;
    (winner, symmetric_after(symmetric, winner))
}

/// The agent with which the rotating order begins.
#[tactic(auto, unfolding(crate::specs::Winner::first_in_order))]
pub fn first_in_order(symmetric: Option<u8>) -> usize
    ensures value { result ≡ first_in_order symmetric }
    ensures below { result < 4 }
{
    match symmetric {
        Some(agent) => (usize::from(agent) + 1) % 4,
        None => 0,
    }
}

/// The `n`-th agent, from 0, in the order that begins with `first`.
#[tactic(auto, unfolding(crate::specs::Winner::agent_in_order))]
pub fn agent_in_order(first: usize, n: usize) -> u8
    requires first { first < 4 }
    requires place { n < 4 }
    ensures { result ≡ agent_in_order first n }
{
    ((first + n) % 4) as u8
}

#[tactic(auto, unfolding(crate::specs::Winner::asks_in_order))]
fn asks_in_order(w: &[Sample], d: usize, first: usize, n: usize) -> bool
    requires first { first < 4 }
    requires place { n < 4 }
    ensures { result ≡ asks_in_order w.now d first n }
{
    line_at(bus_request_of(agent_in_order(first, n)), w, d)
}

/// The first symmetric agent with BREQ# at `d`, in the order that begins with `first`.
#[tactic(auto, unfolding(crate::specs::Winner::first_asking))]
fn first_asking(w: &[Sample], d: usize, first: usize) -> Option<u8>
    requires { first < 4 }
    ensures { result ≡ first_asking w.now d first }
{
    match first_where(4, |n| asks_in_order(w, d, first, n)) {
        Some(n) => Some(agent_in_order(first, n)),
        None => None,
    }
}

/// The last requester, if its request line is asserted at `d`.
#[tactic(auto, unfolding(crate::specs::Winner::last_if_asking))]
fn last_if_asking(w: &[Sample], d: usize, last: Option<Who>) -> Option<Who>
    ensures { result ≡ last_if_asking w.now d last }
{
    match last {
        Some(who) if line_at(request_line_of(who), w, d) => Some(who),
        _ => None,
    }
}

/// The winner by the lines of clock `d`.
#[tactic(auto, unfolding(crate::specs::Winner::winner_by))]
fn winner_by(w: &[Sample], d: usize, requesters: Requesters) -> Option<Who>
    ensures { result ≡ winner_by w.now d requesters }
{
    let (last, symmetric) = requesters;
    if line_at(Lines::LOCK, w, d) {
        last_if_asking(w, d, last)
    } else if line_at(Lines::BPRI, w, d) {
        Some(Who::Priority)
    } else {
        match first_asking(w, d, first_in_order(symmetric)) {
            Some(agent) => Some(Who::Symmetric(agent)),
            None => None,
        }
    }
}

/// The winner at `c`, after these requests.
#[tactic(auto, unfolding(crate::specs::Winner::winner_after))]
fn winner_after(w: &[Sample], c: usize, requesters: Requesters) -> Option<Who>
    ensures { result ≡ winner_after w.now c requesters }
{
    if c < 2 {
        None
    } else {
        winner_by(w, c - 2, requesters)
    }
}

/// Which agents began the requests before `c`.
#[tactic(auto, using(crate::proofs::RequesterSteps::requester_steps))]
fn requesters_before(w: &[Sample], c: usize) -> Requesters
    ensures { result ≡ requesters_before w.now c }
{
    let mut requesters = (None, None);
    for d in 0..c {
        if line_at(Lines::ADS, w, d) {
            requesters = then_begun(requesters, winner_after(w, d, requesters));
        }
    }
    requesters
}

/// The winner at `c`.
#[tactic(auto, unfolding(crate::specs::Winner::winner_at))]
pub fn winner_at(w: &[Sample], c: usize) -> Option<Who>
    ensures { result ≡ winner_at w.now c }
{
    winner_after(w, c, requesters_before(w, c))
}

/// Whether the agent begins a request at `c`.
#[tactic(auto, unfolding(crate::specs::Winner::begins_at))]
pub fn begins_at(w: &[Sample], c: usize, who: Who) -> bool
    ensures { result ≡ begins_at w.now c who }
{
    line_at(Lines::ADS, w, c) && is_agent(winner_at(w, c), who)
}
