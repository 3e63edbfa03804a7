//! What a request is and whose, and how many there are.

ghost use Rattle.std.specs.Prelude.{◌≡◌, ◌<◌, ◌+◌, ◌^◌, ◌&&◌};
ghost use Rattle.fsb_count.specs.Options.{is_before};
ghost use Rattle.fsb_trace.specs.Requests.{have_same_id, is_reply};
ghost use Rattle.fsb_trace.specs.Winner.{is_agent, is_same_agent};

use fsb_encode::{Kind, Request};
use fsb_trace::Who;

/// Whether the request is decoded and is a reply.
#[tactic(auto, unfolding(fsb_trace::specs::Requests::is_reply, fsb_trace::specs::Requests::is_reply_kind, fsb_count::specs::Options::is_some_and))]
pub fn is_reply(request: Option<Request>) -> bool
    ensures { result ≡ is_reply request }
{
    match request {
        Some(request) => match request.kind {
            Kind::Reply => true,
            Kind::Invalidate | Kind::Read | Kind::WriteBack | Kind::Upgrade => false,
        },
        None => false,
    }
}

/// Whether both requests are decoded and have the same ID.
#[tactic(auto, unfolding(fsb_trace::specs::Requests::have_same_id, fsb_count::specs::Options::is_some_and))]
pub fn have_same_id(one: Option<Request>, other: Option<Request>) -> bool
    ensures { result ≡ have_same_id one other }
{
    match (one, other) {
        (Some(one), Some(other)) => one.did == other.did,
        _ => false,
    }
}

/// Whether the two are the same agent.
#[tactic(auto, unfolding(fsb_trace::specs::Winner::is_same_agent))]
fn is_same_agent(one: Who, other: Who) -> bool
    ensures { result ≡ is_same_agent one other }
{
    match (one, other) {
        (Who::Symmetric(one), Who::Symmetric(other)) => one == other,
        (Who::Priority, Who::Priority) => true,
        _ => false,
    }
}

/// Whether there is a winner, and it is this agent.
#[tactic(auto, unfolding(fsb_trace::specs::Winner::is_agent, fsb_count::specs::Options::is_some_and))]
pub fn is_agent(winner: Option<Who>, who: Who) -> bool
    ensures { result ≡ is_agent winner who }
{
    match winner {
        Some(winner) => is_same_agent(who, winner),
        None => false,
    }
}

/// Whether the clock is reached, and lies before this one.
#[tactic(auto, unfolding(fsb_count::specs::Options::is_before, fsb_count::specs::Options::is_some_and))]
pub fn is_before(reached: Option<u32>, clock: u32) -> bool
    ensures { result ≡ is_before reached clock }
{
    match reached {
        Some(reached) => reached < clock,
        None => false,
    }
}

/// How many there are, where a clock counts as far.
pub fn number(found: usize) -> u32
    ensures { found < 2 ^ 32 → result ≡ found }
{
    u32::try_from(found).unwrap_or(u32::MAX)
}
