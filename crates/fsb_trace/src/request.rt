//! The requests of a trace.

ghost use Rattle.std.specs.Prelude.{◌≡◌, ◌^◌, ◌<◌, length, IfSome, IfOk};
ghost use Rattle.fsb_trace.specs.Requests.{is_cancelled, seen_at, requests_of, is_live, live_count, live_clock_of, live_number_of, live_request_of, is_reply, is_write_back, is_upgrade, have_same_id};
ghost use Rattle.fsb_trace.specs.Winner.{winner_at};

use crate::at::request_at;
use crate::seen::Seen;
use crate::who::Who;
use crate::winner::winner_at;
use fsb_count::{count_where, nth_where};
use fsb_encode::{Kind, Request};
use fsb_io::Memory;
use fsb_signal::{Lines, Sample, line_at};
use std::alloc::Global;

/// Whether the request that begins at `q` is cancelled.
#[tactic(auto, unfolding(crate::specs::Requests::is_cancelled))]
pub fn is_cancelled(w: &[Sample], q: usize) -> bool
    requires { q < 2 ^ 32 }
    ensures { result ≡ is_cancelled w.now q }
{
    line_at(Lines::AERR, w, q + 3)
}

/// The request that begins at `q`, where this is the winner.
#[tactic(auto, unfolding(crate::specs::Requests::seen_at))]
pub fn seen_at(w: &[Sample], q: usize, who: Option<Who>) -> Seen
    requires early { q < 2 ^ 32 }
    requires winner { who ≡ winner_at w.now q }
    ensures { result ≡ seen_at w.now q }
{
    Seen {
        clock: q as u32,
        who,
        request: request_at(w, q),
        cancelled: is_cancelled(w, q),
    }
}

/// The requests of the trace, in the order of their first clocks; cancelled ones too.
#[tactic(auto, using(crate::proofs::RequestSteps::request_steps))]
pub fn requests(alloc: Global, w: &[Sample]) -> Result<Vec<Seen>, Memory>
    requires { length w.now < 2 ^ 32 }
    ensures { IfOk result (λ seen. seen.items ≡ requests_of w.now) }
{
    let mut seen = Vec::new(alloc);
    for q in 0..w.len() {
        if line_at(Lines::ADS, w, q) {
            seen.push(seen_at(w, q, winner_at(w, q)))?;
        }
    }
    Ok(seen)
}

/// Whether a live request begins at `q`.
#[tactic(auto, unfolding(crate::specs::Requests::is_live))]
pub fn is_live(w: &[Sample], q: usize) -> bool
    requires { q < 2 ^ 32 }
    ensures { result ≡ is_live w.now q }
{
    line_at(Lines::ADS, w, q) && !is_cancelled(w, q)
}

/// How many requests are live.
#[tactic(auto, unfolding(crate::specs::Requests::live_count))]
pub fn live_count(w: &[Sample]) -> usize
    requires { length w.now < 2 ^ 32 }
    ensures { result ≡ live_count w.now }
{
    count_where(w.len(), |q| is_live(w, q))
}

/// The first clock of live request `i`.
#[tactic(auto, unfolding(crate::specs::Requests::live_clock_of))]
pub fn live_clock_of(w: &[Sample], i: usize) -> Option<usize>
    requires { length w.now < 2 ^ 32 }
    ensures value { result ≡ live_clock_of w.now i }
    ensures below { IfSome result (λ q. q < length w.now) }
{
    nth_where(i, w.len(), |q| is_live(w, q))
}

/// The number, among the live requests, of the live request that begins at `q`.
#[tactic(auto, unfolding(crate::specs::Requests::live_number_of))]
pub fn live_number_of(w: &[Sample], q: usize) -> usize
    requires { q < 2 ^ 32 }
    ensures { result ≡ live_number_of w.now q }
{
    count_where(q, |p| is_live(w, p))
}

/// Live request `i`, where it is decoded.
#[tactic(auto, unfolding(crate::specs::Requests::live_request_of))]
pub fn live_request_of(w: &[Sample], i: usize) -> Option<Request>
    requires { length w.now < 2 ^ 32 }
    ensures { result ≡ live_request_of w.now i }
{
    match live_clock_of(w, i) {
        Some(q) => request_at(w, q),
        None => None,
    }
}

/// Whether the request is decoded and is a reply.
#[tactic(auto, unfolding(crate::specs::Requests::is_reply, crate::specs::Requests::is_reply_kind, fsb_count::specs::Options::is_some_and))]
pub fn is_reply(request: Option<Request>) -> bool
    ensures { result ≡ is_reply request }
{
    match request {
        Some(request) => match request.kind {
            Kind::Reply => true,
            Kind::Invalidate | Kind::Read | Kind::WriteBack | Kind::Upgrade => false,
        },
        None => false,
    }
}

/// Whether the request is decoded and is a write-back.
#[tactic(auto, unfolding(crate::specs::Requests::is_write_back, crate::specs::Requests::is_write_back_kind, fsb_count::specs::Options::is_some_and))]
pub fn is_write_back(request: Option<Request>) -> bool
    ensures { result ≡ is_write_back request }
{
    match request {
        Some(request) => match request.kind {
            Kind::WriteBack => true,
            Kind::Reply | Kind::Invalidate | Kind::Read | Kind::Upgrade => false,
        },
        None => false,
    }
}

/// Whether the request is decoded and is an upgrade.
#[tactic(auto, unfolding(crate::specs::Requests::is_upgrade, crate::specs::Requests::is_upgrade_kind, fsb_count::specs::Options::is_some_and))]
pub fn is_upgrade(request: Option<Request>) -> bool
    ensures { result ≡ is_upgrade request }
{
    match request {
        Some(request) => match request.kind {
            Kind::Upgrade => true,
            Kind::Reply | Kind::Invalidate | Kind::Read | Kind::WriteBack => false,
        },
        None => false,
    }
}

/// Whether both requests are decoded and have the same ID.
#[tactic(auto, unfolding(crate::specs::Requests::have_same_id, fsb_count::specs::Options::is_some_and))]
pub fn have_same_id(a: Option<Request>, b: Option<Request>) -> bool
    ensures { result ≡ have_same_id a b }
{
    match (a, b) {
        (Some(a), Some(b)) => a.did == b.did,
        _ => false,
    }
}
