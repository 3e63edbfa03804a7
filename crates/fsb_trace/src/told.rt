//! Responses, and the outcomes that they tell.

ghost use Rattle.std.specs.Prelude.{◌≡◌, ◌^◌, ◌<◌, length, IfSome};
ghost use Rattle.fsb_trace.specs.Outcome.{outcome_by_kind, response_clock_of, live_response_of, told_with, told_by, outcome_of, moves_data, is_deferred};

use crate::at::{responds_at, response_code_at};
use crate::outcome::{Outcome, code_of, is_deferral, moves};
use crate::request::{live_count, live_request_of};
use crate::snoop::line_at_snoop_end;
use fsb_count::nth_where;
use fsb_encode::{Kind, Request};
use fsb_signal::{Lines, Sample};

/// The outcome of a request that nothing hands on, retries, defers or fails.
#[tactic(auto, unfolding(crate::specs::Outcome::outcome_by_kind))]
pub fn outcome_by_kind(request: Option<Request>) -> Outcome
    ensures { result ≡ outcome_by_kind request }
{
    match request {
        Some(request) => match request.kind {
            Kind::WriteBack => Outcome::Written,
            Kind::Upgrade => Outcome::Upgraded,
            Kind::Reply => Outcome::Replied,
            Kind::Read | Kind::Invalidate => Outcome::Granted,
        },
        None => Outcome::Granted,
    }
}

/// What a response with this code tells of the request, whose line an owner hands on, or does not.
pub fn told_with(handed: bool, request: Option<Request>, code: u8) -> Outcome
    ensures { result ≡ told_with handed request code }
{
    if code == code_of(Outcome::Failed) {
        Outcome::Failed
    } else if handed {
        Outcome::Handed
    } else if code == code_of(Outcome::Retried) {
        Outcome::Retried
    } else if code == code_of(Outcome::Deferred) {
        Outcome::Deferred
    } else {
        outcome_by_kind(request)
    }
}

/// The response clock of live request `i`.
#[tactic(auto, unfolding(crate::specs::Outcome::response_clock_of))]
pub fn response_clock_of(w: &[Sample], i: usize) -> Option<usize>
    ensures value { result ≡ response_clock_of w.now i }
    ensures below { IfSome result (λ r. r < length w.now) }
{
    nth_where(i, w.len(), |c| responds_at(w, c))
}

/// The response clock of live request `i`, where there is such a request.
#[tactic(auto, unfolding(crate::specs::Outcome::live_response_of))]
pub fn live_response_of(w: &[Sample], i: usize) -> Option<usize>
    requires { length w.now < 2 ^ 32 }
    ensures value { result ≡ live_response_of w.now i }
    ensures below { IfSome result (λ r. r < length w.now) }
{
    if i < live_count(w) {
        response_clock_of(w, i)
    } else {
        None
    }
}

/// What a response with this code tells of live request `i`.
#[tactic(auto, unfolding(crate::specs::Outcome::told_by))]
fn told_by(w: &[Sample], i: usize, code: u8) -> Outcome
    requires { length w.now < 2 ^ 32 }
    ensures { result ≡ told_by w.now i code }
{
    told_with(
        line_at_snoop_end(Lines::HITM, w, i),
        live_request_of(w, i),
        code,
    )
}

/// The told outcome of live request `i`.
#[tactic(auto, unfolding(crate::specs::Outcome::outcome_of))]
pub fn told_outcome_of(w: &[Sample], i: usize) -> Option<Outcome>
    requires { length w.now < 2 ^ 32 }
    ensures { result ≡ outcome_of w.now i }
{
    match live_response_of(w, i) {
        Some(r) => Some(told_by(w, i, response_code_at(w, r))),
        None => None,
    }
}

/// Whether the outcome of live request `i` is told and moves data.
#[tactic(auto, unfolding(crate::specs::Outcome::moves_data, fsb_count::specs::Options::is_some_and))]
pub fn moves_data(w: &[Sample], i: usize) -> bool
    requires { length w.now < 2 ^ 32 }
    ensures { result ≡ moves_data w.now i }
{
    match told_outcome_of(w, i) {
        Some(outcome) => moves(outcome),
        None => false,
    }
}

/// Whether the outcome of live request `i` is told and is Deferred.
#[tactic(auto, unfolding(crate::specs::Outcome::is_deferred, fsb_count::specs::Options::is_some_and))]
pub fn is_deferred(w: &[Sample], i: usize) -> bool
    requires { length w.now < 2 ^ 32 }
    ensures { result ≡ is_deferred w.now i }
{
    match told_outcome_of(w, i) {
        Some(outcome) => is_deferral(outcome),
        None => false,
    }
}
