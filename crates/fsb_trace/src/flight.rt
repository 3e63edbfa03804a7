//! Requests in flight, requests that are outstanding, and replies to deferred ones.

ghost use Rattle.std.specs.Prelude.{◌≡◌, ◌^◌, ◌<◌, length, IfSome};
ghost use Rattle.fsb_trace.specs.Flight.{is_dropped, has_ended, is_in_flight, in_flight, is_reply_to, is_live_reply_to, reply_clock_of, reply_end_of, last_clock_of, is_finished, is_outstanding};
ghost use Rattle.fsb_trace.specs.Deferral.{answers, is_answered};

use crate::at::request_at;
use crate::ending::end_clock_of;
use crate::request::{
    have_same_id, is_cancelled, is_live, is_reply, live_number_of, live_request_of,
};
use crate::snoop::is_before;
use crate::told::{is_deferred, response_clock_of};
use fsb_count::{any_where, count_where, first_where};
use fsb_signal::{Lines, Sample, line_at};

/// Whether the request that begins at `q` was cancelled, and its address error lies below `c`.
#[tactic(auto, unfolding(crate::specs::Flight::is_dropped))]
fn is_dropped(w: &[Sample], c: usize, q: usize) -> bool
    requires { q < 2 ^ 32 }
    ensures { result ≡ is_dropped w.now c q }
{
    is_cancelled(w, q) && q + 3 < c
}

/// Whether the request that begins at `q` is live, and its end is below `c`.
#[tactic(auto, unfolding(crate::specs::Flight::has_ended))]
fn has_ended(w: &[Sample], c: usize, q: usize) -> bool
    requires length { length w.now < 2 ^ 32 }
    requires clock { q < 2 ^ 32 }
    ensures { result ≡ has_ended w.now c q }
{
    is_live(w, q) && is_before(end_clock_of(w, live_number_of(w, q)), c)
}

/// Whether the request that begins at `q` is in flight at `c`.
#[tactic(auto, unfolding(crate::specs::Flight::is_in_flight))]
fn is_in_flight(w: &[Sample], c: usize, q: usize) -> bool
    requires length { length w.now < 2 ^ 32 }
    requires clock { q < 2 ^ 32 }
    ensures { result ≡ is_in_flight w.now c q }
{
    line_at(Lines::ADS, w, q) && q < c && !is_dropped(w, c, q) && !has_ended(w, c, q)
}

/// How many requests are in flight at `c`.
#[tactic(auto, using(crate::proofs::FlightSteps::flight_steps))]
pub fn count_in_flight(w: &[Sample], c: usize) -> usize
    requires length { length w.now < 2 ^ 32 }
    requires clock { c < 2 ^ 32 }
    ensures { result ≡ length (in_flight w.now c) }
{
    count_where(c, |q| is_in_flight(w, c, q))
}

/// Whether the request that begins at `q` is a reply with the ID of live request `i`, after its response.
#[tactic(auto, unfolding(crate::specs::Flight::is_reply_to))]
fn is_reply_to(w: &[Sample], i: usize, q: usize) -> bool
    requires length { length w.now < 2 ^ 32 }
    requires clock { q < 2 ^ 32 }
    ensures { result ≡ is_reply_to w.now i q }
{
    line_at(Lines::ADS, w, q)
        && is_reply(request_at(w, q))
        && have_same_id(request_at(w, q), live_request_of(w, i))
        && is_before(response_clock_of(w, i), q)
}

/// Whether the request that begins at `q` is live, and such a reply.
#[tactic(auto, unfolding(crate::specs::Flight::is_live_reply_to))]
fn is_live_reply_to(w: &[Sample], i: usize, q: usize) -> bool
    requires length { length w.now < 2 ^ 32 }
    requires clock { q < 2 ^ 32 }
    ensures { result ≡ is_live_reply_to w.now i q }
{
    is_live(w, q) && is_reply_to(w, i, q)
}

/// The first clock of the reply to live request `i`.
#[tactic(auto, unfolding(crate::specs::Flight::reply_clock_of))]
fn reply_clock_of(w: &[Sample], i: usize) -> Option<usize>
    requires { length w.now < 2 ^ 32 }
    ensures value { result ≡ reply_clock_of w.now i }
    ensures below { IfSome result (λ q. q < length w.now) }
{
    first_where(w.len(), |q| is_live_reply_to(w, i, q))
}

/// The end of the reply to live request `i`.
#[tactic(auto, unfolding(crate::specs::Flight::reply_end_of, crate::specs::Flight::reply_number_of))]
fn reply_end_of(w: &[Sample], i: usize) -> Option<usize>
    requires { length w.now < 2 ^ 32 }
    ensures { result ≡ reply_end_of w.now i }
{
    match reply_clock_of(w, i) {
        Some(q) => end_clock_of(w, live_number_of(w, q)),
        None => None,
    }
}

/// The clock up to which live request `i` is outstanding.
#[tactic(auto, unfolding(crate::specs::Flight::last_clock_of))]
fn last_clock_of(w: &[Sample], i: usize) -> Option<usize>
    requires { length w.now < 2 ^ 32 }
    ensures { result ≡ last_clock_of w.now i }
{
    if is_deferred(w, i) {
        reply_end_of(w, i)
    } else {
        end_clock_of(w, i)
    }
}

/// Whether the request that begins at `q` is live, and its last clock as outstanding lies below `c`.
#[tactic(auto, unfolding(crate::specs::Flight::is_finished))]
fn is_finished(w: &[Sample], c: usize, q: usize) -> bool
    requires length { length w.now < 2 ^ 32 }
    requires clock { q < 2 ^ 32 }
    ensures { result ≡ is_finished w.now c q }
{
    is_live(w, q) && is_before(last_clock_of(w, live_number_of(w, q)), c)
}

/// Whether the request that begins at `q` is outstanding at `c`.
#[tactic(auto, unfolding(crate::specs::Flight::is_outstanding))]
pub fn is_outstanding(w: &[Sample], c: usize, q: usize) -> bool
    requires length { length w.now < 2 ^ 32 }
    requires clock { q < 2 ^ 32 }
    ensures { result ≡ is_outstanding w.now c q }
{
    line_at(Lines::ADS, w, q)
        && q < c
        && !is_reply(request_at(w, q))
        && !is_dropped(w, c, q)
        && !is_finished(w, c, q)
}

/// Whether the request that begins at `q` is a reply to live request `i` that is in flight at `c`, or live.
#[tactic(auto, unfolding(crate::specs::Deferral::answers))]
fn answers(w: &[Sample], c: usize, i: usize, q: usize) -> bool
    requires length { length w.now < 2 ^ 32 }
    requires clock { q < 2 ^ 32 }
    ensures { result ≡ answers w.now c i q }
{
    is_reply_to(w, i, q) && (is_in_flight(w, c, q) || is_live(w, q))
}

/// Whether a reply to live request `i` that began before `c` is in flight at `c`, or live.
#[tactic(auto, unfolding(crate::specs::Deferral::is_answered))]
pub fn is_answered(w: &[Sample], c: usize, i: usize) -> bool
    requires length { length w.now < 2 ^ 32 }
    requires clock { c < 2 ^ 32 }
    ensures { result ≡ is_answered w.now c i }
{
    any_where(c, |q| answers(w, c, i, q))
}
