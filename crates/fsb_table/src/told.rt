//! The outcome that a response tells, and the end of its request.
ghost use Rattle.std.specs.Prelude.{◌≡◌, ℕ, ◌<◌, Some, length, IfSome, option_and_then};
ghost use Rattle.fsb_count.specs.Options.{is_some_and};
ghost use Rattle.fsb_trace.specs.Outcome.{does_move, outcome_of, response_clock_of};
ghost use Rattle.fsb_trace.specs.Requests.{live_clock_of, live_request_of};
ghost use Rattle.fsb_trace.specs.Response.{end_of};
ghost use Rattle.fsb_trace.specs.Snoop.{snoop_end_of};
ghost use Rattle.fsb_table.specs.Going.{fourth_from, is_handed_by};

use crate::search::nth_from;
use fsb_encode::Request;
use fsb_signal::{Lines, Sample, line_at};
use fsb_trace::{Outcome, moves, response_code_at, told_with};

/// Whether an owner hands on the line of a request with this snoop end: HITM# is asserted there.
#[tactic(auto, unfolding(fsb_count::specs::Options::is_some_and))]
fn is_handed(w: &[Sample], snoop: Option<usize>) -> bool
    ensures { result ≡ is_handed_by w.now snoop }
{
    match snoop {
        Some(s) => line_at(Lines::HITM, w, s),
        None => false,
    }
}

/// The told outcome of a live request with this snoop end and this response.
pub fn told_outcome(
    w: &[Sample],
    snoop: Option<usize>,
    request: Option<Request>,
    response: Option<usize>,
) -> Option<Outcome>
    ensures { (i q : ℕ) → live_clock_of w.now i ≡ Some q → snoop ≡ snoop_end_of w.now i →
        request ≡ live_request_of w.now i → response ≡ response_clock_of w.now i →
        result ≡ outcome_of w.now i }
{
    match response {
        Some(r) => Some(told_with(is_handed(w, snoop), request, response_code_at(w, r))),
        None => None,
    }
}

/// Whether an outcome is told, and with it data move.
#[tactic(auto, unfolding(fsb_count::specs::Options::is_some_and))]
fn has_data(outcome: Option<Outcome>) -> bool
    ensures { result ≡ is_some_and outcome does_move }
{
    match outcome {
        Some(outcome) => moves(outcome),
        None => false,
    }
}

/// The fourth clock with data from the response on.
#[tactic(auto, unfolding(crate::specs::Going::fourth_from))]
fn fourth_chunk(w: &[Sample], response: Option<usize>) -> Option<usize>
    ensures value { result ≡ option_and_then (λ r. fourth_from w.now r) response }
    ensures below { IfSome result (λ e. e < length w.now) }
{
    match response {
        Some(r) => nth_from(r, 3, w.len(), |c| line_at(Lines::DRDY, w, c)),
        None => None,
    }
}

/// The end of a live request with this outcome and this response.
pub fn end_clock(w: &[Sample], outcome: Option<Outcome>, response: Option<usize>) -> Option<usize>
    requires { IfSome response (λ r. r < length w.now) }
    ensures value { (i q : ℕ) → live_clock_of w.now i ≡ Some q → outcome ≡ outcome_of w.now i →
        response ≡ response_clock_of w.now i →
        result ≡ end_of w.now i }
    ensures below { IfSome result (λ e. e < length w.now) }
{
    if has_data(outcome) {
        fourth_chunk(w, response)
    } else {
        response
    }
}
