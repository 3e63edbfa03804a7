//! When a live request takes data, when its target is ready, when its data move, and when it ends.

ghost use Rattle.std.specs.Prelude.{◌≡◌, ◌^◌, ◌<◌, ◌≤◌, length, IfSome};
ghost use Rattle.fsb_count.specs.Clocks.{from_clock};
ghost use Rattle.fsb_signal.specs.Samples.{line_at};
ghost use Rattle.fsb_trace.specs.Response.{takes, data_clock_of, end_of, is_clear_before, clock_after_snoop, ready_after, ready_clock_of};

use crate::request::{is_write_back, live_request_of};
use crate::snoop::{greater_of, is_before, line_at_snoop_end, snoop_end_of};
use crate::told::{live_response_of, moves_data, response_clock_of};
use fsb_count::{first_where, nth_where};
use fsb_signal::{Lines, Sample, line_at};

/// Whether memory is to take the data of live request `i`.
#[tactic(auto, unfolding(crate::specs::Response::takes))]
pub fn takes(w: &[Sample], i: usize) -> bool
    requires { length w.now < 2 ^ 32 }
    ensures { result ≡ takes w.now i }
{
    is_write_back(live_request_of(w, i)) || line_at_snoop_end(Lines::HITM, w, i)
}

/// Whether the line is asserted at `c`, and `c` is `first` or later.
#[tactic(auto, unfolding(fsb_count::specs::Clocks::from_clock))]
pub fn line_at_from(line: Lines, w: &[Sample], first: usize, c: usize) -> bool
    ensures { result ≡ from_clock first (line_at line w.now) c }
{
    first <= c && line_at(line, w, c)
}

/// The `n`-th data clock of live request `i`, from 0 to 3; none where `n` is 4 or more.
#[tactic(auto, unfolding(crate::specs::Response::data_clock_of))]
fn data_clock_of(w: &[Sample], i: usize, n: usize) -> Option<usize>
    requires { length w.now < 2 ^ 32 }
    ensures value { result ≡ data_clock_of w.now i n }
    ensures below { IfSome result (λ d. d < length w.now) }
{
    if n < 4 && moves_data(w, i) {
        match response_clock_of(w, i) {
            Some(r) => nth_where(n, w.len(), |c| line_at_from(Lines::DRDY, w, r, c)),
            None => None,
        }
    } else {
        None
    }
}

/// The end of live request `i`.
#[tactic(auto, unfolding(crate::specs::Response::end_of))]
pub fn end_clock_of(w: &[Sample], i: usize) -> Option<usize>
    requires { length w.now < 2 ^ 32 }
    ensures value { result ≡ end_of w.now i }
    ensures below { IfSome result (λ e. e < length w.now) }
{
    if moves_data(w, i) {
        data_clock_of(w, i, 3)
    } else {
        live_response_of(w, i)
    }
}

/// Whether the request before live request `i` has ended below `c`, or `i` is the first.
#[tactic(auto, using(crate::proofs::EndSteps::end_steps))]
pub fn is_clear_before(w: &[Sample], i: usize, c: usize) -> bool
    requires { length w.now < 2 ^ 32 }
    ensures { result ≡ is_clear_before w.now i c }
{
    i == 0 || is_before(end_clock_of(w, i - 1), c)
}

/// One clock after the snoop end of live request `i`.
#[tactic(auto, unfolding(crate::specs::Response::clock_after_snoop))]
fn clock_after_snoop(w: &[Sample], i: usize) -> Option<usize>
    requires { length w.now < 2 ^ 32 }
    ensures value { result ≡ clock_after_snoop w.now i }
    ensures below { IfSome result (λ s. s ≤ length w.now) }
{
    match snoop_end_of(w, i) {
        Some(s) => Some(s + 1),
        None => None,
    }
}

/// The clock above which the target of live request `i` may be ready.
#[tactic(auto, using(crate::proofs::EndSteps::end_steps))]
fn ready_after(w: &[Sample], i: usize) -> Option<usize>
    requires { length w.now < 2 ^ 32 }
    ensures value { result ≡ ready_after w.now i }
    ensures below { IfSome result (λ b. b ≤ length w.now) }
{
    if i == 0 {
        clock_after_snoop(w, 0)
    } else {
        greater_of(clock_after_snoop(w, i), end_clock_of(w, i - 1))
    }
}

/// The ready clock of live request `i`.
#[tactic(auto, unfolding(crate::specs::Response::ready_clock_of))]
pub fn ready_clock_of(w: &[Sample], i: usize) -> Option<usize>
    requires { length w.now < 2 ^ 32 }
    ensures value { result ≡ ready_clock_of w.now i }
    ensures below { IfSome result (λ y. y < length w.now) }
{
    match ready_after(w, i) {
        Some(b) => first_where(w.len(), |c| line_at_from(Lines::TRDY, w, b + 1, c)),
        None => None,
    }
}
