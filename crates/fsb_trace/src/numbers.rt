//! The numbers of a live request, from a whole trace.

ghost use Rattle.std.specs.Prelude.{◌≡◌, ◌^◌, ◌<◌, length};
ghost use Rattle.fsb_trace.specs.Snoop.{snoop_end_of};
ghost use Rattle.fsb_trace.specs.Outcome.{response_clock_of, outcome_of};
ghost use Rattle.fsb_trace.specs.Response.{end_of};

use crate::ending::end_clock_of;
use crate::outcome::Outcome;
use crate::snoop::snoop_end_of;
use crate::told::{response_clock_of, told_outcome_of};
use fsb_signal::Sample;

/// The snoop end of live request `i`, counted from 0 without the cancelled ones; none where it is not reached.
pub fn snoop_end(w: &[Sample], i: u32) -> Option<u32>
    requires { length w.now < 2 ^ 32 }
    ensures { result ≡ snoop_end_of w.now i }
{
    match snoop_end_of(w, i as usize) {
        Some(s) => Some(s as u32),
        None => None,
    }
}

/// The response clock of live request `i`: the `i`-th clock, from 0, at which RS# is not idle; none where it is not
/// reached. It is counted by itself: where it is reached and there is no live request `i`, it is answered all the same.
pub fn response(w: &[Sample], i: u32) -> Option<u32>
    requires { length w.now < 2 ^ 32 }
    ensures { result ≡ response_clock_of w.now i }
{
    match response_clock_of(w, i as usize) {
        Some(r) => Some(r as u32),
        None => None,
    }
}

/// The end of live request `i`: its fourth data clock where data move, and else its response clock; none where it is
/// not reached, and where there is no live request `i`.
pub fn end_of(w: &[Sample], i: u32) -> Option<u32>
    requires { length w.now < 2 ^ 32 }
    ensures { result ≡ end_of w.now i }
{
    match end_clock_of(w, i as usize) {
        Some(e) => Some(e as u32),
        None => None,
    }
}

/// The outcome of live request `i`, as its response tells it; none where the response is not reached, and where there
/// is no live request `i`.
pub fn outcome_of(w: &[Sample], i: u32) -> Option<Outcome>
    requires { length w.now < 2 ^ 32 }
    ensures { result ≡ outcome_of w.now i }
{
    told_outcome_of(w, i as usize)
}
