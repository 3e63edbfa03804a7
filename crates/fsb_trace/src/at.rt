//! What a trace has at a clock.

ghost use Rattle.std.specs.Prelude.{◌≡◌, ◌^◌, ◌<◌};
ghost use Rattle.fsb_trace.specs.At.{line_back, response_code_at, responds_at, stalls_at, known_pair, known_pair_at, request_at};

use fsb_encode::{Pair, Request, decode};
use fsb_signal::{Lines, Sample, line_at};

/// Whether the line is asserted `d` clocks before `c`.
#[tactic(auto, unfolding(crate::specs::At::line_back))]
pub fn line_back(line: Lines, w: &[Sample], c: usize, d: usize) -> bool
    ensures { result ≡ line_back line w.now c d }
{
    d <= c && line_at(line, w, c - d)
}

/// The response code at `c`; 0 is idle.
#[tactic(auto, unfolding(crate::specs::At::response_code_at))]
pub fn response_code_at(w: &[Sample], c: usize) -> u8
    ensures { result ≡ response_code_at w.now c }
{
    match w.get(c) {
        Some(sample) => sample.response(),
        None => 0,
    }
}

/// Whether RS# is not idle at `c`.
#[tactic(auto, unfolding(crate::specs::At::responds_at))]
pub fn responds_at(w: &[Sample], c: usize) -> bool
    ensures { result ≡ responds_at w.now c }
{
    response_code_at(w, c) != 0
}

/// Whether HIT# and HITM# are asserted together at `c`.
#[tactic(auto, unfolding(crate::specs::At::stalls_at))]
pub fn stalls_at(w: &[Sample], c: usize) -> bool
    ensures { result ≡ stalls_at w.now c }
{
    line_at(Lines::HIT, w, c) && line_at(Lines::HITM, w, c)
}

/// The address and REQ words of a sample, where no bit of them is unknown.
#[tactic(auto, unfolding(crate::specs::At::known_pair))]
pub fn known_pair(sample: &Sample) -> Option<Pair>
    ensures { result ≡ known_pair sample.now }
{
    if sample.addr.is_known() && sample.req.is_known() {
        Some(Pair {
            addr: sample.addr.bits,
            req: sample.req.bits as u8,
        })
    } else {
        None
    }
}

/// The address and REQ words at `c`, where they are known.
#[tactic(auto, unfolding(crate::specs::At::known_pair_at))]
fn known_pair_at(w: &[Sample], c: usize) -> Option<Pair>
    ensures { result ≡ known_pair_at w.now c }
{
    match w.get(c) {
        Some(sample) => known_pair(sample),
        None => None,
    }
}

/// The request that is decoded from clocks `c` and `c + 1`.
#[tactic(auto, unfolding(crate::specs::At::request_at))]
pub fn request_at(w: &[Sample], c: usize) -> Option<Request>
    requires { c < 2 ^ 32 }
    ensures { result ≡ request_at w.now c }
{
    let first = known_pair_at(w, c)?;
    let second = known_pair_at(w, c + 1)?;
    decode(first, second).ok()
}
