//! Snoop clocks and snoop ends.

ghost use Rattle.std.specs.Prelude.{◌≡◌, ℕ, ◌^◌, ◌<◌, ◌≤◌, length, IfSome};
ghost use Rattle.fsb_count.specs.Options.{is_before, is_at, greater_of};
ghost use Rattle.fsb_trace.specs.Snoop.{is_every_second_from, ends_snoop, snoop_end_from, snoop_end_if, start_after_clock, start_after_end, snoop_end_of, snoop_start_of, is_snoop_clock_of, is_snoop_clock, line_at_snoop_end};

use crate::at::stalls_at;
use crate::request::{live_clock_of, live_count};
use fsb_count::{any_where, first_where};
use fsb_signal::{Lines, Sample, line_at};

/// Whether the number is reached and below `n`.
#[tactic(auto, unfolding(fsb_count::specs::Options::is_before, fsb_count::specs::Options::is_some_and))]
pub fn is_before(number: Option<usize>, n: usize) -> bool
    ensures { result ≡ is_before number n }
{
    match number {
        Some(m) => m < n,
        None => false,
    }
}

/// Whether the number is reached and is `n`.
#[tactic(auto, unfolding(fsb_count::specs::Options::is_at, fsb_count::specs::Options::is_some_and))]
pub fn is_at(number: Option<usize>, n: usize) -> bool
    ensures { result ≡ is_at number n }
{
    match number {
        Some(m) => m == n,
        None => false,
    }
}

/// The greater of two numbers, where both are reached.
#[tactic(auto, unfolding(fsb_count::specs::Options::greater_of))]
pub fn greater_of(a: Option<usize>, b: Option<usize>) -> Option<usize>
    ensures value { result ≡ greater_of a b }
    ensures bound { (n : ℕ) → IfSome a (λ m. m ≤ n) → IfSome b (λ m. m ≤ n) →
        IfSome result (λ m. m ≤ n) }
{
    match (a, b) {
        (Some(m), Some(n)) => Some(m.max(n)),
        _ => None,
    }
}

/// Whether `c` is the start or an even number of clocks after it.
#[tactic(auto, unfolding(crate::specs::Snoop::is_every_second_from))]
pub fn is_every_second_from(start: u64, c: u64) -> bool
    ensures { result ≡ is_every_second_from start c }
{
    start <= c && (c - start) % 2 == 0
}

/// Whether a snoop that starts at `start` ends at `c`.
#[tactic(auto, unfolding(crate::specs::Snoop::ends_snoop))]
pub fn ends_snoop(w: &[Sample], start: usize, c: usize) -> bool
    ensures { result ≡ ends_snoop w.now start c }
{
    is_every_second_from(start as u64, c as u64) && !stalls_at(w, c)
}

/// The end of a snoop that starts there.
#[tactic(auto, unfolding(crate::specs::Snoop::snoop_end_from))]
fn snoop_end_from(w: &[Sample], start: usize) -> Option<usize>
    ensures value { result ≡ snoop_end_from w.now start }
    ensures below { IfSome result (λ s. s < length w.now) }
{
    first_where(w.len(), |c| ends_snoop(w, start, c))
}

/// The least clock at which the snoop of live request `i` may start.
#[tactic(auto, unfolding(crate::specs::Snoop::start_after_clock))]
fn start_after_clock(w: &[Sample], i: usize) -> Option<usize>
    requires { length w.now < 2 ^ 32 }
    ensures { result ≡ start_after_clock w.now i }
{
    match live_clock_of(w, i) {
        Some(q) => Some(q + 4),
        None => None,
    }
}

/// The first snoop clock of live request `i`, where this is the snoop end before it.
#[tactic(auto, unfolding(crate::specs::Snoop::start_after_end))]
fn start_after_end(w: &[Sample], i: usize, before: Option<usize>) -> Option<usize>
    requires length { length w.now < 2 ^ 32 }
    requires below { IfSome before (λ s. s < length w.now) }
    ensures { result ≡ start_after_end w.now i before }
{
    let clear = match before {
        Some(s) => Some(s + 3),
        None => None,
    };
    greater_of(start_after_clock(w, i), clear)
}

/// The end of a snoop that starts there, if it starts.
#[tactic(auto, unfolding(crate::specs::Snoop::snoop_end_if))]
fn snoop_end_if(w: &[Sample], start: Option<usize>) -> Option<usize>
    ensures value { result ≡ snoop_end_if w.now start }
    ensures below { IfSome result (λ s. s < length w.now) }
{
    match start {
        Some(start) => snoop_end_from(w, start),
        None => None,
    }
}

/// The snoop end of live request `i`.
#[tactic(auto, using(crate::proofs::SnoopSteps::snoop_steps))]
pub fn snoop_end_of(w: &[Sample], i: usize) -> Option<usize>
    requires { length w.now < 2 ^ 32 }
    ensures value { result ≡ snoop_end_of w.now i }
    ensures below { IfSome result (λ s. s < length w.now) }
{
    let mut end = snoop_end_if(w, start_after_clock(w, 0));
    for j in 0..i {
        end = snoop_end_if(w, start_after_end(w, j + 1, end));
    }
    end
}

/// The first snoop clock of live request `i`.
#[tactic(auto, using(crate::proofs::SnoopSteps::snoop_steps))]
fn snoop_start_of(w: &[Sample], i: usize) -> Option<usize>
    requires { length w.now < 2 ^ 32 }
    ensures { result ≡ snoop_start_of w.now i }
{
    if i == 0 {
        start_after_clock(w, 0)
    } else {
        start_after_end(w, i, snoop_end_of(w, i - 1))
    }
}

/// Whether `c` is a snoop clock of live request `i`.
#[tactic(auto, unfolding(crate::specs::Snoop::is_snoop_clock_of, fsb_count::specs::Options::is_some_and))]
fn is_snoop_clock_of(w: &[Sample], c: usize, i: usize) -> bool
    requires { length w.now < 2 ^ 32 }
    ensures { result ≡ is_snoop_clock_of w.now c i }
{
    match snoop_start_of(w, i) {
        Some(start) => c < w.len()
            && is_every_second_from(start as u64, c as u64)
            && !is_before(snoop_end_of(w, i), c),
        None => false,
    }
}

/// Whether `c` is a snoop clock of some live request.
#[tactic(auto, unfolding(crate::specs::Snoop::is_snoop_clock))]
pub fn is_snoop_clock(w: &[Sample], c: usize) -> bool
    requires { length w.now < 2 ^ 32 }
    ensures { result ≡ is_snoop_clock w.now c }
{
    any_where(live_count(w), |i| is_snoop_clock_of(w, c, i))
}

/// Whether the line is asserted at the snoop end of live request `i`.
#[tactic(auto, unfolding(crate::specs::Snoop::line_at_snoop_end, fsb_count::specs::Options::is_some_and))]
pub fn line_at_snoop_end(line: Lines, w: &[Sample], i: usize) -> bool
    requires { length w.now < 2 ^ 32 }
    ensures { result ≡ line_at_snoop_end line w.now i }
{
    match snoop_end_of(w, i) {
        Some(s) => line_at(line, w, s),
        None => false,
    }
}
