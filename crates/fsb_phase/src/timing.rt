//! When the steps of a request are due, by the clocks that they rest on and the waits that were chosen for it.

ghost use Rattle.std.specs.Prelude.{◌≡◌, ◌<◌, IfSome};
ghost use Rattle.fsb_trace.specs.Timing.{is_stall_from, is_ready_from, is_response_from, chunk_from, is_busy_from};

/// Whether `c` is one of the first clocks of a snoop that starts there, as many as it is to be stalled.
pub fn is_stall_from(stall: u8, c: u64, start: u64) -> bool
    ensures { result ≡ is_stall_from stall c start }
{
    if c < start {
        return false;
    }
    let after = c - start;
    after % 2 == 0 && after / 2 < u64::from(stall)
}

/// Whether `c` is the ready clock of a request that takes, is answered from this clock on and waits so long.
#[tactic(auto, unfolding(fsb_trace::specs::Timing::is_ready_from, fsb_count::specs::Options::is_at, fsb_count::specs::Options::is_some_and))]
pub fn is_ready_from(from: Option<u64>, wait: u8, c: u64) -> bool
    ensures { result ≡ is_ready_from from wait c }
{
    match from {
        Some(f) => f <= c && c - f == u64::from(wait),
        None => false,
    }
}

/// Whether `c` is the response clock of a request that is answered from this clock on or, where it takes, has this ready
/// clock, and waits so long.
#[tactic(auto, unfolding(fsb_trace::specs::Timing::is_response_from, fsb_trace::specs::Timing::is_ready_from, fsb_count::specs::Options::is_at, fsb_count::specs::Options::is_some_and))]
pub fn is_response_from(
    takes: bool,
    from: Option<u64>,
    ready: Option<u32>,
    wait: u8,
    c: u32,
) -> bool
    ensures { result ≡ is_response_from takes from ready wait c }
{
    if takes {
        match ready {
            Some(y) => y <= c && c - y == 2 + u32::from(wait),
            None => false,
        }
    } else {
        is_ready_from(from, wait, u64::from(c))
    }
}

/// The chunk that is due at `c` of a transfer that begins in the response clock `r`.
pub fn chunk_from(gap: u8, c: u32, r: u32) -> Option<u8>
    ensures value { result ≡ chunk_from gap c r }
    ensures below { IfSome result (λ n. n < 4) }
{
    let step = 1 + u32::from(gap);
    for n in 0..4 {
        if c >= r && c - r == u32::from(n) * step {
            return Some(n);
        }
    }
    None
}

/// Whether `c` lies from the response clock `r` to the clock before the last chunk.
#[tactic(auto, unfolding(fsb_trace::specs::Timing::is_busy_from))]
pub fn is_busy_from(gap: u8, c: u32, r: u32) -> bool
    ensures { result ≡ is_busy_from gap c r }
{
    r <= c && c - r < 3 * (1 + u32::from(gap))
}
