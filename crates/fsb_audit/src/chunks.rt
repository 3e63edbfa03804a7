//! Chunks of memory by their numbers: a chunk is eight bytes, and its number is its address divided by 8.

ghost use Rattle.std.specs.Prelude.{◌≡◌, ◌^◌, ◌<◌};
ghost use Rattle.fsb_audit.specs.AuditRegisters.{first_asked, nth_from};

use fsb_encode::{Request, chunk_order};

/// One more than the greatest line that a request can name.
const LINES: u64 = 1 << 31;

/// The number of the chunk for which the request asks first.
#[tactic(auto, unfolding(crate::specs::AuditRegisters::first_asked))]
pub fn first_chunk(request: &Request) -> u64
    ensures { result ≡ first_asked request.now }
{
    request.line % LINES * 4 + u64::from(request.chunk % 4)
}

/// The number of the chunk that comes n-th, n from 0 to 3, where this one comes first.
#[tactic(auto, unfolding(crate::specs::AuditRegisters::nth_from))]
pub fn nth_chunk(first: u64, n: u8) -> u64
    ensures value { result ≡ nth_from first n }
    ensures bound { result < 2 ^ 33 }
{
    let order = chunk_order((first % 4) as u8);
    first / 4 % LINES * 4 + u64::from(order[usize::from(n % 4)])
}
