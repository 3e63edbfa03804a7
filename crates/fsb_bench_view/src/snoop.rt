use fsb_encode::{Kind, Request};
use fsb_hazard::Turn;
use fsb_queue::Entry;
use fsb_trace::Outcome;

/// The request that one in flight serves: itself, and for a reply the deferred request.
#[derive(Clone, Copy, Debug, PartialEq, Eq)]
pub struct Served {
    /// Its first clock, by which its agent knows it.
    pub first: u32,
    pub agent: u8,
    pub request: Request,
}

/// The snoop end of a request.
#[derive(Clone, Copy, Debug, PartialEq, Eq)]
pub struct SnoopSettled {
    pub entry: Entry,
    pub served: Served,
    /// HIT#.
    pub hit: bool,
    /// HITM#.
    pub hitm: bool,
    /// The turn that counts.
    pub turn: Turn,
    pub outcome: Outcome,
}

impl Default for Served {
    ghost use Rattle.std.specs.Prelude.{◌≡◌};
    ghost use Rattle.fsb_bench_view.specs.BusViews.{no_served};

    ghost is_default = { λ served. served ≡ no_served };

    fn default() -> Self {
        Served {
            first: 0,
            agent: 0,
            request: Request {
                kind: Kind::Reply,
                line: 0,
                chunk: 0,
                did: 0,
                den: false,
            },
        }
    }
}
