ghost use Rattle.std.specs.Prelude.{◌≡◌};
ghost use Rattle.fsb_bridge.specs.Deferrals.{no_deferral, is_due_reply, told, with_answer, with_reply};

use fsb_encode::{Kind, Request};

/// A request that was deferred.
#[derive(Clone, Copy, Debug, PartialEq, Eq)]
pub struct Deferral {
    /// The number of the request.
    pub number: u32,
    pub request: Request,
    /// Whether HIT# was asserted at its snoop end.
    pub shared: bool,
}

/// A deferral that waits for its reply.
#[derive(Clone, Copy, Debug, PartialEq, Eq)]
pub struct Waiting {
    pub deferral: Deferral,
    /// How many clocks after the one behind its response the reply is due.
    pub later: u16,
    /// The clock of the response Deferred, once it came.
    pub answered: Option<u32>,
    /// Whether a reply to it is under way.
    pub begun: bool,
}

/// What is heard of a deferral.
#[derive(Clone, Copy, Debug, PartialEq, Eq)]
pub(crate) enum News {
    /// The response to the request of this number came at this clock.
    Answered { number: u32, clock: u32 },
    /// The reply with this ID began, or was cancelled.
    Reply { did: u8, begun: bool },
}

impl Default for Waiting {
    ghost is_default = { λ waiting. waiting ≡ no_deferral };

    fn default() -> Self {
        Waiting {
            deferral: Deferral {
                number: 0,
                request: Request {
                    kind: Kind::Reply,
                    line: 0,
                    chunk: 0,
                    did: 0,
                    den: false,
                },
                shared: false,
            },
            later: 0,
            answered: None,
            begun: false,
        }
    }
}

/// Whether the reply is due at the clock: its wait is over, and none is under way.
pub(crate) fn is_due_reply(clock: u32, waiting: &Waiting) -> bool
    ensures { result ≡ is_due_reply clock waiting.now }
{
    match waiting.answered {
        None => false,
        Some(response) => {
            response < clock && u32::from(waiting.later) < clock - response && !waiting.begun
        }
    }
}

/// The deferral after this was heard.
pub(crate) fn told(news: News, waiting: Waiting) -> Waiting
    ensures { result ≡ told news waiting }
{
    match news {
        News::Answered { number, clock } => with_answer(number, clock, waiting),
        News::Reply { did, begun } => with_reply(did, begun, waiting),
    }
}

fn with_answer(number: u32, clock: u32, waiting: Waiting) -> Waiting
    ensures { result ≡ with_answer number clock waiting }
{
    if waiting.deferral.number == number {
        Waiting {
            answered: Some(clock),
            ..waiting
        }
    } else {
        waiting
    }
}

fn with_reply(did: u8, begun: bool, waiting: Waiting) -> Waiting
    ensures { result ≡ with_reply did begun waiting }
{
    if waiting.deferral.request.did == did {
        Waiting { begun, ..waiting }
    } else {
        waiting
    }
}
