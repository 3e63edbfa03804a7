use fsb_encode::{Kind, Request};

/// What an agent wants of the bus.
#[derive(Clone, Copy, Debug, PartialEq, Eq)]
pub struct Want {
    pub request: Request,
    /// Whether it asks for a line of a locked item.
    pub locked: bool,
}

/// A request of an agent that is outstanding.
#[derive(Clone, Copy, Debug, PartialEq, Eq)]
pub struct OwnRequest {
    /// Its number among all requests of the bus.
    pub number: u32,
    pub request: Request,
    /// Whether it has given the agent its line. The line is not ready until the request has ended.
    pub granted: bool,
    /// The bytes of its line, where it is an upgrade that was won: no others come.
    pub kept: Option<[u8; 32]>,
}

/// An item of a script that is completed.
#[derive(Clone, Copy, Debug, PartialEq, Eq)]
pub struct Finished {
    pub clock: u32,
    /// Its number in the script.
    pub item: usize,
}

impl Default for OwnRequest {
    ghost use Rattle.std.specs.Prelude.{◌≡◌};
    ghost use Rattle.fsb_agent_view.specs.OwnRequests.{no_request};

    ghost is_default = { λ out. out ≡ no_request };

    fn default() -> Self {
        OwnRequest {
            number: 0,
            request: Request {
                kind: Kind::Reply,
                line: 0,
                chunk: 0,
                did: 0,
                den: false,
            },
            granted: false,
            kept: None,
        }
    }
}
