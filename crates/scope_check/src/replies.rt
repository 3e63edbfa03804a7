//! The replies in a part whose requests are not of the part.

ghost use Rattle.std.specs.Prelude.{◌≡◌, ◌<◌, ◌++◌, ◌∷◌, [], IfSome};
ghost use Rattle.fsb_trace.specs.At.{Trace};
ghost use Rattle.scope_check.specs.Replies.{request_on, begun_on, asked_id, reply_id};
ghost use Rattle.scope_check.specs.Following.{Follows, marked, is_unmarked};

use fsb_encode::{Kind, Request, decode};
use fsb_signal::{Lines, Sample};
use fsb_trace::known_pair;

/// How many deferred IDs there are.
const IDS: usize = 256;

/// The requests of a part, as far as it matters whose requests its replies answer.
#[derive(Drop)]
pub(crate) struct Replies {
    /// The last clock.
    pub(crate) last: Option<Sample>,
    /// Of each deferred ID, whether a request that is no reply has it.
    pub(crate) asked: [bool; IDS],
    /// Whether the last two clocks are those of a reply with another ID.
    pub(crate) answers_before: bool,
}

// The request that two samples hold.
#[tactic(auto, unfolding(crate::specs::Replies::request_on))]
fn request_on(a: &Sample, b: &Sample) -> Option<Request>
    ensures { result ≡ request_on a.now b.now }
{
    let first = known_pair(a)?;
    let second = known_pair(b)?;
    decode(first, second).ok()
}

// The request whose second clock is this sample.
fn begun_on(last: &Option<Sample>, sample: &Sample) -> Option<Request>
    ensures { result ≡ begun_on last.now sample.now }
{
    match last {
        Some(first) => {
            if first.has(Lines::ADS) {
                request_on(first, sample)
            } else {
                None
            }
        }
        None => None,
    }
}

// The ID of a request that is no reply.
#[tactic(auto, unfolding(fsb_trace::specs::Requests::is_reply_kind))]
fn asked_id(request: Option<Request>) -> Option<u8>
    ensures id { result ≡ asked_id request }
    ensures low { IfSome result (λ id. id < 256) }
{
    match request {
        Some(request) => match request.kind {
            Kind::Reply => None,
            Kind::Invalidate | Kind::Read | Kind::WriteBack | Kind::Upgrade => Some(request.did),
        },
        None => None,
    }
}

// The ID that a reply answers.
#[tactic(auto, unfolding(fsb_trace::specs::Requests::is_reply_kind))]
fn reply_id(request: Option<Request>) -> Option<u8>
    ensures id { result ≡ reply_id request }
    ensures low { IfSome result (λ id. id < 256) }
{
    match request {
        Some(request) => match request.kind {
            Kind::Reply => Some(request.did),
            Kind::Invalidate | Kind::Read | Kind::WriteBack | Kind::Upgrade => None,
        },
        None => None,
    }
}

// Marks an ID, if there is one.
fn mark(asked: &mut [bool; IDS], id: Option<u8>)
    ensures { asked.new ≡ marked asked.old id }
{
    if let Some(id) = id {
        asked[id as usize] = true;
    }
}

// Whether there is an ID, and it is not marked.
fn is_unmarked(asked: &[bool; IDS], id: Option<u8>) -> bool
    ensures { result ≡ is_unmarked asked.now id }
{
    match id {
        Some(id) => !asked[id as usize],
        None => false,
    }
}

impl Replies {
    /// Before the first clock of a part.
    pub(crate) fn new() -> Replies
        ensures { Follows result [] }
    {
        Replies {
            last: None,
            asked: [false; IDS],
            answers_before: false,
        }
    }

    /// Takes the next clock.
    pub(crate) fn feed(&mut self, sample: &Sample)
        ensures { (part : Trace) → Follows self.old part → Follows self.new (part ++ sample.now ∷ []) }
    {
        let request = begun_on(&self.last, sample);
        mark(&mut self.asked, asked_id(request));
        self.answers_before = is_unmarked(&self.asked, reply_id(request));
        self.last = Some(*sample);
    }
}
