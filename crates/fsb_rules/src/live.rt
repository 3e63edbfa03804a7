//! What the rules need to know of a request.

ghost use Rattle.std.specs.Prelude.{◌≡◌, ℕ};
ghost use Rattle.fsb_trace.specs.At.{Trace};
ghost use Rattle.fsb_trace.specs.Requests.{live_request_of, is_reply_kind, is_write_back_kind, is_upgrade_kind};
ghost use Rattle.fsb_trace.specs.Outcome.{told_by, outcome_by_kind};
ghost use Rattle.fsb_trace.specs.Response.{takes};
ghost use Rattle.fsb_trace.specs.Rules.{is_code_for};
ghost use Rattle.fsb_rules.specs.Live.{no_request, live_from, IsLive, IsSnooped};

use fsb_encode::{Kind, Request};
use fsb_trace::{Outcome, code_of};

/// A live request, from its second clock on.
#[derive(Clone, Copy, Debug, PartialEq, Eq)]
pub struct LiveRequest {
    /// Its first clock.
    pub clock: u32,
    pub kind: Kind,
    /// Its deferred ID.
    pub did: u8,
    /// Whether DEN# was asserted with it.
    pub den: bool,
}

impl Default for LiveRequest {
    ghost is_default = { λ request. request ≡ no_request };

    fn default() -> Self {
        LiveRequest {
            clock: 0,
            kind: Kind::Reply,
            did: 0,
            den: false,
        }
    }
}

/// A live request that has its snoop end and waits for its response.
#[derive(Clone, Copy, Default, Debug, PartialEq, Eq)]
pub struct Snooped {
    pub request: LiveRequest,
    /// Its snoop end.
    pub clock: u32,
    /// Whether HITM# was asserted there.
    pub hitm: bool,
    /// Whether DEFER# was asserted there.
    pub defer: bool,
}

/// How a request ended.
#[derive(Clone, Copy, Debug, PartialEq, Eq)]
pub struct Ended {
    pub request: LiveRequest,
    /// Whether it was Deferred, so that it stays outstanding.
    pub is_deferred: bool,
}

/// The request that begins at this clock.
#[tactic(auto, unfolding(crate::specs::Live::live_from))]
pub fn live_of(clock: u32, request: &Request) -> LiveRequest
    ensures { result ≡ live_from clock request.now }
{
    LiveRequest {
        clock,
        kind: request.kind,
        did: request.did,
        den: request.den,
    }
}

impl LiveRequest {
    /// Whether it is a reply.
    #[tactic(auto, unfolding(fsb_trace::specs::Requests::is_reply_kind))]
    pub fn is_reply(&self) -> bool
        ensures { result ≡ is_reply_kind self.now.kind }
    {
        match self.kind {
            Kind::Reply => true,
            Kind::Read | Kind::Invalidate | Kind::WriteBack | Kind::Upgrade => false,
        }
    }

    /// Whether it is a write-back.
    #[tactic(auto, unfolding(fsb_trace::specs::Requests::is_write_back_kind))]
    pub fn is_write_back(&self) -> bool
        ensures { result ≡ is_write_back_kind self.now.kind }
    {
        match self.kind {
            Kind::WriteBack => true,
            Kind::Read | Kind::Invalidate | Kind::Reply | Kind::Upgrade => false,
        }
    }

    /// Whether it is an upgrade.
    #[tactic(auto, unfolding(fsb_trace::specs::Requests::is_upgrade_kind))]
    fn is_upgrade(&self) -> bool
        ensures { result ≡ is_upgrade_kind self.now.kind }
    {
        match self.kind {
            Kind::Upgrade => true,
            Kind::Read | Kind::Invalidate | Kind::Reply | Kind::WriteBack => false,
        }
    }

    /// Its outcome, where nothing hands it on, retries, defers or fails it.
    #[tactic(auto, unfolding(crate::specs::Live::live_from, fsb_trace::specs::Requests::live_request_of, fsb_trace::specs::Outcome::outcome_by_kind))]
    fn outcome(&self) -> Outcome
        ensures { (h : Trace) (i : ℕ) → IsLive h i self.now →
            result ≡ outcome_by_kind (live_request_of h i) }
    {
        match self.kind {
            Kind::WriteBack => Outcome::Written,
            Kind::Upgrade => Outcome::Upgraded,
            Kind::Reply => Outcome::Replied,
            Kind::Read | Kind::Invalidate => Outcome::Granted,
        }
    }
}

impl Snooped {
    /// Whether memory is to take its data.
    #[tactic(auto, unfolding(crate::specs::Live::live_from, fsb_trace::specs::Requests::live_request_of, fsb_trace::specs::Response::takes, fsb_trace::specs::Requests::is_write_back, fsb_trace::specs::Snoop::line_at_snoop_end, fsb_count::specs::Options::is_some_and))]
    pub fn takes(&self) -> bool
        ensures { (h : Trace) (i : ℕ) → IsSnooped h i self.now → result ≡ takes h i }
    {
        self.request.is_write_back() || self.hitm
    }

    /// Whether the code, neither idle nor a hard failure, is the one for it.
    #[tactic(auto, unfolding(crate::specs::Live::live_from, fsb_trace::specs::Requests::live_request_of, fsb_trace::specs::Rules::is_code_for, fsb_trace::specs::Requests::is_write_back, fsb_trace::specs::Requests::is_upgrade, fsb_trace::specs::Rules::has_den, fsb_trace::specs::Snoop::line_at_snoop_end, fsb_count::specs::Options::is_some_and))]
    pub fn is_code_for(&self, code: u8) -> bool
        ensures { (h : Trace) (i : ℕ) → IsSnooped h i self.now → result ≡ is_code_for h i code }
    {
        if self.hitm {
            code == code_of(Outcome::Handed)
        } else if self.request.is_write_back() {
            code == code_of(Outcome::Written)
        } else if self.defer {
            code == code_of(Outcome::Retried)
                || self.request.den && code == code_of(Outcome::Deferred)
        } else if self.request.is_upgrade() {
            code == code_of(Outcome::Upgraded)
        } else {
            code == code_of(Outcome::Granted)
        }
    }

    /// The outcome that a response with this code tells.
    #[tactic(auto, unfolding(fsb_trace::specs::Outcome::told_by, fsb_trace::specs::Snoop::line_at_snoop_end, fsb_count::specs::Options::is_some_and))]
    pub fn told_by(&self, code: u8) -> Outcome
        ensures { (h : Trace) (i : ℕ) → IsSnooped h i self.now → result ≡ told_by h i code }
    {
        if code == code_of(Outcome::Failed) {
            Outcome::Failed
        } else if self.hitm {
            Outcome::Handed
        } else if code == code_of(Outcome::Retried) {
            Outcome::Retried
        } else if code == code_of(Outcome::Deferred) {
            Outcome::Deferred
        } else {
            self.request.outcome()
        }
    }
}
