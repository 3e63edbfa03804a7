//! What a request is, where it is decoded.

ghost use Rattle.std.specs.Prelude.{◌≡◌};
ghost use Rattle.fsb_trace.specs.Requests.{is_reply, is_upgrade, is_write_back};
ghost use Rattle.fsb_trace.specs.Rules.{has_den};

use fsb_encode::{Kind, Request};

/// Whether the request is decoded and is a write-back.
#[tactic(auto, unfolding(fsb_trace::specs::Requests::is_write_back, fsb_trace::specs::Requests::is_write_back_kind, fsb_count::specs::Options::is_some_and))]
pub fn is_write_back(request: Option<Request>) -> bool
    ensures { result ≡ is_write_back request }
{
    match request {
        Some(request) => match request.kind {
            Kind::WriteBack => true,
            Kind::Reply | Kind::Invalidate | Kind::Read | Kind::Upgrade => false,
        },
        None => false,
    }
}

/// Whether the request is decoded and is a reply.
#[tactic(auto, unfolding(fsb_trace::specs::Requests::is_reply, fsb_trace::specs::Requests::is_reply_kind, fsb_count::specs::Options::is_some_and))]
pub fn is_reply(request: Option<Request>) -> bool
    ensures { result ≡ is_reply request }
{
    match request {
        Some(request) => match request.kind {
            Kind::Reply => true,
            Kind::WriteBack | Kind::Invalidate | Kind::Read | Kind::Upgrade => false,
        },
        None => false,
    }
}

/// Whether the request is decoded and is an upgrade.
#[tactic(auto, unfolding(fsb_trace::specs::Requests::is_upgrade, fsb_trace::specs::Requests::is_upgrade_kind, fsb_count::specs::Options::is_some_and))]
pub fn is_upgrade(request: Option<Request>) -> bool
    ensures { result ≡ is_upgrade request }
{
    match request {
        Some(request) => match request.kind {
            Kind::Upgrade => true,
            Kind::Reply | Kind::Invalidate | Kind::Read | Kind::WriteBack => false,
        },
        None => false,
    }
}

/// Whether DEN# was asserted with the request.
#[tactic(auto, unfolding(fsb_trace::specs::Rules::has_den, fsb_count::specs::Options::is_some_and))]
pub fn has_den(request: Option<Request>) -> bool
    ensures { result ≡ has_den request }
{
    match request {
        Some(request) => request.den,
        None => false,
    }
}
