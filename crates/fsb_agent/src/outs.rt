ghost use Rattle.std.specs.Prelude.{◌≡◌};
ghost use Rattle.std.specs.List.{position};
ghost use Rattle.fsb_agent_view.specs.OwnRequests.{is_numbered, request_numbered, requests_granted, requests_without, with_grant};

use arrayvec::ArrayVec;
use fsb_agent_view::OwnRequest;

/// An agent's outstanding requests.
pub(crate) type Outs = ArrayVec<OwnRequest, 4>;

/// Where the request with this number stands, if there is one.
fn place_of(outs: &Outs, number: u32) -> Option<usize>
    ensures { result ≡ position (is_numbered number) outs.now.items }
{
    outs.iter().position(|out| out.number == number)
}

/// The request with this number, if there is one.
#[tactic(auto, using(fsb_count::proofs::Interface::find_placed, fsb_count::proofs::Interface::find_none))]
pub(crate) fn numbered(outs: &Outs, number: u32) -> Option<OwnRequest>
    ensures { result ≡ request_numbered number outs.now.items }
{
    let place = place_of(outs, number)?;
    Some(outs[place])
}

/// Takes out the request with this number, if there is one.
pub(crate) fn forget(outs: &mut Outs, number: u32)
    ensures { outs.new.items ≡ requests_without number outs.old.items }
{
    if let Some(place) = place_of(outs, number) {
        outs.remove(place);
    }
}

/// The request with this number is granted, and keeps these bytes.
pub(crate) fn grant(outs: &mut Outs, number: u32, kept: Option<[u8; 32]>)
    ensures { outs.new.items ≡ requests_granted number kept outs.old.items }
{
    for out in outs.as_mut_slice() {
        *out = with_grant(number, kept, *out);
    }
}

/// The request, granted where it has this number.
fn with_grant(number: u32, kept: Option<[u8; 32]>, out: OwnRequest) -> OwnRequest
    ensures { result ≡ with_grant number kept out }
{
    if out.number == number {
        OwnRequest {
            granted: true,
            kept,
            ..out
        }
    } else {
        out
    }
}
