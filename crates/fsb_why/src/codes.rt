//! Reasons of rules for the two clocks of a request: lawful codes and identity.

ghost use Rattle.std.specs.Prelude.{◌≡◌, ◌-◌, true, false, Some};
ghost use Rattle.fsb_encode.specs.declared.request.Request.{Request};
ghost use Rattle.fsb_signal.specs.declared.marks.Marks.{Marks};
ghost use Rattle.fsb_signal.specs.declared.lines.TheConstants.Lines.{ADS};
ghost use Rattle.fsb_trace.specs.At.{Trace, line_back, request_at};
ghost use Rattle.fsb_trace.specs.Requests.{is_reply, is_reply_kind};
ghost use Rattle.fsb_why.specs.Look.{Shows};
ghost use Rattle.fsb_why.specs.Explains.{Explains};

use crate::look::{Look, is_agent};
use fsb_encode::{Kind, Request, decode};
use fsb_reasons::Reason;
use fsb_signal::Lines;
use fsb_trace::Who;

/// Whether it is the kind of a reply.
#[tactic(auto, unfolding(fsb_trace::specs::Requests::is_reply_kind))]
fn is_reply(kind: Kind) -> bool
    ensures { result ≡ is_reply_kind kind }
{
    match kind {
        Kind::Reply => true,
        _ => false,
    }
}

impl Look {
    /// Rule 3, lawful codes, of the request that began one clock before.
    pub fn code(&self) -> Option<Reason>
        ensures { (m : Marks) (v : Trace) → Shows self.now m v →
            Explains m v self.now.clock 3 result }
    {
        if self.one_back(Lines::ADS) {
            self.unlawful()
        } else {
            None
        }
    }

    /// Why the two clocks up to this one hold no lawful request.
    fn unlawful(&self) -> Option<Reason>
        ensures { (m : Marks) (v : Trace) → Shows self.now m v →
            line_back ADS v self.now.clock 1 ≡ true → Explains m v self.now.clock 3 result }
    {
        match self.first_words() {
            Some(first) => match self.second_words() {
                Some(second) => match decode(first, second) {
                    Ok(_) => None,
                    Err(fault) => Some(Reason::Unlawful { fault }),
                },
                None => Some(Reason::UnknownBits { clock: self.clock }),
            },
            None => Some(Reason::UnknownBits {
                clock: self.clock.saturating_sub(1),
            }),
        }
    }

    /// Rule 7, request identity, of the request that began one clock before.
    pub fn identity(&self) -> Option<Reason>
        ensures { (m : Marks) (v : Trace) → Shows self.now m v →
            Explains m v self.now.clock 7 result }
    {
        if self.one_back(Lines::ADS) {
            match self.request() {
                Some(request) => self.other_id(&request),
                None => Some(Reason::NoId),
            }
        } else {
            None
        }
    }

    /// Why the ID of this request, which began one clock before, is not one of its winner's.
    fn other_id(&self, request: &Request) -> Option<Reason>
        ensures { (m : Marks) (v : Trace) → Shows self.now m v →
            line_back ADS v self.now.clock 1 ≡ true →
            request_at v (self.now.clock - 1) ≡ Some request.now →
            Explains m v self.now.clock 7 result }
    {
        if is_reply(request.kind) {
            self.reply_by_other()
        } else {
            self.id_of_other(request.did)
        }
    }

    /// Why the reply that began one clock before is not the priority agent's.
    fn reply_by_other(&self) -> Option<Reason>
        ensures { (m : Marks) (v : Trace) → Shows self.now m v →
            line_back ADS v self.now.clock 1 ≡ true →
            is_reply (request_at v (self.now.clock - 1)) ≡ true →
            Explains m v self.now.clock 7 result }
    {
        let winner = self.winner_before;
        if is_agent(winner, Who::Priority) {
            None
        } else {
            Some(Reason::ReplyByOther { winner })
        }
    }

    /// Why the request with this ID, which began one clock before and is no reply, is not its winner's.
    fn id_of_other(&self, did: u8) -> Option<Reason>
        ensures { (m : Marks) (v : Trace) (r : Request) → Shows self.now m v →
            line_back ADS v self.now.clock 1 ≡ true →
            request_at v (self.now.clock - 1) ≡ Some r → is_reply (Some r) ≡ false → r.did ≡ did →
            Explains m v self.now.clock 7 result }
    {
        let winner = self.winner_before;
        if is_agent(winner, Who::Symmetric(did / 16)) {
            None
        } else {
            Some(Reason::IdOfOther { did, winner })
        }
    }
}
