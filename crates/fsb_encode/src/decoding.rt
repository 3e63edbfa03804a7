ghost use Rattle.std.specs.Prelude.{◌≡◌, ◌↔◌, ℕ, ◌/◌, ◌%◌, ◌^◌, true, false};
ghost use Rattle.std.specs.Result.{result_ok};
ghost use Rattle.fsb_encode.specs.declared.request.Pair.{Pair};
ghost use Rattle.fsb_encode.specs.declared.request.Request.{Request};
ghost use Rattle.fsb_encode.specs.Decoded.{is_code, kind_of, read_off, is_pair, is_coded_as, IsCodedAs, IsCode, IsKind, request_of, decoded};

use crate::request::{A4, A5, A16, Kind, Pair, Request, encode};

/// Why two clocks hold no request: the first of their words that is wrong.
#[derive(Clone, Copy, Debug, PartialEq, Eq)]
pub enum DecodeFault {
    /// The REQ word of the first clock, this one, is no code.
    BadCode(u8),
    /// The REQ word of the second clock, this one, is not that of the kind.
    BadLen(u8),
    /// An address bit is not as the codes have it.
    BadField,
}

/// The lawful request whose two clocks these are. The words are looked at in this order: the first REQ, the second
/// REQ, the addresses, and the fault names the first of them that no lawful request has after those before it.
pub fn decode(a: Pair, b: Pair) -> Result<Request, DecodeFault>
    ensures value { result ≡ decoded a b }
    ensures request { result_ok result ≡ request_of a b }

    // Ok exactly where the request is lawful and these are its clocks.
    ensures ok { (r : Request) → (result ≡ Ok r) ↔ IsCodedAs r a b }

    // Each fault exactly where some lawful request has the words before, and none has this one with them.
    ensures bad_code { (v : ℕ) → (result ≡ Err (DecodeFault.BadCode v))
        ↔ ((v ≡ a.req) × ¬ IsCode a.req) }
    ensures bad_len { (v : ℕ) → (result ≡ Err (DecodeFault.BadLen v))
        ↔ ((v ≡ b.req) × IsCode a.req × ¬ IsKind a.req b.req) }
    ensures bad_field { (result ≡ Err DecodeFault.BadField)
        ↔ (IsKind a.req b.req × ((r : Request) → ¬ IsCodedAs r a b)) }
{
    let Some(kind) = kind_of(a.req, b.req) else {
        return Err(word_fault(a.req, b.req));
    };
    let request = read_off(kind, a, b);
    if is_coded_as(&request, a, b) {
        Ok(request)
    } else {
        Err(DecodeFault::BadField)
    }
}

/// Two clocks hold a request exactly where it is lawful and they are its clocks: a law, and no code.
pub fn clocks_hold_request()
    ensures { (r : Request) (a b : Pair) → (request_of a b ≡ Some r) ↔ IsCodedAs r a b }
{}

/// The fault of two REQ words that no kind has.
fn word_fault(first: u8, second: u8) -> DecodeFault
    ensures code { is_code first ≡ false → result ≡ DecodeFault.BadCode first }
    ensures len { is_code first ≡ true → result ≡ DecodeFault.BadLen second }
{
    if is_code(first) {
        DecodeFault::BadLen(second)
    } else {
        DecodeFault::BadCode(first)
    }
}

/// Whether the request is lawful and these are its two clocks.
#[tactic(auto, unfolding(crate::specs::Decoded::is_coded_as, crate::specs::Decoded::is_pair))]
fn is_coded_as(request: &Request, a: Pair, b: Pair) -> bool
    ensures { result ≡ is_coded_as request.now a b }
{
    if request.is_lawful() {
        let (first, second) = encode(request);
        is_pair(first, a) && is_pair(second, b)
    } else {
        false
    }
}

#[tactic(auto, unfolding(crate::specs::Decoded::is_pair))]
fn is_pair(p: Pair, q: Pair) -> bool
    ensures { result ≡ is_pair p q }
{
    p.addr == q.addr && p.req == q.req
}

/// The kind that has these REQ words.
#[tactic(auto, unfolding(crate::specs::Decoded::kind_of, crate::specs::Decoded::req_words))]
fn kind_of(first: u8, second: u8) -> Option<Kind>
    ensures { result ≡ kind_of first second }
{
    match (first, second) {
        (0b00000, 0b00000) => Some(Kind::Reply),
        (0b00010 | 0b01010, 0b00010) => Some(Kind::Invalidate),
        (0b00110 | 0b01110, 0b00010) => Some(Kind::Read),
        (0b00101 | 0b01101, 0b00010) => Some(Kind::WriteBack),
        (0b00010 | 0b01010, 0b00000) => Some(Kind::Upgrade),
        _ => None,
    }
}

/// Whether some kind has this REQ word in its first clock.
#[tactic(auto, unfolding(crate::specs::Decoded::is_code, crate::specs::Decoded::req_words))]
fn is_code(first: u8) -> bool
    ensures { result ≡ is_code first }
{
    matches!(
        first,
        0b00000 | 0b00010 | 0b01010 | 0b00110 | 0b01110 | 0b00101 | 0b01101
    )
}

/// What stands on the two clocks where a request of this kind has its line, chunk, ID and DEN#.
#[tactic(auto, unfolding(crate::specs::Decoded::read_off))]
fn read_off(kind: Kind, a: Pair, b: Pair) -> Request
    ensures { result ≡ read_off kind a b }
{
    match kind {
        Kind::Reply => Request {
            kind,
            line: 0,
            chunk: 0,
            did: id_on(a.addr),
            den: false,
        },
        Kind::Invalidate | Kind::Read => Request {
            kind,
            line: a.addr / A5,
            chunk: (a.addr % A5) as u8,
            did: id_on(b.addr),
            den: b.addr / A4 % 2 == 1,
        },
        Kind::WriteBack => Request {
            kind,
            line: a.addr / A5,
            chunk: 0,
            did: id_on(b.addr),
            den: false,
        },
        Kind::Upgrade => Request {
            kind,
            line: a.addr / A5,
            chunk: (a.addr % A5) as u8,
            did: id_on(b.addr),
            den: false,
        },
    }
}

/// The deferred ID on an address word.
fn id_on(addr: u64) -> u8
    ensures { result ≡ addr / A16 % 2 ^ 8 }
{
    (addr / A16 % 256) as u8
}
