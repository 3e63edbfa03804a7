//! The two clocks of a request, and the request of two clocks.

use fsb_encode::{
    DecodeFault, Kind, Pair, Request, clocks_hold_request, codes_differ, decode, encode,
};

/// The address word and the REQ word of a clock.
type Words = (u64, u8);

fn pair((addr, req): Words) -> Pair {
    Pair { addr, req }
}

const NOTHING: Request = Request {
    kind: Kind::Reply,
    line: 0,
    chunk: 0,
    did: 0,
    den: false,
};

/// A read of a line above 4 GiB that may be deferred, with ID 0.
const HIGH_READ: Request = Request {
    kind: Kind::Read,
    line: 0x1_0000_0040 / 32,
    den: true,
    ..NOTHING
};

/// An upgrade of line 2, with ID 0.
const UPGRADE: Request = Request {
    kind: Kind::Upgrade,
    line: 0x40 / 32,
    ..NOTHING
};

/// Lawful requests, and their two clocks. Line 5 has the byte address A0h, and its chunk 3 has B8h; a word's bit 0 is A3#.
type Code = (Request, Words, Words);

const CODES: [Code; 7] = [
    (HIGH_READ, (0x2000_0008, 0b01110), (2, 0b00010)),
    (UPGRADE, (8, 0b00010), (0, 0b00000)),
    (
        Request {
            did: 0x21,
            ..NOTHING
        },
        (0x4_2000, 0b00000),
        (0, 0b00000),
    ),
    (
        Request {
            kind: Kind::Invalidate,
            line: 5,
            chunk: 3,
            did: 0x31,
            den: true,
        },
        (0x17, 0b00010),
        (0x6_2002, 0b00010),
    ),
    (
        Request {
            kind: Kind::Read,
            line: 5,
            chunk: 1,
            did: 0x10,
            den: false,
        },
        (0x15, 0b00110),
        (0x2_0000, 0b00010),
    ),
    (
        Request {
            kind: Kind::WriteBack,
            line: 0x7fff_ffff,
            chunk: 0,
            did: 0x0f,
            den: false,
        },
        (0x1_ffff_fffc, 0b01101),
        (0x1_e000, 0b00010),
    ),
    (
        Request {
            kind: Kind::Upgrade,
            line: 5,
            chunk: 2,
            did: 0x13,
            den: false,
        },
        (0x16, 0b00010),
        (0x2_6000, 0b00000),
    ),
];

/// The two clocks of a request, where it is lawful.
fn encoded(request: &Request) -> Option<(Pair, Pair)> {
    if request.is_lawful() {
        Some(encode(request))
    } else {
        None
    }
}

/// What the two clocks are decoded to.
fn decoded(first: Words, second: Words) -> Result<Request, DecodeFault> {
    decode(pair(first), pair(second))
}

/// Whether the request has those two clocks, and they are decoded to it.
fn is_code(row: &Code) -> bool {
    let &(request, first, second) = row;
    encoded(&request) == Some((pair(first), pair(second))) && decoded(first, second) == Ok(request)
}

#[test]
fn codes_of_each_kind(rt: HostRuntime) {
    for (at, row) in CODES.iter().enumerate() {
        assert!(rt; is_code(row), "row {at}");
    }
    codes_differ();
    clocks_hold_request();
}

/// Whether the clocks with REQ3# changed are refused, and the request is not lawful with another line or chunk.
fn is_spoiled(row: &Code) -> bool {
    let &(request, (addr, req), second) = row;
    let line = 1 << 31;
    decoded((addr, req ^ 0b01000), second).is_err()
        && !Request { line, ..request }.is_lawful()
        && !Request {
            chunk: 4,
            ..request
        }
        .is_lawful()
}

#[test]
fn changed_codes_and_requests_are_not_lawful(rt: HostRuntime) {
    for (at, row) in CODES.iter().enumerate() {
        assert!(rt; is_spoiled(row), "row {at}");
    }
    let deferred = Request {
        den: true,
        ..UPGRADE
    };
    assert!(rt; !deferred.is_lawful());
}

/// Clocks of the two requests of ID 0 with a word changed, and what they are decoded to.
type Changed = (Words, Words, Result<Request, DecodeFault>);

const CHANGED: [Changed; 6] = [
    (
        (0x2000_0008, 0b11111),
        (2, 0b00010),
        Err(DecodeFault::BadCode(31)),
    ),
    (
        (0x2000_0008, 0b01110),
        (2, 0b00001),
        Err(DecodeFault::BadLen(1)),
    ),
    (
        (0x2000_0008, 0b01110),
        (0, 0b00010),
        Ok(Request {
            den: false,
            ..HIGH_READ
        }),
    ),
    (
        (0x2000_0008, 0b01110),
        (1, 0b00010),
        Err(DecodeFault::BadField),
    ),
    ((8, 0b00010), (0, 0b00011), Err(DecodeFault::BadLen(3))),
    ((8, 0b00010), (2, 0b00000), Err(DecodeFault::BadField)),
];

/// Whether the two clocks are decoded to that.
fn is_decoded(row: &Changed) -> bool {
    let &(first, second, wanted) = row;
    decoded(first, second) == wanted
}

#[test]
fn first_wrong_word_of_two_clocks(rt: HostRuntime) {
    for (at, row) in CHANGED.iter().enumerate() {
        assert!(rt; is_decoded(row), "row {at}");
    }
}

/// The kind of each REQ word of the first clock, from 00000 on; that of an upgrade is that of a read and invalidate.
const KINDS: [Option<Kind>; 32] = [
    Some(Kind::Reply),
    None,
    Some(Kind::Invalidate),
    None,
    None,
    Some(Kind::WriteBack),
    Some(Kind::Read),
    None,
    None,
    None,
    Some(Kind::Invalidate),
    None,
    None,
    Some(Kind::WriteBack),
    Some(Kind::Read),
    None,
    None,
    None,
    None,
    None,
    None,
    None,
    None,
    None,
    None,
    None,
    None,
    None,
    None,
    None,
    None,
    None,
];

/// What two clocks with these REQ words and this line are to be decoded to, where the first word is of this kind.
fn expected(kind: Option<Kind>, line: u64, first: u8, second: u8) -> Result<Request, DecodeFault> {
    let kind = match (kind, second) {
        (None, _) => return Err(DecodeFault::BadCode(first)),
        (Some(Kind::Reply), 0) => Kind::Reply,
        (Some(Kind::Invalidate), 0) => Kind::Upgrade,
        (Some(Kind::Reply), _) => return Err(DecodeFault::BadLen(second)),
        (Some(kind), 2) => kind,
        (Some(_), _) => return Err(DecodeFault::BadLen(second)),
    };
    Ok(Request {
        kind,
        line,
        ..NOTHING
    })
}

/// Whether the two words are decoded as is expected, where the first is of this kind.
fn is_expected(kind: Option<Kind>, first: u8, second: u8) -> bool {
    // A line at or above 4 GiB asserts REQ3#.
    let line = if first / 8 % 2 == 1 { 1 << 27 } else { 0 };
    decoded((line * 4, first), (0, second)) == expected(kind, line, first, second)
}

#[test]
fn every_pair_of_req_words(rt: HostRuntime) {
    for first in 0..32 {
        let kind = KINDS[usize::from(first)];
        for second in 0..32 {
            assert!(rt; is_expected(kind, first, second), "words {first} {second}");
        }
    }
}
