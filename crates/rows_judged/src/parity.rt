//! The parity of the address and of the request: each rule by its own mark, in both clocks of a request, and at no other.

use crate::laid::{Piece, RequestWords, expect, first};
use fsb_signal::{Lines, Marks};
use rows_store::UNMARKED;

/// The lines of parity: AP0#, AP1# and RP#.
const AP0: u32 = Lines::AP0.0;

const AP1: u32 = Lines::AP1.0;

const RP: u32 = Lines::RP.0;

/// The dump declares both parity lines, or one of them.
const BOTH: Marks = Marks { ap: true, rp: true };

const ADDRESS: Marks = Marks {
    ap: true,
    rp: false,
};

const REQUEST: Marks = Marks {
    ap: false,
    rp: true,
};

/// A read of the line of address 40 with DEN# and ID 0: one bit of the address is asserted in each clock, two of REQ and
/// ADS# in the first, and one of REQ in the second.
const LOAD: RequestWords = (6, 8, 2, 2);

/// The parity lines at a clock.
fn parity(lines: u32, clock: usize) -> Piece {
    Piece::Lines(lines, clock, clock)
}

#[test]
fn parity_of_a_load(rt: HostRuntime) {
    let al = rt.alloc();
    let pieces = [first(LOAD), parity(AP0 | RP, 2), parity(AP0 | RP, 3)];
    for marks in [UNMARKED, ADDRESS, REQUEST, BOTH] {
        expect(&rt, al, marks, &pieces, 8, None);
    }
}

#[test]
fn parity_that_fails_by_one_line(rt: HostRuntime) {
    let al = rt.alloc();
    // The parity lines of the two clocks, the clock at which a parity fails, and the rule.
    let table = [
        (AP0, AP0 | RP, 2, 20),
        (RP, AP0 | RP, 2, 19),
        (AP0 | AP1 | RP, AP0 | RP, 2, 19),
        (AP1 | RP, AP0 | RP, 2, 19),
        (0, AP0 | RP, 2, 19),
        (AP0 | RP, AP0, 3, 20),
        (AP0 | RP, RP, 3, 19),
        (AP0 | RP, AP0 | AP1 | RP, 3, 19),
        (AP0 | RP, 0, 3, 19),
    ];
    for (begun, gone_on, clock, rule) in table {
        let pieces = [first(LOAD), parity(begun, 2), parity(gone_on, 3)];
        expect(&rt, al, BOTH, &pieces, 8, Some((clock, rule)));
        expect(&rt, al, UNMARKED, &pieces, 8, None);
    }
}

#[test]
fn parity_by_one_mark(rt: HostRuntime) {
    let al = rt.alloc();
    // Both parities fail at clock 2: each is judged by its own mark, and the address first.
    let both = [first(LOAD), parity(0, 2), parity(AP0 | RP, 3)];
    expect(&rt, al, ADDRESS, &both, 8, Some((2, 19)));
    expect(&rt, al, REQUEST, &both, 8, Some((2, 20)));
    expect(&rt, al, BOTH, &both, 8, Some((2, 19)));
    // Only the request's, or only the address's.
    let request = [first(LOAD), parity(AP0, 2), parity(AP0 | RP, 3)];
    expect(&rt, al, ADDRESS, &request, 8, None);
    expect(&rt, al, REQUEST, &request, 8, Some((2, 20)));
    let address = [first(LOAD), parity(RP, 2), parity(AP0 | RP, 3)];
    expect(&rt, al, REQUEST, &address, 8, None);
    expect(&rt, al, ADDRESS, &address, 8, Some((2, 19)));
    // A rule of a smaller number is named before them.
    let late = [first((6, 8, 3, 2)), parity(AP0 | RP, 2), parity(0, 3)];
    expect(&rt, al, BOTH, &late, 8, Some((3, 3)));
}

#[test]
fn parity_of_the_high_address_lines(rt: HostRuntime) {
    let al = rt.alloc();
    // A23# is the highest line of the low part, A24# the lowest of the high part.
    let table = [
        (1 << 20, AP0),
        (1 << 21, AP1),
        (1 << 20 | 1 << 21, AP0 | AP1),
    ];
    for (bits, lines) in table {
        let words = (6, bits, 2, 2);
        let right = [first(words), parity(lines | RP, 2), parity(AP0 | RP, 3)];
        expect(&rt, al, BOTH, &right, 8, None);
        let wrong = [first(words), parity(RP, 2), parity(AP0 | RP, 3)];
        expect(&rt, al, BOTH, &wrong, 8, Some((2, 19)));
    }
}

#[test]
fn parity_is_judged_in_the_clocks_of_a_request_alone(rt: HostRuntime) {
    let al = rt.alloc();
    for clock in [0, 1, 4, 7] {
        let pieces = [
            first(LOAD),
            parity(AP0 | RP, 2),
            parity(AP0 | RP, 3),
            parity(AP0 | AP1 | RP, clock),
        ];
        expect(&rt, al, BOTH, &pieces, 8, None);
    }
}

#[test]
fn unknown_parity(rt: HostRuntime) {
    let al = rt.alloc();
    // An unknown parity line breaks the rule of known control lines, and no parity.
    for number in [18, 19, 20] {
        let pieces = [first(LOAD), Piece::UnknownLine(4, number)];
        for marks in [UNMARKED, ADDRESS, REQUEST, BOTH] {
            let quiet = [parity(AP0 | RP, 2), parity(AP0 | RP, 3)];
            let all = [pieces[0], quiet[0], quiet[1], pieces[1]];
            expect(&rt, al, marks, &all, 8, Some((4, 1)));
        }
        // At the first clock of a request too.
        let there = [Piece::UnknownLine(2, number)];
        expect(&rt, al, BOTH, &there, 8, Some((2, 1)));
    }
}
