//! Upgrades: the response code of each, and that no data come with it unless it is handed on.

use crate::laid::{Piece, expect_fair, expect_foul, first, upgrade};
use rows_store::{AERR, DEFER, HIT, HITM, TRDY};

/// Normal data, implicit writeback, no data, retry and deferred.
const NORMAL_DATA: u32 = 7;

const IMPLICIT_WRITEBACK: u32 = 6;

const NO_DATA: u32 = 5;

const RETRY: u32 = 1;

const DEFERRED: u32 = 2;

#[test]
fn upgrade_without_hitm_gets_no_data(rt: HostRuntime) {
    let al = rt.alloc();
    let asks = first(upgrade(0));
    for lines in [0, HIT] {
        let result = Piece::Lines(lines, 6, 6);
        expect_fair(&rt, al, 20, &[asks, result, Piece::Code(8, NO_DATA)]);
        for code in [RETRY, DEFERRED, 3, IMPLICIT_WRITEBACK, NORMAL_DATA] {
            let answer = Piece::Data(8, code);
            expect_foul(&rt, al, 8, 14, &[asks, result, answer]);
        }
        // Data behind the response are no data of the upgrade.
        expect_foul(&rt, al, 8, 16, &[asks, result, Piece::Data(8, NO_DATA)]);
        // Memory takes nothing.
        let ready = Piece::Lines(TRDY, 8, 8);
        expect_foul(&rt, al, 8, 15, &[asks, result, ready]);
    }
    // A hard failure may stand in place of any response.
    expect_fair(&rt, al, 20, &[asks, Piece::Code(8, 4)]);
    // One that is cancelled gets no response.
    let gone = Piece::Lines(AERR, 5, 5);
    expect_foul(&rt, al, 8, 13, &[asks, gone, Piece::Code(8, NO_DATA)]);
}

#[test]
fn upgrade_with_hitm_is_handed_on(rt: HostRuntime) {
    let al = rt.alloc();
    let asks = first(upgrade(0));
    for lines in [HITM, HITM | DEFER] {
        let result = Piece::Lines(lines, 6, 6);
        let ready = Piece::Lines(TRDY, 8, 8);
        expect_fair(
            &rt,
            al,
            20,
            &[asks, result, ready, Piece::Data(10, IMPLICIT_WRITEBACK)],
        );
        for code in [RETRY, DEFERRED, 3, NO_DATA, NORMAL_DATA] {
            let answer = Piece::Data(10, code);
            expect_foul(&rt, al, 10, 14, &[asks, result, ready, answer]);
        }
    }
}

#[test]
fn upgrade_with_defer_is_retried(rt: HostRuntime) {
    let al = rt.alloc();
    let asks = first(upgrade(0));
    let result = Piece::Lines(DEFER, 6, 6);
    expect_fair(&rt, al, 20, &[asks, result, Piece::Code(8, RETRY)]);
    // It has no DEN#, so that it cannot be deferred.
    for code in [DEFERRED, NO_DATA, NORMAL_DATA] {
        expect_foul(&rt, al, 8, 14, &[asks, result, Piece::Code(8, code)]);
    }
    // The second word of an upgrade is 00000 without DEN#.
    let with_den = first((2, 0, 0, 2));
    expect_foul(&rt, al, 3, 3, &[with_den]);
    let of_another_length = first((2, 0, 3, 0));
    expect_foul(&rt, al, 3, 3, &[of_another_length]);
}
