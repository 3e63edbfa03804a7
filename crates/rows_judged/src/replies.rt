//! Snoops, responses, data and deferrals: for each phase rule from 11 to 18 waveforms that just break it, and waveforms that just
//! do not.

use crate::laid::{Piece, expect_fair, expect_foul, first, kept_read, read, reply, write_back};
use rows_store::{AERR, DBSY, DEFER, DRDY, HIT, HITM, TRDY};

#[test]
fn snoop_lines_in_snoop_clocks(rt: HostRuntime) {
    let al = rt.alloc();
    for line in [HIT, HITM, DEFER] {
        for c in [4, 5, 7, 8, 9] {
            expect_foul(
                &rt,
                al,
                c,
                11,
                &[first(read(0)), Piece::Lines(line, c as usize, c as usize)],
            );
        }
        expect_fair(&rt, al, 8, &[first(read(0)), Piece::Lines(line, 6, 6)]);
        // A cancelled request has no snoop.
        let gone = Piece::Lines(AERR, 5, 5);
        expect_foul(
            &rt,
            al,
            6,
            11,
            &[first(read(0)), gone, Piece::Lines(line, 6, 6)],
        );
    }
    // A snoop that is stalled in clock 6 is looked at in every second clock.
    let stall = Piece::Lines(HIT | HITM, 6, 6);
    expect_foul(
        &rt,
        al,
        7,
        11,
        &[first(read(0)), stall, Piece::Lines(HIT, 7, 7)],
    );
    expect_fair(
        &rt,
        al,
        10,
        &[first(read(0)), stall, Piece::Lines(HIT, 8, 8)],
    );
    expect_foul(
        &rt,
        al,
        10,
        11,
        &[first(read(0)), stall, Piece::Lines(HIT, 10, 10)],
    );
    let twice = Piece::Lines(HIT | HITM, 8, 8);
    expect_fair(
        &rt,
        al,
        12,
        &[first(read(0)), stall, twice, Piece::Lines(HIT, 10, 10)],
    );
    let with_defer = Piece::Lines(HIT | HITM | DEFER, 6, 6);
    expect_fair(
        &rt,
        al,
        10,
        &[first(read(0)), with_defer, Piece::Lines(HIT, 8, 8)],
    );
}

#[test]
fn snoops_one_after_the_other(rt: HostRuntime) {
    let al = rt.alloc();
    // The snoop of a request of clock 5 is in clock 9, or three clocks after the end of the one before it.
    let second = Piece::Request(1, 0, 5, read(16));
    expect_fair(
        &rt,
        al,
        11,
        &[first(read(0)), second, Piece::Lines(HIT, 9, 9)],
    );
    for c in [8, 10, 11] {
        let hit = Piece::Lines(HIT, c as usize, c as usize);
        expect_foul(&rt, al, c, 11, &[first(read(0)), second, hit]);
    }
    let stall = Piece::Lines(HIT | HITM, 6, 6);
    expect_fair(
        &rt,
        al,
        13,
        &[first(read(0)), second, stall, Piece::Lines(HIT, 11, 11)],
    );
    for c in [9, 10, 12] {
        let hit = Piece::Lines(HIT, c as usize, c as usize);
        expect_foul(&rt, al, c, 11, &[first(read(0)), second, stall, hit]);
    }
}

#[test]
fn snoop_results_of_write_backs_and_replies(rt: HostRuntime) {
    let al = rt.alloc();
    for lines in [HIT, HITM, DEFER, HIT | DEFER, HITM | DEFER] {
        let result = Piece::Lines(lines, 6, 6);
        expect_foul(&rt, al, 6, 12, &[first(write_back(0)), result]);
        expect_fair(&rt, al, 8, &[first(read(0)), result]);
    }
    // At a stall there is no result yet.
    let stall = Piece::Lines(HIT | HITM, 6, 6);
    expect_fair(&rt, al, 10, &[first(write_back(0)), stall]);
    expect_foul(
        &rt,
        al,
        8,
        12,
        &[first(write_back(0)), stall, Piece::Lines(HIT, 8, 8)],
    );
    let [a, b, c] = DEFERRED;
    let replied = Piece::Request(4, 8, 10, reply(0));
    expect_foul(
        &rt,
        al,
        14,
        12,
        &[a, b, c, replied, Piece::Lines(HITM, 14, 14)],
    );
    expect_foul(
        &rt,
        al,
        14,
        12,
        &[a, b, c, replied, Piece::Lines(DEFER, 14, 14)],
    );
    expect_fair(&rt, al, 16, &[a, b, c, replied, Piece::Lines(HIT, 14, 14)]);
}

#[test]
fn response_timing(rt: HostRuntime) {
    let al = rt.alloc();
    for code in 1..8 {
        expect_foul(&rt, al, 3, 13, &[Piece::Code(3, code)]);
        expect_foul(&rt, al, 6, 13, &[first(read(0)), Piece::Code(6, code)]);
        expect_foul(&rt, al, 7, 13, &[first(read(0)), Piece::Code(7, code)]);
    }
    expect_fair(&rt, al, 14, &[first(read(0)), Piece::Data(8, 7)]);
    expect_fair(&rt, al, 24, &[first(read(0)), Piece::Data(20, 7)]);
    // The snoop ends of two requests are in the clocks 6 and 9, and the end of the first is in clock 11.
    let second = Piece::Request(1, 0, 5, read(16));
    for c in [9, 10, 11] {
        let early = Piece::Code(c as usize, 7);
        expect_foul(
            &rt,
            al,
            c,
            13,
            &[first(read(0)), second, Piece::Data(8, 7), early],
        );
    }
    expect_fair(
        &rt,
        al,
        18,
        &[
            first(read(0)),
            second,
            Piece::Data(8, 7),
            Piece::Data(12, 7),
        ],
    );
    // Nothing is left to respond to.
    expect_foul(
        &rt,
        al,
        12,
        13,
        &[first(read(0)), Piece::Data(8, 7), Piece::Code(12, 7)],
    );
    // A request that fails hard ends with its response.
    expect_fair(
        &rt,
        al,
        15,
        &[
            first(read(0)),
            second,
            Piece::Code(8, 4),
            Piece::Data(11, 7),
        ],
    );
    let early = Piece::Data(10, 7);
    expect_foul(
        &rt,
        al,
        10,
        13,
        &[first(read(0)), second, Piece::Code(8, 4), early],
    );
}

#[test]
fn response_code(rt: HostRuntime) {
    let al = rt.alloc();
    for code in [1, 2, 3, 5, 6] {
        expect_foul(&rt, al, 8, 14, &[first(read(0)), Piece::Data(8, code)]);
        expect_foul(&rt, al, 8, 14, &[first(read(0)), Piece::Code(8, code)]);
    }
    // Always lawful: a hard failure, which moves no data.
    expect_fair(&rt, al, 10, &[first(read(0)), Piece::Code(8, 4)]);
    let defer = Piece::Lines(DEFER, 6, 6);
    for code in [3, 5, 6, 7] {
        expect_foul(
            &rt,
            al,
            8,
            14,
            &[first(read(0)), defer, Piece::Data(8, code)],
        );
        expect_foul(
            &rt,
            al,
            8,
            14,
            &[first(kept_read(0)), defer, Piece::Data(8, code)],
        );
    }
    for code in [1, 2, 4] {
        expect_fair(&rt, al, 10, &[first(read(0)), defer, Piece::Code(8, code)]);
    }
    expect_fair(
        &rt,
        al,
        10,
        &[first(kept_read(0)), defer, Piece::Code(8, 1)],
    );
    expect_foul(
        &rt,
        al,
        8,
        14,
        &[first(kept_read(0)), defer, Piece::Code(8, 2)],
    );
    let ready = Piece::Lines(TRDY, 8, 8);
    for lines in [HITM, HITM | DEFER] {
        let modified = Piece::Lines(lines, 6, 6);
        for code in [1, 2, 3, 5, 7] {
            expect_foul(
                &rt,
                al,
                10,
                14,
                &[first(read(0)), modified, ready, Piece::Data(10, code)],
            );
        }
        expect_fair(
            &rt,
            al,
            15,
            &[first(read(0)), modified, ready, Piece::Data(10, 6)],
        );
        expect_fair(
            &rt,
            al,
            12,
            &[first(read(0)), modified, ready, Piece::Code(10, 4)],
        );
    }
    for code in [1, 2, 3, 6, 7] {
        expect_foul(
            &rt,
            al,
            10,
            14,
            &[first(write_back(0)), ready, Piece::Data(10, code)],
        );
    }
    expect_fair(
        &rt,
        al,
        15,
        &[first(write_back(0)), ready, Piece::Data(10, 5)],
    );
    expect_fair(
        &rt,
        al,
        12,
        &[first(write_back(0)), ready, Piece::Code(10, 4)],
    );
    let [a, b, c] = DEFERRED;
    let replied = Piece::Request(4, 8, 10, reply(0));
    for code in [1, 2, 3, 5, 6] {
        expect_foul(&rt, al, 16, 14, &[a, b, c, replied, Piece::Data(16, code)]);
    }
    expect_fair(&rt, al, 22, &[a, b, c, replied, Piece::Data(16, 7)]);
}

#[test]
fn target_ready(rt: HostRuntime) {
    let al = rt.alloc();
    expect_foul(&rt, al, 4, 15, &[Piece::Lines(TRDY, 4, 4)]);
    expect_foul(&rt, al, 8, 15, &[first(read(0)), Piece::Lines(TRDY, 8, 8)]);
    let modified = Piece::Lines(HITM, 6, 6);
    for early in [6, 7] {
        let ready = Piece::Lines(TRDY, early as usize, early as usize);
        expect_foul(&rt, al, early, 15, &[first(write_back(0)), ready]);
        expect_foul(&rt, al, early, 15, &[first(read(0)), modified, ready]);
    }
    let ready = Piece::Lines(TRDY, 8, 8);
    // One clock for each request.
    expect_foul(
        &rt,
        al,
        9,
        15,
        &[first(write_back(0)), Piece::Lines(TRDY, 8, 9)],
    );
    let again = Piece::Lines(TRDY, 11, 11);
    expect_foul(&rt, al, 11, 15, &[first(write_back(0)), ready, again]);
    // The response is two clocks after it at least, unless it fails hard.
    expect_foul(&rt, al, 8, 15, &[first(write_back(0)), Piece::Data(8, 5)]);
    expect_foul(
        &rt,
        al,
        8,
        15,
        &[first(write_back(0)), ready, Piece::Data(8, 5)],
    );
    expect_foul(
        &rt,
        al,
        9,
        15,
        &[first(write_back(0)), ready, Piece::Data(9, 5)],
    );
    expect_foul(
        &rt,
        al,
        10,
        15,
        &[first(read(0)), modified, Piece::Data(10, 6)],
    );
    expect_foul(
        &rt,
        al,
        9,
        15,
        &[first(read(0)), modified, ready, Piece::Data(9, 6)],
    );
    expect_fair(&rt, al, 10, &[first(write_back(0)), Piece::Code(8, 4)]);
    expect_fair(&rt, al, 10, &[first(read(0)), modified, Piece::Code(8, 4)]);
    expect_fair(
        &rt,
        al,
        16,
        &[first(write_back(0)), ready, Piece::Data(11, 5)],
    );
    // It is for the request that responds next: the first of these ends in clock 11.
    let second = Piece::Request(1, 0, 5, write_back(16));
    for early in [10, 11] {
        let ready = Piece::Lines(TRDY, early as usize, early as usize);
        expect_foul(
            &rt,
            al,
            early,
            15,
            &[first(read(0)), second, Piece::Data(8, 7), ready],
        );
    }
    let ready = Piece::Lines(TRDY, 12, 12);
    let data = Piece::Data(14, 5);
    expect_fair(
        &rt,
        al,
        20,
        &[first(read(0)), second, Piece::Data(8, 7), ready, data],
    );
}

#[test]
fn data_transfer(rt: HostRuntime) {
    let al = rt.alloc();
    expect_foul(&rt, al, 4, 16, &[Piece::Lines(DRDY, 4, 4)]);
    expect_foul(&rt, al, 4, 16, &[Piece::Lines(DBSY, 4, 4)]);
    expect_foul(&rt, al, 7, 16, &[first(read(0)), Piece::Lines(DBSY, 7, 7)]);
    expect_foul(&rt, al, 8, 16, &[first(read(0)), Piece::Code(8, 7)]);
    expect_foul(
        &rt,
        al,
        11,
        16,
        &[
            first(read(0)),
            Piece::Data(8, 7),
            Piece::Lines(DBSY, 11, 11),
        ],
    );
    expect_foul(
        &rt,
        al,
        12,
        16,
        &[
            first(read(0)),
            Piece::Data(8, 7),
            Piece::Lines(DRDY, 12, 12),
        ],
    );
    // Chunks that come in the clocks 8, 10, 11 and 14.
    let slow = [
        first(read(0)),
        Piece::Code(8, 7),
        Piece::Lines(DBSY, 8, 13),
        Piece::Lines(DRDY, 8, 8),
        Piece::Lines(DRDY, 10, 11),
        Piece::Lines(DRDY, 14, 14),
    ];
    expect_fair(&rt, al, 17, &slow);
    let late = [
        first(read(0)),
        Piece::Code(8, 7),
        Piece::Lines(DBSY, 8, 12),
        Piece::Lines(DRDY, 10, 13),
    ];
    expect_fair(&rt, al, 16, &late);
    // The bus is not busy in clock 9.
    let idle = [
        first(read(0)),
        Piece::Code(8, 7),
        Piece::Lines(DBSY, 8, 8),
        Piece::Lines(DRDY, 8, 9),
    ];
    expect_foul(&rt, al, 9, 16, &idle);
    // Without data: retried, deferred, failed.
    let defer = Piece::Lines(DEFER, 6, 6);
    for code in [1, 2, 4] {
        expect_foul(
            &rt,
            al,
            8,
            16,
            &[first(read(0)), defer, Piece::Data(8, code)],
        );
        let behind = Piece::Lines(DRDY, 9, 9);
        expect_foul(
            &rt,
            al,
            9,
            16,
            &[first(read(0)), defer, Piece::Code(8, code), behind],
        );
    }
}

#[test]
fn known_data(rt: HostRuntime) {
    let al = rt.alloc();
    let data = Piece::Data(8, 7);
    for c in 8..12 {
        for bits in [1, 1 << 31, 1 << 32, 1 << 63] {
            expect_foul(
                &rt,
                al,
                c,
                17,
                &[first(read(0)), data, Piece::UnknownData(c as usize, bits)],
            );
        }
    }
    expect_fair(
        &rt,
        al,
        14,
        &[
            first(read(0)),
            data,
            Piece::UnknownData(7, 1),
            Piece::UnknownData(12, 1),
        ],
    );
    let late = [
        first(read(0)),
        Piece::Code(8, 7),
        Piece::Lines(DBSY, 8, 12),
        Piece::Lines(DRDY, 10, 13),
        Piece::UnknownData(8, u64::MAX),
        Piece::UnknownData(9, u64::MAX),
    ];
    expect_fair(&rt, al, 16, &late);
}

/// A read of agent 0 with the ID 0 that is Deferred in clock 8.
const DEFERRED: [Piece; 3] = [
    Piece::Request(0, 0, 2, (6, 0, 2, 2)),
    Piece::Lines(DEFER, 6, 6),
    Piece::Code(8, 2),
];

#[test]
fn replies_that_are_awaited(rt: HostRuntime) {
    let al = rt.alloc();
    let [a, b, c] = DEFERRED;
    let replied = Piece::Request(4, 8, 10, reply(0));
    expect_fair(&rt, al, 12, &[a, b, c, replied]);
    expect_foul(&rt, al, 3, 18, &[Piece::Request(4, 0, 2, reply(0))]);
    expect_foul(
        &rt,
        al,
        11,
        18,
        &[a, b, c, Piece::Request(4, 8, 10, reply(1))],
    );
    // The request is granted, retried, failed, or has no response yet.
    let late = Piece::Request(4, 10, 12, reply(0));
    expect_foul(&rt, al, 13, 18, &[a, Piece::Data(8, 7), late]);
    expect_foul(&rt, al, 11, 18, &[a, b, Piece::Code(8, 1), replied]);
    expect_foul(&rt, al, 11, 18, &[a, Piece::Code(8, 4), replied]);
    expect_foul(&rt, al, 11, 18, &[a, b, replied]);
    // The response is before the reply.
    expect_foul(
        &rt,
        al,
        8,
        18,
        &[a, b, c, Piece::Request(4, 5, 7, reply(0))],
    );
    expect_foul(
        &rt,
        al,
        9,
        18,
        &[a, b, c, Piece::Request(4, 6, 8, reply(0))],
    );
    expect_fair(&rt, al, 11, &[a, b, c, Piece::Request(4, 7, 9, reply(0))]);
    // A reply comes once, unless it is cancelled.
    let twice = Piece::Request(4, 12, 14, reply(0));
    expect_foul(&rt, al, 15, 18, &[a, b, c, replied, twice]);
    expect_fair(
        &rt,
        al,
        16,
        &[a, b, c, replied, Piece::Lines(AERR, 13, 13), twice],
    );
    let thrice = Piece::Request(4, 16, 18, reply(0));
    expect_foul(
        &rt,
        al,
        19,
        18,
        &[a, b, c, replied, Piece::Lines(AERR, 13, 13), twice, thrice],
    );
    let after_its_end = Piece::Request(4, 20, 22, reply(0));
    expect_foul(
        &rt,
        al,
        23,
        18,
        &[a, b, c, replied, Piece::Data(16, 7), after_its_end],
    );
}

#[test]
fn identities_that_are_free(rt: HostRuntime) {
    let al = rt.alloc();
    let again = Piece::Request(0, 4, 6, read(0));
    expect_foul(&rt, al, 7, 18, &[first(read(0)), again]);
    expect_foul(&rt, al, 7, 18, &[first(write_back(0)), again]);
    expect_fair(
        &rt,
        al,
        8,
        &[first(read(0)), Piece::Request(0, 4, 6, read(1))],
    );
    // It is taken up to the clock of the end, here 11, and of a cancelled request up to that of the AERR#.
    let data = Piece::Data(8, 7);
    expect_foul(
        &rt,
        al,
        12,
        18,
        &[first(read(0)), data, Piece::Request(0, 9, 11, read(0))],
    );
    expect_fair(
        &rt,
        al,
        14,
        &[first(read(0)), data, Piece::Request(0, 10, 12, read(0))],
    );
    let gone = Piece::Lines(AERR, 5, 5);
    expect_fair(&rt, al, 8, &[first(read(0)), gone, again]);
    // Of a Deferred one it is taken up to the end of its reply, here 19.
    let [a, b, c] = DEFERRED;
    expect_foul(
        &rt,
        al,
        10,
        18,
        &[a, b, c, Piece::Request(0, 7, 9, read(0))],
    );
    let replied = Piece::Request(4, 8, 10, reply(0));
    let data = Piece::Data(16, 7);
    for q in [14, 16, 18, 19] {
        let early = Piece::Request(0, q - 2, q, read(0));
        expect_foul(&rt, al, q as u32 + 1, 18, &[a, b, c, replied, data, early]);
    }
    expect_fair(
        &rt,
        al,
        22,
        &[a, b, c, replied, data, Piece::Request(0, 18, 20, read(0))],
    );
}

#[test]
fn the_reply_that_counts_is_live(rt: HostRuntime) {
    let al = rt.alloc();
    // The first reply is cancelled; a read of agent 1 comes before the second one, and ends in clock 22. The second reply ends in 26.
    let [a, b, c] = DEFERRED;
    let cancelled = Piece::Request(4, 8, 10, reply(0));
    let gone = Piece::Lines(AERR, 13, 13);
    let between = Piece::Request(1, 9, 13, read(16));
    let second = Piece::Request(4, 14, 16, reply(0));
    let early = Piece::Request(0, 22, 24, read(0));
    let late = Piece::Request(0, 25, 27, read(0));
    let data = Piece::Data(19, 7);
    let last = Piece::Data(23, 7);
    expect_foul(
        &rt,
        al,
        25,
        18,
        &[a, b, c, cancelled, gone, between, second, data, last, early],
    );
    expect_fair(
        &rt,
        al,
        29,
        &[a, b, c, cancelled, gone, between, second, data, last, late],
    );
}

#[test]
fn four_outstanding_requests(rt: HostRuntime) {
    let al = rt.alloc();
    let four = [
        first(read(0)),
        Piece::Request(0, 4, 6, read(1)),
        Piece::Request(0, 8, 10, read(2)),
        Piece::Request(0, 12, 14, read(3)),
    ];
    expect_fair(&rt, al, 16, &four);
    let [a, b, c, d] = four;
    expect_foul(
        &rt,
        al,
        19,
        18,
        &[a, b, c, d, Piece::Request(0, 16, 18, read(4))],
    );
    expect_fair(
        &rt,
        al,
        20,
        &[a, b, c, d, Piece::Request(1, 16, 18, read(16))],
    );
    // One that is retried, or cancelled, is outstanding no more.
    let defer = Piece::Lines(DEFER, 6, 6);
    let retried = Piece::Code(17, 1);
    expect_fair(
        &rt,
        al,
        20,
        &[
            a,
            b,
            c,
            d,
            defer,
            retried,
            Piece::Request(0, 16, 18, read(4)),
        ],
    );
    let gone = Piece::Lines(AERR, 17, 17);
    expect_fair(
        &rt,
        al,
        20,
        &[a, b, c, d, gone, Piece::Request(0, 16, 18, read(4))],
    );
}
