//! How requests begin and are cancelled: for each phase rule from 1 to 10 waveforms that just break it, and waveforms that just do
//! not.

use crate::laid::{
    BREQ, Piece, expect_fair, expect_foul, first, kept_read, read, reply, write_back,
};
use rows_store::{ADS, AERR, BNR, BPRI, DEFER, LOCK};

#[test]
fn known_control_lines(rt: HostRuntime) {
    let al = rt.alloc();
    for line in 0..18 {
        expect_foul(&rt, al, 3, 1, &[Piece::UnknownLine(3, line)]);
    }
    // The words are no control lines.
    expect_fair(
        &rt,
        al,
        8,
        &[
            Piece::UnknownReq(3),
            Piece::UnknownAddr(4),
            Piece::UnknownData(5, 1),
        ],
    );
}

#[test]
fn request_spacing(rt: HostRuntime) {
    let al = rt.alloc();
    expect_foul(&rt, al, 0, 2, &[Piece::Lines(ADS, 0, 0)]);
    expect_foul(&rt, al, 1, 2, &[Piece::Lines(ADS, 1, 1)]);
    expect_foul(&rt, al, 3, 2, &[first(read(0)), Piece::Lines(ADS, 3, 3)]);
    expect_foul(&rt, al, 4, 2, &[first(read(0)), Piece::Lines(ADS, 4, 4)]);
    expect_fair(
        &rt,
        al,
        7,
        &[first(read(0)), Piece::Request(1, 0, 5, read(16))],
    );
}

#[test]
fn lawful_codes(rt: HostRuntime) {
    let al = rt.alloc();
    expect_foul(&rt, al, 3, 3, &[first((1, 0, 2, 0))]);
    expect_foul(&rt, al, 3, 3, &[first((6, 0, 3, 0))]);
    expect_foul(&rt, al, 3, 3, &[first((6, 0, 0, 0))]);
    expect_foul(&rt, al, 3, 3, &[first((0, 0, 2, 0))]);
    expect_foul(&rt, al, 3, 3, &[first((14, 0, 2, 0))]);
    expect_foul(&rt, al, 3, 3, &[first((5, 0, 2, 2))]);
    expect_foul(&rt, al, 3, 3, &[first(read(0)), Piece::UnknownAddr(2)]);
    expect_foul(&rt, al, 3, 3, &[first(kept_read(0)), Piece::UnknownAddr(3)]);
    let begun = Piece::Request(4, 0, 2, reply(0));
    expect_foul(&rt, al, 3, 3, &[begun, Piece::UnknownReq(2)]);
    expect_foul(&rt, al, 3, 3, &[begun, Piece::UnknownReq(3)]);
    // It is looked at in the second clock, and not in others.
    expect_fair(&rt, al, 3, &[first((1, 0, 2, 0))]);
    expect_fair(&rt, al, 5, &[first(read(0)), Piece::UnknownReq(4)]);
}

/// Eight reads of the agents 0 and 1 in turn, in the clocks 2, 5 and so on to 23; nobody responds.
const EIGHT: [Piece; 8] = [
    Piece::Request(0, 0, 2, (6, 0, 2, 2)),
    Piece::Request(1, 0, 5, (6, 0, 2, 0x2_0002)),
    Piece::Request(0, 4, 8, (6, 0, 2, 0x2002)),
    Piece::Request(1, 7, 11, (6, 0, 2, 0x2_2002)),
    Piece::Request(0, 10, 14, (6, 0, 2, 0x4002)),
    Piece::Request(1, 13, 17, (6, 0, 2, 0x2_4002)),
    Piece::Request(0, 16, 20, (6, 0, 2, 0x6002)),
    Piece::Request(1, 19, 23, (6, 0, 2, 0x2_6002)),
];

#[test]
fn queue_depth(rt: HostRuntime) {
    let al = rt.alloc();
    let [a, b, c, d, e, f, g, h] = EIGHT;
    expect_fair(&rt, al, 26, &EIGHT);
    let ninth = Piece::Request(2, 24, 26, read(32));
    expect_foul(&rt, al, 26, 4, &[a, b, c, d, e, f, g, h, ninth]);
    // The eighth is cancelled: it counts in the clock of its AERR#, and not in the next.
    let gone = Piece::Lines(AERR, 26, 26);
    expect_foul(&rt, al, 26, 4, &[a, b, c, d, e, f, g, h, gone, ninth]);
    let later = Piece::Request(2, 25, 27, read(32));
    expect_foul(&rt, al, 27, 4, &[a, b, c, d, e, f, g, h, later]);
    expect_fair(&rt, al, 29, &[a, b, c, d, e, f, g, h, gone, later]);
    // The first ends with its fourth chunk in clock 29: it counts in that clock, and not in the next.
    let data = Piece::Data(26, 7);
    let with_the_end = Piece::Request(2, 27, 29, read(32));
    expect_foul(
        &rt,
        al,
        29,
        4,
        &[a, b, c, d, e, f, g, h, data, with_the_end],
    );
    let behind_it = Piece::Request(2, 28, 30, read(32));
    expect_fair(&rt, al, 32, &[a, b, c, d, e, f, g, h, data, behind_it]);
}

#[test]
fn block_next_request(rt: HostRuntime) {
    let al = rt.alloc();
    expect_foul(&rt, al, 2, 5, &[first(read(0)), Piece::Lines(BNR, 0, 0)]);
    expect_fair(&rt, al, 5, &[first(read(0)), Piece::Lines(BNR, 1, 4)]);
    let second = Piece::Request(0, 4, 6, read(1));
    expect_fair(
        &rt,
        al,
        8,
        &[first(read(0)), second, Piece::Lines(BNR, 3, 3)],
    );
    expect_foul(
        &rt,
        al,
        6,
        5,
        &[first(read(0)), second, Piece::Lines(BNR, 4, 4)],
    );
}

#[test]
fn arbitration_winner(rt: HostRuntime) {
    let al = rt.alloc();
    expect_foul(&rt, al, 2, 6, &[Piece::Request(0, 1, 2, read(0))]);
    expect_foul(&rt, al, 2, 6, &[Piece::Lines(ADS, 2, 2)]);
    // Under LOCK# nobody but the last requester wins, and only while it asks.
    let other = Piece::Request(1, 0, 5, read(16));
    expect_foul(
        &rt,
        al,
        5,
        6,
        &[first(read(0)), Piece::Lines(LOCK, 2, 3), other],
    );
    expect_fair(
        &rt,
        al,
        7,
        &[first(read(0)), Piece::Lines(LOCK, 2, 2), other],
    );
    let again = Piece::Request(0, 4, 7, read(1));
    let asks = Piece::Lines(BREQ[1], 0, 8);
    expect_fair(
        &rt,
        al,
        9,
        &[first(read(0)), Piece::Lines(LOCK, 2, 5), asks, again],
    );
    expect_foul(
        &rt,
        al,
        8,
        7,
        &[first(read(0)), Piece::Lines(LOCK, 2, 4), asks, again],
    );
    // Not even the priority agent.
    let bridge = Piece::Lines(BPRI, 4, 8);
    expect_fair(
        &rt,
        al,
        9,
        &[first(read(0)), Piece::Lines(LOCK, 2, 5), bridge, again],
    );
    expect_foul(
        &rt,
        al,
        8,
        7,
        &[first(read(0)), Piece::Lines(LOCK, 2, 4), bridge, again],
    );
}

#[test]
fn rotating_order(rt: HostRuntime) {
    let al = rt.alloc();
    let all = [
        first(read(0)),
        Piece::Request(1, 0, 5, read(16)),
        Piece::Request(2, 0, 8, read(32)),
        Piece::Request(3, 0, 11, read(48)),
        Piece::Request(0, 4, 14, read(1)),
    ];
    expect_fair(&rt, al, 16, &all);
    // Without 1 and 2, 3 comes behind 0, and 0 behind 3.
    let two = [
        first(read(0)),
        Piece::Request(3, 0, 5, read(48)),
        Piece::Request(0, 4, 8, read(1)),
    ];
    expect_fair(&rt, al, 10, &two);
    // 2 comes before 3.
    let third = Piece::Request(3, 0, 2, read(48));
    expect_foul(&rt, al, 3, 7, &[third, Piece::Lines(BREQ[2], 0, 4)]);
    // 1 comes behind 0, which asks again.
    let asks = Piece::Lines(BREQ[0], 4, 7);
    let behind = Piece::Request(1, 0, 6, read(16));
    expect_fair(&rt, al, 8, &[first(read(0)), asks, behind]);
    // Also where the request of 0 is cancelled.
    let gone = Piece::Lines(AERR, 5, 5);
    expect_fair(&rt, al, 8, &[first(read(0)), gone, asks, behind]);
    // The priority agent comes before all, and leaves the order as it was.
    expect_foul(&rt, al, 3, 7, &[first(read(0)), Piece::Lines(BPRI, 0, 4)]);
    let both = [
        first(read(0)),
        Piece::Lines(DEFER, 6, 6),
        Piece::Code(8, 2),
        Piece::Request(4, 8, 10, reply(0)),
        Piece::Lines(BREQ[0], 12, 15),
        Piece::Request(1, 12, 14, read(16)),
    ];
    expect_fair(&rt, al, 16, &both);
}

#[test]
fn request_identity(rt: HostRuntime) {
    let al = rt.alloc();
    expect_fair(&rt, al, 4, &[first(read(15))]);
    for id in [16, 32, 64, 128] {
        expect_foul(&rt, al, 3, 7, &[first(read(id))]);
    }
    expect_foul(&rt, al, 3, 7, &[Piece::Request(2, 0, 2, read(2))]);
    expect_fair(&rt, al, 4, &[Piece::Request(3, 0, 2, read(50))]);
    // A reply of a symmetric agent, and something else of the priority agent.
    expect_foul(&rt, al, 3, 7, &[first(reply(0))]);
    expect_foul(&rt, al, 3, 7, &[Piece::Request(4, 0, 2, read(0))]);
    expect_foul(&rt, al, 3, 7, &[Piece::Request(4, 0, 2, write_back(0))]);
}

#[test]
fn request_lines_held_and_released(rt: HostRuntime) {
    let al = rt.alloc();
    for line in [BREQ[0], BREQ[1], BREQ[2], BREQ[3], BPRI] {
        expect_foul(&rt, al, 1, 8, &[Piece::Lines(line, 0, 0)]);
        expect_fair(&rt, al, 5, &[Piece::Lines(line, 2, 4)]);
    }
    for (agent, id) in [(0, 0), (1, 16), (2, 32), (3, 48)] {
        let begun = Piece::Request(agent, 0, 2, read(id));
        expect_foul(&rt, al, 3, 8, &[begun, Piece::Lines(BREQ[agent], 3, 3)]);
        expect_fair(&rt, al, 5, &[begun, Piece::Lines(BREQ[agent], 4, 5)]);
    }
    let begun = Piece::Request(4, 0, 2, reply(0));
    expect_foul(&rt, al, 3, 8, &[begun, Piece::Lines(BPRI, 3, 3)]);
    // Another agent's request is no leave to let go.
    expect_foul(
        &rt,
        al,
        3,
        8,
        &[first(read(0)), Piece::Lines(BREQ[1], 0, 2)],
    );
}

#[test]
fn lock_begins_with_a_request(rt: HostRuntime) {
    let al = rt.alloc();
    expect_foul(&rt, al, 0, 9, &[Piece::Lines(LOCK, 0, 0)]);
    expect_foul(&rt, al, 3, 9, &[first(read(0)), Piece::Lines(LOCK, 3, 3)]);
    expect_foul(&rt, al, 1, 9, &[first(read(0)), Piece::Lines(LOCK, 1, 2)]);
    expect_fair(&rt, al, 12, &[first(read(0)), Piece::Lines(LOCK, 2, 9)]);
    let again = Piece::Lines(LOCK, 5, 5);
    expect_foul(
        &rt,
        al,
        5,
        9,
        &[first(read(0)), Piece::Lines(LOCK, 2, 3), again],
    );
}

#[test]
fn address_error_timing(rt: HostRuntime) {
    let al = rt.alloc();
    expect_foul(&rt, al, 0, 10, &[Piece::Lines(AERR, 0, 0)]);
    for c in [2, 3, 4, 6, 7] {
        expect_foul(
            &rt,
            al,
            c,
            10,
            &[first(read(0)), Piece::Lines(AERR, c as usize, c as usize)],
        );
    }
    expect_fair(&rt, al, 8, &[first(read(0)), Piece::Lines(AERR, 5, 5)]);
}
