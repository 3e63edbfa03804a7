//! The bridge: the lines of its window, and deferrals that wait for their replies.

use crate::rows::expect;
use fsb_bridge::{Bridge, Deferral};
use fsb_encode::{Kind, Request};
use fsb_script::Window;

/// A deferral: its number, its line and its ID. That of number 4 is shared.
type Told = (u32, u64, u8);

/// What is done to a bridge, with what is expected of it.
#[derive(Clone, Copy)]
enum Step {
    /// A request is deferred, for which there is room; its reply is due so much later.
    Defers(Told, u16),
    /// The response to the request of the number comes at the clock.
    Answered(u32, u32),
    /// The reply with the ID begins.
    Begun(u8),
    /// The reply with the ID is cancelled.
    Cancelled(u8),
    /// The reply with the ID has its snoop end, and this deferral leaves.
    Committed(u8, Option<Told>),
    /// The deferral that is due at the clock.
    Due(u32, Option<Told>),
    /// Whether the line is pending.
    Pending(u64, bool),
    /// So many deferrals wait.
    Wait(usize),
}

fn deferral(told: Told) -> Deferral {
    let (number, line, did) = told;
    Deferral {
        number,
        request: Request {
            kind: Kind::Read,
            line,
            chunk: 0,
            did,
            den: true,
        },
        shared: number == 4,
    }
}

/// Whether it is this deferral, or there is none and none is told.
fn is(found: Option<Deferral>, told: Option<Told>) -> bool {
    match told {
        Some(told) => found == Some(deferral(told)),
        None => found.is_none(),
    }
}

/// Makes the step, where it may be made, and tells whether all is as expected.
fn holds(bridge: &mut Bridge, step: Step) -> bool {
    match step {
        Step::Defers(told, later) => {
            let may = bridge.waiting().len() < 16;
            if may {
                let wanted = deferral(told);
                bridge.defer(wanted.number, wanted.request, wanted.shared, later);
            }
            may
        }
        Step::Answered(number, clock) => {
            bridge.answered(number, clock);
            true
        }
        Step::Begun(did) => {
            bridge.begun(did);
            true
        }
        Step::Cancelled(did) => {
            bridge.cancelled(did);
            true
        }
        Step::Committed(did, told) => is(bridge.committed(did), told),
        Step::Due(clock, told) => is(bridge.due(clock), told),
        Step::Pending(line, pending) => bridge.pending(line) == pending,
        Step::Wait(count) => bridge.waiting().len() == count,
    }
}

const ROWS: [(&str, &[Step]); 2] = [
    (
        "reply is due later and again after it was cancelled",
        &[
            Step::Defers((0, 0x80, 0), 10),
            Step::Pending(0x80, true),
            Step::Pending(0x81, false),
            // no response came
            Step::Due(100, None),
            Step::Answered(0, 8),
            Step::Due(18, None),
            Step::Due(19, Some((0, 0x80, 0))),
            Step::Begun(0),
            Step::Due(22, None),
            Step::Cancelled(0),
            Step::Due(25, Some((0, 0x80, 0))),
            Step::Begun(0),
            Step::Pending(0x80, true),
            Step::Committed(0, Some((0, 0x80, 0))),
            Step::Pending(0x80, false),
            Step::Committed(0, None),
        ],
    ),
    (
        "first of the due deferrals is answered",
        &[
            Step::Defers((2, 0x80, 0), 5),
            Step::Defers((4, 0x90, 16), 0),
            Step::Defers((5, 0xa0, 32), 0),
            Step::Answered(4, 12),
            Step::Answered(5, 12),
            Step::Answered(7, 12),
            Step::Begun(7),
            Step::Due(12, None),
            Step::Due(13, Some((4, 0x90, 16))),
            Step::Answered(2, 8),
            Step::Due(14, Some((2, 0x80, 0))),
            Step::Begun(0),
            Step::Begun(16),
            Step::Due(14, Some((5, 0xa0, 32))),
            Step::Committed(16, Some((4, 0x90, 16))),
            Step::Wait(2),
            Step::Pending(0xa0, true),
        ],
    ),
];

#[test]
fn deferrals_wait_for_their_replies(rt: HostRuntime) {
    for (name, steps) in ROWS {
        let mut bridge = Bridge::new(None);
        for (i, step) in steps.iter().enumerate() {
            expect(&rt, name, i, holds(&mut bridge, *step));
        }
    }
}

#[test]
fn lines_of_the_window(rt: HostRuntime) {
    let window = Window {
        base: 0x1000,
        size: 0x40,
    };
    let bridge = Bridge::new(Some(window));
    let rows = [
        (0x7f, false),
        (0x80, true),
        (0x81, true),
        (0x82, false),
        (u64::MAX, false),
    ];
    for (i, (line, inside)) in rows.iter().enumerate() {
        expect(&rt, "window", i, bridge.in_window(*line) == *inside);
    }
    expect(&rt, "no window", 0, !Bridge::new(None).in_window(0x80));
}
