//! The line buffers: fills that are promised, that arrive and that end, and pushes that are taken.

use crate::rows::expect;
use fsb_linebuf::{Fill, LineBuffers, Push};

/// What is done to line buffers, with what is expected of them. The bytes of a line are all one byte.
#[derive(Clone, Copy)]
enum Step<'a> {
    /// A fill of the line begins with this number.
    Begins(u64, u32),
    /// The line's fill is promised to this number.
    Promises(u64, u32),
    /// These bytes come for the line's fill, which may be promised to this number.
    Arrives(u64, u8, Option<u32>),
    /// The line's fill ends, if there is one.
    Ends(u64),
    /// These bytes are owed to the number.
    Puts(u32, u8),
    /// The bytes that are owed to the number are taken.
    Takes(u32, Option<[u8; 32]>),
    /// The fill on the line.
    On(u64, Option<Fill>),
    /// The fills, in order, and no others.
    Fills(&'a [Fill]),
    /// What is owed, in order, and no more.
    Pushes(&'a [Push]),
}

/// A fill of a line, with its number and its promise.
macro_rules! fill {
    ($line:expr, $number:expr, $promise:expr) => {
        Fill {
            line: $line,
            number: $number,
            promise: $promise,
        }
    };
}

/// What is owed to a number.
macro_rules! push {
    ($number:expr, $byte:expr) => {
        Push {
            number: $number,
            bytes: [$byte; 32],
        }
    };
}

/// Makes the step, where it may be made, and tells whether all is as expected.
fn holds(buffers: &mut LineBuffers, step: Step) -> bool {
    match step {
        Step::Begins(line, number) => {
            let may = buffers.fills().len() < 4 && buffers.fill_on(line).is_none();
            if may {
                buffers.begin_fill(line, number);
            }
            may
        }
        Step::Promises(line, to) => match buffers.fill_on(line) {
            Some(fill) if fill.promise.is_none() => {
                buffers.promise(line, to);
                true
            }
            _ => false,
        },
        Step::Arrives(line, byte, to) => {
            let may = buffers.pushes().len() < 8 && buffers.fill_on(line).is_some();
            may && buffers.arrive(line, [byte; 32]) == to
        }
        Step::Ends(line) => {
            buffers.end_fill(line);
            true
        }
        Step::Puts(number, byte) => {
            let may = buffers.pushes().len() < 8;
            if may {
                buffers.put_push(number, [byte; 32]);
            }
            may
        }
        Step::Takes(number, bytes) => buffers.take_push(number) == bytes,
        Step::On(line, fill) => buffers.fill_on(line) == fill,
        Step::Fills(fills) => buffers.fills() == fills,
        Step::Pushes(pushes) => buffers.pushes() == pushes,
    }
}

const ROWS: [(&str, &[Step]); 3] = [
    (
        "promised fill arrives as a push",
        &[
            Step::Fills(&[]),
            Step::Pushes(&[]),
            Step::Begins(5, 0),
            Step::Begins(9, 1),
            Step::Begins(2, 3),
            Step::Promises(9, 4),
            Step::Fills(&[fill!(5, 0, None), fill!(9, 1, Some(4)), fill!(2, 3, None)]),
            Step::Arrives(5, 7, None),
            Step::Pushes(&[]),
            Step::Arrives(9, 8, Some(4)),
            Step::Fills(&[fill!(2, 3, None)]),
            Step::Pushes(&[push!(4, 8)]),
            Step::Takes(4, Some([8; 32])),
            Step::Takes(4, None),
            Step::Pushes(&[]),
        ],
    ),
    (
        "ended fill leaves the others",
        &[
            Step::Begins(0, 10),
            Step::Begins(1, 10),
            Step::Begins(2, 10),
            Step::Begins(3, 10),
            Step::Fills(&[
                fill!(0, 10, None),
                fill!(1, 10, None),
                fill!(2, 10, None),
                fill!(3, 10, None),
            ]),
            Step::Promises(1, 12),
            Step::Ends(1),
            Step::Ends(1),
            Step::Fills(&[fill!(0, 10, None), fill!(2, 10, None), fill!(3, 10, None)]),
            Step::On(1, None),
            Step::On(3, Some(fill!(3, 10, None))),
            Step::Begins(1, 13),
            Step::On(1, Some(fill!(1, 13, None))),
        ],
    ),
    (
        "first push of a number is taken",
        &[
            Step::Puts(6, 1),
            Step::Puts(7, 2),
            Step::Puts(6, 3),
            Step::Puts(8, 4),
            Step::Puts(6, 5),
            Step::Puts(7, 6),
            Step::Puts(9, 7),
            Step::Puts(9, 8),
            Step::Takes(5, None),
            Step::Takes(6, Some([1; 32])),
            Step::Takes(6, Some([3; 32])),
            Step::Takes(9, Some([7; 32])),
            Step::Pushes(&[
                push!(7, 2),
                push!(8, 4),
                push!(6, 5),
                push!(7, 6),
                push!(9, 8),
            ]),
        ],
    ),
];

#[test]
fn fills_and_pushes(rt: HostRuntime) {
    for (name, steps) in ROWS {
        let mut buffers = LineBuffers::new();
        for (i, step) in steps.iter().enumerate() {
            expect(&rt, name, i, holds(&mut buffers, *step));
        }
    }
}
