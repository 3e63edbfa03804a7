//! The queue with no entry, with one and with eight.

use crate::rows::expect;
use fsb_encode::{Kind, Request};
use fsb_hazard::quiet_choice;
use fsb_queue::{Entry, Queue};
use fsb_trace::{Outcome, Who};

/// An entry, by its number and its outcome.
type Told = (u32, Option<Outcome>);

/// What is done to a queue, with what is expected of it.
#[derive(Clone, Copy)]
enum Step<'a> {
    /// The entry comes in, for which there is room.
    Enters(Told),
    /// The entry of this number is cancelled.
    Cancels(u32, Option<Told>),
    /// The oldest entry leaves.
    Leaves(Option<Told>),
    /// The entry at this place, which there is, gets its outcome.
    Settles(usize, Outcome),
    /// The entry at this place.
    At(usize, Option<Told>),
    /// It has the entries of these numbers, none with an outcome, and no others.
    Has(&'a [u32]),
}

/// A request for the line of its number.
fn entry(told: Told) -> Entry {
    let (number, outcome) = told;
    Entry {
        number,
        clock: number / 2,
        who: Who::Symmetric(0),
        request: Request {
            kind: Kind::Read,
            line: u64::from(number),
            chunk: 0,
            did: 0,
            den: true,
        },
        choice: quiet_choice(),
        outcome,
    }
}

/// Whether it is this entry, or there is none and none is told.
fn is(found: Option<Entry>, told: Option<Told>) -> bool {
    match told {
        Some(told) => found == Some(entry(told)),
        None => found.is_none(),
    }
}

/// Whether the queue has the entries of these numbers, and no others.
fn has(queue: &Queue, numbers: &[u32]) -> bool {
    let mut lent = queue.iter();
    for (i, number) in numbers.iter().enumerate() {
        let told = Some((*number, None));
        if !is(queue.at(i).copied(), told) || !is(lent.next().copied(), told) {
            return false;
        }
    }
    let count = numbers.len();
    queue.len() == count && queue.at(count).is_none() && lent.next().is_none()
}

/// Makes the step, where it may be made, and tells whether all is as expected.
fn holds(queue: &mut Queue, step: Step) -> bool {
    match step {
        Step::Enters(told) => {
            let may = queue.len() < 8;
            if may {
                queue.enter(entry(told));
            }
            may
        }
        Step::Cancels(number, told) => is(queue.cancel(number), told),
        Step::Leaves(told) => is(queue.leave(), told),
        Step::Settles(i, outcome) => {
            let may = i < queue.len();
            if may {
                queue.settle(i, outcome);
            }
            may
        }
        Step::At(i, told) => is(queue.at(i).copied(), told),
        Step::Has(numbers) => has(queue, numbers),
    }
}

const ROWS: [(&str, &[Step]); 5] = [
    (
        "no entry",
        &[
            Step::Has(&[]),
            Step::Cancels(0, None),
            Step::Leaves(None),
            Step::Has(&[]),
        ],
    ),
    (
        "one entry",
        &[
            Step::Enters((7, None)),
            Step::Has(&[7]),
            Step::Cancels(6, None),
            Step::Cancels(7, Some((7, None))),
            Step::Has(&[]),
            Step::Enters((8, None)),
            Step::Settles(0, Outcome::Granted),
            Step::At(0, Some((8, Some(Outcome::Granted)))),
            Step::Leaves(Some((8, Some(Outcome::Granted)))),
            Step::Has(&[]),
        ],
    ),
    (
        "eight entries",
        &[
            Step::Enters((0, None)),
            Step::Enters((1, None)),
            Step::Enters((2, None)),
            Step::Enters((3, None)),
            Step::Enters((4, None)),
            Step::Enters((5, None)),
            Step::Enters((6, None)),
            Step::Enters((7, None)),
            Step::Has(&[0, 1, 2, 3, 4, 5, 6, 7]),
            Step::Leaves(Some((0, None))),
            Step::Leaves(Some((1, None))),
            Step::Cancels(4, Some((4, None))),
            Step::Cancels(4, None),
            Step::Has(&[2, 3, 5, 6, 7]),
            Step::Enters((8, None)),
            Step::Enters((9, None)),
            Step::Enters((10, None)),
            Step::Has(&[2, 3, 5, 6, 7, 8, 9, 10]),
            Step::Cancels(10, Some((10, None))),
            Step::Cancels(2, Some((2, None))),
            Step::Has(&[3, 5, 6, 7, 8, 9]),
            Step::Settles(3, Outcome::Deferred),
            Step::At(2, Some((6, None))),
            Step::At(3, Some((7, Some(Outcome::Deferred)))),
            Step::At(4, Some((8, None))),
        ],
    ),
    (
        "entries that have an outcome",
        &[
            Step::Enters((0, None)),
            Step::Enters((1, Some(Outcome::Written))),
            Step::At(1, Some((1, Some(Outcome::Written)))),
            Step::Settles(1, Outcome::Handed),
            Step::At(0, Some((0, None))),
            Step::At(1, Some((1, Some(Outcome::Handed)))),
            Step::Cancels(1, Some((1, Some(Outcome::Handed)))),
            Step::Has(&[0]),
        ],
    ),
    (
        "oldest of two with one number is cancelled",
        &[
            Step::Enters((5, Some(Outcome::Retried))),
            Step::Enters((6, None)),
            Step::Enters((5, None)),
            Step::Cancels(5, Some((5, Some(Outcome::Retried)))),
            Step::Has(&[6, 5]),
        ],
    ),
];

#[test]
fn entries_come_and_go_in_order(rt: HostRuntime) {
    for (name, steps) in ROWS {
        let mut queue = Queue::new(rt.alloc()).expect(&rt, "out of memory");
        for (i, step) in steps.iter().enumerate() {
            expect(&rt, name, i, holds(&mut queue, *step));
        }
    }
}
