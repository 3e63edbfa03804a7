//! A queue that goes on with the clocks of three requests.

use crate::rows::expect;
use fsb_encode::{Kind, Request};
use fsb_flight::{numbers_go_on, queue_goes_on, take_clock};
use fsb_hazard::quiet_choice;
use fsb_phase::Phased;
use fsb_queue::{Entry, Queue};
use fsb_trace::{Outcome, Who};

/// An entry, by its number and its outcome.
type Told = (u32, Option<Outcome>);

/// What a clock brings.
#[derive(Clone, Copy)]
struct Clock<'a> {
    clock: u32,
    /// The number of the request whose snoop ends.
    snooped: Option<u32>,
    /// The number of the request that ends.
    ended: Option<u32>,
    /// The outcome at the snoop end.
    outcome: Outcome,
    /// Whether there is an address error.
    error: bool,
    /// The number of the request that begins.
    begun: Option<u32>,
    /// What the queue holds after it.
    holds: &'a [Told],
}

/// A clock that brings nothing.
const NOTHING: Clock<'static> = Clock {
    clock: 0,
    snooped: None,
    ended: None,
    outcome: Outcome::Granted,
    error: false,
    begun: None,
    holds: &[],
};

/// A request that begins at the clock.
fn entry(number: u32, clock: u32) -> Entry {
    Entry {
        number,
        clock,
        who: Who::Symmetric(0),
        request: Request {
            kind: Kind::Read,
            line: 0,
            chunk: 0,
            did: 0,
            den: true,
        },
        choice: quiet_choice(),
        outcome: None,
    }
}

const CLOCKS: [Clock; 5] = [
    Clock {
        clock: 2,
        begun: Some(0),
        holds: &[(0, None)],
        ..NOTHING
    },
    Clock {
        clock: 5,
        begun: Some(1),
        holds: &[(0, None), (1, None)],
        ..NOTHING
    },
    Clock {
        clock: 6,
        snooped: Some(0),
        holds: &[(0, Some(Outcome::Granted)), (1, None)],
        ..NOTHING
    },
    Clock {
        clock: 8,
        error: true,
        begun: Some(2),
        holds: &[(0, Some(Outcome::Granted)), (2, None)],
        ..NOTHING
    },
    Clock {
        clock: 12,
        snooped: Some(2),
        ended: Some(0),
        outcome: Outcome::Retried,
        holds: &[(2, Some(Outcome::Retried))],
        ..NOTHING
    },
];

/// Whether the queue has these entries, and no others.
fn has(queue: &Queue, entries: &[Told]) -> bool {
    for (found, told) in queue.iter().zip(entries) {
        if (found.number, found.outcome) != *told {
            return false;
        }
    }
    queue.len() == entries.len()
}

/// Takes what the clock brings into the queue, where there is room, and tells whether it holds then what it is to hold.
fn holds(queue: &mut Queue, brought: &Clock) -> bool {
    let phased = Phased {
        snooped: brought.snooped,
        ended: brought.ended,
    };
    let begun = match brought.begun {
        Some(number) => Some(entry(number, brought.clock)),
        None => None,
    };
    let may = queue.len() < 8;
    if may {
        let (outcome, error) = (brought.outcome, brought.error);
        take_clock(queue, brought.clock, &phased, outcome, error, begun);
    }
    may && has(queue, brought.holds)
}

#[test]
fn clocks_of_three_requests(rt: HostRuntime) {
    let mut queue = Queue::new(rt.alloc()).expect(&rt, "out of memory");
    for (i, brought) in CLOCKS.iter().enumerate() {
        expect(&rt, "three requests", i, holds(&mut queue, brought));
    }
    queue_goes_on();
    numbers_go_on();
}
