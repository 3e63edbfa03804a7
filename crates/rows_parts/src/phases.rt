//! Whole runs, in which the phases drive what the run has, clock by clock.

use crate::rows::expect;
use fsb_encode::{Kind, Request};
use fsb_hazard::{Choice, Turn};
use fsb_phase::{Drive, Phased, Phases, chunk_order};
use fsb_queue::{Entry, Queue};
use fsb_signal::{Lines, Sample};
use fsb_trace::{Outcome, Who};
use rows_store::{
    CANCELLED_BY_ADDRESS_ERROR, Clock, DEFERRED_AND_REPLIED, DIRTY_VICTIM_WRITTEN_BACK,
    HANDED_ON_WITH_WAITS, LOCKED_INCREMENTS, SECOND_STALLED, STALLED_SNOOP, TWO_AGENTS_OVERLAP,
    UPGRADE_LOST_AND_HANDED, UPGRADE_OF_A_SHARED_LINE, WRITE_BACK_HELD_OFF, sample,
};

/// A request of a run: its kind, what was chosen for it, its outcome, and its snoop end and end; 0 for one that is
/// cancelled.
type Told = (Kind, Choice, Outcome, u32, u32);

/// No hazard.
pub(crate) const QUIET: Choice = Choice {
    bnr: false,
    aerr: false,
    stall: 0,
    trdy: 0,
    resp: 0,
    gap: 0,
    turn: Turn::Keep,
};

/// The request that begins at the clock, as an entry.
fn entry(number: u32, clock: u32, told: &Told) -> Entry {
    Entry {
        number,
        clock,
        who: Who::Priority,
        request: Request {
            kind: told.0,
            line: 0,
            chunk: 0,
            did: 0,
            den: false,
        },
        choice: told.1,
        outcome: None,
    }
}

/// Whether what is driven is on the lines.
fn are_driven(lines: &Sample, drive: &Drive) -> bool {
    drive.stall == (lines.has(Lines::HIT) && lines.has(Lines::HITM))
        && drive.trdy == lines.has(Lines::TRDY)
        && drive.rs == lines.response()
        && drive.dbsy == lines.has(Lines::DBSY)
        && drive.chunk.is_some() == lines.has(Lines::DRDY)
}

/// Whether the entry at this place of the queue has this number.
fn has_number(queue: &Queue, i: usize, number: u32) -> bool {
    match queue.at(i) {
        Some(e) => e.number == number,
        None => false,
    }
}

/// Gives the entry of the number its outcome.
pub(crate) fn settle(queue: &mut Queue, number: u32, outcome: Outcome) {
    for i in 0..8 {
        if i < queue.len() && has_number(queue, i, number) {
            queue.settle(i, outcome);
        }
    }
}

/// A run so far.
#[derive(Drop)]
struct Run<'a> {
    told: &'a [Told],
    phases: Phases,
    queue: Queue,
    begun: usize,
    /// How many snoop ends and ends there were.
    snooped: usize,
    ended: usize,
    /// How many chunks came since the last response.
    came: u8,
}

impl Run<'_> {
    /// Whether a chunk that is driven is the next one of the oldest entry, which is the only one whose data may move.
    fn has_chunk(&self, drive: &Drive) -> bool {
        match drive.chunk {
            Some((number, place)) => place == self.came && has_number(&self.queue, 0, number),
            None => true,
        }
    }

    /// The snoop end of a request, which gets its outcome: whether it is told.
    fn snoops(&mut self, clock: u32, number: u32) -> bool {
        match self.told.get(number as usize) {
            Some(told) => {
                settle(&mut self.queue, number, told.2);
                self.snooped = self.snooped.wrapping_add(1);
                told.3 == clock
            }
            None => false,
        }
    }

    /// The end of a request, which leaves: whether it is told.
    fn ends(&mut self, clock: u32, number: u32) -> bool {
        self.ended = self.ended.wrapping_add(1);
        match (self.told.get(number as usize), self.queue.leave()) {
            (Some(told), Some(left)) => told.4 == clock && left.number == number,
            _ => false,
        }
    }

    /// Takes what happened at the clock into the queue, and tells whether it is told.
    fn passes(&mut self, clock: u32, phased: &Phased) -> bool {
        let is_snoop_told = match phased.snooped {
            Some(number) => self.snoops(clock, number),
            None => true,
        };
        let is_end_told = match phased.ended {
            Some(number) => self.ends(clock, number),
            None => true,
        };
        is_snoop_told && is_end_told
    }

    /// Cancels the last entry, and tells whether it began three clocks before this one.
    fn cancels(&mut self, clock: u32) -> bool {
        let count = self.queue.len();
        if count == 0 {
            return false;
        }
        match self.queue.at(count - 1).copied() {
            Some(last) => {
                last.clock == clock.saturating_sub(3) && self.queue.cancel(last.number).is_some()
            }
            None => false,
        }
    }

    /// Takes the next request, which begins at the clock, into the queue, and tells whether it is told, and there is room.
    fn begins(&mut self, clock: u32) -> bool {
        let may = self.begun < self.told.len() && self.begun < 1000 && self.queue.len() < 8;
        if may {
            let told = self.told[self.begun];
            self.queue.enter(entry(self.begun as u32, clock, &told));
            self.begun += 1;
        }
        may
    }

    /// A clock: whether the phases drive what is on its lines, and its snoop end and its end are told.
    fn holds(&mut self, clock: u32, lines: &Sample) -> bool {
        let drive = self.phases.drive(clock, &self.queue);
        if lines.response() != 0 {
            self.came = 0;
        }
        let is_driven = are_driven(lines, &drive) && self.has_chunk(&drive);
        self.came = self.came.wrapping_add(u8::from(lines.has(Lines::DRDY)));
        let phased = self.phases.absorb(clock, lines, &self.queue);
        let is_snooped = phased.snooped.is_none() || phased.snooped == drive.snoop;
        is_driven
            && is_snooped
            && self.passes(clock, &phased)
            && (!lines.has(Lines::AERR) || self.cancels(clock))
            && (!lines.has(Lines::ADS) || self.begins(clock))
    }

    /// Whether all that is told came, and the queue is empty.
    fn is_over(&self) -> bool {
        let mut live = 0_usize;
        for told in self.told {
            live = live.wrapping_add(usize::from(told.3 > 0));
        }
        self.begun == self.told.len()
            && self.snooped == live
            && self.ended == live
            && self.queue.len() == 0
    }
}

const RUNS: [(&str, &[Clock], &[Told]); 11] = [
    (
        "two agents overlap",
        &TWO_AGENTS_OVERLAP,
        &[
            (Kind::Read, QUIET, Outcome::Granted, 6, 11),
            (Kind::Read, QUIET, Outcome::Granted, 9, 15),
        ],
    ),
    (
        "stalled snoop",
        &STALLED_SNOOP,
        &[(Kind::Read, STALLED_TWICE, Outcome::Granted, 10, 15)],
    ),
    (
        "cancelled by address error",
        &CANCELLED_BY_ADDRESS_ERROR,
        &[
            (Kind::Read, CANCELLED, Outcome::Failed, 0, 0),
            (Kind::Read, QUIET, Outcome::Granted, 12, 17),
        ],
    ),
    (
        "deferred and replied",
        &DEFERRED_AND_REPLIED,
        &[
            (Kind::Read, QUIET, Outcome::Deferred, 6, 8),
            (Kind::Invalidate, QUIET, Outcome::Retried, 9, 11),
            (Kind::Invalidate, QUIET, Outcome::Retried, 18, 20),
            (Kind::Reply, QUIET, Outcome::Replied, 25, 30),
            (Kind::Invalidate, QUIET, Outcome::Granted, 28, 34),
        ],
    ),
    (
        "locked increments",
        &LOCKED_INCREMENTS,
        &[
            (Kind::Invalidate, QUIET, Outcome::Granted, 6, 11),
            (Kind::Invalidate, QUIET, Outcome::Handed, 18, 25),
        ],
    ),
    (
        "write-back held off",
        &WRITE_BACK_HELD_OFF,
        &[
            (Kind::Invalidate, QUIET, Outcome::Granted, 6, 11),
            (Kind::Read, QUIET, Outcome::Handed, 17, 24),
            (Kind::Read, QUIET, Outcome::Granted, 22, 28),
        ],
    ),
    (
        "dirty victim written back",
        &DIRTY_VICTIM_WRITTEN_BACK,
        &[
            (Kind::Invalidate, QUIET, Outcome::Granted, 6, 11),
            (Kind::WriteBack, QUIET, Outcome::Written, 18, 25),
            (Kind::Read, QUIET, Outcome::Granted, 32, 37),
            (Kind::Read, QUIET, Outcome::Granted, 44, 49),
        ],
    ),
    (
        "upgrade of a shared line",
        &UPGRADE_OF_A_SHARED_LINE,
        &[
            (Kind::Read, QUIET, Outcome::Granted, 6, 11),
            (Kind::Read, QUIET, Outcome::Granted, 9, 15),
            (Kind::Upgrade, QUIET, Outcome::Upgraded, 18, 20),
        ],
    ),
    (
        "upgrade lost and handed",
        &UPGRADE_LOST_AND_HANDED,
        &[
            (Kind::Read, QUIET, Outcome::Granted, 6, 11),
            (Kind::Read, QUIET, Outcome::Granted, 9, 15),
            (Kind::Upgrade, QUIET, Outcome::Upgraded, 18, 20),
            (Kind::Upgrade, QUIET, Outcome::Handed, 22, 29),
        ],
    ),
    (
        "waits are kept",
        &HANDED_ON_WITH_WAITS,
        &[
            (Kind::Invalidate, WAITS, Outcome::Handed, 6, 21),
            (Kind::Read, QUIET, Outcome::Granted, 9, 25),
        ],
    ),
    (
        "second snoop stalled",
        &SECOND_STALLED,
        &[
            (Kind::Read, ONE_WAIT, Outcome::Granted, 6, 12),
            (Kind::Read, STALLED_ONCE, Outcome::Granted, 11, 19),
        ],
    ),
];

/// Choices of the runs.
const STALLED_TWICE: Choice = Choice { stall: 2, ..QUIET };

const CANCELLED: Choice = Choice {
    aerr: true,
    ..QUIET
};

const WAITS: Choice = Choice {
    trdy: 2,
    resp: 3,
    gap: 1,
    ..QUIET
};

const ONE_WAIT: Choice = Choice { resp: 1, ..QUIET };

const STALLED_ONCE: Choice = Choice {
    stall: 1,
    resp: 3,
    ..QUIET
};

/// The first of the clocks at which the run is not as it is laid out.
fn first_wrong(run: &mut Run<'_>, clocks: &[Clock]) -> Option<usize> {
    for (c, laid_out) in clocks.iter().enumerate() {
        if c >= 1000 || !run.holds(c as u32, &sample(*laid_out)) {
            return Some(c);
        }
    }
    None
}

/// Over each run the phases drive what is on its lines at each clock, and its requests have the snoop ends and the ends that are told,
/// and no others. The step that a message names is the clock.
#[test]
fn runs_are_driven_as_laid_out(rt: HostRuntime) {
    for (name, clocks, told) in RUNS {
        let mut run = Run {
            told,
            phases: Phases::new(),
            queue: Queue::new(rt.alloc()).expect(&rt, "out of memory"),
            begun: 0,
            snooped: 0,
            ended: 0,
            came: 0,
        };
        let wrong = first_wrong(&mut run, clocks);
        let step = wrong.unwrap_or(clocks.len());
        expect(&rt, name, step, wrong.is_none() && run.is_over());
    }
}

#[test]
fn burst_orders(rt: HostRuntime) {
    let orders = [[0, 1, 2, 3], [1, 0, 3, 2], [2, 3, 0, 1], [3, 2, 1, 0]];
    for first in 0..4_u8 {
        assert!(rt; chunk_order(first) == orders[usize::from(first)]);
    }
}
