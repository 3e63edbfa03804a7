//! One agent's requests over a list of choices, driven by the arbiter, the queue and the phases: a loop that meets what
//! they ask of their caller at each clock, and makes a trace that breaks no rule.

ghost use Rattle.std.specs.Prelude.{◌<◌, ◌^◌, length};

use crate::phases::{QUIET, settle};
use crate::rows::expect;
use fsb_arbiter::Arbiter;
use fsb_encode::{Kind, Pair, Request, encode};
use fsb_hazard::{Choice, Turn};
use fsb_io::Memory;
use fsb_phase::{Drive, Phased, Phases};
use fsb_queue::{Entry, Queue};
use fsb_signal::Sample;
use fsb_trace::{Outcome, Who, end_of, outcome_of, requests, response, snoop_end, verdict};
use rows_store::{ADS, AERR, BREQ0, DBSY, DEFER, DRDY, HIT, HITM, RS0, TRDY, UNMARKED, sample};
use std::alloc::Global;

/// The three machines, what they made of the bus so far, and what the agent is about to do.
#[derive(Drop)]
struct Bus {
    arbiter: Arbiter,
    phases: Phases,
    queue: Queue,
    trace: Vec<Sample>,
    /// The second clock of the last request, while it is to come.
    second: Option<Pair>,
    /// The clocks since the last request began.
    since: u32,
    begun: usize,
    /// The snoop ends and the ends, in order.
    snooped: Vec<u32>,
    ended: Vec<u32>,
}

/// A read of the line with the request's number. The agent has its number, 0, and one of sixteen IDs.
fn request(number: u32) -> Request {
    Request {
        kind: Kind::Read,
        line: u64::from(number % 1024),
        chunk: 0,
        did: (number % 16) as u8,
        den: true,
    }
}

/// What becomes of a read with this choice, where the line is outside the bridge's window.
fn outcome(choice: &Choice) -> Outcome {
    match choice.turn {
        Turn::Retry => Outcome::Retried,
        Turn::Keep | Turn::Defer(_) => Outcome::Granted,
    }
}

/// The lines, where they are asserted.
fn lines_if(are_asserted: bool, lines: u32) -> u32 {
    if are_asserted { lines } else { 0 }
}

/// The lines that are driven.
fn driven(drive: &Drive) -> u32 {
    lines_if(drive.stall, HIT | HITM)
        | lines_if(drive.trdy, TRDY)
        | lines_if(drive.dbsy, DBSY)
        | lines_if(drive.chunk.is_some(), DRDY)
        | u32::from(drive.rs % 8) * RS0
}

/// The words of both clocks of a read with this number, which is lawful.
fn words(number: u32) -> Option<(Pair, Pair)> {
    let asked = request(number);
    if asked.is_lawful() {
        Some(encode(&asked))
    } else {
        None
    }
}

impl Bus {
    fn new(alloc: Global) -> Result<Bus, Memory> {
        Ok(Bus {
            arbiter: Arbiter::new(),
            phases: Phases::new(),
            queue: Queue::new(alloc)?,
            trace: Vec::new(alloc),
            second: None,
            since: 3,
            begun: 0,
            snooped: Vec::new(alloc),
            ended: Vec::new(alloc),
        })
    }

    /// Whether the last request is to be cancelled at this clock, and its number.
    fn error(&self) -> Option<u32> {
        let last = self.queue.len();
        if last == 0 || self.since != 3 {
            return None;
        }
        match self.queue.at(last - 1) {
            Some(e) if e.choice.aerr => Some(e.number),
            _ => None,
        }
    }

    /// Whether a request is left to begin.
    fn wants(&self, choices: &[Choice]) -> bool {
        self.begun < choices.len()
    }

    /// Whether the next request begins at this clock.
    fn begins(&self, choices: &[Choice]) -> bool {
        self.wants(choices)
            && self.since >= 3
            && self.queue.len() < 4
            && self.arbiter.winner() == Some(Who::Symmetric(0))
    }

    /// What becomes of the request with this number, if it is in the queue.
    fn outcome_of(&self, number: Option<u32>) -> Option<Outcome> {
        for e in self.queue.iter() {
            if Some(e.number) == number {
                return Some(outcome(&e.choice));
            }
        }
        None
    }

    /// The lines of the clock: what the phases drive, and what the agent does. There is DEFER# at a snoop end whose request is to be
    /// retried.
    fn lines(&self, drive: &Drive, choices: &[Choice]) -> u32 {
        let asks = self.wants(choices) && self.since != 1;
        let defers = !drive.stall && self.outcome_of(drive.snoop) == Some(Outcome::Retried);
        driven(drive)
            | lines_if(defers, DEFER)
            | lines_if(asks, BREQ0)
            | lines_if(self.error().is_some(), AERR)
            | lines_if(self.begins(choices), ADS)
    }

    /// Takes what happened at the clock into the queue.
    fn pass(&mut self, clock: u32, phased: &Phased) -> Result<(), Memory> {
        if let Some(number) = phased.snooped {
            self.snooped.push(clock)?;
            if let Some(outcome) = self.outcome_of(phased.snooped) {
                settle(&mut self.queue, number, outcome);
            }
        }
        if phased.ended.is_some() {
            self.ended.push(clock)?;
            let _ = self.queue.leave();
        }
        Ok(())
    }

    /// Takes the request that began at the clock into the queue, with the words of its second clock.
    fn begin(&mut self, clock: u32, number: u32, choices: &[Choice], second: Pair) {
        if self.begun < choices.len() && self.queue.len() < 8 {
            let choice = choices[self.begun];
            self.queue.enter(Entry {
                number,
                clock,
                who: Who::Symmetric(0),
                request: request(number),
                choice,
                outcome: None,
            });
            self.second = Some(second);
            self.since = 1;
            self.begun = self.begun.saturating_add(1);
        }
    }

    /// One clock: the sample is made of what the machines say, and they take it.
    fn step(&mut self, clock: u32, choices: &[Choice]) -> Result<(), Memory> {
        let drive = self.phases.drive(clock, &self.queue);
        let cancelled = self.error();
        let begins = self.begins(choices);
        let lines = self.lines(&drive, choices);
        let number = (self.begun % 1024) as u32;
        let Some((first, second)) = words(number) else {
            return Ok(());
        };
        let put = if begins { Some(first) } else { self.second };
        let on_bus = put.unwrap_or(Pair { addr: 0, req: 0 });
        let sample = sample((lines, u64::from(on_bus.req), on_bus.addr));
        let phased = self.phases.absorb(clock, &sample, &self.queue);
        self.arbiter.absorb(&sample);
        self.trace.push(sample)?;
        self.pass(clock, &phased)?;
        if let Some(k) = cancelled {
            let _ = self.queue.cancel(k);
        }
        self.second = None;
        self.since = self.since.saturating_add(1);
        if begins {
            self.begin(clock, number, choices, second);
        }
        Ok(())
    }
}

/// Choices of every hazard that a request has.
const HAZARDS: [Choice; 9] = [
    Choice { stall: 2, ..QUIET },
    Choice {
        aerr: true,
        ..QUIET
    },
    Choice {
        resp: 3,
        gap: 2,
        ..QUIET
    },
    Choice {
        turn: Turn::Retry,
        ..QUIET
    },
    Choice {
        aerr: true,
        stall: 1,
        ..QUIET
    },
    Choice {
        trdy: 4,
        resp: 1,
        gap: 1,
        ..QUIET
    },
    Choice {
        stall: 3,
        turn: Turn::Defer(4),
        ..QUIET
    },
    Choice {
        stall: 1,
        resp: 200,
        turn: Turn::Retry,
        ..QUIET
    },
    QUIET,
];

/// The choices of the requests, the clocks, and how many of the requests are not cancelled.
const ROWS: [(&str, &[Choice], u32, u32); 2] = [
    ("quiet requests", &[QUIET; 6], 80, 6),
    ("requests with each hazard of a request", &HAZARDS, 400, 7),
];

/// Whether the trace has the snoop end, the response and the end of live request `i` that were told.
fn has_told(bus: &Bus, i: u32) -> bool
    requires { length bus.now.trace.items < 2 ^ 32 }
{
    let w = bus.trace.as_slice();
    snoop_end(w, i) == bus.snooped.get(i as usize).copied()
        && end_of(w, i) == bus.ended.get(i as usize).copied()
        && outcome_of(w, i).is_some()
        && response(w, i).is_some()
}

/// The trace of each loop is accepted, has each request that began, and has the snoop ends, responses and ends that were told.
#[test]
fn traces_of_the_loop_are_accepted(rt: HostRuntime) {
    for (name, choices, clocks, live) in ROWS {
        let mut bus = Bus::new(rt.alloc()).expect(&rt, "out of memory");
        for clock in 0..clocks {
            bus.step(clock, choices).expect(&rt, "out of memory");
        }
        assert!(rt; bus.trace.len() < 1 << 32);
        let seen = requests(rt.alloc(), &bus.trace).expect(&rt, "out of memory");
        expect(&rt, name, 0, verdict(UNMARKED, &bus.trace).is_none());
        expect(
            &rt,
            name,
            1,
            seen.len() == choices.len() && bus.queue.len() == 0,
        );
        let told = live as usize;
        expect(
            &rt,
            name,
            2,
            bus.snooped.len() == told && bus.ended.len() == told,
        );
        expect(&rt, name, 3, snoop_end(&bus.trace, live).is_none());
        for i in 0..live {
            expect(&rt, name, 4, has_told(&bus, i));
        }
    }
}
