//! The arbiter by itself; rows_judged has it over whole runs.

use crate::rows::expect;
use fsb_arbiter::Arbiter;
use fsb_trace::Who;
use rows_store::{ADS, BPRI, BREQ0, BREQ1, BREQ2, BREQ3, LOCK, sample};

/// What happens at an arbiter.
#[derive(Clone, Copy)]
enum Step {
    /// It takes a clock that asserts these control lines.
    Takes(u32),
    /// This agent wins the next clock.
    Wins(Who),
    /// No agent wins the next clock.
    Nobody,
}

/// Makes the step, and tells whether all is as expected.
fn holds(arbiter: &mut Arbiter, step: Step) -> bool {
    match step {
        Step::Takes(lines) => {
            arbiter.absorb(&sample((lines, 0, 0)));
            true
        }
        Step::Wins(who) => arbiter.winner() == Some(who),
        Step::Nobody => arbiter.winner().is_none(),
    }
}

const ALL: u32 = BREQ0 | BREQ1 | BREQ2 | BREQ3;

const ODD: u32 = BREQ1 | BREQ3;

const TWO: u32 = BREQ0 | BREQ1;

const ROWS: [(&str, &[Step]); 5] = [
    (
        "agents win in turn",
        &[
            Step::Takes(ALL),
            Step::Takes(ALL),
            Step::Wins(Who::Symmetric(0)),
            Step::Takes(ALL | ADS),
            Step::Takes(ALL),
            Step::Wins(Who::Symmetric(1)),
            Step::Takes(ALL | ADS),
            Step::Takes(ALL),
            Step::Wins(Who::Symmetric(2)),
            Step::Takes(ALL | ADS),
            Step::Takes(ALL),
            Step::Wins(Who::Symmetric(3)),
            Step::Takes(ALL | ADS),
            Step::Takes(ALL),
            Step::Wins(Who::Symmetric(0)),
        ],
    ),
    (
        "agents that ask win in turn",
        &[
            Step::Takes(ODD),
            Step::Takes(ODD),
            Step::Wins(Who::Symmetric(1)),
            Step::Takes(ODD | ADS),
            Step::Takes(ODD),
            Step::Wins(Who::Symmetric(3)),
            Step::Takes(ODD | ADS),
            Step::Takes(ODD),
            Step::Wins(Who::Symmetric(1)),
            Step::Takes(ODD | ADS),
            Step::Takes(ODD),
            Step::Wins(Who::Symmetric(3)),
        ],
    ),
    (
        "lock keeps the bus",
        &[
            Step::Takes(TWO | LOCK),
            Step::Takes(TWO),
            Step::Nobody,
            Step::Takes(TWO),
            Step::Wins(Who::Symmetric(0)),
            Step::Takes(TWO | LOCK | ADS),
            Step::Takes(BREQ1 | BPRI | LOCK),
            Step::Wins(Who::Symmetric(0)),
            Step::Takes(BREQ1 | BPRI),
            Step::Nobody,
            Step::Takes(0),
            Step::Wins(Who::Priority),
        ],
    ),
    (
        "priority agent keeps a locked bus",
        &[
            Step::Takes(TWO),
            Step::Takes(BPRI),
            Step::Wins(Who::Symmetric(0)),
            Step::Takes(BPRI | ADS),
            Step::Wins(Who::Priority),
            Step::Takes(TWO | BPRI | LOCK | ADS),
            Step::Wins(Who::Priority),
            Step::Takes(TWO | LOCK),
            Step::Wins(Who::Priority),
            Step::Takes(TWO),
            Step::Nobody,
            Step::Takes(0),
            Step::Wins(Who::Symmetric(1)),
        ],
    ),
    (
        "request of nobody ends a lock and keeps the order",
        &[
            Step::Takes(ALL),
            Step::Takes(0),
            Step::Wins(Who::Symmetric(0)),
            Step::Takes(ADS),
            Step::Nobody,
            Step::Takes(ALL | LOCK | ADS),
            Step::Nobody,
            Step::Takes(ALL),
            Step::Nobody,
            Step::Takes(0),
            Step::Wins(Who::Symmetric(1)),
        ],
    ),
];

#[test]
fn winners_clock_by_clock(rt: HostRuntime) {
    for (name, steps) in ROWS {
        let mut arbiter = Arbiter::new();
        for (i, step) in steps.iter().enumerate() {
            expect(&rt, name, i, holds(&mut arbiter, *step));
        }
    }
}
