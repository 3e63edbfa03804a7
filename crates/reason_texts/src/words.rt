//! The words that sentences share.

use fsb_reasons::{Concerned, SnoopLines, Wait};
use fsb_signal::{Lines, control_line};
use fsb_trace::{Outcome, Who};
use std::fmt;

/// An agent.
#[derive(Clone, Copy)]
pub(crate) struct Agent(pub(crate) Who);

impl fmt::Display for Agent {
    fn fmt<W: fmt::Write>(&self, f: &mut fmt::Formatter<W>) -> fmt::Result {
        match self.0 {
            Who::Symmetric(agent) => write!(f, "agent {}", agent),
            Who::Priority => f.write_str("the priority agent"),
        }
    }
}

/// The winner of a clock.
#[derive(Clone, Copy)]
pub(crate) struct Winner(pub(crate) Option<Who>);

impl fmt::Display for Winner {
    fn fmt<W: fmt::Write>(&self, f: &mut fmt::Formatter<W>) -> fmt::Result {
        match self.0 {
            Some(who) => write!(f, "{}", Agent(who)),
            None => f.write_str("nobody"),
        }
    }
}

/// The request line of an agent.
#[derive(Clone, Copy)]
pub(crate) struct RequestLine(pub(crate) Who);

impl fmt::Display for RequestLine {
    fn fmt<W: fmt::Write>(&self, f: &mut fmt::Formatter<W>) -> fmt::Result {
        match self.0 {
            Who::Symmetric(agent) => write!(f, "BREQ{}#", agent),
            Who::Priority => f.write_str("BPRI#"),
        }
    }
}

/// A request, by its number and first clock.
#[derive(Clone, Copy)]
pub(crate) struct Request(pub(crate) Concerned);

impl fmt::Display for Request {
    fn fmt<W: fmt::Write>(&self, f: &mut fmt::Formatter<W>) -> fmt::Result {
        write!(
            f,
            "request {} (first clock {})",
            self.0.number, self.0.clock
        )
    }
}

/// Why a request may not be answered yet, as what is said of the request.
#[derive(Clone, Copy)]
pub(crate) struct Waiting(pub(crate) Wait);

impl fmt::Display for Waiting {
    fn fmt<W: fmt::Write>(&self, f: &mut fmt::Formatter<W>) -> fmt::Result {
        match self.0 {
            Wait::NoSnoopEnd => f.write_str("has no snoop end yet"),
            Wait::SnoopEnd(clock) => write!(f, "has its snoop end at {}", clock),
            Wait::NotClear(None) => {
                f.write_str("waits for the request before it, which has not ended")
            }
            Wait::NotClear(Some(clock)) => {
                write!(
                    f,
                    "waits for the request before it, which ends at {}",
                    clock
                )
            }
        }
    }
}

/// The same where the earliest clock for its answer is not known, since its snoop end or the end before it is not reached.
#[derive(Clone, Copy)]
pub(crate) struct Pending(pub(crate) Wait);

impl fmt::Display for Pending {
    fn fmt<W: fmt::Write>(&self, f: &mut fmt::Formatter<W>) -> fmt::Result {
        write!(f, "{}", Waiting(self.0))?;
        match self.0 {
            Wait::SnoopEnd(_) => {
                f.write_str(" and waits for the request before it, which has not ended")
            }
            Wait::NoSnoopEnd | Wait::NotClear(_) => Ok(()),
        }
    }
}

/// The snoop lines that are asserted, with their verb.
#[derive(Clone, Copy)]
pub(crate) struct Snooped(pub(crate) SnoopLines);

impl fmt::Display for Snooped {
    fn fmt<W: fmt::Write>(&self, f: &mut fmt::Formatter<W>) -> fmt::Result {
        let lines = self.0;
        f.write_str(match (lines.hit, lines.hitm, lines.defer) {
            (true, true, true) => "HIT#, HITM# and DEFER# are",
            (true, true, false) => "HIT# and HITM# are",
            (true, false, true) => "HIT# and DEFER# are",
            (false, true, true) => "HITM# and DEFER# are",
            (true, false, false) => "HIT# is",
            (false, true, false) => "HITM# is",
            (false, false, true) => "DEFER# is",
            (false, false, false) => "no line is",
        })
    }
}

/// The name of a response code, by the outcome that it tells.
pub(crate) fn outcome_name(outcome: Outcome) -> &'static str {
    match outcome {
        Outcome::Granted | Outcome::Replied => "normal data",
        Outcome::Handed => "implicit write-back",
        Outcome::Retried => "retry",
        Outcome::Deferred => "deferred",
        Outcome::Written | Outcome::Upgraded => "no data",
        Outcome::Failed => "hard failure",
    }
}

/// The names of lines.
#[derive(Clone, Copy)]
pub(crate) struct Names(pub(crate) Lines);

impl fmt::Display for Names {
    fn fmt<W: fmt::Write>(&self, f: &mut fmt::Formatter<W>) -> fmt::Result {
        let mut is_first = true;
        for number in 0..21 {
            let (name, line) = control_line(number);
            if self.0.0 & line.0 == line.0 {
                if !is_first {
                    f.write_str(", ")?;
                }
                write!(f, "{}#", name)?;
                is_first = false;
            }
        }
        Ok(())
    }
}
