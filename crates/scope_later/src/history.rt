//! What may have come before a part: one agent had the bus once.

ghost use Rattle.std.specs.Prelude.{◌≡◌, ◌<◌, ◌≤◌, ◌^◌, take, length};
ghost use Rattle.fsb_signal.specs.Samples.{known_sample};
ghost use Rattle.fsb_trace.specs.Winner.{bus_request_of};
ghost use Rattle.fsb_rules.specs.Checker.{Stands};
ghost use Rattle.scope_later.specs.Histories.{history, id_in_history, asking, begins, names, cancels};

use fsb_rules::Checker;
use fsb_signal::{Lines, Marks, Sample, idle_sample};

#[tactic(auto, unfolding(fsb_trace::specs::Winner::bus_request_of))]
fn bus_request_of(agent: u8) -> Lines
    requires { agent < 4 }
    ensures line { result ≡ bus_request_of agent }
    ensures few { result.0 ≤ 8 }
{
    match agent {
        0 => Lines::BREQ0,
        1 => Lines::BREQ1,
        2 => Lines::BREQ2,
        _ => Lines::BREQ3,
    }
}

fn id_in_history(agent: u8) -> u64
    requires { agent < 4 }
    ensures id { result ≡ id_in_history agent }
    ensures few { result < 2 ^ 8 }
{
    match agent {
        0 => 0,
        1 => 17,
        2 => 33,
        _ => 48,
    }
}

// The agent asks for the bus.
fn asking(agent: u8) -> Sample
    requires { agent < 4 }
    ensures { result ≡ asking agent }
{
    Sample::known(bus_request_of(agent), 0, 0, 0)
}

// Its request begins.
fn begins(agent: u8) -> Sample
    requires { agent < 4 }
    ensures { result ≡ begins agent }
{
    let line = bus_request_of(agent);
    Sample::known(Lines(line.0 + Lines::ADS.0), 2, 0, 0)
}

// The second clock of the request.
fn names(agent: u8) -> Sample
    requires { agent < 4 }
    ensures { result ≡ names agent }
{
    let id = id_in_history(agent);
    Sample::known(Lines(0), 0, id * 8192, 0)
}

// The request is cancelled.
fn cancels() -> Sample
    ensures { result ≡ cancels }
{
    Sample::known(Lines::AERR, 0, 0, 0)
}

/// The samples of a bus on which this agent had the bus once, and all has ended.
pub fn history_of(agent: u8) -> [Sample; 8]
    requires { agent < 4 }
    ensures { result ≡ history agent }
{
    let idle = idle_sample();
    let asks = asking(agent);
    let first = begins(agent);
    let second = names(agent);
    [asks, asks, first, second, idle, cancels(), idle, idle]
}

// The checker that was fed these samples.
fn fed(marks: Marks, samples: &[Sample]) -> Checker
    requires { length samples.now ≤ 8 }
    ensures { Stands result marks samples.now }
{
    let mut checker = Checker::new(marks);
    for sample in samples {
        checker.feed(sample);
    }
    checker
}

/// The checker that was fed the history of this agent.
pub(crate) fn checker_behind(marks: Marks, agent: u8) -> Checker
    requires { agent < 4 }
    ensures { Stands result marks (history agent) }
{
    let samples = history_of(agent);
    fed(marks, &samples)
}
