//! Agents as tables of calls: what is told to an agent, what it answers, and the entries that it leaves in the log.

use crate::rows::expect;
use crate::scripts::{Part, Words, script_of};
use fsb_access::{Done, Log};
use fsb_agent::{Agent, SnoopAnswer};
use fsb_encode::{Kind, Request};
use fsb_script::is_lawful_script;
use fsb_trace::Outcome;
use std::alloc::Global;

/// A call, with what is expected of it.
#[derive(Clone, Copy)]
enum Call {
    /// What it wants at a clock, of which line.
    Wants(u32, Option<(Kind, u64)>),
    /// Its want at a clock begins as the request of this number.
    Sends(u32, u32),
    /// It performs its hit at a clock, if it has one.
    Performs(u32),
    /// Its answer at a snoop end of a line.
    Answers(u64, SnoopAnswer),
    /// The snoop end of its own request of this number.
    Own(u32, Outcome),
    /// The snoop end of another agent's request of this number.
    Other(u32, Kind, u64, Outcome),
    /// It hands on the bytes that it owes to a number: the first of them.
    Hands(u32, Option<u8>),
    /// At a clock bytes come for its request of this number: the first of them.
    Arrives(u32, u32, u8),
    /// At a clock its upgrade of this number ends.
    Ends(u32, u32),
    /// Its request of this number is given up.
    GivesUp(u32),
}

/// The entry of an access: its clock, its item and part, and its value.
type Entry = (u32, u16, u8, u64);

/// An agent before any event, the calls that are made of it, in order, and the entries that the log has then.
#[derive(Clone, Copy)]
struct Row<'a> {
    name: &'a str,
    cache: u32,
    ahead: u8,
    profile: u8,
    items: &'a [Words<'a>],
    calls: &'a [Call],
    entries: &'a [Entry],
}

/// A request of this kind for a line.
fn request(kind: Kind, line: u64) -> Request {
    Request {
        kind,
        line,
        chunk: 0,
        did: 16,
        den: false,
    }
}

/// The bytes of a line whose first one is this.
fn line_of(first: u8) -> [u8; 32] {
    let mut bytes = [0; 32];
    bytes[0] = first;
    bytes
}

/// Agent 0 of a row, if it is lawful and there is memory.
fn agent_of(alloc: Global, row: &Row) -> Option<Agent> {
    let script = script_of(alloc, row.items).ok()?;
    let is_lawful = matches!(row.cache, 1 | 4 | 64)
        && matches!(row.ahead, 1 | 2 | 3 | 4)
        && matches!(row.profile, 1 | 2)
        && is_lawful_script(row.cache, script.as_slice());
    if is_lawful {
        Agent::new(alloc, 0, script, row.cache, row.ahead, row.profile).ok()
    } else {
        None
    }
}

/// The snoop end of a request, where it may come.
fn commits(
    agent: &mut Agent,
    number: u32,
    mine: bool,
    request: &Request,
    outcome: Outcome,
) -> bool {
    let may = agent.may_commit(number, mine, outcome);
    if may {
        agent.commit(number, mine, request, false, outcome);
    }
    may
}

/// Bytes come for its request, where they may.
fn arrives(agent: &mut Agent, log: &mut Log, clock: u32, number: u32, first: u8) -> bool {
    let may = agent.may_arrive(number) && log.spare() >= 8;
    if may {
        agent.arrive(clock, number, line_of(first), log);
    }
    may
}

/// Its upgrade ends, where it may.
fn ends(agent: &mut Agent, log: &mut Log, clock: u32, number: u32) -> bool {
    let may = agent.may_end_upgrade(number) && log.spare() >= 8;
    if may {
        agent.upgraded(clock, number, log);
    }
    may
}

/// Makes the call, where it may be made, and tells whether all is as expected.
fn holds(agent: &mut Agent, log: &mut Log, call: Call) -> bool {
    match call {
        Call::Wants(clock, expected) => match agent.want(clock) {
            Some(want) => expected == Some((want.request.kind, want.request.line)),
            None => expected.is_none(),
        },
        Call::Sends(clock, number) => {
            let may = agent.may_send(clock, number);
            if may {
                agent.sent(clock, number);
            }
            may
        }
        Call::Performs(clock) => {
            let may = log.spare() >= 8;
            if may {
                agent.perform(clock, log);
            }
            may
        }
        Call::Answers(line, answer) => agent.snoop(line) == answer,
        Call::Own(number, outcome) => {
            commits(agent, number, true, &request(Kind::Read, 0), outcome)
        }
        Call::Other(number, kind, line, outcome) => {
            commits(agent, number, false, &request(kind, line), outcome)
        }
        Call::Hands(number, expected) => match agent.hand(number) {
            Some(bytes) => expected == Some(bytes[0]),
            None => expected.is_none(),
        },
        Call::Arrives(clock, number, first) => arrives(agent, log, clock, number, first),
        Call::Ends(clock, number) => ends(agent, log, clock, number),
        Call::GivesUp(number) => {
            let may = agent.may_give_up(number);
            if may {
                agent.give_up(number);
            }
            may
        }
    }
}

/// Whether these are the entries of the log, each of agent 0.
fn has(log: &[Done], entries: &[Entry]) -> bool {
    for (done, entry) in log.iter().zip(entries) {
        if (done.clock, done.item, done.part, done.value) != *entry || done.agent != 0 {
            return false;
        }
    }
    log.len() == entries.len()
}

const ROWS: [Row; 7] = [
    // An upgrade whose line is lost before its snoop end gains nothing, and its agent asks for the line.
    Row {
        name: "lost upgrade gains nothing",
        cache: 64,
        ahead: 1,
        profile: 2,
        items: &[Words::One(Part::Load(0x40)), Words::One(Part::Add(0x40, 1))],
        calls: &[
            Call::Sends(2, 0),
            Call::Own(0, Outcome::Granted),
            Call::Other(1, Kind::Read, 2, Outcome::Granted),
            Call::Answers(2, SnoopAnswer::Hit),
            Call::Arrives(11, 0, 7),
            Call::Performs(12),
            Call::Wants(12, Some((Kind::Upgrade, 2))),
            Call::Sends(12, 2),
            Call::Other(3, Kind::Upgrade, 2, Outcome::Upgraded),
            Call::Own(2, Outcome::Upgraded),
            Call::Answers(2, SnoopAnswer::Clean),
            Call::Ends(18, 2),
            Call::Wants(19, Some((Kind::Invalidate, 2))),
        ],
        entries: &[(11, 0, 0, 7)],
    },
    // An upgrade that is won keeps its bytes, and stores as it ends.
    Row {
        name: "upgrade of a shared line",
        cache: 64,
        ahead: 1,
        profile: 2,
        items: &[Words::One(Part::Load(0x40)), Words::One(Part::Add(0x40, 1))],
        calls: &[
            Call::Sends(2, 0),
            Call::Own(0, Outcome::Handed),
            Call::Arrives(11, 0, 7),
            Call::Sends(12, 2),
            Call::Own(2, Outcome::Upgraded),
            Call::Answers(2, SnoopAnswer::Modified),
            Call::Performs(16),
            Call::Ends(18, 2),
            Call::Other(4, Kind::Read, 2, Outcome::Handed),
            Call::Hands(4, Some(8)),
        ],
        entries: &[(11, 0, 0, 7), (18, 1, 0, 8)],
    },
    // A locked item asks for its three lines one after the other, each with its chunk, and is performed in one clock.
    Row {
        name: "locked item over three lines",
        cache: 64,
        ahead: 1,
        profile: 1,
        items: &[
            Words::Idle(3),
            Words::Locked(&[
                Part::Load(0x40),
                Part::Add(0x88, 2),
                Part::Add(0xc0, 3),
                Part::Load(0x88),
            ]),
        ],
        calls: &[
            Call::Wants(2, None),
            Call::Wants(3, Some((Kind::Invalidate, 2))),
            Call::Sends(3, 0),
            Call::Own(0, Outcome::Granted),
            Call::Performs(11),
            Call::Arrives(12, 0, 7),
            Call::Wants(13, Some((Kind::Invalidate, 4))),
            Call::Sends(13, 1),
            Call::Own(1, Outcome::Retried),
            Call::GivesUp(1),
            Call::Sends(22, 2),
            Call::Own(2, Outcome::Deferred),
            Call::Own(2, Outcome::Replied),
            Call::Arrives(34, 2, 0),
            Call::Wants(35, Some((Kind::Invalidate, 6))),
            Call::Sends(35, 3),
            Call::Own(3, Outcome::Granted),
            Call::Arrives(44, 3, 0),
            Call::Performs(44),
            Call::Wants(45, None),
        ],
        entries: &[(44, 1, 0, 7), (44, 1, 1, 9), (44, 1, 2, 10), (44, 1, 3, 9)],
    },
    // With four requests ahead a window of plain items is asked for in order, up to the first idle item.
    Row {
        name: "window is asked for in order",
        cache: 4,
        ahead: 4,
        profile: 1,
        items: &[
            Words::One(Part::Load(0x40)),
            Words::One(Part::Load(0x60)),
            Words::One(Part::Load(0x140)),
            Words::One(Part::Store(0x80, 1)),
            Words::Idle(5),
            Words::One(Part::Load(0xa0)),
        ],
        calls: &[
            Call::Sends(2, 0),
            Call::Wants(3, Some((Kind::Read, 3))),
            Call::Sends(6, 1),
            Call::Wants(7, Some((Kind::Invalidate, 4))),
            Call::Sends(10, 2),
            Call::Wants(11, None),
            Call::Own(0, Outcome::Granted),
            Call::Own(1, Outcome::Granted),
            Call::Arrives(11, 0, 1),
            Call::Performs(12),
            Call::Arrives(15, 1, 2),
            Call::Performs(16),
            Call::Wants(16, Some((Kind::Read, 10))),
        ],
        entries: &[(11, 0, 0, 1), (15, 1, 0, 2)],
    },
    // Two agents store into one line: the first one loses it before its bytes have come, and still stores first.
    Row {
        name: "store handed over before arrival",
        cache: 64,
        ahead: 1,
        profile: 1,
        items: &[Words::One(Part::Store(0x40, 1))],
        calls: &[
            Call::Wants(2, Some((Kind::Invalidate, 2))),
            Call::Sends(2, 0),
            Call::Wants(3, None),
            Call::Answers(2, SnoopAnswer::Clean),
            Call::Own(0, Outcome::Granted),
            Call::Answers(2, SnoopAnswer::Modified),
            Call::Performs(7),
            Call::Other(1, Kind::Invalidate, 2, Outcome::Handed),
            Call::Answers(2, SnoopAnswer::Clean),
            Call::Hands(1, None),
            Call::Performs(11),
            Call::Arrives(11, 0, 7),
            Call::Answers(2, SnoopAnswer::Clean),
            Call::Hands(1, Some(1)),
            Call::Hands(1, None),
            Call::Wants(12, None),
        ],
        entries: &[(11, 0, 0, 1)],
    },
    // The second owner of a line promises it to a third one, which only reads: it goes on Shared, with what was stored.
    Row {
        name: "promise is passed on",
        cache: 64,
        ahead: 1,
        profile: 1,
        items: &[
            Words::One(Part::Store(0x40, 5)),
            Words::One(Part::Store(0x41, 6)),
        ],
        calls: &[
            Call::Sends(5, 1),
            Call::Own(1, Outcome::Handed),
            Call::Other(2, Kind::Read, 2, Outcome::Handed),
            Call::Answers(2, SnoopAnswer::Hit),
            Call::Performs(16),
            Call::Arrives(17, 1, 3),
            Call::Answers(2, SnoopAnswer::Hit),
            Call::Hands(2, Some(5)),
            Call::Performs(17),
            Call::Wants(18, Some((Kind::Invalidate, 2))),
        ],
        entries: &[(17, 0, 0, 5)],
    },
    // A dirty line that has to make room is written back first, and a clean one is dropped.
    Row {
        name: "dirty victim is written back",
        cache: 1,
        ahead: 1,
        profile: 1,
        items: &[
            Words::One(Part::Store(0x40, 1)),
            Words::One(Part::Load(0x80)),
            Words::One(Part::Load(0x40)),
        ],
        calls: &[
            Call::Sends(2, 0),
            Call::Own(0, Outcome::Granted),
            Call::Arrives(11, 0, 0),
            Call::Wants(12, Some((Kind::WriteBack, 2))),
            Call::Sends(14, 1),
            Call::Answers(2, SnoopAnswer::Modified),
            Call::Own(1, Outcome::Written),
            Call::Answers(2, SnoopAnswer::Clean),
            Call::Hands(1, Some(1)),
            Call::GivesUp(1),
            Call::Wants(26, Some((Kind::Read, 4))),
            Call::Sends(28, 2),
            Call::Own(2, Outcome::Granted),
            Call::Arrives(37, 2, 0),
            Call::Answers(4, SnoopAnswer::Hit),
            Call::Wants(38, Some((Kind::Read, 2))),
            Call::Sends(40, 3),
            Call::Answers(4, SnoopAnswer::Clean),
            Call::Own(3, Outcome::Granted),
            Call::Arrives(49, 3, 1),
        ],
        entries: &[(11, 0, 0, 1), (37, 1, 0, 0), (49, 2, 0, 1)],
    },
];

/// The first of the calls that is not as expected.
fn first_wrong(agent: &mut Agent, log: &mut Log, calls: &[Call]) -> Option<usize> {
    for (i, call) in calls.iter().enumerate() {
        if !holds(agent, log, *call) {
            return Some(i);
        }
    }
    None
}

#[test]
fn calls_of_agents(rt: HostRuntime) {
    for row in ROWS {
        let mut agent = agent_of(rt.alloc(), &row).expect(&rt, "no agent");
        let mut log = Log::with_room(rt.alloc(), 64).expect(&rt, "no memory");
        let wrong = first_wrong(&mut agent, &mut log, row.calls);
        let step = wrong.unwrap_or(row.calls.len());
        let is_right = wrong.is_none() && has(log.as_slice(), row.entries);
        expect(&rt, row.name, step, is_right);
    }
}
