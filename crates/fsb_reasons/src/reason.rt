//! The reasons, rule by rule.

ghost use Rattle.std.specs.Prelude.{◌≡◌};
ghost use Rattle.fsb_reasons.specs.RuleOf.{rule_of};

use fsb_encode::DecodeFault;
use fsb_signal::Lines;
use fsb_trace::{Outcome, Who};

/// The live request that a reason is about.
#[derive(Clone, Copy, Debug, PartialEq, Eq)]
pub struct Concerned {
    /// Its number among the live requests, from 0.
    pub number: u32,
    /// Its first clock.
    pub clock: u32,
}

/// Which of the three lines that tell of a snoop are asserted at the clock.
#[derive(Clone, Copy, Debug, PartialEq, Eq)]
pub struct SnoopLines {
    pub hit: bool,
    pub hitm: bool,
    pub defer: bool,
}

/// Why a live request may not be answered yet: the first of the two conditions that fails.
#[derive(Clone, Copy, Debug, PartialEq, Eq)]
pub enum Wait {
    /// Its snoop end is not reached.
    NoSnoopEnd,
    /// Its snoop end, at this clock, lies less than two clocks back.
    SnoopEnd(u32),
    /// Its snoop end lies two clocks back at least, and the live request before it has not ended below this clock; the
    /// clock at which that one ends, if it is reached.
    NotClear(Option<u32>),
}

/// Why a phase rule is broken at a clock, which is called the clock here.
#[derive(Clone, Copy, Debug)]
pub enum Reason {
    /// Rule 1: these control lines are unknown.
    UnknownLines {
        lines: Lines,
    },
    /// Rule 2: ADS# is asserted at clock 0 or 1; the earliest is 2.
    AtStart,
    /// Rule 2: ADS# is asserted, and the last one before it lies less than three clocks back.
    TooSoon {
        /// The clock of the ADS# before.
        before: u32,
        /// The earliest clock for the next.
        earliest: u64,
    },
    /// Rule 3: a bit of the address or of REQ is unknown at the first clock of the request, or at the second alone.
    UnknownBits {
        clock: u32,
    },
    /// Rule 3: the two clocks of the request hold no lawful request.
    Unlawful {
        fault: DecodeFault,
    },
    /// Rule 4: ADS# is asserted, and eight requests or more are in flight.
    QueueFull {
        in_flight: u32,
        /// The first clock of the oldest of them.
        oldest: u32,
    },
    /// Rule 5: ADS# is asserted, and BNR# was asserted two clocks before, at this clock.
    Blocked {
        clock: u32,
    },
    /// Rule 6: ADS# is asserted at clock 0 or 1, for which nothing was arbitrated.
    NotArbitrated,
    /// Rule 6: LOCK# was asserted two clocks before, and the agent of the last request, if there was one, did not ask.
    Locked {
        holder: Option<Who>,
    },
    /// Rule 6: no agent asked two clocks before, at this clock.
    NoneAsks {
        clock: u32,
    },
    /// Rule 7: the request is not decoded, so that it has no ID.
    NoId,
    /// Rule 7: the request is a reply, and the winner is not the priority agent.
    ReplyByOther {
        winner: Option<Who>,
    },
    /// Rule 7: the ID is of another agent than the winner; the agent that it names is `did / 16`.
    IdOfOther {
        did: u8,
        winner: Option<Who>,
    },
    /// Rule 8: the agent's request line was asserted, and is released though its request did not begin.
    Dropped {
        who: Who,
    },
    /// Rule 8: the agent's request began one clock before, and its request line is still asserted.
    Held {
        who: Who,
    },
    /// Rule 9: LOCK# begins, and ADS# is not asserted.
    LockAlone,
    /// Rule 10: AERR# is asserted, and no request began three clocks before.
    ErrorAlone {
        /// The first clock of the last request before the clock.
        last: Option<u32>,
    },
    /// Rule 11: one of these lines is asserted, and every live request has had its snoop end.
    SnoopsOver {
        lines: SnoopLines,
    },
    /// Rule 11: one of these lines is asserted, and the first live request without a snoop end is snooped later.
    SnoopEarly {
        lines: SnoopLines,
        request: Concerned,
        /// Its first snoop clock.
        start: u64,
    },
    /// Rule 11: one of these lines is asserted, and the clock lies between two snoop clocks of the first live request without a
    /// snoop end.
    SnoopBetween {
        lines: SnoopLines,
        request: Concerned,
        /// Its first snoop clock.
        start: u64,
    },
    /// Rule 12: a write-back has its snoop end at the clock, with one of these lines.
    WriteBackSnooped {
        lines: SnoopLines,
        request: Concerned,
    },
    /// Rule 12: a reply has its snoop end at the clock, with HITM# or DEFER#.
    ReplySnooped {
        lines: SnoopLines,
        request: Concerned,
    },
    /// Rule 13: RS# is not idle, and there is no live request of this number, which is next to be answered.
    NothingToAnswer {
        number: u32,
    },
    /// Rule 13: RS# is not idle, and the next request may not be answered yet.
    ResponseEarly {
        request: Concerned,
        wait: Wait,
        /// The earliest clock for its response, where its snoop end and the end before it are reached.
        earliest: Option<u64>,
    },
    /// Rule 14: RS# has this code, and there is no live request of this number, which is next to be answered.
    CodeForNone {
        number: u32,
        code: u8,
    },
    /// Rule 14: the next request has no snoop end yet, and the response code is not the one that it would have without
    /// HITM# and DEFER#.
    CodeUnsettled {
        request: Concerned,
        found: u8,
        /// What it is to be told if neither line is asserted at its snoop end.
        expected: Outcome,
    },
    /// Rule 14: the response code is not the one for the next request.
    CodeWrong {
        request: Concerned,
        /// Its snoop end, whose HITM# and DEFER# count.
        snoop_end: u32,
        found: u8,
        /// What it is to be told.
        expected: Outcome,
        /// Whether Deferred will do as well.
        may_defer: bool,
    },
    /// Rule 15: TRDY# is asserted, and there is no live request of this number, which is next to be answered.
    ReadyForNone {
        number: u32,
    },
    /// Rule 15: TRDY# is asserted, and the next request, which is no write-back, has no snoop end yet, whose HITM# alone
    /// could make it take data.
    ReadyUnsettled {
        request: Concerned,
    },
    /// Rule 15: TRDY# is asserted, and the next request, which is no write-back, has no HITM# at its snoop end.
    ReadyUnwanted {
        request: Concerned,
        snoop_end: u32,
    },
    /// Rule 15: TRDY# is asserted, and the next request may not be answered yet.
    ReadyEarly {
        request: Concerned,
        wait: Wait,
        /// The earliest clock for TRDY#, where its snoop end and the end before it are reached.
        earliest: Option<u64>,
    },
    /// Rule 15: TRDY# is asserted, and the target of the next request was ready before, at this clock.
    ReadyTwice {
        request: Concerned,
        ready: u32,
    },
    /// Rule 15: the response comes less than two clocks after the target is ready, or before.
    ResponseUnready {
        request: Concerned,
        /// The clock at which the target is ready, if that is reached.
        ready: Option<u32>,
        /// The earliest clock for the response, two after that.
        earliest: Option<u64>,
    },
    /// Rule 16: DRDY# is asserted, and no data are on the way.
    DataForNone {
        /// The clock of the last response up to the clock.
        last: Option<u32>,
    },
    /// Rule 16: DBSY# is not asserted, and data of the request are still on the way.
    BusyMissing {
        request: Concerned,
        /// The clock of its response.
        response: u32,
        /// How many of its four chunks came, up to the clock.
        chunks: u32,
    },
    /// Rule 16: DBSY# is asserted, and no data are on the way after the clock.
    BusyForNone {
        /// The clock of the last response up to the clock.
        last: Option<u32>,
    },
    /// Rule 17: DRDY# is asserted, and these bits of D are unknown.
    UnknownData {
        bits: u64,
    },
    /// Rule 18: no Deferred request with this ID awaits the reply.
    ReplyUnawaited {
        did: u8,
    },
    /// Rule 18: the request has the ID of an outstanding one.
    IdTaken {
        did: u8,
        /// The first clock of the outstanding one.
        by: u32,
    },
    /// Rule 18: the agent that begins the request has four outstanding ones or more.
    TooMany {
        who: Who,
        outstanding: u32,
    },
    /// Rule 19: the parity of the address is odd, of its low part, of its high part, or of both.
    AddressParity {
        low: bool,
        high: bool,
    },
    /// Rule 20: the parity of the request is odd.
    RequestParity,
}

impl Reason {
    /// The number of the rule, 1 to 20.
    #[tactic(auto, unfolding(crate::specs::RuleOf::rule_of))]
    pub fn rule(&self) -> u8
        ensures { result ≡ rule_of self.now }
    {
        match self {
            Reason::UnknownLines { .. } => 1,
            Reason::AtStart | Reason::TooSoon { .. } => 2,
            Reason::UnknownBits { .. } | Reason::Unlawful { .. } => 3,
            Reason::QueueFull { .. } => 4,
            Reason::Blocked { .. } => 5,
            Reason::NotArbitrated | Reason::Locked { .. } | Reason::NoneAsks { .. } => 6,
            Reason::NoId | Reason::ReplyByOther { .. } | Reason::IdOfOther { .. } => 7,
            Reason::Dropped { .. } | Reason::Held { .. } => 8,
            Reason::LockAlone => 9,
            Reason::ErrorAlone { .. } => 10,
            Reason::SnoopsOver { .. } | Reason::SnoopEarly { .. } | Reason::SnoopBetween { .. } =>
                11,
            Reason::WriteBackSnooped { .. } | Reason::ReplySnooped { .. } => 12,
            Reason::NothingToAnswer { .. } | Reason::ResponseEarly { .. } => 13,
            Reason::CodeForNone { .. } | Reason::CodeUnsettled { .. } | Reason::CodeWrong { .. } =>
                14,
            Reason::ReadyForNone { .. }
            | Reason::ReadyUnsettled { .. }
            | Reason::ReadyUnwanted { .. }
            | Reason::ReadyEarly { .. }
            | Reason::ReadyTwice { .. }
            | Reason::ResponseUnready { .. } => 15,
            Reason::DataForNone { .. } | Reason::BusyMissing { .. } | Reason::BusyForNone { .. } =>
                16,
            Reason::UnknownData { .. } => 17,
            Reason::ReplyUnawaited { .. } | Reason::IdTaken { .. } | Reason::TooMany { .. } => 18,
            Reason::AddressParity { .. } => 19,
            Reason::RequestParity => 20,
        }
    }
}
