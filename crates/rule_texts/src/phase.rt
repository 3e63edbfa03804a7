//! The texts of the rules of docs/phase-rules.md. lab/rule_texts.py writes this file, from that page.

/// The titles, in the order of their numbers.
pub(crate) const PHASE_TITLES: [&str; 20] = [
    "known control lines",
    "request spacing",
    "lawful codes",
    "queue depth",
    "block next request",
    "arbitration winner",
    "request identity",
    "request lines held and released",
    "lock begins with a request",
    "address error timing",
    "snoop lines in snoop clocks",
    "snoop results of write-backs and replies",
    "response timing",
    "response code",
    "target ready",
    "data transfer",
    "known data",
    "deferred IDs and outstanding requests",
    "address parity",
    "request parity",
];

/// The texts, in the same order.
pub(crate) const PHASE_TEXTS: [&str; 20] = [
    "\
rule 1: known control lines

Every control line has a level at every rise of BCLK, since an agent cannot
act on an x. The words REQ, A and D are judged by rules 3 and 17, and only
where somebody reads them.

Mostly wrong: the dump begins before reset has driven the lines, or two
drivers fight. An undriven line is z, and z is not unknown.

Exactly what is refused: docs/phase-rules.md
",
    "\
rule 2: request spacing

A request takes two clocks on REQ and A, and the next one begins three
clocks later at the soonest. None begins in clock 0 or 1, since the lines of
two clocks before decide who begins.

Mostly wrong: ADS# lasts two clocks, a model begins a request every second
clock, or the dump begins in the middle of traffic.

Exactly what is refused: docs/phase-rules.md
",
    "\
rule 3: lawful codes

The two clocks spell one request, and every agent decodes it from them.

Mostly wrong: A is dumped as a byte address, not divided by 8. Or the words
are active high under names that end in _n. Or REQ or A is x in the second
clock. Or the ID is in the wrong bits.

Exactly what is refused: docs/phase-rules.md
",
    "\
rule 4: queue depth

Everybody follows the requests in a queue of eight places, so at most eight
are in flight.

Mostly wrong: nobody drives BNR# when the queue fills up, or a model frees a
place one clock early. The clock in which a request ends still counts.

Exactly what is refused: docs/phase-rules.md
",
    "\
rule 5: block next request

An agent that needs a pause drives BNR#. It holds back every request two
clocks later.

Mostly wrong: an agent looks at BNR# of the clock before, or of the same
clock.

Exactly what is refused: docs/phase-rules.md
",
    "\
rule 6: arbitration winner

Only the agent that won the bus may begin. The lines of two clocks before
decide: LOCK# first, then BPRI#, then the BREQ# lines in turn.

Mostly wrong: an agent begins one clock after its BREQ# and not two, or
begins under another agent's LOCK#. Or the dump lacks the BREQ# line of the
agent that began: it then reads as not asserted.

Exactly what is refused: docs/phase-rules.md
",
    "\
rule 7: request identity

The ID in the second clock names the agent that began. Replies and deferrals
find their agent by it.

Mostly wrong: an agent believes that it won, and another one did. The turns
go on behind the agent of the last request, and a cancelled request counts
as the last one too. Or the dump lacks a BREQ# line, so that another agent
seems to have won.

Exactly what is refused: docs/phase-rules.md
",
    "\
rule 8: request lines held and released

An agent that asks goes on asking until its request begins, and releases its
line in the clock after. A line released early wastes the turn. A line held
too long asks for another request.

Mostly wrong: BREQ# goes in the clock of ADS# itself, and not in the clock
after. Or it stays, since the next request already waits: it has to go for
one clock all the same.

Exactly what is refused: docs/phase-rules.md
",
    "\
rule 9: lock begins with a request

The bus is locked for the agent whose request begins in that clock. Without
a request nobody knows for whom.

Mostly wrong: LOCK# comes with BREQ#, or in the second clock of the request.

Exactly what is refused: docs/phase-rules.md
",
    "\
rule 10: address error timing

AERR# cancels the request that began three clocks before. It has no other
way to say which one.

Mostly wrong: the parity check takes a clock more or less, or AERR# lasts
two clocks.

Exactly what is refused: docs/phase-rules.md
",
    "\
rule 11: snoop lines in snoop clocks

HIT#, HITM# and DEFER# belong to a request by their clock alone. It is four
clocks after the first clock, but at the soonest three clocks after the
snoop end before. A stall moves it by two clocks.

Mostly wrong: a cache answers one clock late, holds its answer for two
clocks, or goes on with a stall in the very next clock. Or it answers a
cancelled request.

Exactly what is refused: docs/phase-rules.md
",
    "\
rule 12: snoop results of write-backs and replies

The agent that writes a line back has it alone, so no other cache answers.
Nothing retries or defers a write-back or a reply.

Mostly wrong: two caches hold a modified line, an agent snoops its own
write-back, or the bridge defers all that falls into its window.

Exactly what is refused: docs/phase-rules.md
",
    "\
rule 13: response timing

A response carries no name. The first one belongs to the first request that
was not cancelled, the second one to the next, and so on. Each waits two
clocks after its snoop, and for the end of the request before.

Mostly wrong: RS# lasts two clocks: the second is one response too many. Or
a response comes before the data of the one before have ended, or a
cancelled request is answered. Or HIT# and HITM# together stall the snoop,
and the response counts from the stall.

Exactly what is refused: docs/phase-rules.md
",
    "\
rule 14: response code

What the response may say follows from the snoop. HITM# leads to 110
(implicit write-back), and a write-back to 101 (no data). DEFER# leads to
001 (retry), and with DEN# to 010 (deferred) as well. An upgrade leads to
101 (no data), and everything else to 111 (normal data).

Mostly wrong: memory answers 111 although HITM# was there, or a target
retries without DEFER#.

Exactly what is refused: docs/phase-rules.md
",
    "\
rule 15: target ready

TRDY# says that memory is ready to take data: those of a write-back, or
those that an owner hands over after HITM#. Whoever gives them waits for it.
It lasts one clock for each such request, and the response comes two clocks
after it at the soonest.

Mostly wrong: memory drives TRDY# as soon as it has seen HITM#, one clock
too early. Or it holds TRDY# for two clocks, drives it for a read, or
responds right after it.

Exactly what is refused: docs/phase-rules.md
",
    "\
rule 16: data transfer

Four chunks of eight bytes move, each with DRDY#, from the response on.
DBSY# keeps the data lines until the clock before the last chunk. There may
be clocks between the chunks, as long as DBSY# stays.

Mostly wrong: DBSY# lasts through the last chunk or goes between two chunks,
data come before the response, or a fifth chunk follows.

Exactly what is refused: docs/phase-rules.md
",
    "\
rule 17: known data

Somebody takes the data at each DRDY#, so all 64 bits are known. Without
DRDY# nobody looks at D.

Mostly wrong: a memory model gives x for what was never written, or drives
only the bytes asked for.

Exactly what is refused: docs/phase-rules.md
",
    "\
rule 18: deferred IDs and outstanding requests

A deferred request is answered later by a reply that has its ID. So an ID
means one request at a time, an agent has at most four requests outstanding,
and a reply answers a request that waits.

Mostly wrong: an ID is used again before the reply to it has ended. Or a
reply comes twice, or before the request was deferred. Or an agent forgets
that a deferred request still counts.

Exactly what is refused: docs/phase-rules.md
",
    "\
rule 19: address parity

AP0# and AP1# make the number of asserted lines of their groups even, in
both clocks of a request. The groups are A[23:3] and A[35:24].

Mostly wrong: the model counts high levels and not asserted lines; AP1# and
its group are 13 lines, so that turns the parity. Or it drives parity in the
first clock alone.

Exactly what is refused: docs/phase-rules.md
",
    "\
rule 20: request parity

RP# makes the number of asserted lines of RP#, ADS# and REQ[4:0] even, in
both clocks of a request.

Mostly wrong: ADS# is left out of the count, or high levels are counted: the
group is seven lines.

Exactly what is refused: docs/phase-rules.md
",
];
