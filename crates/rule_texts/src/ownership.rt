//! The texts of the rules of docs/ownership-rules.md. lab/rule_texts.py writes this file, from that page.

/// The titles, in the order of their numbers.
pub(crate) const OWNERSHIP_TITLES: [&str; 11] = [
    "one request per line",
    "write-back by its owner",
    "upgrade of a copy",
    "request for a missing line",
    "HITM# by an owner",
    "HITM# of each owner",
    "HIT# of each holder",
    "HIT# by a holder",
    "write-back of a kept line",
    "snoop result of a reply",
    "pending line kept back",
];

/// The texts, in the same order.
pub(crate) const OWNERSHIP_TEXTS: [&str; 11] = [
    "\
rule 21: one request per line

An agent waits until its request for a line is answered before it asks for
that line again. A deferred request is answered by its reply, and not by the
response that defers it.

Mostly wrong: an agent sends a deferred request once more, as if it had been
retried. Or two units of one agent miss on the same line, and both go to the
bus.

Exactly what is refused: docs/ownership-rules.md
",
    "\
rule 22: write-back by its owner

Only the agent that has a line Modified has bytes to write back. It does not
begin while another agent's request for the line still waits for its snoop,
since that snoop may take the line away.

Mostly wrong: a cache writes back a clean line, or a line that another agent
has taken. Or the write-back was queued when the line was Modified, and
nobody looked again before it began.

Exactly what is refused: docs/ownership-rules.md
",
    "\
rule 23: upgrade of a copy

An upgrade moves no data: the agent keeps the bytes that it has. So it needs
a copy, and one that is Shared, since an Exclusive or a Modified one can be
stored into without asking.

Mostly wrong: the copy was dropped or invalidated while the upgrade waited
for the bus, and the request was not turned into a read for ownership. Or
the kind is decoded wrongly: second REQ 00 makes an upgrade.

Exactly what is refused: docs/ownership-rules.md
",
    "\
rule 24: request for a missing line

An agent reads a line that it does not hold. It reads for ownership a line
that it has neither Exclusive nor Modified. Memory's bytes would overwrite
newer ones of its own.

Mostly wrong: a cache looks a line up in the wrong set, or forgets that it
has a Modified one. Or it asks again while the bytes of its first request
are still under way.

Exactly what is refused: docs/ownership-rules.md
",
    "\
rule 25: HITM# by an owner

HITM# says that another agent has the line Modified and hands it over. Where
nobody can have it, nobody has bytes to hand over.

Mostly wrong: a cache answers HITM# for a clean line, or for one that it has
given away. Or it answers the snoop of its own request.

Exactly what is refused: docs/ownership-rules.md
",
    "\
rule 26: HITM# of each owner

Memory is stale where an agent has the line Modified. If that agent is
silent, the asker gets the stale bytes.

Mostly wrong: a cache snoops its tags before its last store has reached
them. Or it forgets a line that it owns by a request whose data are still to
come: it owns from the snoop end on.

Exactly what is refused: docs/ownership-rules.md
",
    "\
rule 27: HIT# of each holder

HIT# says that another agent keeps a clean copy, so that the asker takes the
line Shared. Without it the asker takes the line Exclusive, and stores into
it without a word.

Mostly wrong: a cache does not answer while its own bytes of the line are
still under way, or while its upgrade waits. It holds the line there, and
cannot have dropped it.

Exactly what is refused: docs/ownership-rules.md
",
    "\
rule 28: HIT# by a holder

HIT# without a holder makes the asker take the line Shared for nothing. It
hides what the caches hold from everybody who reads the bus.

Mostly wrong: a cache answers for an Invalid line whose tag still matches.
Or an owner answers HIT# where HITM# is due.

Exactly what is refused: docs/ownership-rules.md
",
    "\
rule 29: write-back of a kept line

The agent that writes a line back still has it Modified at its snoop end.
Otherwise it writes bytes over newer ones.

Mostly wrong: the same as with rule 22. That one is broken before, so no
verdict names 29.

Exactly what is refused: docs/ownership-rules.md
",
    "\
rule 30: snoop result of a reply

A reply brings the bytes that a deferred request asked for. Whether the line
is shared was decided at the snoop of that request, and HIT# of the reply
says it again.

Mostly wrong: the bridge drives no HIT# at all, or keeps it of the wrong
request.

Exactly what is refused: docs/ownership-rules.md
",
    "\
rule 31: pending line kept back

A deferred line belongs to the agent that waits for its reply. Until then
every other request for it is retried.

Mostly wrong: the bridge forgets a line that it has deferred, lets memory
answer it, or defers it for a second agent.

Exactly what is refused: docs/ownership-rules.md
",
];
