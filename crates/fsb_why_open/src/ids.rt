//! Rule 18, deferred IDs and outstanding requests.

ghost use Rattle.std.specs.Prelude.{◌≡◌, ◌+◌, nat_le, true, false, [], ◌∷◌, ◌++◌, Option};
ghost use Rattle.std.specs.List.{count_by, find, list_any};
ghost use Rattle.fsb_signal.specs.declared.marks.Marks.{Marks};
ghost use Rattle.fsb_signal.specs.declared.sample.Sample.{Sample};
ghost use Rattle.fsb_trace.specs.declared.who.Who.{Who};
ghost use Rattle.fsb_encode.specs.declared.request.Request.{Request};
ghost use Rattle.fsb_trace.specs.At.{Trace};
ghost use Rattle.fsb_trace.specs.Requests.{is_reply};
ghost use Rattle.fsb_trace.specs.Rules.{is_id_taken_by, is_outstanding_of_winner};
ghost use Rattle.fsb_count.specs.Clocks.{any_where, count_where};
ghost use Rattle.fsb_why.specs.Explains.{Explains, Tells, either_reason};
ghost use Rattle.fsb_why_open.specs.Open.{IsFirstClock, IsAfter, is_row_answered, is_row_answering, is_row_of, is_row_unfinished, is_row_reply_to, row_awaits, row_takes};

use crate::words::{have_same_id, is_agent, is_before, is_reply, number};
use fsb_encode::Request;
use fsb_owner_feed::Table;
use fsb_owner_table::Row;
use fsb_reasons::Reason;
use fsb_signal::Sample;
use fsb_trace::Who;

/// Whether the other request is a reply to the one of the row.
fn is_reply_to(row: &Row, other: &Row) -> bool
    ensures { result ≡ is_row_reply_to row.now other.now }
{
    other.is_reply()
        && (have_same_id(other.seen.request, row.seen.request)
            && is_before(row.response, other.seen.clock))
}

/// Whether it is one that was cancelled, and is in flight at the clock all the same.
fn is_answering(row: &Row, other: &Row, clock: u32) -> bool
    ensures { result ≡ is_row_answering row.now clock other.now }
{
    other.seen.cancelled && (!other.has_left(clock) && is_reply_to(row, other))
}

/// Whether one of the requests is.
fn some_answering(rows: &[Row], row: &Row, clock: u32) -> bool
    ensures { result ≡ list_any (is_row_answering row.now clock) rows.now }
{
    rows.iter().any(|other| is_answering(row, other, clock))
}

/// Whether a reply to the request of the row is live, or in flight at the clock.
fn is_answered(rows: &[Row], row: &Row, clock: u32) -> bool
    ensures { result ≡ is_row_answered rows.now clock row.now }
{
    row.reply.is_some() || some_answering(rows, row, clock)
}

/// Whether a reply of this kind may begin at the clock for the request of the row.
fn awaits(rows: &[Row], row: &Row, clock: u32, reply: Option<Request>) -> bool
    ensures { result ≡ row_awaits rows.now clock reply row.now }
{
    row.is_deferred()
        && (have_same_id(row.seen.request, reply)
            && (is_before(row.response, clock) && !is_answered(rows, row, clock)))
}

/// Whether one of the requests awaits it.
fn is_awaited(rows: &[Row], clock: u32, reply: Option<Request>) -> bool
    ensures { result ≡ list_any (row_awaits rows.now clock reply) rows.now }
{
    rows.iter().any(|row| awaits(rows, row, clock, reply))
}

/// Whether the request of the row is outstanding at the clock.
fn is_outstanding(row: &Row, clock: u32) -> bool
    ensures { result ≡ is_row_unfinished clock row.now }
{
    !row.is_reply() && !row.is_closed(clock)
}

/// The first row of an outstanding request that has the ID of this one.
fn first_taking(rows: &[Row], clock: u32, request: Option<Request>) -> Option<Row>
    ensures { result ≡ find (row_takes clock request) rows.now }
{
    rows.iter().copied().find(|row| is_outstanding(row, clock)
        && have_same_id(row.seen.request, request))
}

/// How many of the outstanding requests are of the agent.
fn count_of(rows: &[Row], clock: u32, who: Who) -> usize
    ensures { result ≡ count_by (is_row_of clock who) rows.now }
{
    rows.iter()
        .filter(|row| is_outstanding(row, clock) && is_agent(row.seen.who, who))
        .count()
}

/// Why the reply, which begins at the clock, answers nobody.
fn unawaited(rows: &[Row], clock: u32, reply: Option<Request>) -> Option<Reason>
    ensures { (m : Marks) (h : Trace) (x : Sample) (who : Option Who) →
        IsFirstClock rows.now clock who reply h x → is_reply reply ≡ true →
        Explains m (h ++ x ∷ []) (clock + 1) 18 result }
{
    if is_awaited(rows, clock, reply) {
        None
    } else {
        match reply {
            Some(reply) => Some(Reason::ReplyUnawaited { did: reply.did }),
            None => None,
        }
    }
}

/// Why the request, which begins at the clock and is no reply, may not have its ID.
fn taken(rows: &[Row], clock: u32, request: Option<Request>) -> Option<Reason>
    ensures { (m : Marks) (h : Trace) (x : Sample) (who : Option Who) →
        IsFirstClock rows.now clock who request h x → is_reply request ≡ false →
        Tells m (h ++ x ∷ []) (clock + 1) 18
        (any_where (is_id_taken_by (h ++ x ∷ []) clock) clock) result }
{
    match first_taking(rows, clock, request) {
        Some(row) => match request {
            Some(request) => Some(Reason::IdTaken {
                did: request.did,
                by: row.seen.clock,
            }),
            None => None,
        },
        None => None,
    }
}

/// Why the request, which begins at the clock and is no reply, is one too many of its agent.
fn too_many(rows: &[Row], clock: u32, who: Option<Who>) -> Option<Reason>
    ensures { (m : Marks) (h : Trace) (x : Sample) (request : Option Request) →
        IsFirstClock rows.now clock who request h x → is_reply request ≡ false →
        Tells m (h ++ x ∷ []) (clock + 1) 18
        (nat_le 4 (count_where (is_outstanding_of_winner (h ++ x ∷ []) clock) clock)) result }
{
    match who {
        Some(who) => {
            let outstanding = number(count_of(rows, clock, who));
            if outstanding >= 4 {
                Some(Reason::TooMany { who, outstanding })
            } else {
                None
            }
        }
        None => None,
    }
}

/// The first of two reasons that is there.
fn first_of(first: Option<Reason>, second: Option<Reason>) -> Option<Reason>
    ensures { result ≡ either_reason first second }
{
    match first {
        Some(reason) => Some(reason),
        None => second,
    }
}

/// Why the request begins wrongly at the clock.
fn begun_wrongly(
    rows: &[Row],
    clock: u32,
    who: Option<Who>,
    request: Option<Request>,
) -> Option<Reason>
    ensures { (m : Marks) (h : Trace) (x : Sample) → IsFirstClock rows.now clock who request h x →
        Explains m (h ++ x ∷ []) (clock + 1) 18 result }
{
    if is_reply(request) {
        unawaited(rows, clock, request)
    } else {
        first_of(taken(rows, clock, request), too_many(rows, clock, who))
    }
}

/// Rule 18, deferred IDs and outstanding requests, of the sample of this clock, which comes after
/// those of the table.
pub fn outstanding(table: &Table, clock: u32, sample: &Sample) -> Option<Reason>
    ensures { (m : Marks) (h : Trace) → IsAfter table.now clock h →
        Explains m (h ++ sample.now ∷ []) clock 18 result }
{
    match table.begun_last() {
        Some(begun) => begun_wrongly(
            table.rows(),
            clock.saturating_sub(1),
            begun.who,
            begun.request(sample),
        ),
        None => None,
    }
}
