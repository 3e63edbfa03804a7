//! The twenty phase rules. Each function says that its rule is broken at clock `c` of `v`, which is to end there.

ghost use Rattle.std.specs.Prelude.{◌≡◌, ◌^◌, ◌<◌, length};
ghost use Rattle.fsb_trace.specs.Rules.{has_unknown_line, is_request_too_soon, is_code_unlawful, is_queue_full, is_request_blocked, has_no_winner, is_own_id, is_identified, is_identity_wrong, is_asked_wrongly, is_some_asked_wrongly, is_lock_alone, is_error_alone, is_snoop_line_alone, is_result_unfit_for, is_snoop_result_unfit, next_response, may_answer, is_response_early, has_den, is_code_for, responds_soundly, has_code_at, is_code_wrong, is_ready_in_time, is_ready_wrongly, is_target_ready_wrong, is_transferring_of, is_transferring, is_data_wrong, has_unknown_data, awaits_reply, is_id_taken_by, is_outstanding_of_winner, is_begun_wrongly, is_outstanding_wrong, has_parity_at, is_address_parity_wrong, is_request_parity_wrong};

use crate::at::{line_back, request_at, responds_at, response_code_at};
use crate::ending::{is_clear_before, line_at_from, ready_clock_of, takes};
use crate::flight::{count_in_flight, is_answered, is_outstanding};
use crate::outcome::{Outcome, code_of};
use crate::request::{
    have_same_id, is_reply, is_upgrade, is_write_back, live_count, live_request_of,
};
use crate::snoop::{is_at, is_before, is_snoop_clock, line_at_snoop_end, snoop_end_of};
use crate::told::{is_deferred, moves_data, response_clock_of};
use crate::who::Who;
use crate::winner::{begins_at, is_agent, is_same_agent, request_line_of, winner_at};
use fsb_count::{any_where, count_where};
use fsb_encode::Request;
use fsb_signal::{Lines, Sample, line_at};

/// Rule 1, known control lines: one is unknown.
#[tactic(auto, unfolding(crate::specs::Rules::has_unknown_line))]
pub fn has_unknown_line(v: &[Sample], c: usize) -> bool
    ensures { result ≡ has_unknown_line v.now c }
{
    match v.get(c) {
        Some(sample) => !sample.has_known_lines(),
        None => false,
    }
}

/// Rule 2, request spacing.
#[tactic(auto, unfolding(crate::specs::Rules::is_request_too_soon))]
pub fn is_request_too_soon(v: &[Sample], c: usize) -> bool
    ensures { result ≡ is_request_too_soon v.now c }
{
    line_at(Lines::ADS, v, c)
        && (c < 2 || line_back(Lines::ADS, v, c, 1) || line_back(Lines::ADS, v, c, 2))
}

/// Rule 3, lawful codes.
#[tactic(auto, unfolding(crate::specs::Rules::is_code_unlawful))]
pub fn is_code_unlawful(v: &[Sample], c: usize) -> bool
    requires { c < 2 ^ 32 }
    ensures { result ≡ is_code_unlawful v.now c }
{
    line_back(Lines::ADS, v, c, 1) && request_at(v, c.saturating_sub(1)).is_none()
}

/// Rule 4, queue depth.
#[tactic(auto, unfolding(crate::specs::Rules::is_queue_full))]
pub fn is_queue_full(v: &[Sample], c: usize) -> bool
    requires length { length v.now < 2 ^ 32 }
    requires clock { c < 2 ^ 32 }
    ensures { result ≡ is_queue_full v.now c }
{
    line_at(Lines::ADS, v, c) && count_in_flight(v, c) >= 8
}

/// Rule 5, block next request.
#[tactic(auto, unfolding(crate::specs::Rules::is_request_blocked))]
pub fn is_request_blocked(v: &[Sample], c: usize) -> bool
    ensures { result ≡ is_request_blocked v.now c }
{
    line_at(Lines::ADS, v, c) && line_back(Lines::BNR, v, c, 2)
}

/// Rule 6, arbitration winner.
#[tactic(auto, unfolding(crate::specs::Rules::has_no_winner))]
pub fn has_no_winner(v: &[Sample], c: usize) -> bool
    ensures { result ≡ has_no_winner v.now c }
{
    line_at(Lines::ADS, v, c) && winner_at(v, c).is_none()
}

/// Whether the ID is one of this winner's.
#[tactic(auto, unfolding(crate::specs::Rules::is_own_id, fsb_count::specs::Options::is_some_and))]
fn is_own_id(winner: Option<Who>, request: Request) -> bool
    ensures { result ≡ is_own_id winner request }
{
    match winner {
        Some(who) => is_same_agent(Who::Symmetric(request.did / 16), who),
        None => false,
    }
}

/// Whether the request is a reply of the priority agent, or another one with an ID of its winner's.
#[tactic(auto, unfolding(crate::specs::Rules::is_identified, fsb_count::specs::Options::is_some_and))]
fn is_identified(winner: Option<Who>, request: Option<Request>) -> bool
    ensures { result ≡ is_identified winner request }
{
    if is_reply(request) {
        is_agent(winner, Who::Priority)
    } else {
        match request {
            Some(request) => is_own_id(winner, request),
            None => false,
        }
    }
}

/// Rule 7, request identity.
#[tactic(auto, unfolding(crate::specs::Rules::is_identity_wrong))]
pub fn is_identity_wrong(v: &[Sample], c: usize) -> bool
    requires { c < 2 ^ 32 }
    ensures { result ≡ is_identity_wrong v.now c }
{
    let q = c.saturating_sub(1);
    line_back(Lines::ADS, v, c, 1) && !is_identified(winner_at(v, q), request_at(v, q))
}

/// Whether the agent's request line is not held until its request begins, or not released then.
#[tactic(auto, unfolding(crate::specs::Rules::is_asked_wrongly))]
fn is_asked_wrongly(v: &[Sample], c: usize, who: Who) -> bool
    ensures { result ≡ is_asked_wrongly v.now c who }
{
    let line = request_line_of(who);
    if begins_at(v, c.saturating_sub(1), who) {
        c >= 1 && line_at(line, v, c)
    } else {
        line_back(line, v, c, 1) && !line_at(line, v, c)
    }
}

/// Rule 8, request lines held and released.
#[tactic(auto, unfolding(crate::specs::Rules::is_some_asked_wrongly))]
pub fn is_some_asked_wrongly(v: &[Sample], c: usize) -> bool
    ensures { result ≡ is_some_asked_wrongly v.now c }
{
    any_where(4, |a| is_asked_wrongly(v, c, Who::Symmetric(a as u8)))
        || is_asked_wrongly(v, c, Who::Priority)
}

/// Rule 9, lock begins with a request.
#[tactic(auto, unfolding(crate::specs::Rules::is_lock_alone))]
pub fn is_lock_alone(v: &[Sample], c: usize) -> bool
    ensures { result ≡ is_lock_alone v.now c }
{
    line_at(Lines::LOCK, v, c) && !line_back(Lines::LOCK, v, c, 1) && !line_at(Lines::ADS, v, c)
}

/// Rule 10, address error timing.
#[tactic(auto, unfolding(crate::specs::Rules::is_error_alone))]
pub fn is_error_alone(v: &[Sample], c: usize) -> bool
    ensures { result ≡ is_error_alone v.now c }
{
    line_at(Lines::AERR, v, c) && !line_back(Lines::ADS, v, c, 3)
}

/// Rule 11, snoop lines in snoop clocks.
#[tactic(auto, unfolding(crate::specs::Rules::is_snoop_line_alone))]
pub fn is_snoop_line_alone(v: &[Sample], c: usize) -> bool
    requires { length v.now < 2 ^ 32 }
    ensures { result ≡ is_snoop_line_alone v.now c }
{
    (line_at(Lines::HIT, v, c) || line_at(Lines::HITM, v, c) || line_at(Lines::DEFER, v, c))
        && !is_snoop_clock(v, c)
}

/// Whether live request `i` has its snoop end at `c` with a result that does not fit it.
#[tactic(auto, unfolding(crate::specs::Rules::is_result_unfit_for))]
fn is_result_unfit_for(v: &[Sample], c: usize, i: usize) -> bool
    requires { length v.now < 2 ^ 32 }
    ensures { result ≡ is_result_unfit_for v.now c i }
{
    let request = live_request_of(v, i);
    let writes_back = is_write_back(request);
    let is_unfit = (writes_back || is_reply(request))
        && (line_at(Lines::HITM, v, c) || line_at(Lines::DEFER, v, c))
        || writes_back && line_at(Lines::HIT, v, c);
    is_at(snoop_end_of(v, i), c) && is_unfit
}

/// Rule 12, snoop results of write-backs and replies.
#[tactic(auto, unfolding(crate::specs::Rules::is_snoop_result_unfit))]
pub fn is_snoop_result_unfit(v: &[Sample], c: usize) -> bool
    requires { length v.now < 2 ^ 32 }
    ensures { result ≡ is_snoop_result_unfit v.now c }
{
    any_where(live_count(v), |i| is_result_unfit_for(v, c, i))
}

/// The number of the live request that responds next at `c`.
#[tactic(auto, unfolding(crate::specs::Rules::next_response))]
fn next_response(v: &[Sample], c: usize) -> usize
    ensures { result ≡ next_response v.now c }
{
    count_where(c, |d| responds_at(v, d))
}

/// Whether live request `i` has its snoop end at least two clocks before `c`, and the request before it has ended.
#[tactic(auto, unfolding(crate::specs::Rules::may_answer, fsb_count::specs::Options::is_some_and))]
fn may_answer(v: &[Sample], c: usize, i: usize) -> bool
    requires { length v.now < 2 ^ 32 }
    ensures { result ≡ may_answer v.now c i }
{
    match snoop_end_of(v, i) {
        Some(s) => s + 2 <= c && is_clear_before(v, i, c),
        None => false,
    }
}

/// Rule 13, response timing.
#[tactic(auto, unfolding(crate::specs::Rules::is_response_early))]
pub fn is_response_early(v: &[Sample], c: usize) -> bool
    requires { length v.now < 2 ^ 32 }
    ensures { result ≡ is_response_early v.now c }
{
    responds_at(v, c) && !may_answer(v, c, next_response(v, c))
}

/// Whether DEN# was asserted with the request.
#[tactic(auto, unfolding(crate::specs::Rules::has_den, fsb_count::specs::Options::is_some_and))]
fn has_den(request: Option<Request>) -> bool
    ensures { result ≡ has_den request }
{
    match request {
        Some(request) => request.den,
        None => false,
    }
}

/// Whether the code is the one for live request `i`.
#[tactic(auto, unfolding(crate::specs::Rules::is_code_for))]
fn is_code_for(v: &[Sample], i: usize, code: u8) -> bool
    requires { length v.now < 2 ^ 32 }
    ensures { result ≡ is_code_for v.now i code }
{
    let request = live_request_of(v, i);
    if line_at_snoop_end(Lines::HITM, v, i) {
        code == code_of(Outcome::Handed)
    } else if is_write_back(request) {
        code == code_of(Outcome::Written)
    } else if line_at_snoop_end(Lines::DEFER, v, i) {
        code == code_of(Outcome::Retried) || has_den(request) && code == code_of(Outcome::Deferred)
    } else if is_upgrade(request) {
        code == code_of(Outcome::Upgraded)
    } else {
        code == code_of(Outcome::Granted)
    }
}

/// Whether RS# is neither idle nor a hard failure at `c`.
#[tactic(auto, unfolding(crate::specs::Rules::responds_soundly))]
fn responds_soundly(v: &[Sample], c: usize) -> bool
    ensures { result ≡ responds_soundly v.now c }
{
    responds_at(v, c) && response_code_at(v, c) != code_of(Outcome::Failed)
}

/// Whether there is a live request `i` and the code at `c` is the one for it.
#[tactic(auto, unfolding(crate::specs::Rules::has_code_at))]
fn has_code_at(v: &[Sample], c: usize, i: usize) -> bool
    requires { length v.now < 2 ^ 32 }
    ensures { result ≡ has_code_at v.now c i }
{
    i < live_count(v) && is_code_for(v, i, response_code_at(v, c))
}

/// Rule 14, response code.
#[tactic(auto, unfolding(crate::specs::Rules::is_code_wrong))]
pub fn is_code_wrong(v: &[Sample], c: usize) -> bool
    requires { length v.now < 2 ^ 32 }
    ensures { result ≡ is_code_wrong v.now c }
{
    responds_soundly(v, c) && !has_code_at(v, c, next_response(v, c))
}

/// Whether the target of live request `i` is ready at least two clocks before `c`.
#[tactic(auto, unfolding(crate::specs::Rules::is_ready_in_time, fsb_count::specs::Options::is_some_and))]
fn is_ready_in_time(v: &[Sample], c: usize, i: usize) -> bool
    requires { length v.now < 2 ^ 32 }
    ensures { result ≡ is_ready_in_time v.now c i }
{
    match ready_clock_of(v, i) {
        Some(y) => y + 2 <= c,
        None => false,
    }
}

/// Whether TRDY# at `c` is not for live request `i`.
#[tactic(auto, unfolding(crate::specs::Rules::is_ready_wrongly))]
fn is_ready_wrongly(v: &[Sample], c: usize, i: usize) -> bool
    requires { length v.now < 2 ^ 32 }
    ensures { result ≡ is_ready_wrongly v.now c i }
{
    !(takes(v, i) && may_answer(v, c, i)) || is_before(ready_clock_of(v, i), c)
}

/// Rule 15, target ready.
#[tactic(auto, unfolding(crate::specs::Rules::is_target_ready_wrong))]
pub fn is_target_ready_wrong(v: &[Sample], c: usize) -> bool
    requires { length v.now < 2 ^ 32 }
    ensures { result ≡ is_target_ready_wrong v.now c }
{
    let i = next_response(v, c);
    line_at(Lines::TRDY, v, c) && is_ready_wrongly(v, c, i)
        || responds_soundly(v, c) && takes(v, i) && !is_ready_in_time(v, c, i)
}

/// Whether the data of live request `i` move, and fewer than four of its chunks came below `n`.
#[tactic(auto, unfolding(crate::specs::Rules::is_transferring_of, fsb_count::specs::Options::is_some_and))]
fn is_transferring_of(v: &[Sample], n: usize, i: usize) -> bool
    requires { length v.now < 2 ^ 32 }
    ensures { result ≡ is_transferring_of v.now n i }
{
    match response_clock_of(v, i) {
        Some(r) => moves_data(v, i) && count_where(n, |d| line_at_from(Lines::DRDY, v, r, d)) < 4,
        None => false,
    }
}

/// Whether the data of some live request move, and fewer than four of its chunks came below `n`.
#[tactic(auto, unfolding(crate::specs::Rules::is_transferring))]
fn is_transferring(v: &[Sample], n: usize) -> bool
    requires { length v.now < 2 ^ 32 }
    ensures { result ≡ is_transferring v.now n }
{
    any_where(live_count(v), |i| is_transferring_of(v, n, i))
}

/// Rule 16, data transfer.
#[tactic(auto, unfolding(crate::specs::Rules::is_data_wrong))]
pub fn is_data_wrong(v: &[Sample], c: usize) -> bool
    requires length { length v.now < 2 ^ 32 }
    requires clock { c < 2 ^ 32 }
    ensures { result ≡ is_data_wrong v.now c }
{
    line_at(Lines::DRDY, v, c) && !is_transferring(v, c)
        || !line_at(Lines::DBSY, v, c) && is_transferring(v, c + 1)
        || line_at(Lines::DBSY, v, c) && !is_transferring(v, c + 1)
}

/// Rule 17, known data.
#[tactic(auto, unfolding(crate::specs::Rules::has_unknown_data))]
pub fn has_unknown_data(v: &[Sample], c: usize) -> bool
    ensures { result ≡ has_unknown_data v.now c }
{
    match v.get(c) {
        Some(sample) => line_at(Lines::DRDY, v, c) && !sample.dbus.is_known(),
        None => false,
    }
}

/// Whether live request `i` may be answered by a reply that begins at `q`.
#[tactic(auto, unfolding(crate::specs::Rules::awaits_reply))]
fn awaits_reply(v: &[Sample], q: usize, i: usize) -> bool
    requires length { length v.now < 2 ^ 32 }
    requires clock { q < 2 ^ 32 }
    ensures { result ≡ awaits_reply v.now q i }
{
    is_deferred(v, i)
        && have_same_id(live_request_of(v, i), request_at(v, q))
        && is_before(response_clock_of(v, i), q)
        && !is_answered(v, q, i)
}

/// Whether the request that begins at `p` is outstanding at `q`, and has the ID of the one that begins there.
#[tactic(auto, unfolding(crate::specs::Rules::is_id_taken_by))]
fn is_id_taken_by(v: &[Sample], q: usize, p: usize) -> bool
    requires length { length v.now < 2 ^ 32 }
    requires clock { q < 2 ^ 32 }
    requires other { p < 2 ^ 32 }
    ensures { result ≡ is_id_taken_by v.now q p }
{
    is_outstanding(v, q, p) && have_same_id(request_at(v, p), request_at(v, q))
}

/// Whether the request that begins at `p` is outstanding at `q`, and is of the agent that begins one there.
#[tactic(auto, unfolding(crate::specs::Rules::is_outstanding_of_winner, fsb_count::specs::Options::is_some_and))]
fn is_outstanding_of_winner(v: &[Sample], q: usize, p: usize) -> bool
    requires length { length v.now < 2 ^ 32 }
    requires clock { p < 2 ^ 32 }
    ensures { result ≡ is_outstanding_of_winner v.now q p }
{
    match winner_at(v, q) {
        Some(who) => is_outstanding(v, q, p) && is_agent(winner_at(v, p), who),
        None => false,
    }
}

/// Whether the request that begins at `q` is a reply that none awaits, has an ID that is taken, or is a fifth one.
#[tactic(auto, unfolding(crate::specs::Rules::is_begun_wrongly))]
fn is_begun_wrongly(v: &[Sample], q: usize) -> bool
    requires length { length v.now < 2 ^ 32 }
    requires clock { q < 2 ^ 32 }
    ensures { result ≡ is_begun_wrongly v.now q }
{
    if is_reply(request_at(v, q)) {
        !any_where(live_count(v), |i| awaits_reply(v, q, i))
    } else {
        any_where(q, |p| is_id_taken_by(v, q, p))
            || count_where(q, |p| is_outstanding_of_winner(v, q, p)) >= 4
    }
}

/// Rule 18, deferred IDs and outstanding requests.
#[tactic(auto, unfolding(crate::specs::Rules::is_outstanding_wrong))]
pub fn is_outstanding_wrong(v: &[Sample], c: usize) -> bool
    requires length { length v.now < 2 ^ 32 }
    requires clock { c < 2 ^ 32 }
    ensures { result ≡ is_outstanding_wrong v.now c }
{
    line_back(Lines::ADS, v, c, 1) && is_begun_wrongly(v, c.saturating_sub(1))
}

/// Whether ADS# is asserted at `c` or at `c - 1`: one of the two clocks of a request, which have parity.
#[tactic(auto, unfolding(crate::specs::Rules::has_parity_at))]
fn has_parity_at(v: &[Sample], c: usize) -> bool
    ensures { result ≡ has_parity_at v.now c }
{
    line_at(Lines::ADS, v, c) || line_back(Lines::ADS, v, c, 1)
}

/// Rule 19, address parity.
#[tactic(auto, unfolding(crate::specs::Rules::is_address_parity_wrong))]
pub fn is_address_parity_wrong(v: &[Sample], c: usize) -> bool
    ensures { result ≡ is_address_parity_wrong v.now c }
{
    match v.get(c) {
        Some(sample) => has_parity_at(v, c) && sample.is_address_odd(),
        None => false,
    }
}

/// Rule 20, request parity.
#[tactic(auto, unfolding(crate::specs::Rules::is_request_parity_wrong))]
pub fn is_request_parity_wrong(v: &[Sample], c: usize) -> bool
    ensures { result ≡ is_request_parity_wrong v.now c }
{
    match v.get(c) {
        Some(sample) => has_parity_at(v, c) && sample.is_request_odd(),
        None => false,
    }
}
