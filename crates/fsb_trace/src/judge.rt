//! The verdict on a trace, clock by clock and rule by rule.

ghost use Rattle.std.specs.Prelude.{◌≡◌, ◌^◌, ◌<◌, length, IfSome};
ghost use Rattle.fsb_trace.specs.Rules.{breaks};
ghost use Rattle.fsb_trace.specs.Verdict.{is_broken, least_rule, breaks_a_rule, verdict};

use crate::rules::{
    has_no_winner, has_unknown_data, has_unknown_line, is_address_parity_wrong, is_code_unlawful,
    is_code_wrong, is_data_wrong, is_error_alone, is_identity_wrong, is_lock_alone,
    is_outstanding_wrong, is_queue_full, is_request_blocked, is_request_parity_wrong,
    is_request_too_soon, is_response_early, is_snoop_line_alone, is_snoop_result_unfit,
    is_some_asked_wrongly, is_target_ready_wrong,
};
use fsb_count::first_where;
use fsb_signal::{Marks, Sample};

/// Whether rule `j` is broken at the last clock `c` of `v`, in a dump with these marks.
#[tactic(auto, using(crate::proofs::RuleSteps::rule_steps))]
fn breaks(marks: Marks, v: &[Sample], c: usize, j: usize) -> bool
    requires length { length v.now < 2 ^ 32 }
    requires clock { c < 2 ^ 32 }
    ensures { result ≡ breaks marks v.now c j }
{
    match j {
        1 => has_unknown_line(v, c),
        2 => is_request_too_soon(v, c),
        3 => is_code_unlawful(v, c),
        4 => is_queue_full(v, c),
        5 => is_request_blocked(v, c),
        6 => has_no_winner(v, c),
        7 => is_identity_wrong(v, c),
        8 => is_some_asked_wrongly(v, c),
        9 => is_lock_alone(v, c),
        10 => is_error_alone(v, c),
        11 => is_snoop_line_alone(v, c),
        12 => is_snoop_result_unfit(v, c),
        13 => is_response_early(v, c),
        14 => is_code_wrong(v, c),
        15 => is_target_ready_wrong(v, c),
        16 => is_data_wrong(v, c),
        17 => has_unknown_data(v, c),
        18 => is_outstanding_wrong(v, c),
        19 => marks.ap && is_address_parity_wrong(v, c),
        20 => marks.rp && is_request_parity_wrong(v, c),
        _ => false,
    }
}

/// Whether rule `j` is broken at clock `c` of the trace, judged over the first `c + 1` samples.
#[tactic(auto, unfolding(crate::specs::Verdict::is_broken))]
fn is_broken(marks: Marks, w: &[Sample], c: usize, j: usize) -> bool
    requires length { length w.now < 2 ^ 32 }
    requires clock { c < length w.now }
    ensures { result ≡ is_broken marks w.now c j }
{
    breaks(marks, &w[..c + 1], c, j)
}

/// The least rule that is broken at `c`.
#[tactic(auto, unfolding(crate::specs::Verdict::least_rule))]
fn least_rule(marks: Marks, w: &[Sample], c: usize) -> Option<usize>
    requires length { length w.now < 2 ^ 32 }
    requires clock { c < length w.now }
    ensures value { result ≡ least_rule marks w.now c }
    ensures below { IfSome result (λ j. j < 21) }
{
    first_where(21, |j| is_broken(marks, w, c, j))
}

/// Whether some rule is broken at `c`.
#[tactic(auto, unfolding(crate::specs::Verdict::breaks_a_rule))]
fn breaks_a_rule(marks: Marks, w: &[Sample], c: usize) -> bool
    requires length { length w.now < 2 ^ 32 }
    requires clock { c < length w.now }
    ensures { result ≡ breaks_a_rule marks w.now c }
{
    least_rule(marks, w, c).is_some()
}

/// The least clock with a broken rule and, there, the least rule; none where the trace is accepted. The marks say which
/// of the two parity lines the dump of the trace declares, so that their rule is judged.
#[tactic(auto, unfolding(crate::specs::Verdict::verdict))]
pub fn verdict(marks: Marks, w: &[Sample]) -> Option<(u32, u8)>
    requires { length w.now < 2 ^ 32 }
    ensures { result ≡ verdict marks w.now }
{
    match first_where(w.len(), |c| breaks_a_rule(marks, w, c)) {
        Some(c) => match least_rule(marks, w, c) {
            Some(j) => Some((c as u32, j as u8)),
            None => None,
        },
        None => None,
    }
}
