//! What is kept between one request of a trace and the next.
ghost use Rattle.std.specs.Prelude.{◌≡◌, ℕ, ◌+◌, ◌<◌, ◌^◌, Some, true, length, IfSome};
ghost use Rattle.fsb_signal.specs.declared.lines.TheConstants.Lines.{ADS};
ghost use Rattle.fsb_signal.specs.Samples.{line_at};
ghost use Rattle.fsb_trace.specs.At.{Trace, request_at};
ghost use Rattle.fsb_trace.specs.Outcome.{response_clock_of};
ghost use Rattle.fsb_trace.specs.Requests.{live_clock_of, live_number_of, seen_at};
ghost use Rattle.fsb_trace.specs.Snoop.{snoop_end_from, snoop_end_of};
ghost use Rattle.fsb_table.specs.Going.{Stands};
ghost use Rattle.fsb_table.specs.Rows.{live_row, row_at};

use crate::row::{Row, cancelled_row};
use crate::search::nth_from;
use crate::told::{end_clock, told_outcome};
use fsb_signal::Sample;
use fsb_trace::{Seen, ends_snoop, responds_at};

/// How far the live requests were gone through.
#[derive(Clone, Copy, Debug, PartialEq, Eq)]
pub struct Going {
    /// The clock from which the next snoop may start, by the snoop end before it; none where that
    /// is not reached.
    clear: Option<usize>,
    /// The clock from which the next response is looked for.
    unanswered: usize,
}

/// The end of a snoop that starts there.
#[tactic(auto, using(crate::proofs::Snoops::snoop_search))]
fn snoop_end_from(w: &[Sample], start: usize) -> Option<usize>
    ensures value { result ≡ snoop_end_from w.now start }
    ensures below { IfSome result (λ s. s < length w.now) }
{
    nth_from(start, 0, w.len(), |c| ends_snoop(w, start, c))
}

/// The number as a clock.
fn as_clock(number: Option<usize>) -> Option<u32>
    requires { IfSome number (λ n. n < 2 ^ 32) }
    ensures { result ≡ number }
{
    match number {
        Some(n) => Some(n as u32),
        None => None,
    }
}

impl Going {
    /// Before the first request.
    pub fn new() -> Going
        ensures { (w : Trace) → Stands result w 0 }
    {
        Going {
            clear: Some(0),
            unanswered: 0,
        }
    }

    /// The snoop end of the next live request, which begins at `q`.
    fn snoop_end(&self, w: &[Sample], q: usize) -> Option<usize>
        requires { q < 2 ^ 32 }
        ensures value { (i : ℕ) → Stands self.now w.now i → live_clock_of w.now i ≡ Some q →
            result ≡ snoop_end_of w.now i }
        ensures below { IfSome result (λ s. s < length w.now) }
    {
        match self.clear {
            Some(clear) => snoop_end_from(w, (q + 4).max(clear)),
            None => None,
        }
    }

    /// The response clock of the next live request.
    fn response(&self, w: &[Sample]) -> Option<usize>
        ensures value { (i : ℕ) → Stands self.now w.now i → result ≡ response_clock_of w.now i }
        ensures below { IfSome result (λ r. r < length w.now) }
    {
        nth_from(self.unanswered, 0, w.len(), |c| responds_at(w, c))
    }

    /// Goes past a live request with this snoop end and this response.
    fn pass(&mut self, w: &[Sample], snoop: Option<usize>, response: Option<usize>)
        requires few { length w.now < 2 ^ 32 }
        requires snoop { IfSome snoop (λ s. s < length w.now) }
        requires response { IfSome response (λ r. r < length w.now) }
        ensures { (i : ℕ) → Stands self.old w.now i → snoop ≡ snoop_end_of w.now i →
            response ≡ response_clock_of w.now i →
            Stands self.new w.now (i + 1) }
    {
        self.clear = match snoop {
            Some(s) => Some(s + 3),
            None => None,
        };
        self.unanswered = match response {
            Some(r) => r + 1,
            None => w.len(),
        };
    }

    /// The row of the next live request, which is seen so; goes past it.
    fn live_row(&mut self, w: &[Sample], seen: Seen) -> Row
        requires { length w.now < 2 ^ 32 }
        ensures row { (i : ℕ) → Stands self.old w.now i →
            live_clock_of w.now i ≡ Some seen.clock →
            seen.request ≡ request_at w.now seen.clock →
            result ≡ live_row w.now i seen }
        ensures stands { (i : ℕ) → Stands self.old w.now i →
            live_clock_of w.now i ≡ Some seen.clock →
            Stands self.new w.now (i + 1) }
    {
        let snoop = self.snoop_end(w, seen.clock as usize);
        let response = self.response(w);
        self.pass(w, snoop, response);
        let outcome = told_outcome(w, snoop, seen.request, response);
        Row {
            seen,
            snoop: as_clock(snoop),
            response: as_clock(response),
            end: as_clock(end_clock(w, outcome, response)),
            outcome,
        }
    }

    /// The row of the next request, which begins at `q` and is seen so; goes past it, if it is
    /// live.
    pub fn row(&mut self, w: &[Sample], seen: Seen) -> Row
        requires { length w.now < 2 ^ 32 }
        ensures row { (q : ℕ) → seen ≡ seen_at w.now q → line_at ADS w.now q ≡ true →
            Stands self.old w.now (live_number_of w.now q) →
            result ≡ row_at w.now q }
        ensures stands { (q : ℕ) → seen ≡ seen_at w.now q → line_at ADS w.now q ≡ true →
            Stands self.old w.now (live_number_of w.now q) →
            Stands self.new w.now (live_number_of w.now (q + 1)) }
    {
        if seen.cancelled {
            cancelled_row(seen)
        } else {
            self.live_row(w, seen)
        }
    }
}
