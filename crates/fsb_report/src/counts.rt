//! The requests of a trace, counted by their kinds.
ghost use Rattle.std.specs.Prelude.{◌≡◌, ◌<◌, ◌^◌, ◌+◌, if◌then◌else◌, length};
ghost use Rattle.fsb_trace.specs.Requests.{is_reply, is_write_back};
ghost use Rattle.fsb_report.specs.RequestCounts.{is_read, is_invalidate, request_begun_at, request_counts};
ghost use Rattle.fsb_report.specs.SummaryText.{request_total};

use fsb_encode::{Kind, Request};
use fsb_signal::{Lines, Sample, line_at};
use fsb_trace::request_at;

/// How many requests of each kind a trace has. An upgrade counts in none of them.
#[derive(Clone, Copy, Debug, PartialEq, Eq)]
pub struct RequestCounts {
    pub reads: u32,
    /// The reads and invalidates.
    pub invalidates: u32,
    pub writebacks: u32,
    pub replies: u32,
}

impl RequestCounts {
    // The sum of the four.
    #[tactic(auto, unfolding(crate::specs::SummaryText::request_total))]
    pub(crate) fn total(&self) -> u64
        ensures value { result ≡ request_total self.now }
    {
        u64::from(self.reads)
            + u64::from(self.invalidates)
            + u64::from(self.writebacks)
            + u64::from(self.replies)
    }

    // Counts the request, if there is one.
    #[tactic(auto, unfolding(crate::specs::RequestCounts::is_read, crate::specs::RequestCounts::is_read_kind, crate::specs::RequestCounts::is_invalidate, crate::specs::RequestCounts::is_invalidate_kind, fsb_trace::specs::Requests::is_reply, fsb_trace::specs::Requests::is_reply_kind, fsb_trace::specs::Requests::is_write_back, fsb_trace::specs::Requests::is_write_back_kind, fsb_count::specs::Options::is_some_and))]
    fn add(&mut self, request: Option<Request>)
        requires reads { self.old.reads + 1 < 2 ^ 32 }
        requires invalidates { self.old.invalidates + 1 < 2 ^ 32 }
        requires writebacks { self.old.writebacks + 1 < 2 ^ 32 }
        requires replies { self.old.replies + 1 < 2 ^ 32 }
        ensures reads { self.new.reads ≡ self.old.reads + (if is_read request then 1 else 0) }
        ensures invalidates { self.new.invalidates
            ≡ self.old.invalidates + (if is_invalidate request then 1 else 0) }
        ensures writebacks { self.new.writebacks
            ≡ self.old.writebacks + (if is_write_back request then 1 else 0) }
        ensures replies { self.new.replies
            ≡ self.old.replies + (if is_reply request then 1 else 0) }
    {
        if let Some(request) = request {
            match request.kind {
                Kind::Read => self.reads += 1,
                Kind::Invalidate => self.invalidates += 1,
                Kind::WriteBack => self.writebacks += 1,
                Kind::Reply => self.replies += 1,
                Kind::Upgrade => {}
            }
        }
    }
}

/// How many requests of each kind the trace has, cancelled ones too; a request whose second clock is not in the trace
/// does not count. Each clock is looked at once, and with the next where a request begins. It takes no memory.
pub fn request_counts(w: &[Sample]) -> RequestCounts
    requires { length w.now < 2 ^ 32 }
    ensures { result ≡ request_counts w.now }
{
    let mut counts = RequestCounts {
        reads: 0,
        invalidates: 0,
        writebacks: 0,
        replies: 0,
    };
    for q in 0..w.len() {
        counts.add(request_begun_at(w, q));
    }
    counts
}

// The request whose first clock is `q`, where its second clock is in the trace and the two hold one.
#[tactic(auto, unfolding(crate::specs::RequestCounts::request_begun_at))]
fn request_begun_at(w: &[Sample], q: usize) -> Option<Request>
    requires { q < 2 ^ 32 }
    ensures { result ≡ request_begun_at w.now q }
{
    if line_at(Lines::ADS, w, q) {
        request_at(w, q)
    } else {
        None
    }
}
