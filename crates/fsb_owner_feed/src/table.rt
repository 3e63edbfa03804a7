//! The table: what happens with the next sample, and the table after it.

ghost use Rattle.std.specs.Prelude.{◌≡◌, ◌<◌, ◌≤◌, ◌+◌, ◌^◌, nat_le, false, Some, ◌∷◌, ◌++◌, [], length, ◌&&◌, is_none, is_some, OnOk, IfOk};
ghost use Rattle.std.specs.Option.{option_map};
ghost use Rattle.fsb_count.specs.Options.{is_some_and};
ghost use Rattle.fsb_signal.specs.declared.lines.TheConstants.Lines.{TRDY};
ghost use Rattle.fsb_signal.specs.Samples.{has_line};
ghost use Rattle.fsb_trace.specs.At.{Trace};
ghost use Rattle.fsb_trace.specs.Requests.{live_clock_of};
ghost use Rattle.fsb_trace.specs.Snoop.{snoop_end_of, snoop_start_of};
ghost use Rattle.fsb_trace.specs.Response.{end_of, ready_clock_of};
ghost use Rattle.fsb_laws.specs.OneMore.{responds};
ghost use Rattle.fsb_laws.specs.Orderly.{Orderly};
ghost use Rattle.fsb_laws.specs.Progress.{ends_snoop_of, may_answer_next, response_count, transfer_of};
ghost use Rattle.fsb_heads.specs.Heads.{Stands as HeadsStands, snooped_count};
ghost use Rattle.fsb_owner_table.specs.Happened.{Happens, begun_row};
ghost use Rattle.fsb_owner_table.specs.Kept.{rows_of};
ghost use Rattle.fsb_owner_feed.specs.Begins.{SaysBegins};
ghost use Rattle.fsb_owner_feed.specs.Table.{ComesNext, IsReached, IsRowOf, SaysAnswered, SaysAsking, SaysMoving, SaysWaiting, Stands, fed, moves_by};

use crate::begins::FirstClock;
use crate::found::{first_asking, first_moving, first_waiting, is_snooped_two_before};
use fsb_arbiter::Arbiter;
use fsb_heads::{Heads, Next, responds, stalls};
use fsb_io::Memory;
use fsb_owner_table::{Happened, Row, Rows, cancelled_by};
use fsb_signal::{Lines, Sample};
use fsb_trace::moves;
use std::alloc::Global;

/// The requests of a trace that are not over, and what the next clock rests on.
#[derive(Drop)]
pub struct Table {
    /// The rows of the requests, from their second clocks on.
    rows: Rows,
    arbiter: Arbiter,
    heads: Heads,
    /// The request that began at the last clock.
    begins: Option<FirstClock>,
    /// How many samples were fed.
    clock: u64,
}

/// The first clock of the request, if there is one.
fn clock_of(row: Option<Row>) -> Option<u32>
    ensures { result ≡ option_map (λ r. r.seen.clock) row }
{
    match row {
        Some(row) => Some(row.seen.clock),
        None => None,
    }
}

/// Whether data move with a response that is the sample, of this request.
#[tactic(auto, unfolding(fsb_count::specs::Options::is_some_and))]
fn moves_by(row: &Option<Row>, sample: &Sample) -> bool
    ensures { result ≡ moves_by row.now sample.now }
{
    match row {
        Some(row) => moves(row.told_by(sample.response())),
        None => false,
    }
}

impl Table {
    /// No sample yet: it stands for the empty trace. It takes no memory.
    pub fn new(alloc: Global) -> Table
        ensures stands { Stands result [] }
        ensures fed { fed result ≡ 0 }
    {
        Table {
            rows: Rows::new(alloc),
            arbiter: Arbiter::new(),
            heads: Heads::new(),
            begins: None,
            clock: 0,
        }
    }

    /// The rows of the requests that are not over, in order.
    pub fn rows(&self) -> &[Row]
        ensures { (h : Trace) → Stands self.now h → result.now ≡ rows_of h }
    {
        self.rows.as_slice()
    }

    /// The row of the request that is snooped next.
    pub fn asking(&self) -> Option<Row>
        ensures { (h : Trace) → Stands self.now h → Orderly h → SaysAsking h result }
    {
        first_asking(self.rows.as_slice())
    }

    /// The row of the request that responds next.
    pub fn waiting(&self) -> Option<Row>
        ensures { (h : Trace) → Stands self.now h → Orderly h → SaysWaiting h result }
    {
        first_waiting(self.rows.as_slice())
    }

    /// The row of the request whose data are on the way.
    pub fn moving(&self) -> Option<Row>
        ensures { (h : Trace) → Stands self.now h → Orderly h → SaysMoving h result }
    {
        first_moving(self.rows.as_slice())
    }

    /// How many samples were fed.
    pub fn clock(&self) -> u64
        ensures { result ≡ fed self.now }
    {
        self.clock
    }

    /// The first clock of the request that began at the last clock.
    pub fn begun_last(&self) -> Option<FirstClock>
        ensures { (h : Trace) → Stands self.now h → SaysBegins result h }
    {
        self.begins
    }

    /// The ready clock of the request that responds next.
    pub fn ready(&self) -> Option<u32>
        ensures { (h : Trace) → Stands self.now h → result ≡ ready_clock_of h (response_count h) }
    {
        self.heads.ready()
    }

    /// How many chunks came of the data that are on the way; none where no data are.
    pub fn chunks(&self) -> Option<u8>
        ensures { (h : Trace) → Stands self.now h → result ≡ transfer_of h }
    {
        self.heads.chunks()
    }

    /// The first snoop clock of the request that is snooped next, which began at this clock.
    pub fn snoop_start(&self, begun: u32) -> u64
        ensures { (h : Trace) → Stands self.now h → live_clock_of h (snooped_count h) ≡ Some begun →
            snoop_start_of h (snooped_count h) ≡ Some result }
    {
        self.heads.snoop_start(begun)
    }

    /// Whether the snoop of the request with this row, which is snooped next, ends with the sample.
    #[tactic(auto, unfolding(fsb_laws::specs::Progress::ends_snoop_of))]
    pub fn ends_snoop(&self, row: &Row, clock: u32, sample: &Sample) -> bool
        ensures { (h : Trace) → Stands self.now h → IsRowOf h (snooped_count h) row.now →
            clock ≡ length h → result ≡ ends_snoop_of h (snooped_count h) sample.now }
    {
        self.heads.is_due(row.seen.clock, clock) && !stalls(sample)
    }

    /// The request that has its snoop end with the sample of this clock.
    fn snooped(&self, clock: u32, sample: &Sample) -> Option<u32>
        ensures reached { (h : Trace) → ComesNext self.now sample.now h → clock ≡ length h →
            IsReached snoop_end_of result (h ++ sample.now ∷ []) (length h) }
        ensures there { (h : Trace) → ComesNext self.now sample.now h → clock ≡ length h →
            is_some result ≡ ends_snoop_of h (snooped_count h) sample.now }
    {
        match self.asking() {
            Some(row) => {
                if self.ends_snoop(&row, clock, sample) {
                    Some(row.seen.clock)
                } else {
                    None
                }
            }
            None => None,
        }
    }

    /// The request that responds with the sample.
    fn answered(&self, sample: &Sample) -> Option<Row>
        ensures { (h : Trace) → ComesNext self.now sample.now h → SaysAnswered sample.now h result }
    {
        if responds(sample) {
            self.waiting()
        } else {
            None
        }
    }

    /// Whether data that are on the way end with the sample, which is no response.
    fn ends_data(&self, sample: &Sample) -> bool
        ensures { (h : Trace) → ComesNext self.now sample.now h → responds sample.now ≡ false →
            result ≡ (is_some (transfer_of h) && is_none (transfer_of (h ++ sample.now ∷ []))) }
    {
        self.heads.chunks().is_some() && self.heads.chunks_with(sample, false).is_none()
    }

    /// The request that ends with the sample, with which this one responds.
    fn ended(&self, sample: &Sample, answered: &Option<Row>) -> Option<u32>
        ensures { (h : Trace) → ComesNext self.now sample.now h →
            SaysAnswered sample.now h answered.now →
            IsReached end_of result (h ++ sample.now ∷ []) (length h) }
    {
        if responds(sample) {
            if moves_by(answered, sample) {
                None
            } else {
                clock_of(*answered)
            }
        } else if self.ends_data(sample) {
            clock_of(self.moving())
        } else {
            None
        }
    }

    /// The row of the request whose second clock is the sample's.
    fn begun(&self, clock: u32, sample: &Sample) -> Option<Row>
        ensures { (h : Trace) → ComesNext self.now sample.now h → clock ≡ length h →
            result ≡ begun_row (h ++ sample.now ∷ []) (length h) }
    {
        match self.begins {
            Some(begins) => Some(begins.row(clock.saturating_sub(1), sample)),
            None => None,
        }
    }

    /// What happens to requests with the next sample.
    pub fn happened(&self, sample: &Sample) -> Happened
        requires { fed self.now < 2 ^ 32 }
        ensures happens { (h : Trace) → ComesNext self.now sample.now h →
            Happens h sample.now (h ++ sample.now ∷ []) result }
        ensures snoops { (h : Trace) → ComesNext self.now sample.now h →
            is_some result.snooped ≡ ends_snoop_of h (snooped_count h) sample.now }
    {
        let clock = self.clock as u32;
        let answered = self.answered(sample);
        Happened {
            clock,
            cancelled: cancelled_by(clock, sample),
            snooped: self.snooped(clock, sample),
            answered: clock_of(answered),
            ended: self.ended(sample, &answered),
            begun: self.begun(clock, sample),
        }
    }

    /// Whether the request with this row, which responds next, may respond at this clock.
    fn may_respond(&self, row: &Row, clock: u32) -> bool
        ensures { (h : Trace) → Stands self.now h →
            result ≡ (is_some_and row.now.snoop (λ s. nat_le (s.clock + 2) clock)
            && is_none (transfer_of h)) }
    {
        is_snooped_two_before(row, clock) && self.heads.chunks().is_none()
    }

    /// Whether a response may come at this clock.
    pub fn may_answer(&self, clock: u32) -> bool
        ensures { (h : Trace) → Stands self.now h → Orderly h → clock ≡ length h →
            result ≡ may_answer_next h }
    {
        match self.waiting() {
            Some(row) => self.may_respond(&row, clock),
            None => false,
        }
    }

    /// Whether the target is ready with the sample of this clock for the request that responds next.
    fn readies(&self, clock: u32, sample: &Sample) -> bool
        ensures { (h : Trace) → Stands self.now h → Orderly h → clock ≡ length h →
            result ≡ (has_line sample.now TRDY && may_answer_next h) }
    {
        sample.has(Lines::TRDY) && self.may_answer(clock)
    }

    /// The heads after the sample of this clock, with which a snoop ends or does not.
    fn heads_with(&self, clock: u32, sample: &Sample, snoops: bool) -> Heads
        ensures { (h : Trace) → ComesNext self.now sample.now h → clock ≡ length h →
            snoops ≡ ends_snoop_of h (snooped_count h) sample.now →
            HeadsStands result (h ++ sample.now ∷ []) }
    {
        let next = Next {
            snoops,
            readies: self.readies(clock, sample),
            moves: moves_by(&self.answered(sample), sample),
        };
        self.heads.after(clock, sample, &next)
    }

    /// The request that begins with the sample, if one does.
    fn begins_with(&self, sample: &Sample) -> Option<FirstClock>
        ensures { (h : Trace) → Stands self.now h → SaysBegins result (h ++ sample.now ∷ []) }
    {
        if sample.has(Lines::ADS) {
            Some(FirstClock {
                who: self.arbiter.winner(),
                first: *sample,
            })
        } else {
            None
        }
    }

    /// Takes the next sample, and hands out what happens to requests with it. Where memory lacks the
    /// table stands for nothing any more.
    pub fn feed(&mut self, sample: &Sample) -> Result<Happened, Memory>
        requires { fed self.old < 2 ^ 32 }
        ensures happened { IfOk result (λ happened. (h : Trace) → ComesNext self.old sample.now h →
            Happens h sample.now (h ++ sample.now ∷ []) happened) }
        ensures stands { OnOk result ((h : Trace) → ComesNext self.old sample.now h →
            Stands self.new (h ++ sample.now ∷ [])) }
        ensures fed { fed self.new ≤ fed self.old + 1 }
    {
        let clock = self.clock as u32;
        let happened = self.happened(sample);
        let heads = self.heads_with(clock, sample, happened.snooped.is_some());
        let begins = self.begins_with(sample);
        self.rows.take(&happened, sample)?;
        self.heads = heads;
        self.begins = begins;
        self.arbiter.absorb(sample);
        self.clock = u64::from(clock) + 1;
        Ok(happened)
    }
}
