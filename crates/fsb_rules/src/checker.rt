//! The checker: every rule, clock by clock.

ghost use Rattle.std.specs.Prelude.{◌≡◌, ℕ, ◌^◌, ◌<◌, true, false, [], ◌∷◌, ◌++◌, length, None, IfSome, is_some};
ghost use Rattle.fsb_count.specs.Options.{is_some_and};
ghost use Rattle.fsb_signal.specs.declared.marks.Marks.{Marks};
ghost use Rattle.fsb_signal.specs.declared.sample.Sample.{Sample};
ghost use Rattle.fsb_signal.specs.declared.lines.TheConstants.Lines.{DRDY};
ghost use Rattle.fsb_signal.specs.Samples.{has_line};
ghost use Rattle.fsb_encode.specs.declared.request.Request.{Request};
ghost use Rattle.fsb_trace.specs.At.{Trace};
ghost use Rattle.fsb_trace.specs.Winner.{is_agent, is_same_agent, request_line_of};
ghost use Rattle.fsb_trace.specs.Response.{data_clock_of};
ghost use Rattle.fsb_trace.specs.Rules.{has_unknown_line, is_request_too_soon, is_code_unlawful, is_queue_full, is_request_blocked, has_no_winner, is_identified, is_identity_wrong, is_asked_wrongly, is_some_asked_wrongly, is_lock_alone, is_error_alone, is_response_early, has_unknown_data, is_outstanding_wrong, has_parity_at, is_marked_address_wrong, is_marked_request_wrong};
ghost use Rattle.fsb_trace.specs.Verdict.{least_rule, verdict};
ghost use Rattle.fsb_rules.specs.Live.{live_from};
ghost use Rattle.fsb_rules.specs.RequestLines.{has_request_line_by, is_some_dropped_by};
ghost use Rattle.fsb_rules.specs.LeastRule.{begun_at, begins_well, least_past};
ghost use Rattle.fsb_rules.specs.Checker.{Follows, Comes, Stands, as_broken, beginner_of};
ghost use Rattle.fsb_rules.specs.ComingChunks.{HasData};
ghost use Rattle.fsb_rules.specs.Outstanding.{Happens};
ghost use Rattle.fsb_rules.specs.InFlight.{IsAt, InTime};

use crate::broken::Broken;
use crate::coming::Coming;
use crate::in_flight::InFlight;
use crate::live::{LiveRequest, live_of};
use crate::outstanding::{Happened, Outstanding};
use crate::recent::Recent;
use bitflags::Flags;
use fsb_arbiter::Arbiter;
use fsb_signal::{Lines, Marks, Sample};
use fsb_trace::Who;

/// Tells after each sample whether a phase rule is broken by the samples fed so far.
#[derive(Debug, Drop)]
pub struct Checker {
    /// Which of the two parity lines the dump declares.
    marks: Marks,
    /// What was found; nothing below is looked at any more once something was.
    found: Option<Broken>,
    /// How many samples were fed.
    clock: u64,
    recent: Recent,
    arbiter: Arbiter,
    /// The agent that began a request at the last clock.
    beginner: Option<Who>,
    queue: InFlight,
    outstanding: Outstanding,
}

/// Whether there is such an agent, and it is this one.
#[tactic(auto, unfolding(fsb_trace::specs::Winner::is_agent, fsb_trace::specs::Winner::is_same_agent, fsb_count::specs::Options::is_some_and))]
fn is_agent(agent: Option<Who>, who: Who) -> bool
    ensures { result ≡ is_agent agent who }
{
    match (agent, who) {
        (Some(Who::Symmetric(a)), Who::Symmetric(b)) => a == b,
        (Some(Who::Priority), Who::Priority) => true,
        _ => false,
    }
}

/// Whether the request is a reply of the priority agent, or another one with an ID of its agent's.
#[tactic(auto, unfolding(crate::specs::Live::live_from, fsb_trace::specs::Rules::is_identified, fsb_trace::specs::Rules::is_own_id, fsb_trace::specs::Requests::is_reply, fsb_count::specs::Options::is_some_and))]
fn is_identified(beginner: Option<Who>, request: &LiveRequest) -> bool
    ensures { (q : ℕ) (r : Request) → request.now ≡ live_from q r →
        result ≡ is_identified beginner (Some r) }
{
    if request.is_reply() {
        is_agent(beginner, Who::Priority)
    } else {
        is_own_agent(beginner, request.did / 16)
    }
}

/// Whether there is such an agent, and it is the symmetric agent of this number.
#[tactic(auto, unfolding(fsb_trace::specs::Winner::is_same_agent, fsb_count::specs::Options::is_some_and))]
fn is_own_agent(agent: Option<Who>, number: u8) -> bool
    ensures { result ≡ is_some_and agent (is_same_agent (Who.Symmetric number)) }
{
    match agent {
        Some(Who::Symmetric(a)) => number == a,
        _ => false,
    }
}

/// Whether one of the five request lines is among the lines.
#[tactic(auto, unfolding(crate::specs::RequestLines::has_request_line_by))]
fn has_request_line(lines: Lines) -> bool
    ensures { result ≡ has_request_line_by lines }
{
    lines.contains(Lines::BREQ0)
        || lines.contains(Lines::BREQ1)
        || lines.contains(Lines::BREQ2)
        || lines.contains(Lines::BREQ3)
        || lines.contains(Lines::BPRI)
}

/// Rule 1, known control lines.
#[tactic(auto, using(crate::proofs::Lines::new_clock), unfolding(fsb_trace::specs::Rules::has_unknown_line))]
fn has_unknown_line(sample: &Sample) -> bool
    ensures { (h : Trace) → result ≡ has_unknown_line (h ++ sample.now ∷ []) (length h) }
{
    !sample.has_known_lines()
}

/// Rule 17, known data.
#[tactic(auto, using(crate::proofs::Lines::new_clock), unfolding(fsb_trace::specs::Rules::has_unknown_data))]
fn has_unknown_data(sample: &Sample) -> bool
    ensures { (h : Trace) → result ≡ has_unknown_data (h ++ sample.now ∷ []) (length h) }
{
    sample.has(Lines::DRDY) && !sample.dbus.is_known()
}

/// Rule 6, arbitration winner.
#[tactic(auto, using(crate::proofs::Lines::new_winner), unfolding(fsb_trace::specs::Rules::has_no_winner))]
fn has_no_winner(sample: &Sample, winner: Option<Who>) -> bool
    ensures { (h : Trace) → winner ≡ beginner_of (h ++ sample.now ∷ []) →
        result ≡ has_no_winner (h ++ sample.now ∷ []) (length h) }
{
    sample.has(Lines::ADS) && winner.is_none()
}

/// Whether one of the five request lines is among the lines of a clock, and not among those of the next.
#[tactic(auto, using(crate::proofs::RequestLines::gone_lines))]
fn is_some_dropped(was: Lines, now: Lines) -> bool
    ensures { result ≡ is_some_dropped_by was now }
{
    has_request_line(Lines(was.0 & !now.0))
}

impl Checker {
    /// The checker before the first sample of a dump with these marks.
    pub fn new(marks: Marks) -> Checker
        ensures { Stands result marks [] }
    {
        Checker {
            marks,
            found: None,
            clock: 0,
            recent: Recent::new(),
            arbiter: Arbiter::new(),
            beginner: None,
            queue: InFlight::new(),
            outstanding: Outstanding::new(),
        }
    }

    /// Takes the next sample, and tells the first clock with a broken rule and the least rule broken there, if there
    /// is one among the samples fed.
    pub fn feed(&mut self, sample: &Sample) -> Option<Broken>
        requires { (m : Marks) × (h : Trace) × Stands self.old m h × (length h < 2 ^ 32) }
        ensures verdict { (m : Marks) (h : Trace) → Stands self.old m h →
            result ≡ as_broken (verdict m (h ++ sample.now ∷ [])) }
        ensures stands { (m : Marks) (h : Trace) → Stands self.old m h →
            Stands self.new m (h ++ sample.now ∷ []) }
    {
        if self.found.is_none() {
            let clock = self.clock as u32;
            let begun = self.begun(clock, sample);
            let winner = self.winner_of(sample);
            match self.first_broken(clock, sample, &begun, winner) {
                Some(rule) => self.found = Some(Broken { clock, rule }),
                None => self.absorb(clock, sample, &begun, winner),
            }
        }
        self.found
    }

    /// The chunk of data that comes with the next sample, where that breaks no rule. Once a broken rule was found none
    /// comes. What is told of a sample with DRDY# that is the first to break a rule is left open.
    pub fn coming(&self, sample: &Sample) -> Option<Coming>
        requires { (m : Marks) × (h : Trace) × Stands self.now m h × (length h < 2 ^ 32) }
        ensures some { (m : Marks) (h : Trace) → Stands self.now m h →
            verdict m (h ++ sample.now ∷ []) ≡ None →
            IfSome result (λ coming. HasData (h ++ sample.now ∷ []) (length h) coming) }
        ensures none { (m : Marks) (h : Trace) → Stands self.now m h →
            verdict m (h ++ sample.now ∷ []) ≡ None → result ≡ None →
            (i n : ℕ) → data_clock_of (h ++ sample.now ∷ []) i n ≡ Some (length h) → ⊥ }
        ensures broken { (m : Marks) (h : Trace) → Stands self.now m h →
            is_some (verdict m h) ≡ true → result ≡ None }
        ensures quiet { has_line sample.now DRDY ≡ false → result ≡ None }
    {
        if self.found.is_none() {
            if sample.has(Lines::DRDY) {
                self.queue.coming(self.clock as u32, sample)
            } else {
                None
            }
        } else {
            None
        }
    }

    /// The winner at this clock, where a request begins with the sample.
    #[tactic(auto, using(crate::proofs::Lines::new_winner))]
    fn winner_of(&self, sample: &Sample) -> Option<Who>
        ensures { (h : Trace) → Follows self.now h → result ≡ beginner_of (h ++ sample.now ∷ []) }
    {
        if sample.has(Lines::ADS) {
            self.arbiter.winner()
        } else {
            None
        }
    }

    /// The least rule that is broken with this sample.
    #[tactic(auto, using(crate::proofs::LeastRule::first_rules), unfolding(crate::specs::LeastRule::begins_well))]
    fn first_broken(
        &self,
        clock: u32,
        sample: &Sample,
        begun: &Option<LiveRequest>,
        winner: Option<Who>,
    ) -> Option<u8>
        ensures { (h : Trace) → Comes self.now clock sample.now begun.now h →
            winner ≡ beginner_of (h ++ sample.now ∷ []) →
            result ≡ least_rule self.now.marks (h ++ sample.now ∷ []) (length h) }
    {
        if has_unknown_line(sample) {
            Some(1)
        } else if self.is_too_soon(sample) {
            Some(2)
        } else if self.is_code_unlawful(begun) {
            Some(3)
        } else if self.is_queue_full(sample) {
            Some(4)
        } else if self.is_blocked(sample) {
            Some(5)
        } else if has_no_winner(sample, winner) {
            Some(6)
        } else if self.is_identity_wrong(begun) {
            Some(7)
        } else if self.is_some_asked_wrongly(sample) {
            Some(8)
        } else if self.is_lock_alone(sample) {
            Some(9)
        } else if self.is_error_alone(sample) {
            Some(10)
        } else {
            self.later_broken(clock, sample, begun)
        }
    }

    /// The least of the rules from 11 on that is broken with this sample; at most clocks it can be a parity rule alone.
    fn later_broken(&self, clock: u32, sample: &Sample, begun: &Option<LiveRequest>) -> Option<u8>
        ensures { (h : Trace) → Comes self.now clock sample.now begun.now h →
            begins_well (h ++ sample.now ∷ []) (length h) ≡ true →
            result ≡ least_past 10 self.now.marks (h ++ sample.now ∷ []) (length h) }
    {
        if self.queue.is_quiet(sample, begun) {
            self.parity_broken(sample)
        } else {
            self.busy_broken(clock, sample, begun)
        }
    }

    /// The least of the rules from 11 on that is broken with a sample in which anything may happen.
    #[inline(never)]
    #[tactic(auto, using(crate::proofs::LeastRule::busy_rules))]
    fn busy_broken(&self, clock: u32, sample: &Sample, begun: &Option<LiveRequest>) -> Option<u8>
        ensures { (h : Trace) → Comes self.now clock sample.now begun.now h →
            begins_well (h ++ sample.now ∷ []) (length h) ≡ true → IsAt self.now.queue clock h →
            result ≡ least_past 10 self.now.marks (h ++ sample.now ∷ []) (length h) }
    {
        if self.queue.is_snoop_line_alone(clock, sample) {
            Some(11)
        } else if self.queue.is_snoop_result_unfit(clock, sample) {
            Some(12)
        } else if self.queue.is_response_early(clock, sample) {
            Some(13)
        } else {
            self.moved_broken(clock, sample, begun)
        }
    }

    /// The least of the rules from 14 on that is broken with a sample whose response is not early.
    #[tactic(auto, using(crate::proofs::LeastRule::moved_rules))]
    fn moved_broken(&self, clock: u32, sample: &Sample, begun: &Option<LiveRequest>) -> Option<u8>
        ensures { (h : Trace) → Comes self.now clock sample.now begun.now h →
            begins_well (h ++ sample.now ∷ []) (length h) ≡ true →
            InTime self.now.queue clock sample.now h →
            result ≡ least_past 13 self.now.marks (h ++ sample.now ∷ []) (length h) }
    {
        if self.queue.is_code_wrong(clock, sample) {
            Some(14)
        } else if self.queue.is_target_ready_wrong(clock, sample) {
            Some(15)
        } else if self.queue.is_data_wrong(clock, sample) {
            Some(16)
        } else if has_unknown_data(sample) {
            Some(17)
        } else if self.is_begun_wrongly(begun) {
            Some(18)
        } else {
            self.parity_broken(sample)
        }
    }

    /// The least of the two parity rules that is broken with this sample; at most clocks there is no parity.
    #[tactic(auto, using(crate::proofs::LeastRule::parity_rules))]
    fn parity_broken(&self, sample: &Sample) -> Option<u8>
        ensures { (h : Trace) → Follows self.now h →
            result ≡ least_past 18 self.now.marks (h ++ sample.now ∷ []) (length h) }
    {
        if !self.has_parity(sample) {
            None
        } else if self.is_address_wrong(sample) {
            Some(19)
        } else if self.is_request_wrong(sample) {
            Some(20)
        } else {
            None
        }
    }

    /// Rule 2, request spacing.
    #[tactic(auto, using(crate::proofs::Lines::new_clock), unfolding(fsb_trace::specs::Rules::is_request_too_soon))]
    fn is_too_soon(&self, sample: &Sample) -> bool
        ensures { (h : Trace) → Follows self.now h →
            result ≡ is_request_too_soon (h ++ sample.now ∷ []) (length h) }
    {
        sample.has(Lines::ADS)
            && (self.clock < 2
                || self.recent.one_back(Lines::ADS)
                || self.recent.two_back(Lines::ADS))
    }

    /// Rule 3, lawful codes, of the request whose second clock the sample is.
    #[tactic(auto, using(crate::proofs::StartRules::unlawful), unfolding(fsb_trace::specs::Rules::is_code_unlawful))]
    fn is_code_unlawful(&self, begun: &Option<LiveRequest>) -> bool
        ensures { (h : Trace) (x : Sample) → Follows self.now h →
            begun.now ≡ begun_at (h ++ x ∷ []) (length h) →
            result ≡ is_code_unlawful (h ++ x ∷ []) (length h) }
    {
        self.recent.one_back(Lines::ADS) && begun.is_none()
    }

    /// Rule 4, queue depth, where the request is not too soon.
    fn is_queue_full(&self, sample: &Sample) -> bool
        ensures { (h : Trace) → Follows self.now h →
            is_request_too_soon (h ++ sample.now ∷ []) (length h) ≡ false →
            result ≡ is_queue_full (h ++ sample.now ∷ []) (length h) }
    {
        sample.has(Lines::ADS) && self.queue.len() >= 8
    }

    /// Rule 5, block next request.
    #[tactic(auto, using(crate::proofs::Lines::new_clock), unfolding(fsb_trace::specs::Rules::is_request_blocked))]
    fn is_blocked(&self, sample: &Sample) -> bool
        ensures { (h : Trace) → Follows self.now h →
            result ≡ is_request_blocked (h ++ sample.now ∷ []) (length h) }
    {
        sample.has(Lines::ADS) && self.recent.two_back(Lines::BNR)
    }

    /// Rule 7, request identity, of the request whose second clock the sample is, where it is lawful.
    fn is_identity_wrong(&self, begun: &Option<LiveRequest>) -> bool
        ensures { (h : Trace) (x : Sample) → Follows self.now h →
            begun.now ≡ begun_at (h ++ x ∷ []) (length h) →
            is_code_unlawful (h ++ x ∷ []) (length h) ≡ false →
            result ≡ is_identity_wrong (h ++ x ∷ []) (length h) }
    {
        match begun {
            Some(request) => !is_identified(self.beginner, request),
            None => false,
        }
    }

    /// Whether the agent's request line is not held until its request begins, or not released then.
    fn is_asked_wrongly(&self, sample: &Sample, who: Who, line: Lines) -> bool
        requires { line ≡ request_line_of who }
        ensures { (h : Trace) → Follows self.now h →
            result ≡ is_asked_wrongly (h ++ sample.now ∷ []) (length h) who }
    {
        if is_agent(self.beginner, who) {
            sample.has(line)
        } else {
            self.recent.one_back(line) && !sample.has(line)
        }
    }

    /// Rule 8, request lines held and released; where no request began they are to be held.
    fn is_some_asked_wrongly(&self, sample: &Sample) -> bool
        ensures { (h : Trace) → Follows self.now h →
            result ≡ is_some_asked_wrongly (h ++ sample.now ∷ []) (length h) }
    {
        if self.beginner.is_none() {
            is_some_dropped(self.recent.first(), sample.lines)
        } else {
            self.is_some_line_wrong(sample)
        }
    }

    /// Whether one of the request lines is not held until its request begins, or not released then.
    #[tactic(auto, using(crate::proofs::StartRules::any_asked), unfolding(fsb_trace::specs::Winner::request_line_of, fsb_trace::specs::Winner::bus_request_of))]
    fn is_some_line_wrong(&self, sample: &Sample) -> bool
        ensures { (h : Trace) → Follows self.now h →
            result ≡ is_some_asked_wrongly (h ++ sample.now ∷ []) (length h) }
    {
        self.is_asked_wrongly(sample, Who::Symmetric(0), Lines::BREQ0)
            || self.is_asked_wrongly(sample, Who::Symmetric(1), Lines::BREQ1)
            || self.is_asked_wrongly(sample, Who::Symmetric(2), Lines::BREQ2)
            || self.is_asked_wrongly(sample, Who::Symmetric(3), Lines::BREQ3)
            || self.is_asked_wrongly(sample, Who::Priority, Lines::BPRI)
    }

    /// Rule 9, lock begins with a request.
    #[tactic(auto, using(crate::proofs::Lines::new_clock), unfolding(fsb_trace::specs::Rules::is_lock_alone))]
    fn is_lock_alone(&self, sample: &Sample) -> bool
        ensures { (h : Trace) → Follows self.now h →
            result ≡ is_lock_alone (h ++ sample.now ∷ []) (length h) }
    {
        sample.has(Lines::LOCK) && !self.recent.one_back(Lines::LOCK) && !sample.has(Lines::ADS)
    }

    /// Rule 10, address error timing.
    #[tactic(auto, using(crate::proofs::Lines::new_clock), unfolding(fsb_trace::specs::Rules::is_error_alone))]
    fn is_error_alone(&self, sample: &Sample) -> bool
        ensures { (h : Trace) → Follows self.now h →
            result ≡ is_error_alone (h ++ sample.now ∷ []) (length h) }
    {
        sample.has(Lines::AERR) && !self.recent.three_back(Lines::ADS)
    }

    /// Rule 18, deferred IDs and outstanding requests.
    fn is_begun_wrongly(&self, begun: &Option<LiveRequest>) -> bool
        ensures { (n : ℕ) (x : Sample) (h : Trace) → Comes self.now n x begun.now h →
            begins_well (h ++ x ∷ []) (length h) ≡ true →
            is_response_early (h ++ x ∷ []) (length h) ≡ false →
            result ≡ is_outstanding_wrong (h ++ x ∷ []) (length h) }
    {
        match begun {
            Some(request) => self.outstanding.is_begun_wrongly(request),
            None => false,
        }
    }

    /// Whether the sample is one of the two clocks of a request, which have parity.
    #[tactic(auto, using(crate::proofs::Lines::new_clock), unfolding(fsb_trace::specs::Rules::has_parity_at))]
    fn has_parity(&self, sample: &Sample) -> bool
        ensures { (h : Trace) → Follows self.now h →
            result ≡ has_parity_at (h ++ sample.now ∷ []) (length h) }
    {
        sample.has(Lines::ADS) || self.recent.one_back(Lines::ADS)
    }

    /// Rule 19, address parity, where the dump declares it, at a clock that has parity.
    #[tactic(auto, using(crate::proofs::Lines::new_clock), unfolding(fsb_trace::specs::Rules::is_marked_address_wrong, fsb_trace::specs::Rules::is_address_parity_wrong))]
    fn is_address_wrong(&self, sample: &Sample) -> bool
        ensures { (h : Trace) → has_parity_at (h ++ sample.now ∷ []) (length h) ≡ true →
            result ≡ is_marked_address_wrong self.now.marks (h ++ sample.now ∷ []) (length h) }
    {
        self.marks.ap && sample.is_address_odd()
    }

    /// Rule 20, request parity, where the dump declares it, at a clock that has parity.
    #[tactic(auto, using(crate::proofs::Lines::new_clock), unfolding(fsb_trace::specs::Rules::is_marked_request_wrong, fsb_trace::specs::Rules::is_request_parity_wrong))]
    fn is_request_wrong(&self, sample: &Sample) -> bool
        ensures { (h : Trace) → has_parity_at (h ++ sample.now ∷ []) (length h) ≡ true →
            result ≡ is_marked_request_wrong self.now.marks (h ++ sample.now ∷ []) (length h) }
    {
        self.marks.rp && sample.is_request_odd()
    }

    /// The request that began at the last clock, whose second clock is this one.
    #[tactic(auto, using(crate::proofs::Lines::begun_facts), unfolding(crate::specs::LeastRule::begun_at))]
    fn begun(&self, clock: u32, sample: &Sample) -> Option<LiveRequest>
        ensures { (h : Trace) → Follows self.now h → clock ≡ length h →
            result ≡ begun_at (h ++ sample.now ∷ []) (length h) }
    {
        if self.recent.one_back(Lines::ADS) {
            match self.recent.request(sample) {
                Some(request) => Some(live_of(clock.saturating_sub(1), &request)),
                None => None,
            }
        } else {
            None
        }
    }

    /// What happens with this sample, which breaks no rule.
    fn happened(&self, clock: u32, sample: &Sample, begun: &Option<LiveRequest>) -> Happened
        ensures { (h : Trace) → Comes self.now clock sample.now begun.now h →
            least_rule self.now.marks (h ++ sample.now ∷ []) (length h) ≡ None →
            Happens h sample.now (h ++ sample.now ∷ []) result }
    {
        Happened {
            clock,
            cancelled: if sample.has(Lines::AERR) {
                Some(clock.saturating_sub(3))
            } else {
                None
            },
            ended: self.queue.ended(clock, sample),
            begun: *begun,
        }
    }

    /// Takes the next sample, which breaks no rule, with the winner where a request begins with it.
    fn absorb(
        &mut self,
        clock: u32,
        sample: &Sample,
        begun: &Option<LiveRequest>,
        winner: Option<Who>,
    )
        requires { (h : Trace) × Comes self.old clock sample.now begun.now h
            × (least_rule self.old.marks (h ++ sample.now ∷ []) (length h) ≡ None) }
        ensures marks { self.new.marks ≡ self.old.marks }
        ensures found { self.new.found ≡ self.old.found }
        ensures follows { (h : Trace) → Comes self.old clock sample.now begun.now h →
            least_rule self.old.marks (h ++ sample.now ∷ []) (length h) ≡ None →
            winner ≡ beginner_of (h ++ sample.now ∷ []) → Follows self.new (h ++ sample.now ∷ []) }
    {
        let happened = self.happened(clock, sample, begun);
        let begins = sample.has(Lines::ADS);
        self.beginner = winner;
        self.outstanding.absorb(&happened, begins);
        self.queue.absorb(clock, sample, begun);
        self.arbiter.absorb(sample);
        self.recent.absorb(sample);
        self.clock = u64::from(clock) + 1;
    }
}
