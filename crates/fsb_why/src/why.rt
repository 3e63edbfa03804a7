//! The machine that follows a trace.

ghost use Rattle.std.specs.Prelude.{◌≡◌, ◌<◌, ◌^◌, ◌+◌, ℕ, true, [], ◌∷◌, ◌++◌, ◌&&◌, length};
ghost use Rattle.fsb_signal.specs.declared.marks.Marks.{Marks};
ghost use Rattle.fsb_trace.specs.At.{Trace};
ghost use Rattle.fsb_trace.specs.Rules.{breaks};
ghost use Rattle.fsb_trace.specs.Winner.{winner_at};
ghost use Rattle.fsb_why.specs.Look.{SaysLast, Shows, Stands};
ghost use Rattle.fsb_why.specs.Explains.{Tells, is_line_rule};

use crate::look::Look;
use fsb_arbiter::Arbiter;
use fsb_reasons::Reason;
use fsb_signal::{Marks, Sample};
use fsb_trace::Who;

/// Follows a trace, and says why a rule is broken at its last clock.
#[derive(Clone, Copy, Debug, PartialEq, Eq)]
pub struct Why {
    marks: Marks,
    arbiter: Arbiter,
    /// What the last clock shows, if there was one.
    look: Option<Look>,
}

/// Whether the answers for the rule of this number are exact.
#[tactic(auto, unfolding(crate::specs::Explains::is_line_rule))]
pub fn is_line_rule(rule: u8) -> bool
    ensures { result ≡ is_line_rule rule }
{
    rule == 1
        || rule == 2
        || rule == 3
        || rule == 5
        || rule == 6
        || rule == 7
        || rule == 8
        || rule == 9
        || rule == 10
        || rule == 17
        || rule == 19
        || rule == 20
}

/// What the first clock shows.
fn first_look(marks: Marks, sample: &Sample) -> Look
    ensures { Shows result marks (sample.now ∷ []) }
{
    Look {
        marks,
        clock: 0,
        sample: *sample,
        one: None,
        two: None,
        three: None,
        winner: None,
        winner_before: None,
        last: None,
        request: None,
    }
}

/// What is shown after a sample more, at which this is the winner.
fn look_after(look: Option<Look>, marks: Marks, sample: &Sample, winner: Option<Who>) -> Look
    requires { (m : Marks) × (h : Trace) × SaysLast look m h × (length h < 2 ^ 32) }
    ensures { (m : Marks) (h : Trace) → marks ≡ m → SaysLast look m h →
        winner ≡ winner_at (h ++ sample.now ∷ []) (length h) →
        Shows result m (h ++ sample.now ∷ []) }
{
    match look {
        Some(look) => look.next(sample, winner),
        None => first_look(marks, sample),
    }
}

impl Why {
    /// Before the first sample of a dump with these marks.
    pub fn new(marks: Marks) -> Why
        ensures { Stands result marks [] }
    {
        Why {
            marks,
            arbiter: Arbiter::new(),
            look: None,
        }
    }

    /// Takes the next sample.
    pub fn feed(&mut self, sample: &Sample)
        requires { (m : Marks) × (h : Trace) × Stands self.old m h × (length h < 2 ^ 32) }
        ensures { (m : Marks) (h : Trace) → Stands self.old m h →
            Stands self.new m (h ++ sample.now ∷ []) }
    {
        let winner = self.arbiter.winner();
        let look = look_after(self.look, self.marks, sample, winner);
        self.look = Some(look);
        self.arbiter.absorb(sample);
    }

    /// Why the rule of this number, 1 to 20, is broken at the last clock fed: where `is_line_rule` holds of it, a reason if
    /// it is broken, and none if it is kept. None for any other rule, and before the first sample.
    pub fn why(&self, rule: u8) -> Option<Reason>
        ensures { (m : Marks) (h : Trace) (c : ℕ) → Stands self.now m h → length h ≡ c + 1 →
            Tells m h c rule (is_line_rule rule && breaks m h c rule) result }
    {
        match self.look {
            Some(look) => look.why(rule),
            None => None,
        }
    }
}

impl Look {
    /// Why the rule of this number is broken at the clock.
    pub fn why(&self, rule: u8) -> Option<Reason>
        ensures { (m : Marks) (v : Trace) → Shows self.now m v →
            Tells m v self.now.clock rule (is_line_rule rule && breaks m v self.now.clock rule) result }
    {
        if rule == 1 {
            self.unknown_lines()
        } else if rule == 2 {
            self.spacing()
        } else if rule == 3 {
            self.code()
        } else if rule == 5 {
            self.blocked()
        } else if rule == 6 {
            self.arbitration()
        } else if rule == 7 {
            self.identity()
        } else if rule == 8 {
            self.asking()
        } else if rule == 9 {
            self.lock()
        } else if rule == 10 {
            self.address_error()
        } else if rule == 17 {
            self.unknown_data()
        } else if rule == 19 {
            self.address_parity()
        } else if rule == 20 {
            self.request_parity()
        } else {
            None
        }
    }
}
