//! Reasons of rules for lines: known lines and data, request lines, LOCK# and AERR#.

ghost use Rattle.std.specs.Prelude.{◌≡◌, ◌&&◌, not, nat_le, true};
ghost use Rattle.fsb_signal.specs.Samples.{line_at};
ghost use Rattle.fsb_trace.specs.Winner.{request_line_of};
ghost use Rattle.fsb_trace.specs.Rules.{is_lock_alone, is_error_alone, has_unknown_data};
ghost use Rattle.fsb_signal.specs.declared.marks.Marks.{Marks};
ghost use Rattle.fsb_trace.specs.At.{Trace, line_back};
ghost use Rattle.fsb_reasons.specs.Holds.{is_bus_agent};
ghost use Rattle.fsb_why.specs.Look.{Shows};
ghost use Rattle.fsb_why.specs.Explains.{Explains, ExplainsAgent, either_reason};

use crate::look::{Look, both};
use fsb_reasons::Reason;
use fsb_signal::Lines;
use fsb_trace::{Who, request_line_of};

impl Look {
    /// Rule 1, known control lines.
    pub fn unknown_lines(&self) -> Option<Reason>
        ensures { (m : Marks) (v : Trace) → Shows self.now m v →
            Explains m v self.now.clock 1 result }
    {
        if self.sample.has_known_lines() {
            None
        } else {
            Some(Reason::UnknownLines {
                lines: self.sample.unknown,
            })
        }
    }

    /// Why the agent's request line is not held until its request begins, or not released then.
    pub fn asked(&self, who: Who) -> Option<Reason>
        requires { is_bus_agent who ≡ true }
        ensures { (m : Marks) (v : Trace) → Shows self.now m v →
            ExplainsAgent m v self.now.clock who result }
    {
        if self.began(who) {
            if self.is_held(who) {
                Some(Reason::Held { who })
            } else {
                None
            }
        } else if self.is_dropped(who) {
            Some(Reason::Dropped { who })
        } else {
            None
        }
    }

    /// Whether the agent's request line is asserted at the clock, which is not the first.
    fn is_held(&self, who: Who) -> bool
        ensures { (m : Marks) (v : Trace) → Shows self.now m v →
            result ≡ (nat_le 1 self.now.clock && line_at (request_line_of who) v self.now.clock) }
    {
        both(self.clock >= 1, self.has(request_line_of(who)))
    }

    /// Whether the agent's request line was asserted one clock before, and is not at the clock.
    fn is_dropped(&self, who: Who) -> bool
        ensures { (m : Marks) (v : Trace) → Shows self.now m v →
            result ≡ (line_back (request_line_of who) v self.now.clock 1
            && not (line_at (request_line_of who) v self.now.clock)) }
    {
        let line = request_line_of(who);
        both(self.one_back(line), !self.has(line))
    }

    /// Rule 8, request lines held and released: the reason of the first agent of which it is broken, in the order 0 to 3
    /// and the priority agent.
    #[tactic(auto, unfolding(fsb_reasons::specs::Holds::is_bus_agent))]
    pub fn asking(&self) -> Option<Reason>
        ensures { (m : Marks) (v : Trace) → Shows self.now m v →
            Explains m v self.now.clock 8 result }
    {
        let agent_0 = self.asked(Who::Symmetric(0));
        let agent_1 = self.asked(Who::Symmetric(1));
        let agent_2 = self.asked(Who::Symmetric(2));
        let agent_3 = self.asked(Who::Symmetric(3));
        let priority = self.asked(Who::Priority);
        let low = first_of(agent_0, agent_1);
        let high = first_of(agent_2, agent_3);
        let symmetric = first_of(low, high);
        first_of(symmetric, priority)
    }

    /// Rule 9, lock begins with a request.
    pub fn lock(&self) -> Option<Reason>
        ensures { (m : Marks) (v : Trace) → Shows self.now m v →
            Explains m v self.now.clock 9 result }
    {
        if self.is_lock_alone() {
            Some(Reason::LockAlone)
        } else {
            None
        }
    }

    /// Whether LOCK# is first asserted at the clock, and no request begins there.
    #[tactic(auto, unfolding(fsb_trace::specs::Rules::is_lock_alone))]
    fn is_lock_alone(&self) -> bool
        ensures { (m : Marks) (v : Trace) → Shows self.now m v →
            result ≡ is_lock_alone v self.now.clock }
    {
        self.has(Lines::LOCK) && !self.one_back(Lines::LOCK) && !self.has(Lines::ADS)
    }

    /// Rule 10, address error timing.
    pub fn address_error(&self) -> Option<Reason>
        ensures { (m : Marks) (v : Trace) → Shows self.now m v →
            Explains m v self.now.clock 10 result }
    {
        if self.is_error_alone() {
            Some(Reason::ErrorAlone { last: self.request })
        } else {
            None
        }
    }

    /// Whether AERR# is asserted at the clock, and no request began three clocks before.
    #[tactic(auto, unfolding(fsb_trace::specs::Rules::is_error_alone))]
    fn is_error_alone(&self) -> bool
        ensures { (m : Marks) (v : Trace) → Shows self.now m v →
            result ≡ is_error_alone v self.now.clock }
    {
        self.has(Lines::AERR) && !self.three_back(Lines::ADS)
    }

    /// Rule 17, known data.
    pub fn unknown_data(&self) -> Option<Reason>
        ensures { (m : Marks) (v : Trace) → Shows self.now m v →
            Explains m v self.now.clock 17 result }
    {
        if self.has_unknown_data() {
            Some(Reason::UnknownData {
                bits: self.sample.dbus.unknown,
            })
        } else {
            None
        }
    }

    /// Whether DRDY# is asserted at the clock, and a bit of D is unknown.
    fn has_unknown_data(&self) -> bool
        ensures { (m : Marks) (v : Trace) → Shows self.now m v →
            result ≡ has_unknown_data v self.now.clock }
    {
        both(self.has(Lines::DRDY), !self.sample.dbus.is_known())
    }
}

/// The first of two reasons that is there.
fn first_of(first: Option<Reason>, second: Option<Reason>) -> Option<Reason>
    ensures { result ≡ either_reason first second }
{
    match first {
        Some(reason) => Some(reason),
        None => second,
    }
}
