//! Reasons of rules for a request that begins: spacing, block next request, the winner.

ghost use Rattle.std.specs.Prelude.{◌≡◌, true, None};
ghost use Rattle.fsb_signal.specs.declared.marks.Marks.{Marks};
ghost use Rattle.fsb_signal.specs.declared.lines.TheConstants.Lines.{ADS};
ghost use Rattle.fsb_signal.specs.Samples.{line_at};
ghost use Rattle.fsb_trace.specs.At.{Trace};
ghost use Rattle.fsb_trace.specs.Winner.{winner_at};
ghost use Rattle.fsb_trace.specs.Rules.{is_request_blocked, has_no_winner};
ghost use Rattle.fsb_why.specs.Look.{Shows};
ghost use Rattle.fsb_why.specs.Explains.{Explains, IsReason};

use crate::look::{Look, both};
use fsb_reasons::Reason;
use fsb_signal::Lines;

impl Look {
    /// Rule 2, request spacing.
    pub fn spacing(&self) -> Option<Reason>
        ensures { (m : Marks) (v : Trace) → Shows self.now m v →
            Explains m v self.now.clock 2 result }
    {
        if self.has(Lines::ADS) {
            self.too_soon()
        } else {
            None
        }
    }

    /// Why a request that begins at the clock comes too soon.
    fn too_soon(&self) -> Option<Reason>
        ensures { (m : Marks) (v : Trace) → Shows self.now m v →
            line_at ADS v self.now.clock ≡ true → Explains m v self.now.clock 2 result }
    {
        if self.clock < 2 {
            Some(Reason::AtStart)
        } else if self.one_back(Lines::ADS) {
            Some(Reason::TooSoon {
                before: self.clock - 1,
                earliest: u64::from(self.clock) + 2,
            })
        } else if self.two_back(Lines::ADS) {
            Some(Reason::TooSoon {
                before: self.clock - 2,
                earliest: u64::from(self.clock) + 1,
            })
        } else {
            None
        }
    }

    /// Rule 5, block next request.
    pub fn blocked(&self) -> Option<Reason>
        ensures { (m : Marks) (v : Trace) → Shows self.now m v →
            Explains m v self.now.clock 5 result }
    {
        if self.is_blocked() {
            Some(Reason::Blocked {
                clock: self.clock.saturating_sub(2),
            })
        } else {
            None
        }
    }

    /// Whether a request begins at the clock, and BNR# was asserted two clocks before.
    #[tactic(auto, unfolding(fsb_trace::specs::Rules::is_request_blocked))]
    fn is_blocked(&self) -> bool
        ensures { (m : Marks) (v : Trace) → Shows self.now m v →
            result ≡ is_request_blocked v self.now.clock }
    {
        self.has(Lines::ADS) && self.two_back(Lines::BNR)
    }

    /// Rule 6, arbitration winner.
    pub fn arbitration(&self) -> Option<Reason>
        ensures { (m : Marks) (v : Trace) → Shows self.now m v →
            Explains m v self.now.clock 6 result }
    {
        if self.is_unwon() {
            Some(self.unwon())
        } else {
            None
        }
    }

    /// Whether a request begins at the clock without a winner.
    fn is_unwon(&self) -> bool
        ensures { (m : Marks) (v : Trace) → Shows self.now m v →
            result ≡ has_no_winner v self.now.clock }
    {
        both(self.has(Lines::ADS), self.winner.is_none())
    }

    /// Why there is no winner.
    fn unwon(&self) -> Reason
        ensures { (m : Marks) (v : Trace) → Shows self.now m v →
            line_at ADS v self.now.clock ≡ true → winner_at v self.now.clock ≡ None →
            IsReason m v self.now.clock 6 result }
    {
        if self.clock < 2 {
            Reason::NotArbitrated
        } else if self.two_back(Lines::LOCK) {
            Reason::Locked { holder: self.last }
        } else {
            Reason::NoneAsks {
                clock: self.clock - 2,
            }
        }
    }
}
