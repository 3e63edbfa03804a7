//! Rule 14, response code: the reasons that rest on the next request.

ghost use Rattle.std.specs.Prelude.{◌≡◌, ℕ, ◌||◌, ◌&&◌, not, nat_eq, true, false, if◌then◌else◌};
ghost use Rattle.fsb_signal.specs.declared.marks.Marks.{Marks};
ghost use Rattle.fsb_trace.specs.At.{Trace, response_code_at};
ghost use Rattle.fsb_trace.specs.Rules.{responds_soundly};
ghost use Rattle.fsb_why.specs.Explains.{Explains, IsReason};
ghost use Rattle.fsb_why_queue.specs.Next.{IsNext, expected_by, fits_by, may_defer_by};

use crate::kinds::{has_den, is_upgrade, is_write_back};
use crate::next::Next;
use fsb_reasons::Reason;
use fsb_trace::{Outcome, code_of};

impl Next {
    /// What it is to be told.
    fn expected(&self) -> Outcome
        ensures { result ≡ expected_by self.now }
    {
        if self.handed {
            Outcome::Handed
        } else if is_write_back(self.decoded) {
            Outcome::Written
        } else if self.defer {
            Outcome::Retried
        } else if is_upgrade(self.decoded) {
            Outcome::Upgraded
        } else {
            Outcome::Granted
        }
    }

    /// Whether Deferred will do as well.
    fn may_defer(&self) -> bool
        ensures { result ≡ may_defer_by self.now }
    {
        !self.handed && !is_write_back(self.decoded) && self.defer && has_den(self.decoded)
    }

    /// Whether the code is the one for it.
    fn fits(&self, found: u8) -> bool
        ensures { result ≡ fits_by self.now found }
    {
        found == code_of(self.expected()) || self.may_defer() && found == code_of(Outcome::Deferred)
    }

    /// Why the code is not the one for it.
    fn misfit(&self, found: u8) -> Reason
        ensures { (m : Marks) (v : Trace) (c : ℕ) → IsNext self.now v c →
            responds_soundly v c ≡ true → response_code_at v c ≡ found →
            fits_by self.now found ≡ false → IsReason m v c 14 result }
    {
        match self.snoop {
            Some(end) => Reason::CodeWrong {
                request: self.request,
                snoop_end: end,
                found,
                expected: self.expected(),
                may_defer: self.may_defer(),
            },
            None => Reason::CodeUnsettled {
                request: self.request,
                found,
                expected: self.expected(),
            },
        }
    }

    /// Rule 14, response code, of a response with this code, which is no hard failure.
    pub fn wrong_code(&self, found: u8) -> Option<Reason>
        ensures { (m : Marks) (v : Trace) (c : ℕ) → IsNext self.now v c →
            responds_soundly v c ≡ true → response_code_at v c ≡ found → Explains m v c 14 result }
    {
        if self.fits(found) {
            None
        } else {
            Some(self.misfit(found))
        }
    }
}
