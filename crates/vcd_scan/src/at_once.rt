//! What is taken at once: a vector of digits 0 and 1 with the code behind it.

ghost use Rattle.std.specs.Prelude.{◌≡◌, ◌++◌, ◌∷◌, ℕ, None, true, false};
ghost use Rattle.vcd_grammar.specs.Tokens.{is_long};
ghost use Rattle.vcd_course.specs.Opening.{after_happenings, told_in};
ghost use Rattle.vcd_scan.specs.Wired.{wires_told};
ghost use Rattle.vcd_scan.specs.Erased.{erased};
ghost use Rattle.vcd_scan.specs.Told.{rules_in, state_told, open_in, events_told};
ghost use Rattle.vcd_scan.specs.Lined.{stamps_in};
ghost use Rattle.vcd_scan.specs.Direct.{GetsKnown, vector_tokens, known_in, happened_in};

use crate::digits::are_known;
use crate::machine::{Machine, Place, is_too_wide};
use crate::words::is_unreadable;

impl Machine {
    /// Whether the next token stands between values.
    #[inline(always)]
    pub(crate) fn is_between(&self) -> bool
        ensures { result ≡ true → self.now.spot ≡ Place.Values }
    {
        match self.spot {
            Place::Values => true,
            Place::Code(_) | Place::OtherCode(_) | Place::Remark(_, _) => false,
        }
    }

    /// A vector of digits 0 and 1 and the code behind it, where that was declared. Tells whether both
    /// were taken; where they were not, nothing has changed.
    #[inline(always)]
    pub(crate) fn vector_at_once(&mut self, word: &[u8], code: &[u8]) -> bool
        requires fault { self.old.fault ≡ None }
        requires short { is_long code.now ≡ false }
        ensures state { result ≡ true → (place behind : ℕ) → state_told self.new
            ≡ erased (known_in self.old (vector_tokens place word.now behind code.now)) }
        ensures opened { result ≡ true → (place behind : ℕ) → open_in self.new
            ≡ after_happenings (open_in self.old)
            (happened_in self.old (vector_tokens place word.now behind code.now)) }
        ensures told { result ≡ true → (place behind : ℕ) → events_told self.new.told.items
            ≡ events_told self.old.told.items ++ told_in (rules_in self.old) (open_in self.old)
            (happened_in self.old (vector_tokens place word.now behind code.now)) }
        ensures unchanged { result ≡ false → self.new ≡ self.old }
        ensures rules { rules_in self.new ≡ rules_in self.old }
        ensures wires { wires_told self.new.wires ≡ wires_told self.old.wires }
        ensures stamps { stamps_in self.new ≡ stamps_in self.old }
    {
        if !self.is_between() {
            return false;
        }
        match word {
            [] => false,
            [first, digits @ ..] => self.changed_at_once(word, *first, digits, code),
        }
    }

    /// A word between values, of which this is the first byte, and the code behind it.
    #[inline(always)]
    fn changed_at_once(&mut self, word: &[u8], first: u8, digits: &[u8], code: &[u8]) -> bool
        requires fault { self.old.fault ≡ None }
        requires values { self.old.spot ≡ Place.Values }
        requires short { is_long code.now ≡ false }
        requires word { word.now ≡ first ∷ digits.now }
        ensures state { result ≡ true → (place behind : ℕ) → state_told self.new
            ≡ erased (known_in self.old (vector_tokens place word.now behind code.now)) }
        ensures opened { result ≡ true → (place behind : ℕ) → open_in self.new
            ≡ after_happenings (open_in self.old)
            (happened_in self.old (vector_tokens place word.now behind code.now)) }
        ensures told { result ≡ true → (place behind : ℕ) → events_told self.new.told.items
            ≡ events_told self.old.told.items ++ told_in (rules_in self.old) (open_in self.old)
            (happened_in self.old (vector_tokens place word.now behind code.now)) }
        ensures unchanged { result ≡ false → self.new ≡ self.old }
        ensures rules { rules_in self.new ≡ rules_in self.old }
        ensures wires { wires_told self.new.wires ≡ wires_told self.old.wires }
        ensures stamps { stamps_in self.new ≡ stamps_in self.old }
    {
        if first != b'b' {
            return false;
        }
        self.digits_at_once(digits, code)
    }

    /// The digits of a vector and its code.
    #[inline(always)]
    fn digits_at_once(&mut self, digits: &[u8], code: &[u8]) -> bool
        requires values { self.old.spot ≡ Place.Values }
        ensures gets { result ≡ true → GetsKnown self.old self.new digits.now code.now }
        ensures unchanged { result ≡ false → self.new ≡ self.old }
        ensures state { state_told self.new ≡ state_told self.old }
        ensures told { self.new.told ≡ self.old.told }
        ensures rules { rules_in self.new ≡ rules_in self.old }
        ensures wires { wires_told self.new.wires ≡ wires_told self.old.wires }
        ensures stamps { stamps_in self.new ≡ stamps_in self.old }
    {
        if is_unreadable(digits) || !are_known(digits) {
            return false;
        }
        let Some(taps) = self.wires.taps(code) else {
            return false;
        };
        if is_too_wide(taps, digits) {
            return false;
        }
        self.course.gets(taps, digits);
        true
    }
}
